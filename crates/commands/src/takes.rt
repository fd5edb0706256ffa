ghost use Rattle.std.specs.Prelude.{◌≡◌, ◌∷◌, ◌⊎◌, [], if◌then◌else◌, map, flat_map, IfOk, IfErr, OnErr, OnOk};
ghost use Rattle.std.specs.Io.KnownBytes.{Appends};
ghost use Rattle.std.specs.List.{list_any};
ghost use Rattle.folders.specs.Folders.{became_of};
ghost use Rattle.folders.specs.Handed.{IsHanded, IsText};
ghost use Rattle.folders.specs.Lines.{passed_line};
ghost use Rattle.folders.specs.Paths.{file_path};
ghost use Rattle.store.specs.Standing.{GoesOn};
ghost use Rattle.commands.specs.Failures.{HasFailedCall, IsDeviceBy, WasEitherRefused, WasRefused};
ghost use Rattle.commands.specs.Printing.{AppendsFront};
ghost use Rattle.commands.specs.Stops.{IsDeviceStop};
ghost use Rattle.commands.specs.TakenFiles.{AreListedTaken, AreListedUntold, IsStoppedAmong, IsUnbegun};
ghost use Rattle.commands.specs.Takes as meant;

use crate::causes::about_stop;
use crate::printing::{Printer, print};
use crate::told::{CommandError, ExitStatus};
use crate::verbosity::Verbosity;
use folders::FileSystem;
use intake::{FileOutcome, PassedOver, Taken, WhyPassed, take_folder_telling};
use std::io;
use store::{Fault, Keeper, Moment};

// The status of a file that was taken.
fn status_of(outcome: FileOutcome) -> ExitStatus
    ensures { result ≡ meant.status_of_files (became_of outcome ∷ []) }
{
    match outcome {
        FileOutcome::Refused(_) => ExitStatus::Refused,
        _ => ExitStatus::Done,
    }
}

/// More bytes than the line of a file has, whose name has at most 255 bytes, each told by four at
/// most: room for a line is made before files are taken, so that telling what became of them wants
/// no memory.
pub(crate) const MOST_LINE: usize = 1_100;

// Prints what became of a file.
fn tell_file<W: Printer>(out: &mut W, file: &Taken, room: &mut Vec<u8>) -> Result<(), CommandError>
    ensures printed { OnOk result
        (Appends (W.contents out.old) (W.contents out.new) (meant.line_in file.now)) }
    ensures front { OnErr result
        (AppendsFront (W.contents out.old) (W.contents out.new) (meant.line_in file.now)) }
    ensures halted { IfErr result IsDeviceStop }
    ensures quiet { OnOk result (W.failures out.new ≡ W.failures out.old) }
    ensures caused { IfErr result (IsDeviceBy
        (WasRefused (W.failures out.old) (W.failures out.new))) }
{
    room.clear();
    // A vector refuses bytes for want of memory alone.
    if file.write_line(room).is_err() {
        return Err(CommandError::Fault(Fault::OutOfMemory));
    }
    print(out, room)?;
    Ok(())
}

/// Prints what became of files. Each line is made in `room` first, of which little is wanted.
pub(crate) fn tell_taken<W: Printer>(
    out: &mut W,
    files: &[Taken],
    room: &mut Vec<u8>,
) -> Result<ExitStatus, CommandError>
    ensures status { IfOk result
        (λ status. status ≡ meant.status_of_files (map meant.became_in files.now)) }
    ensures printed { OnOk result
        (Appends (W.contents out.old) (W.contents out.new) (flat_map meant.line_in files.now)) }
    ensures front { OnErr result
        (AppendsFront (W.contents out.old) (W.contents out.new) (flat_map meant.line_in
        files.now)) }
    ensures halted { IfErr result IsDeviceStop }
    ensures quiet { OnOk result (W.failures out.new ≡ W.failures out.old) }
    ensures caused { IfErr result (IsDeviceBy
        (WasRefused (W.failures out.old) (W.failures out.new))) }
{
    let mut status = ExitStatus::Done;
    for file in files {
        tell_file(out, file, room)?;
        status = status.and(status_of(file.outcome));
    }
    Ok(status)
}

// Whether it is an interchange that can't be answered, since its name is too long.
fn is_left(entry: &PassedOver) -> bool
    ensures { result ≡ meant.is_left entry.now }
{
    matches!(entry.why, WhyPassed::LongName)
}

/// Whether one of them is an interchange that can't be answered.
pub(crate) fn leaves_any(passed: &[PassedOver]) -> bool
    ensures { result ≡ list_any meant.is_left passed.now }
{
    passed.iter().any(|entry| is_left(entry))
}

// The status of files that were taken, and of those that were passed over.
fn with_passed(status: ExitStatus, passed: &[PassedOver]) -> ExitStatus
    ensures { result ≡ (if list_any meant.is_left passed.now then ExitStatus.Refused else status) }
{
    if leaves_any(passed) {
        ExitStatus::Refused
    } else {
        status
    }
}

// Tells an entry that was passed over, and why. The line is made in `room` first, of which little
// is wanted.
fn tell_entry<E: io::Write>(err: &mut E, entry: &PassedOver, room: &mut Vec<u8>) -> io::Result<()>
    ensures { OnOk result
        (Appends (E.contents err.old) (E.contents err.new) (passed_line entry.now)) }
{
    room.clear();
    entry.write_line(room)?;
    err.write_all(room)
}

/// Tells what was passed over, and why: all that may be meant as an interchange, where that is
/// asked for, and else what can't be taken because of its name.
pub(crate) fn tell_passed<E: io::Write>(
    err: &mut E,
    passed: &[PassedOver],
    is_all: bool,
    room: &mut Vec<u8>,
) -> io::Result<()> {
    for entry in passed {
        if is_all || !matches!(entry.why, WhyPassed::NoFile) {
            tell_entry(err, entry, room)?;
        }
    }
    Ok(())
}

/// Submits each interchange of a folder, whose answers are written beside them, and prints what
/// became of each: `a.x12 accepted`, `a.x12 stored`, `a.x12 refused 025` or `a.x12 unreadable`. At
/// a fault nothing is printed, and the fault is told with the file at which it stopped. What can't
/// be taken because of its name is told on standard error, and where it is asked for all that is
/// passed over, and how far the taking is. The status is 1 where a file was refused, or passed over
/// because its name is too long.
pub fn take<R: FileSystem + AllocGlobal + Clone + Drop, K: Keeper, W: Printer, E: Printer>(
    rt: &R,
    book: &mut K,
    dir: &str,
    moment: Moment,
    verbosity: Verbosity,
    out: &mut W,
    err: &mut E,
) -> Result<ExitStatus, CommandError>
    ensures taken { IfOk result (meant.IsFolderTaken (K.standing book.old) (K.standing book.new)
        moment (W.contents out.old) (W.contents out.new)) }
    ensures halted { IfErr result (meant.IsFolderHalted (K.standing book.old) (K.standing book.new)
        moment (W.contents out.old) (W.contents out.new)) }

    ensures listed { OnOk result (AreListedTaken (R.lists rt.now dir.now) (IsHanded
        (R.reads rt.now) (R.writes rt.now) (R.lacks rt.now) dir.now) (K.standing book.old)
        (K.standing book.new) moment (W.contents out.old) (W.contents out.new)) }
    ensures until { IfErr result (λ stop. IsStoppedAmong (R.lists rt.now dir.now) (IsHanded
        (R.reads rt.now) (R.writes rt.now) (R.lacks rt.now) dir.now)
        (λ name. IsText (R.reads rt.now) (file_path dir.now name))
        (K.standing book.old) (K.standing book.new) moment stop
        ⊎ (AreListedUntold (R.lists rt.now dir.now) (IsHanded
        (R.reads rt.now) (R.writes rt.now) (R.lacks rt.now) dir.now) (K.standing book.old)
        (K.standing book.new) moment (W.contents out.old) (W.contents out.new) stop
        ⊎ IsUnbegun (K.standing book.old) (K.standing book.new) stop)) }

    ensures caused { IfErr result (IsDeviceBy (WasEitherRefused (W.failures out.old)
        (W.failures out.new) (E.failures err.old) (E.failures err.new)
        ⊎ HasFailedCall (R.fails rt.now))) }
    ensures goes { GoesOn (K.standing book.old) (K.standing book.new) }
{
    let mut room = Vec::with_capacity(rt.alloc(), MOST_LINE)?;
    let taken = take_folder_telling(rt, dir, book, moment, |done, all| {
        verbosity.tell_progress(err, done, all, "files");
    });
    match taken {
        Ok(folder) => {
            let status = tell_taken(out, &folder.files, &mut room)?;
            // What can't be told is left out: what became of the files is told.
            let _ = tell_passed(err, &folder.passed, verbosity.explains, &mut room);
            Ok(with_passed(status, &folder.passed))
        }
        Err(stop) => {
            if stop.taken > 0 {
                verbosity.end_progress(err);
            }
            Err(about_stop(rt.alloc(), dir, &stop))
        }
    }
}
