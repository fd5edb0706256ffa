//! A folder that is taken into another: what was taken is moved there, with its answers.
ghost use Rattle.std.specs.Prelude.{◌≡◌, ◌⊎◌, if◌then◌else◌, IfErr, IfOk, OnOk};
ghost use Rattle.folders.specs.Handed.{IsHanded, IsText};
ghost use Rattle.folders.specs.Naming.{taking_path};
ghost use Rattle.folders.specs.Paths.{file_path};
ghost use Rattle.store.specs.Standing.{GoesOn};
ghost use Rattle.commands.specs.Failures.{HasFailedCall, IsDeviceBy, WasEitherRefused};
ghost use Rattle.commands.specs.TakenFiles.{AreListedTaken, AreListedUntold, IsStoppedMoving, IsUnbegun};
ghost use Rattle.commands.specs.TakesInto as meant;

use crate::causes::about_into_stop;
use crate::printing::Printer;
use crate::takes::{MOST_LINE, leaves_any, tell_passed, tell_taken};
use crate::told::{CommandError, ExitStatus};
use crate::verbosity::Verbosity;
use folders::{Done, FileSystem, RunFolder, Staying, TakenInto, take_into};
use std::alloc::{AllocError, Global};
use std::io;
use store::{Keeper, Moment};

/// A folder with interchanges, and the one below which what was taken of it is moved.
#[derive(Clone, Copy)]
pub struct Inbox<'a> {
    /// The name of the folder.
    pub dir: &'a str,
    /// The name of the other.
    pub done: &'a str,
}

// The name of a run at a moment, as `2026-11-30T0215`.
fn run_of(alloc: Global, moment: Moment) -> Result<String, AllocError> {
    let (year, month, day) = (moment.year(), moment.month(), moment.day());
    let (hour, minute) = (moment.hour(), moment.minute());
    match format!(in alloc; "{year}-{month:02}-{day:02}T{hour:02}{minute:02}") {
        Ok(name) => Ok(name),
        Err(_) => Err(AllocError),
    }
}

// Tells what stays where it was, and why.
fn tell_stays<E: io::Write>(err: &mut E, stays: &[Staying], room: &mut Vec<u8>) -> io::Result<()> {
    for staying in stays {
        room.clear();
        staying.write_line(room)?;
        err.write_all(room)?;
    }
    Ok(())
}

// Tells where what was taken is now: where it couldn't get its name, and where that is asked for.
fn tell_folder<E: io::Write>(
    err: &mut E,
    done: &str,
    folder: &RunFolder,
    verbosity: Verbosity,
) -> io::Result<()> {
    match folder {
        RunFolder::Named(name) if verbosity.explains => {
            err.write_all(b"moved to ")?;
            err.write_all(done.as_bytes())?;
            write!(err, "/{name}\n")
        }
        RunFolder::Unnamed => {
            err.write_all(done.as_bytes())?;
            err.write_all(b"/taking keeps its name: those of this minute are used up\n")
        }
        _ => Ok(()),
    }
}

// Tells on standard error what was passed over, what stays, and where the rest is. What can't be
// told is left out: what became of the files is told.
fn tell_rest<E: io::Write>(
    err: &mut E,
    done: &str,
    into: &TakenInto,
    verbosity: Verbosity,
    room: &mut Vec<u8>,
) {
    let _ = tell_passed(err, &into.passed, verbosity.explains, room);
    let _ = tell_passed(err, &into.taken.passed, verbosity.explains, room);
    let _ = tell_stays(err, &into.stays, room);
    let _ = tell_folder(err, done, &into.folder, verbosity);
}

// Whether something isn't where it belongs.
fn is_held(into: &TakenInto) -> bool
    ensures { result ≡ meant.is_held into.now }
{
    !into.stays.is_empty()
        || leaves_any(&into.passed)
        || leaves_any(&into.taken.passed)
        || matches!(into.folder, RunFolder::Unnamed)
}

// The status of what was taken, with what isn't where it belongs.
fn with_held(status: ExitStatus, into: &TakenInto) -> ExitStatus
    ensures { result ≡ (if meant.is_held into.now then ExitStatus.Refused else status) }
{
    if is_held(into) {
        ExitStatus::Refused
    } else {
        status
    }
}

/// Moves each interchange of a folder to another one, submits them there, with what an earlier run
/// left there, writes their answers beside them, gives that folder the name of the run, and prints
/// what became of each, as `take` does. What stays is told on standard error, and the status is 1
/// then. At a fault nothing is printed; what was moved stays in the folder `taking` of the other,
/// and the next run takes it.
pub fn take_away<R: FileSystem + AllocGlobal + Clone + Drop, K: Keeper, W: Printer, E: Printer>(
    rt: &R,
    book: &mut K,
    inbox: &Inbox<'_>,
    moment: Moment,
    verbosity: Verbosity,
    out: &mut W,
    err: &mut E,
) -> Result<ExitStatus, CommandError>
    ensures taken { IfOk result (meant.IsInboxTaken (K.standing book.old) (K.standing book.new)
        moment (W.contents out.old) (W.contents out.new)) }
    ensures halted { IfErr result (meant.IsInboxHalted (K.standing book.old) (K.standing book.new)
        moment (W.contents out.old) (W.contents out.new)) }

    // The folder DONE/taking, as `take` says of its own.
    ensures listed { OnOk result (AreListedTaken
        (R.lists rt.now (taking_path inbox.now.done.now)) (IsHanded (R.reads rt.now)
        (R.writes rt.now) (R.lacks rt.now) (taking_path inbox.now.done.now)) (K.standing book.old)
        (K.standing book.new) moment (W.contents out.old) (W.contents out.new)) }
    ensures until { IfErr result (λ stop. IsStoppedMoving
        (R.lists rt.now (taking_path inbox.now.done.now)) (IsHanded (R.reads rt.now)
        (R.writes rt.now) (R.lacks rt.now) (taking_path inbox.now.done.now))
        (λ name. IsText (R.reads rt.now) (file_path (taking_path inbox.now.done.now) name))
        (K.standing book.old) (K.standing book.new) moment stop
        ⊎ (AreListedUntold (R.lists rt.now (taking_path inbox.now.done.now)) (IsHanded
        (R.reads rt.now) (R.writes rt.now) (R.lacks rt.now) (taking_path inbox.now.done.now))
        (K.standing book.old) (K.standing book.new) moment (W.contents out.old)
        (W.contents out.new) stop ⊎ IsUnbegun (K.standing book.old) (K.standing book.new) stop)) }

    ensures caused { IfErr result (IsDeviceBy (WasEitherRefused (W.failures out.old)
        (W.failures out.new) (E.failures err.old) (E.failures err.new)
        ⊎ HasFailedCall (R.fails rt.now))) }
    ensures goes { GoesOn (K.standing book.old) (K.standing book.new) }
{
    let mut room = Vec::with_capacity(rt.alloc(), MOST_LINE)?;
    let run = run_of(rt.alloc(), moment)?;
    let done = Done {
        dir: inbox.done,
        run: run.as_str(),
    };
    let taken = take_into(rt, inbox.dir, &done, book, moment, |count, all| {
        verbosity.tell_progress(err, count, all, "files");
    });
    match taken {
        Ok(into) => {
            let status = tell_taken(out, &into.taken.files, &mut room)?;
            tell_rest(err, inbox.done, &into, verbosity, &mut room);
            Ok(with_held(status, &into))
        }
        Err(stop) => {
            if stop.stop.taken > 0 {
                verbosity.end_progress(err);
            }
            Err(about_into_stop(rt.alloc(), inbox.dir, inbox.done, &stop))
        }
    }
}
