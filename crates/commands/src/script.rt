ghost use Rattle.std.specs.Prelude.{◌≡◌, [], ◌∷◌, ℕ, false, List, MatchOption, Ok, IfOk, IfErr, OnOk, filter, map};
ghost use Rattle.definitions.specs.Readings.{parts_at};
ghost use Rattle.store.specs.Standing.{GoesOn, IsUnchanged};
ghost use Rattle.commands.specs.Playing.{asks, asking, rows_left, IsRowAnswered, IsRowStopped, HasPlayed, HasStopped};
ghost use Rattle.commands.specs.Saying.{AreRowsSaid, IsRowSaid};
ghost use Rattle.commands.specs.Scripts.{CanMakeBook, IsMadeBy, IsScriptDone, IsScriptRun, IsScriptStopped, IsUnnamed};

use crate::clock::TimeSource;
use crate::files::read_lines;
use crate::line_stops::LineStop;
use crate::printing::Printer;
use crate::reasons::{tell_reason, tell_unready};
use crate::slips::slip_of;
use crate::tasks::{answer, no_line};
use crate::told::{CommandError, ExitStatus, usage};
use crate::verbosity::Verbosity;
use command_line::{BookAct, Place, Task, Words, line};
use folders::FileSystem;
use std::alloc::{AllocError, Global};
use std::io;
use store::{Fault, Keeper, Refusal, ReplayBook, Warehouse, Who};

// Tells why the book refused what a clerk's line says, where a line of the sheet is the reason.
fn tell_why<R: FileSystem + AllocGlobal, K: Keeper, E: io::Write>(
    rt: &R,
    book: &mut K,
    words: &Words<'_>,
    err: &mut E,
) -> Result<(), CommandError>
    ensures { IsUnchanged (K.standing book.old) (K.standing book.new) }
{
    let Words::Over {
        task: Task::Act {
            act: BookAct::Clerk(clerk),
            ..
        }
        | Task::Try {
            act: BookAct::Clerk(clerk),
            ..
        },
        ..
    } = words
    else {
        return Ok(());
    };
    match slip_of(rt, clerk) {
        Ok(slip) => tell_reason(rt.alloc(), book, &slip, err),
        Err(LineStop::Refused(_)) => Ok(()),
        Err(LineStop::Stopped(stop)) => Err(stop),
    }
}

// The words of a row: there is one between any two spaces. Want of memory is the one error.
fn words_of<'a>(alloc: Global, row: &'a str) -> Result<Vec<&'a str>, AllocError>
    ensures { IfOk result (λ words. map (λ w. w.now) words.items ≡ parts_at 32 row.now) }
{
    row.split(' ').collect(alloc)
}

// Does what a row of a script or a batch asks for, over the book. What can't be told of a refusal
// is left out: the refusal stands.
fn answer_row<
    R: FileSystem + TimeSource + AllocGlobal + Clone + Drop,
    K: Keeper,
    W: Printer,
    E: Printer,
>(
    rt: &R,
    book: &mut K,
    row: &str,
    verbosity: Verbosity,
    out: &mut W,
    err: &mut E,
) -> Result<ExitStatus, CommandError>
    ensures answered { IfOk result (λ status. IsRowAnswered (R.reads rt.now) K.standing book.old
        book.new row.now (W.contents out.old) (W.contents out.new) (Ok status)) }
    ensures stopped { IfErr result
        (λ stop. IsRowStopped (R.reads rt.now) K.standing W.contents book.old out.old row.now
        book.new out.new stop) }
    ensures said { verbosity.explains ≡ false → OnOk result (IsRowSaid (R.reads rt.now) K.standing
        (book.old, E.contents err.old) row.now (book.new, E.contents err.new)) }
    ensures goes { GoesOn (K.standing book.old) (K.standing book.new) }
{
    let words = words_of(rt.alloc(), row)?;
    let asked = line(rt.alloc(), Place::Script, &words)?;
    let status = answer(rt, book, &asked, verbosity, out, err)?;
    if verbosity.explains && status == ExitStatus::Refused {
        let _ = tell_why(rt, book, &asked, err);
    }
    Ok(status)
}

// Says what happened at a line of a script or a batch, counted from 0. Where that can't be said,
// the rest is told all the same.
fn tell_line<E: io::Write>(err: &mut E, what: &str, line: usize) {
    let number = line.saturating_add(1);
    let _ = write!(err, "{what} at line {number}\n");
}

// Says at which line something was refused, where that is asked for.
fn tell_refused_line<E: io::Write>(
    err: &mut E,
    status: ExitStatus,
    line: usize,
    verbosity: Verbosity,
)
    ensures quiet { verbosity.explains ≡ false → E.contents err.new ≡ E.contents err.old }
{
    if verbosity.explains && status == ExitStatus::Refused {
        tell_line(err, "refused", line);
    }
}

// Says at which line everything stopped, where that is wanted.
fn tell_stopped_line<E: io::Write>(err: &mut E, line: usize, is_wanted: bool) {
    if is_wanted {
        tell_line(err, "stopped", line);
    }
}

// The first row of a text, and what stands after its LF, if there is one.
fn first_row(text: &str) -> (&str, Option<&str>)
    ensures { parts_at 10 text.now ≡ result.0.now ∷ rows_left result.1 }
{
    match text.split_once('\n') {
        Some((row, rest)) => (row, Some(rest)),
        None => (text, None),
    }
}

// Does what the rows of a text ask for over a book, one after the other, each once; the first of
// them has this number, from 0 on. Where a row stops it, its number is told if that is wanted.
fn play_from<
    R: FileSystem + TimeSource + AllocGlobal + Clone + Drop,
    K: Keeper,
    W: Printer,
    E: Printer,
>(
    rt: &R,
    book: &mut K,
    text: Option<&str>,
    first: usize,
    tells_stop: bool,
    verbosity: Verbosity,
    out: &mut W,
    err: &mut E,
) -> Result<ExitStatus, CommandError>
    ensures played { IfOk result (λ status. HasPlayed (R.reads rt.now) K.standing W.contents
        (book.old, (out.old, ExitStatus.Done)) (filter asks (rows_left text.entry))
        (book.new, (out.new, status))) }
    ensures stopped { IfErr result (λ stop. HasStopped (R.reads rt.now) K.standing W.contents
        (book.old, (out.old, ExitStatus.Done)) (filter asks (rows_left text.entry)) book.new out.new
        stop) }
    ensures said { verbosity.explains ≡ false → OnOk result (AreRowsSaid (R.reads rt.now)
        K.standing (book.old, E.contents err.old) (filter asks (rows_left text.entry))
        (book.new, E.contents err.new)) }
    ensures goes { GoesOn (K.standing book.old) (K.standing book.new) }
{
    let mut status = ExitStatus::Done;
    let mut left = text;
    let mut number = first;
    while let Some(rest) = left {
        let (row, next) = first_row(rest);
        if !row.is_empty() {
            match answer_row(rt, book, row, verbosity, out, err) {
                Ok(ended) => {
                    tell_refused_line(err, ended, number, verbosity);
                    status = status.and(ended);
                }
                Err(stop) => {
                    tell_stopped_line(err, number, tells_stop);
                    return Err(stop);
                }
            }
        }
        left = next;
        number = number.saturating_add(1);
    }
    Ok(status)
}

/// Does what the lines of a text ask for over a book, one after the other, each once. A refusal
/// goes on; words that can't be read, and a fault, stop it, after the number of the line is told.
/// What was done by then stays done. Where it is asked for, the number of each line that is refused
/// is told too, with its cause before it.
pub fn play_over<
    R: FileSystem + TimeSource + AllocGlobal + Clone + Drop,
    K: Keeper,
    W: Printer,
    E: Printer,
>(
    rt: &R,
    book: &mut K,
    text: &str,
    verbosity: Verbosity,
    out: &mut W,
    err: &mut E,
) -> Result<ExitStatus, CommandError>
    ensures played { IfOk result (λ status. HasPlayed (R.reads rt.now) K.standing W.contents
        (book.old, (out.old, ExitStatus.Done)) (asking text.now) (book.new, (out.new, status))) }
    ensures stopped { IfErr result (λ stop. HasStopped (R.reads rt.now) K.standing W.contents
        (book.old, (out.old, ExitStatus.Done)) (asking text.now) book.new out.new stop) }
    ensures said { verbosity.explains ≡ false → OnOk result (AreRowsSaid (R.reads rt.now)
        K.standing (book.old, E.contents err.old) (asking text.now)
        (book.new, E.contents err.new)) }
    ensures goes { GoesOn (K.standing book.old) (K.standing book.new) }
{
    play_from(rt, book, Some(text), 0, true, verbosity, out, err)
}

// The book that the first row makes; None where its name is refused.
fn made<R: FileSystem + AllocGlobal, E: Printer>(
    rt: &R,
    row: &str,
    verbosity: Verbosity,
    err: &mut E,
) -> Result<Option<ReplayBook>, CommandError>
    ensures made { IfOk result (λ made. MatchOption made (IsUnnamed row.now)
        (IsMadeBy ⟦<ReplayBook as Keeper>⟧.standing row.now)) }
    ensures stopped { IfErr result (λ stop. CanMakeBook row.now → stop ≡ CommandError.Fault
        Fault.OutOfMemory) }
{
    let words = words_of(rt.alloc(), row)?;
    let Words::Over { task, .. } = line(rt.alloc(), Place::Script, &words)? else {
        return Err(usage(rt.alloc(), "the first line is init\n"));
    };
    let Task::Init { who } = task else {
        return Err(usage(rt.alloc(), "the first line is init\n"));
    };
    match Who::new(who.as_bytes()) {
        Some(who) => Ok(Some(ReplayBook::new(rt.alloc(), Warehouse::new(who)))),
        None => {
            tell_unready(rt, &task, Refusal::BadText, verbosity, err)?;
            Ok(None)
        }
    }
}

// The first row of a text that asks for something, after its number, from 0 on, and before what
// stands after its LF.
fn opening_row(text: &str) -> Option<(usize, &str, Option<&str>)>
    ensures { MatchOption result (asking text.now ≡ []) (λ found. asking text.now ≡ found.1.now
        ∷ filter asks (rows_left found.2)) }
{
    let mut left = Some(text);
    let mut number = 0_usize;
    while let Some(rest) = left {
        let (row, next) = first_row(rest);
        if !row.is_empty() {
            return Some((number, row, next));
        }
        left = next;
        number = number.saturating_add(1);
    }
    None
}

// Plays the lines of a script, the first of which makes the book. A refusal goes on, but of that
// line; anything else that isn't done stops it. The number of such a line is told where it is asked
// for.
fn play<R: FileSystem + TimeSource + AllocGlobal + Clone + Drop, W: Printer, E: Printer>(
    rt: &R,
    text: &str,
    verbosity: Verbosity,
    out: &mut W,
    err: &mut E,
) -> Result<ExitStatus, CommandError>
    ensures done { IfOk result (IsScriptDone (R.reads rt.now) ⟦<ReplayBook as Keeper>⟧.standing
        W.contents (asking text.now) out.old out.new) }
    ensures stopped { IfErr result (IsScriptStopped (R.reads rt.now)
        ⟦<ReplayBook as Keeper>⟧.standing W.contents (asking text.now) out.old out.new) }
{
    let Some((i, row, rest)) = opening_row(text) else {
        return Err(usage(rt.alloc(), "a script begins with init\n"));
    };
    match made(rt, row, verbosity, err) {
        Ok(Some(mut book)) => {
            let tells_stop = verbosity.explains;
            let first = i.saturating_add(1);
            play_from(rt, &mut book, rest, first, tells_stop, verbosity, out, err)
        }
        Ok(None) => {
            tell_refused_line(err, ExitStatus::Refused, i, verbosity);
            Ok(ExitStatus::Refused)
        }
        Err(stop) => {
            tell_stopped_line(err, i, verbosity.explains);
            Err(stop)
        }
    }
}

/// Runs the script in a file over a new book in memory. A script that can't be read as words is a
/// usage fault; what was printed before it, or before a fault, stays. Where it is asked for, the
/// number of each line that is refused or stops it is told.
pub fn run_script<R: FileSystem + TimeSource + AllocGlobal + Clone + Drop, W: Printer, E: Printer>(
    rt: &R,
    file: &str,
    verbosity: Verbosity,
    out: &mut W,
    err: &mut E,
) -> Result<ExitStatus, CommandError>
    ensures { IsScriptRun (R.reads rt.now) W.contents file.now out.old out.new result }
{
    let text = read_lines(rt, file)?;
    play(rt, &text, verbosity, out, err)
}
