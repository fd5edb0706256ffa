//! What a line of a script or a batch asks for, done over a book.
ghost use Rattle.std.specs.Prelude.{◌≡◌, false, OnOk};
ghost use Rattle.store.specs.Standing.{GoesOn};
ghost use Rattle.commands.specs.Looking.{IsLineDone, IsView};
ghost use Rattle.commands.specs.Readying.{IsChange, IsTrial};
ghost use Rattle.commands.specs.Saying.{IsLineSaid, IsTaskSaid};

use crate::acts::{perform, ready_at};
use crate::clock::TimeSource;
use crate::line_stops::LineStop;
use crate::printing::Printer;
use crate::reasons::tell_unready;
use crate::shows::{ask, show};
use crate::told::{CommandError, ExitStatus, usage};
use crate::tries::try_ready;
use crate::verbosity::Verbosity;
use command_line::{BookAct, Show, Task, Words};
use folders::FileSystem;
use std::alloc::Global;
use store::{Keeper, Moment};

// Changes the book as a line says.
fn change<
    R: FileSystem + TimeSource + AllocGlobal + Clone + Drop,
    K: Keeper,
    W: Printer,
    E: Printer,
>(
    rt: &R,
    book: &mut K,
    task: &Task<'_>,
    act: &BookAct<'_>,
    at: Option<Moment>,
    verbosity: Verbosity,
    out: &mut W,
    err: &mut E,
) -> Result<ExitStatus, CommandError>
    ensures changed { IsChange (R.reads rt.now) (K.standing book.old) (K.standing book.new)
        act.now at (W.contents out.old) (W.contents out.new) result }
    ensures said { verbosity.explains ≡ false → OnOk result (IsTaskSaid (R.reads rt.now)
        (K.standing book.old) (K.standing book.new) (E.contents err.old) (E.contents err.new)
        result (Task.Act act.now at)) }
    ensures goes { GoesOn (K.standing book.old) (K.standing book.new) }
{
    match ready_at(rt, act, at) {
        Ok(made) => perform(rt, book, &made.0, made.1, verbosity, out, err),
        Err(LineStop::Refused(refusal)) => tell_unready(rt, task, refusal, verbosity, err),
        Err(LineStop::Stopped(stop)) => Err(stop),
    }
}

// Tells what a change would be answered that a line asks for.
fn try_out_line<
    R: FileSystem + TimeSource + AllocGlobal + Clone + Drop,
    K: Keeper,
    W: Printer,
    E: Printer,
>(
    rt: &R,
    book: &mut K,
    task: &Task<'_>,
    act: &BookAct<'_>,
    at: Option<Moment>,
    verbosity: Verbosity,
    out: &mut W,
    err: &mut E,
) -> Result<ExitStatus, CommandError>
    ensures tried { IsTrial (R.reads rt.now) (K.standing book.old) (K.standing book.new) act.now at
        (W.contents out.old) (W.contents out.new) result }
    ensures said { verbosity.explains ≡ false → OnOk result (IsTaskSaid (R.reads rt.now)
        (K.standing book.old) (K.standing book.new) (E.contents err.old) (E.contents err.new)
        result (Task.Try act.now at)) }
    ensures goes { GoesOn (K.standing book.old) (K.standing book.new) }
{
    match ready_at(rt, act, at) {
        Ok(made) => try_ready(rt.alloc(), book, &made.0, made.1, out, err),
        Err(LineStop::Refused(refusal)) => tell_unready(rt, task, refusal, verbosity, err),
        Err(LineStop::Stopped(stop)) => Err(stop),
    }
}

// Shows of the book what a line asks for.
fn look<R: FileSystem + AllocGlobal, K: Keeper, W: Printer, E: Printer>(
    rt: &R,
    book: &mut K,
    task: &Task<'_>,
    what: &Show<'_>,
    verbosity: Verbosity,
    out: &mut W,
    err: &mut E,
) -> Result<ExitStatus, CommandError>
    ensures viewed { IsView (K.standing book.old) (K.standing book.new) what.now
        (W.contents out.old) (W.contents out.new) result }
    ensures said { verbosity.explains ≡ false → OnOk result (IsTaskSaid (R.reads rt.now)
        (K.standing book.old) (K.standing book.new) (E.contents err.old) (E.contents err.new)
        result (Task.Show what.now)) }
    ensures goes { GoesOn (K.standing book.old) (K.standing book.new) }
{
    match ask(what) {
        Ok(asked) => show(rt.alloc(), book, &asked, out, err),
        Err(refusal) => tell_unready(rt, task, refusal, verbosity, err),
    }
}

/// Does what a line of a script or a batch asks for, over the book.
pub(crate) fn answer<
    R: FileSystem + TimeSource + AllocGlobal + Clone + Drop,
    K: Keeper,
    W: Printer,
    E: Printer,
>(
    rt: &R,
    book: &mut K,
    words: &Words<'_>,
    verbosity: Verbosity,
    out: &mut W,
    err: &mut E,
) -> Result<ExitStatus, CommandError>
    ensures answered { IsLineDone (R.reads rt.now) (K.standing book.old) (K.standing book.new)
        words.now (W.contents out.old) (W.contents out.new) result }
    ensures said { verbosity.explains ≡ false → IsLineSaid (R.reads rt.now)
        (K.standing book.old) (K.standing book.new) (E.contents err.old) (E.contents err.new)
        result words.now }
    ensures goes { GoesOn (K.standing book.old) (K.standing book.new) }
{
    let Words::Over { task, .. } = words else {
        return Err(no_line(rt.alloc()));
    };
    match task {
        Task::Act { act, at } => change(rt, book, task, act, *at, verbosity, out, err),
        Task::Try { act, at } => try_out_line(rt, book, task, act, *at, verbosity, out, err),
        Task::Show(what) => look(rt, book, task, what, verbosity, out, err),
        Task::HandOn { .. } => Err(usage(
            rt.alloc(),
            "--into stands in no line of a script or a batch\n",
        )),
        _ => Err(no_line(rt.alloc())),
    }
}

/// What a line is that a book that is there can't do.
pub(crate) fn no_line(alloc: Global) -> CommandError {
    usage(alloc, "init makes a book, and here is one\n")
}
