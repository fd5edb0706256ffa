//! What a book would answer to a change now: it is told, and nothing is done.
ghost use Rattle.std.specs.Prelude.{◌≡◌, true, IfErr, OnOk, OnErr};
ghost use Rattle.std.specs.Io.KnownBytes.{Appends};
ghost use Rattle.definitions.specs.Rules.{Today};
ghost use Rattle.definitions.specs.Accepted.{is_command};
ghost use Rattle.definitions.specs.Register.{Enrol as Enrolment};
ghost use Rattle.store.specs.Asked.{asked};
ghost use Rattle.store.specs.Standing.{IsUnchanged};
ghost use Rattle.commands.specs.Failures.{IsDeviceBy, WasRefused};
ghost use Rattle.commands.specs.Stops.{IsDeviceStop};
ghost use Rattle.commands.specs.Trying.{IsTried, IsTriedOf, IsTrialSaid, IsTrialSaidOf, tried_line};

use crate::acts::{Ready, tell_reply};
use crate::printing::{Printer, print};
use crate::slips::clerk;
use crate::told::{CommandError, ExitStatus, usage};
use std::alloc::Global;
use store::{Command, Keeper, Moment, Who, try_out};

/// Tells that nothing was done, on standard error: `tried`.
pub fn tell_tried<E: Printer>(err: &mut E) -> Result<(), CommandError>
    ensures said { OnOk result (Appends (E.contents err.old) (E.contents err.new) tried_line) }
    ensures halted { IfErr result IsDeviceStop }
    ensures caused { IfErr result (IsDeviceBy
        (WasRefused (E.failures err.old) (E.failures err.new))) }
{
    Ok(print(err, b"tried\n")?)
}

// Prints what a command would be answered now, and tells that nothing was done.
#[tactic(auto, using(crate::proofs::TellingLaws::appends_nothing))]
fn try_command<K: Keeper, W: Printer, E: Printer>(
    alloc: Global,
    book: &mut K,
    command: &Command<'_>,
    moment: Moment,
    out: &mut W,
    err: &mut E,
) -> Result<ExitStatus, CommandError>
    ensures tried { IsTried (K.standing book.old) (K.standing book.new) (asked command.now) moment
        (W.contents out.old) (W.contents out.new) result }
    ensures said { IsTrialSaid (K.standing book.old) (K.standing book.new) (asked command.now)
        moment (E.contents err.old) (E.contents err.new) result }
{
    let reply = try_out(alloc, book, command, moment)?;
    let status = tell_reply(alloc, &reply, out, err)?;
    tell_tried(err)?;
    Ok(status)
}

// The same of an enrolment.
fn try_enrolment<K: Keeper, W: Printer, E: Printer>(
    alloc: Global,
    book: &mut K,
    who: Who,
    moment: Moment,
    out: &mut W,
    err: &mut E,
) -> Result<ExitStatus, CommandError>
    ensures tried { IsTried (K.standing book.old) (K.standing book.new) (Enrolment who) moment
        (W.contents out.old) (W.contents out.new) result }
    ensures said { IsTrialSaid (K.standing book.old) (K.standing book.new) (Enrolment who) moment
        (E.contents err.old) (E.contents err.new) result }
{
    try_command(alloc, book, &Command::Enrol(who), moment, out, err)
}

/// Prints what one command that was made ready would be answered now, as if it had been given, and
/// tells `tried` on standard error after what it tells of a refusal. The book is as it was,
/// whatever is answered. A list and a folder are many commands, and are a usage fault.
pub fn try_ready<K: Keeper, W: Printer, E: Printer>(
    alloc: Global,
    book: &mut K,
    ready: &Ready<'_>,
    moment: Moment,
    out: &mut W,
    err: &mut E,
) -> Result<ExitStatus, CommandError>
    ensures same { IsUnchanged (K.standing book.old) (K.standing book.new) }
    ensures tried { IsTriedOf (K.standing book.old) (K.standing book.new) ready.now moment
        (W.contents out.old) (W.contents out.new) result }
    ensures said { IsTrialSaidOf (K.standing book.old) (K.standing book.new) ready.now moment
        (E.contents err.old) (E.contents err.new) result }
{
    match ready {
        Ready::Enrol(who) => try_enrolment(alloc, book, *who, moment, out, err),
        Ready::Send(bytes) => {
            try_command(alloc, book, &Command::Interchange(bytes), moment, out, err)
        }
        Ready::Clerk(slip) => try_command(alloc, book, &clerk(slip), moment, out, err),
        Ready::Roster(_) | Ready::Take(_) | Ready::TakeInto(_) => {
            Err(usage(alloc, "--try stands with one command\n"))
        }
    }
}
