ghost use Rattle.std.specs.Prelude.{◌≡◌, ◌⊎◌, true, IfOk, IfErr, IfNone, IfSome, OnErr, OnOk};
ghost use Rattle.std.specs.Io.KnownBytes.{Appends};
ghost use Rattle.definitions.specs.Rules.{Today};
ghost use Rattle.definitions.specs.Accepted.{is_command};
ghost use Rattle.definitions.specs.Register.{Enrol as Enrolment};
ghost use Rattle.store.specs.Asked.{asked};
ghost use Rattle.store.specs.Runs.{told};
ghost use Rattle.store.specs.Standing.{GoesOn};
ghost use Rattle.commands.specs.Acting.{IsHandedIn, IsPerformed, IsSaid, IsSaidOf};
ghost use Rattle.commands.specs.Clock.{IsMinuteOf};
ghost use Rattle.commands.specs.Failures.{HasFailedCall, IsDeviceBy, WasEitherRefused};
ghost use Rattle.commands.specs.LineStops.{IfLineRefused, IfLineStopped};
ghost use Rattle.commands.specs.Printing.{AppendsFront};
ghost use Rattle.commands.specs.Readying.{IsMadeReady, IsUnready};
ghost use Rattle.commands.specs.Stops.{HasDeviceFault, IsDeviceStop, IsUsageStop};
ghost use Rattle.commands.specs.Telling.{IsPrinted, printed_of, said_of};

use crate::causes::about_file;
use crate::clock::{TimeSource, moment_for};
use crate::enrolments::{enrol_all, read_roster};
use crate::line_stops::LineStop;
use crate::printing::Printer;
use crate::slips::{Slip, clerk, slip_of};
use crate::takes::take;
use crate::takes_into::{Inbox, take_away};
use crate::told::{CommandError, ExitStatus, tell_refusal, tell_text};
use crate::verbosity::Verbosity;
use command_line::BookAct;
use folders::FileSystem;
use intake::read_interchange;
use std::alloc::Global;
use std::io;
use store::{Command, Keeper, Moment, Refusal, Reply, Who, submit};

/// What is to be done to a book, its words tested and its files read, so that only the book and the
/// devices can keep it from being done.
#[derive(Drop)]
pub enum Ready<'a> {
    /// Enrol a depositor.
    Enrol(Who),
    /// Enrol the depositors of a list.
    Roster(Vec<Who>),
    /// Submit an interchange.
    Send(Vec<u8>),
    /// Submit each interchange of the folder with this name.
    Take(&'a str),
    /// Submit each interchange of a folder, and move what was taken below another.
    TakeInto(Inbox<'a>),
    /// Submit what a clerk did.
    Clerk(Slip<'a>),
}

// What a line says is to be done, made ready: its words are tested from left to right, then its
// file is read, then a sheet or a list is tested. Refused are 32, a word or a list that can't be
// read, also one that is too long, and what keeps a sheet from being one (30 to 33, of one that is
// too long 32); a file that can't be read is Device (44).
fn make_ready<'a, R: FileSystem + AllocGlobal>(
    rt: &R,
    act: &BookAct<'a>,
) -> Result<Ready<'a>, LineStop>
    ensures ready { IfOk result (IsMadeReady (R.reads rt.now) act.now) }
    ensures unready { IfErr result (IfLineRefused (IsUnready (R.reads rt.now) act.now)) }
    ensures unread { IfErr result (IfLineStopped HasDeviceFault) }
{
    match act {
        BookAct::Enrol { who } => match Who::new(who.as_bytes()) {
            Some(who) => Ok(Ready::Enrol(who)),
            None => Err(LineStop::Refused(Refusal::BadText)),
        },
        BookAct::Roster { file } => match read_roster(rt, file)? {
            Some(partners) => Ok(Ready::Roster(partners)),
            None => Err(LineStop::Refused(Refusal::BadText)),
        },
        BookAct::Send { file } => match read_interchange(rt, *file) {
            Ok(bytes) => Ok(Ready::Send(bytes)),
            Err(error) => Err(LineStop::Stopped(about_file(rt.alloc(), *file, &error))),
        },
        BookAct::Take { dir, done: None } => Ok(Ready::Take(*dir)),
        BookAct::Take {
            dir,
            done: Some(done),
        } => Ok(Ready::TakeInto(Inbox {
            dir: *dir,
            done: *done,
        })),
        BookAct::Clerk(words) => Ok(Ready::Clerk(slip_of(rt, words)?)),
    }
}

/// What a line says is to be done, made ready, and its moment: the one that the line says, or the
/// clock's. A clock that can't be used is told before anything is read.
pub fn ready_at<'a, R: FileSystem + TimeSource + AllocGlobal>(
    rt: &R,
    act: &BookAct<'a>,
    at: Option<Moment>,
) -> Result<(Ready<'a>, Moment), LineStop>
    ensures ready { IfOk result (λ made. IsMadeReady (R.reads rt.now) act.now made.0) }
    ensures unready { IfErr result (IfLineRefused (IsUnready (R.reads rt.now) act.now)) }
    ensures moment { IfOk result (λ made. IfSome at (λ t. made.1 ≡ t)) }
    ensures shown { IfNone at (IfOk result (λ made. IsMinuteOf (R.shows rt.now) made.1)) }
    ensures unread { IfErr result
        (IfLineStopped (λ stop. HasDeviceFault stop ⊎ IsUsageStop stop)) }
{
    let moment = moment_for(rt, at)?;
    let ready = make_ready(rt, act)?;
    Ok((ready, moment))
}

/// Prints the text of a reply, and tells a refusal.
#[tactic(auto, using(crate::proofs::TellingLaws::all_begun, crate::proofs::TellingLaws::appends_nothing))]
pub(crate) fn tell_reply<W: Printer, E: Printer>(
    alloc: Global,
    reply: &Reply,
    out: &mut W,
    err: &mut E,
) -> Result<ExitStatus, CommandError>
    ensures printed { IfOk result
        (λ status. IsPrinted (told reply.now) (W.contents out.old) (W.contents out.new) status) }
    ensures front { OnErr result
        (AppendsFront (W.contents out.old) (W.contents out.new) (printed_of (told reply.now))) }
    ensures said { OnOk result
        (Appends (E.contents err.old) (E.contents err.new) (said_of (told reply.now))) }
    ensures halted { IfErr result IsDeviceStop }
    ensures caused { IfErr result (IsDeviceBy (WasEitherRefused (W.failures out.old)
        (W.failures out.new) (E.failures err.old) (E.failures err.new))) }
{
    match reply {
        Reply::Accepted(text) => tell_text(out, text)?,
        Reply::Stored(text) => tell_text(out, text)?,
        Reply::Refused { refusal, answer } => {
            tell_text(out, answer)?;
            return tell_refusal(alloc, err, *refusal);
        }
    }
    Ok(ExitStatus::Done)
}

// Submits a command, prints the text of its reply, a refused one's too, and tells a refusal.
#[tactic(auto, using(crate::proofs::TellingLaws::appends_nothing))]
fn hand_in<K: Keeper, W: Printer, E: Printer>(
    alloc: Global,
    book: &mut K,
    command: &Command<'_>,
    moment: Moment,
    out: &mut W,
    err: &mut E,
) -> Result<ExitStatus, CommandError>
    requires { is_command Today (asked command.now) ≡ true }

    ensures answered { IsHandedIn (K.standing book.old) (K.standing book.new) (asked command.now)
        moment (W.contents out.old) (W.contents out.new) result }
    ensures said { IsSaid (K.standing book.old) (K.standing book.new) (asked command.now) moment
        (E.contents err.old) (E.contents err.new) result }
    ensures caused { IfErr result (IsDeviceBy (WasEitherRefused (W.failures out.old)
        (W.failures out.new) (E.failures err.old) (E.failures err.new))) }
    ensures goes { GoesOn (K.standing book.old) (K.standing book.new) }
{
    let reply = submit(alloc, book, command, moment)?;
    tell_reply(alloc, &reply, out, err)
}

// Enrols a depositor.
fn enrol<K: Keeper, W: Printer, E: Printer>(
    alloc: Global,
    book: &mut K,
    who: Who,
    moment: Moment,
    out: &mut W,
    err: &mut E,
) -> Result<ExitStatus, CommandError>
    ensures answered { IsHandedIn (K.standing book.old) (K.standing book.new) (Enrolment who) moment
        (W.contents out.old) (W.contents out.new) result }
    ensures said { IsSaid (K.standing book.old) (K.standing book.new) (Enrolment who) moment
        (E.contents err.old) (E.contents err.new) result }
    ensures caused { IfErr result (IsDeviceBy (WasEitherRefused (W.failures out.old)
        (W.failures out.new) (E.failures err.old) (E.failures err.new))) }
    ensures goes { GoesOn (K.standing book.old) (K.standing book.new) }
{
    hand_in(alloc, book, &Command::Enrol(who), moment, out, err)
}

/// Does to a book what was made ready, prints what comes of it, and tells a refusal on standard
/// error, and as much more as is asked for.
pub fn perform<R: FileSystem + AllocGlobal + Clone + Drop, K: Keeper, W: Printer, E: Printer>(
    rt: &R,
    book: &mut K,
    ready: &Ready<'_>,
    moment: Moment,
    verbosity: Verbosity,
    out: &mut W,
    err: &mut E,
) -> Result<ExitStatus, CommandError>
    ensures performed { IsPerformed (K.standing book.old) (K.standing book.new) ready.now moment
        (W.contents out.old) (W.contents out.new) result }
    ensures said { IsSaidOf (K.standing book.old) (K.standing book.new) ready.now moment
        (E.contents err.old) (E.contents err.new) result }
    ensures caused { IfErr result (IsDeviceBy (WasEitherRefused (W.failures out.old)
        (W.failures out.new) (E.failures err.old) (E.failures err.new)
        ⊎ HasFailedCall (R.fails rt.now))) }
    ensures goes { GoesOn (K.standing book.old) (K.standing book.new) }
{
    let alloc = rt.alloc();
    match ready {
        Ready::Enrol(who) => enrol(alloc, book, *who, moment, out, err),
        Ready::Roster(partners) => enrol_all(alloc, book, partners, moment, out),
        Ready::Send(bytes) => {
            hand_in(alloc, book, &Command::Interchange(bytes), moment, out, err)
        }
        Ready::Take(dir) => take(rt, book, *dir, moment, verbosity, out, err),
        Ready::TakeInto(inbox) => take_away(rt, book, inbox, moment, verbosity, out, err),
        Ready::Clerk(slip) => hand_in(alloc, book, &clerk(slip), moment, out, err),
    }
}
