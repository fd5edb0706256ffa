//! Depositors of a list, enrolled one after the other.
ghost use Rattle.std.specs.Io.KnownBytes.{Appends};
ghost use Rattle.std.specs.Prelude.{◌≡◌, IfErr, IfNone, IfOk, IfSome, OnOk, OnErr};
ghost use Rattle.definitions.specs.Rules.{Today};
ghost use Rattle.definitions.specs.Accepted.{reply_to, after};
ghost use Rattle.definitions.specs.Register.{Enrol};
ghost use Rattle.store.specs.Runs.{told};
ghost use Rattle.store.specs.Standing.{IsUsable, KeepsLegal, GoesOn, LeavesEither, OfKept, OfUsable};
ghost use Rattle.commands.specs.Enrolling.{AreEnrolled, AreEnrolledUntil, line_of};
ghost use Rattle.commands.specs.Failures.{IsDeviceBy, WasRefused};
ghost use Rattle.commands.specs.Printing.{AppendsFront};
ghost use Rattle.commands.specs.Readying.{IsNoRoster, IsRosterIn};
ghost use Rattle.commands.specs.Stops.{HasDeviceFault, IsDeviceStop, IsStopped};
ghost use Rattle.commands.specs.Telling.{status_of};

use crate::files::{MOST_ROSTER, read_within};
use crate::printing::{Printer, print_pieces};
use crate::told::{CommandError, ExitStatus};
use command_line::depositors;
use folders::FileSystem;
use itoa::Buffer;
use std::alloc::Global;
use store::{Command, Keeper, Moment, Reply, Who, submit};

// Prints what became of a depositor, as `ZZ-ACME enrolled`.
fn tell_enrolment<W: Printer>(
    out: &mut W,
    who: &Who,
    reply: &Reply,
) -> Result<ExitStatus, CommandError>
    ensures says { IfOk result (λ status. status ≡ status_of (told reply.now)) }
    ensures printed { OnOk result
        (Appends (W.contents out.old) (W.contents out.new) (line_of who.now (told reply.now))) }
    ensures front { OnErr result
        (AppendsFront (W.contents out.old) (W.contents out.new) (line_of who.now
        (told reply.now))) }
    ensures halted { IfErr result IsDeviceStop }
    ensures quiet { OnOk result (W.failures out.new ≡ W.failures out.old) }
    ensures caused { IfErr result (IsDeviceBy
        (WasRefused (W.failures out.old) (W.failures out.new))) }
{
    match reply {
        Reply::Refused { refusal, .. } => {
            let mut number = Buffer::new();
            let digits = number.format(refusal.number());
            print_pieces(out, &[who.text(), b" refused ", digits.as_bytes(), b"\n"])?;
            Ok(ExitStatus::Refused)
        }
        _ => {
            print_pieces(out, &[who.text(), b" enrolled\n"])?;
            Ok(ExitStatus::Done)
        }
    }
}

// Enrols a depositor and prints what became of it.
#[tactic(auto, using(crate::proofs::TellingLaws::appends_nothing))]
fn enrol_one<K: Keeper, W: Printer>(
    alloc: Global,
    book: &mut K,
    who: Who,
    moment: Moment,
    out: &mut W,
) -> Result<ExitStatus, CommandError>
    ensures says { OfKept (K.standing book.old) (K.standing book.new)
        (λ L. IfOk result (λ status. status ≡ status_of
        (reply_to Today (K.standing book.old).warehouse L (Enrol who) moment))) }
    ensures printed { OfKept (K.standing book.old) (K.standing book.new)
        (λ L. OnOk result (Appends (W.contents out.old) (W.contents out.new)
        (line_of who (reply_to Today (K.standing book.old).warehouse L (Enrol who) moment)))) }
    ensures done { OfUsable (K.standing book.old) (K.standing book.new)
        (λ L. OnOk result (IsUsable (K.standing book.new)
        (after Today (K.standing book.old).warehouse L (Enrol who, moment)))) }
    ensures keeps { OfKept (K.standing book.old) (K.standing book.new)
        (λ L. OnOk result (KeepsLegal (K.standing book.new)
        (after Today (K.standing book.old).warehouse L (Enrol who, moment)))) }
    ensures opened { OnOk result ((K.standing book.old).shut ≡ (K.standing book.new).shut) }
    ensures left { OfUsable (K.standing book.old) (K.standing book.new)
        (λ L. OnErr result (LeavesEither (K.standing book.new) L
        (after Today (K.standing book.old).warehouse L (Enrol who, moment)))) }
    ensures stopped { IfErr result
        (IsStopped (K.standing book.old) (K.standing book.new) (Enrol who) moment (line_of who)
        (W.contents out.old) (W.contents out.new)) }
    ensures quiet { OnOk result (W.failures out.new ≡ W.failures out.old) }
    ensures caused { IfErr result (IsDeviceBy
        (WasRefused (W.failures out.old) (W.failures out.new))) }
    ensures goes { GoesOn (K.standing book.old) (K.standing book.new) }
{
    let reply = submit(alloc, book, &Command::Enrol(who), moment)?;
    tell_enrolment(out, &who, &reply)
}

/// Enrols depositors in order, and prints a line for each. The status is 1 where one of them was
/// refused.
pub fn enrol_all<K: Keeper, W: Printer>(
    alloc: Global,
    book: &mut K,
    partners: &[Who],
    moment: Moment,
    out: &mut W,
) -> Result<ExitStatus, CommandError>
    ensures enrolled { IfOk result
        (AreEnrolled (K.standing book.old) (K.standing book.new) partners.now moment
        (W.contents out.old) (W.contents out.new)) }
    ensures stopped { IfErr result
        (AreEnrolledUntil (K.standing book.old) (K.standing book.new) partners.now moment
        (W.contents out.old) (W.contents out.new)) }
    ensures caused { IfErr result (IsDeviceBy
        (WasRefused (W.failures out.old) (W.failures out.new))) }
    ensures goes { GoesOn (K.standing book.old) (K.standing book.new) }
{
    let mut status = ExitStatus::Done;
    for who in partners {
        status = status.and(enrol_one(alloc, book, *who, moment, out)?);
    }
    Ok(status)
}

/// The depositors of the list in a file; None where it is no such list, or has more than 1,048,576
/// bytes. A file that can't be read is Device (44).
pub fn read_roster<R: FileSystem + AllocGlobal>(
    rt: &R,
    file: &str,
) -> Result<Option<Vec<Who>>, CommandError>
    ensures read { IfOk result
        (λ found. IfSome found (λ whos. IsRosterIn (R.reads rt.now) file.now whos.items)) }
    ensures none { IfOk result (λ found. IfNone found (IsNoRoster (R.reads rt.now) file.now)) }
    ensures unread { IfErr result HasDeviceFault }
{
    match read_within(rt, file, MOST_ROSTER)? {
        Some(text) => Ok(depositors(rt.alloc(), &text)?),
        None => Ok(None),
    }
}
