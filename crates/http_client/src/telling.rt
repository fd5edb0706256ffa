//! The answer to a command or a query, told.
ghost use Rattle.std.specs.Prelude.{◌≡◌, ◌⊎◌, [], Some, IfOk, IfErr, OnOk};
ghost use Rattle.std.specs.Io.KnownBytes.{Appends};
ghost use Rattle.commands.specs.Failures.{IsDeviceBy, WasEitherRefused, WasRefused};
ghost use Rattle.http_client.specs.Heard.{IsAnswerHalted, IsStatus, IsAnswerTold, stop_of, told_line, heard as heard_of, heard_query as query_of, printed_document, printed_report};

use crate::answers::{HeardAs, heard, heard_query};
use crate::remote::ServerAnswer;
use commands::{CommandError, ExitStatus, Printer, print, tell_refusal, tell_text};
use intake::Audience;
use std::alloc::Global;
use store::Fault;

// Tells what an answer comes to: nothing more of what is done, and a refusal on standard error.
fn tell_heard<E: Printer>(
    alloc: Global,
    heard: HeardAs,
    err: &mut E,
) -> Result<ExitStatus, CommandError>
    ensures status { IfOk result (IsStatus heard) }
    ensures said { OnOk result
        (Appends (E.contents err.old) (E.contents err.new) (told_line heard)) }
    ensures halted { IfErr result (IsAnswerHalted heard) }
    ensures caused { IfErr result (IsDeviceBy (WasRefused (E.failures err.old) (E.failures err.new)
        ⊎ (stop_of heard ≡ Some Fault.Device))) }
{
    match heard {
        HeardAs::Done => Ok(ExitStatus::Done),
        HeardAs::Refused(refusal) => tell_refusal(alloc, err, refusal),
        HeardAs::Stopped(fault) => Err(CommandError::Fault(fault)),
    }
}

/// Tells the answer to a command: its document, or the interchange that refuses another, and a
/// refusal.
pub fn tell_document<W: Printer, E: Printer>(
    alloc: Global,
    answer: &ServerAnswer,
    out: &mut W,
    err: &mut E,
) -> Result<ExitStatus, CommandError>
    ensures told { IfOk result (λ status. IsAnswerTold
        (printed_document answer.now.is_interchange answer.now.body.items)
        (heard_of answer.now.status answer.now.is_interchange answer.now.body.items)
        (W.contents out.old) (W.contents out.new) status) }
    ensures said { OnOk result (Appends (E.contents err.old) (E.contents err.new) (told_line
        (heard_of answer.now.status answer.now.is_interchange answer.now.body.items))) }
    ensures halted { IfErr result
        (IsAnswerHalted
        (heard_of answer.now.status answer.now.is_interchange answer.now.body.items)) }
    ensures caused { IfErr result (IsDeviceBy (WasEitherRefused (W.failures out.old)
        (W.failures out.new) (E.failures err.old) (E.failures err.new)
        ⊎ (stop_of (heard_of answer.now.status answer.now.is_interchange answer.now.body.items)
        ≡ Some Fault.Device))) }
{
    let heard = heard(answer.status, answer.is_interchange, &answer.body);
    if let HeardAs::Stopped(fault) = heard {
        return Err(CommandError::Fault(fault));
    }
    if answer.is_interchange {
        tell_text(out, &answer.body)?;
    }
    tell_heard(alloc, heard, err)
}

/// Tells the answer to a query of what these are shown: the report, or a refusal.
pub fn tell_report<W: Printer, E: Printer>(
    alloc: Global,
    shown: Audience,
    answer: &ServerAnswer,
    out: &mut W,
    err: &mut E,
) -> Result<ExitStatus, CommandError>
    ensures told { IfOk result (λ status. IsAnswerTold
        (printed_report answer.now.status answer.now.body.items)
        (query_of shown answer.now.status answer.now.is_interchange answer.now.body.items)
        (W.contents out.old) (W.contents out.new) status) }
    ensures said { OnOk result (Appends (E.contents err.old) (E.contents err.new) (told_line
        (query_of shown answer.now.status answer.now.is_interchange answer.now.body.items))) }
    ensures halted { IfErr result
        (IsAnswerHalted (query_of shown answer.now.status answer.now.is_interchange
        answer.now.body.items)) }
    ensures caused { IfErr result (IsDeviceBy (WasEitherRefused (W.failures out.old)
        (W.failures out.new) (E.failures err.old) (E.failures err.new)
        ⊎ (stop_of (query_of shown answer.now.status answer.now.is_interchange
        answer.now.body.items) ≡ Some Fault.Device))) }
{
    let heard = heard_query(shown, answer.status, answer.is_interchange, &answer.body);
    if let HeardAs::Stopped(fault) = heard {
        return Err(CommandError::Fault(fault));
    }
    if answer.status == 200 {
        print(out, &answer.body)?;
    }
    tell_heard(alloc, heard, err)
}
