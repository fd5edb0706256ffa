//! What is tried out: it is answered as it would be if it were done now, and isn't done.
ghost use Rattle.std.specs.Prelude.{None, true};
ghost use Rattle.definitions.specs.Rules.{Today};
ghost use Rattle.definitions.specs.Accepted.{reply_to};
ghost use Rattle.definitions.specs.Register.{Interchange};
ghost use Rattle.definitions.specs.Response.{Post, reply_response};
ghost use Rattle.intake.specs.Answers.{seen};
ghost use Rattle.intake.specs.Asking.{IsResponseOf};
ghost use Rattle.intake.specs.Calls.{ToTriedExchange, deed_reply};
ghost use Rattle.intake.specs.Serving.{IsRequestServed, IsCallServed};
ghost use Rattle.intake.specs.Slips.{command_of};
ghost use Rattle.intake.specs.Targets.{seen_tried};

use crate::calls::Deed;
use crate::replies::{of_deed, of_fault, of_reply};
use crate::response::Response;
use crate::slips::{Slip, SlipStop, command, slip_of};
use std::alloc::Global;
use store::{Command, Fault, Keeper, Moment, try_out};

// What would be answered to what a clerk did.
fn slip_tried<K: Keeper>(alloc: Global, keeper: &mut K, slip: &Slip<'_>, moment: Moment) -> Response
    ensures { let c = command_of slip.now.who slip.now.deed slip.now.sheet in
        IsRequestServed (K.standing keeper.old) (K.standing keeper.new) moment None
        (λ L. deed_reply (reply_to Today (K.standing keeper.old).warehouse L c moment))
        true (IsResponseOf Fault.Reopen) (seen result) }
{
    match try_out(alloc, keeper, &command(slip), moment) {
        Ok(reply) => of_deed(reply),
        Err(fault) => of_fault(fault),
    }
}

/// The response to a deed that is tried out, whose sheet is the body. The book is as before.
pub(crate) fn deed_tried<K: Keeper>(
    alloc: Global,
    keeper: &mut K,
    deed: &Deed<'_>,
    body: &[u8],
    moment: Moment,
) -> Response
    ensures { IsCallServed (K.standing keeper.old) (K.standing keeper.new) moment
        Post (seen_tried deed.now) body.now (seen result) }
{
    match slip_of(alloc, deed, body) {
        Ok(slip) => slip_tried(alloc, keeper, &slip, moment),
        Err(SlipStop::Answered(response)) => response,
        Err(SlipStop::OutOfMemory) => of_fault(Fault::OutOfMemory),
    }
}

// What would be answered to an interchange.
fn interchange_tried<K: Keeper>(
    alloc: Global,
    keeper: &mut K,
    body: &[u8],
    moment: Moment,
) -> Response
    ensures { let c = Interchange body.now in
        IsRequestServed (K.standing keeper.old) (K.standing keeper.new) moment None
        (λ L. reply_response (reply_to Today (K.standing keeper.old).warehouse L c moment))
        true (IsResponseOf Fault.Reopen) (seen result) }
{
    match try_out(alloc, keeper, &Command::Interchange(body), moment) {
        Ok(reply) => of_reply(reply),
        Err(fault) => of_fault(fault),
    }
}

/// The response to an interchange that is tried out. The book is as before.
pub(crate) fn exchange_tried<K: Keeper>(
    alloc: Global,
    keeper: &mut K,
    body: &[u8],
    moment: Moment,
) -> Response
    ensures { IsCallServed (K.standing keeper.old) (K.standing keeper.new) moment
        Post ToTriedExchange body.now (seen result) }
{
    interchange_tried(alloc, keeper, body, moment)
}
