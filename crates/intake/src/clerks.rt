//! What clerks are answered.
ghost use Rattle.std.specs.Prelude.{Some, true};
ghost use Rattle.definitions.specs.Rules.{Today};
ghost use Rattle.definitions.specs.Accepted.{reply_to};
ghost use Rattle.definitions.specs.Response.{Get, Post};
ghost use Rattle.intake.specs.Answers.{seen};
ghost use Rattle.intake.specs.Asking.{IsResponseOf};
ghost use Rattle.intake.specs.Calls.{deed_reply};
ghost use Rattle.intake.specs.Fields.{seen_method};
ghost use Rattle.intake.specs.Serving.{IsRequestServed, IsCallServed};
ghost use Rattle.intake.specs.Slips.{command_of};
ghost use Rattle.intake.specs.Targets.{seen_call, seen_deed};

use crate::calls::{Call, Deed};
use crate::heading::MethodKind;
use crate::looking::{looked_at, not_called};
use crate::replies::{of_deed, of_fault};
use crate::response::Response;
use crate::slips::{Slip, SlipStop, command, slip_of};
use crate::trying::{deed_tried, exchange_tried};
use std::alloc::Global;
use store::{Fault, Keeper, Moment, submit};

// Submits what a clerk did.
fn performed<K: Keeper>(alloc: Global, keeper: &mut K, slip: &Slip<'_>, moment: Moment) -> Response
    ensures { let c = command_of slip.now.who slip.now.deed slip.now.sheet in
        IsRequestServed (K.standing keeper.old) (K.standing keeper.new) moment (Some c)
        (λ L. deed_reply (reply_to Today (K.standing keeper.old).warehouse L c moment))
        true (IsResponseOf Fault.Reopen) (seen result) }
{
    match submit(alloc, keeper, &command(slip), moment) {
        Ok(reply) => of_deed(reply),
        Err(fault) => of_fault(fault),
    }
}

// The response to a deed whose sheet is the body.
fn deed_at<K: Keeper>(
    alloc: Global,
    keeper: &mut K,
    deed: &Deed<'_>,
    body: &[u8],
    moment: Moment,
) -> Response
    ensures { IsCallServed (K.standing keeper.old) (K.standing keeper.new) moment
        Post (seen_deed deed.now) body.now (seen result) }
{
    match slip_of(alloc, deed, body) {
        Ok(slip) => performed(alloc, keeper, &slip, moment),
        Err(SlipStop::Answered(response)) => response,
        Err(SlipStop::OutOfMemory) => of_fault(Fault::OutOfMemory),
    }
}

// The response to a call by POST.
fn posted_to<K: Keeper>(
    alloc: Global,
    keeper: &mut K,
    call: &Call<'_>,
    body: &[u8],
    moment: Moment,
) -> Response
    ensures { IsCallServed (K.standing keeper.old) (K.standing keeper.new) moment
        Post (seen_call call.now) body.now (seen result) }
{
    match *call {
        Call::Deed(deed) => deed_at(alloc, keeper, &deed, body, moment),
        Call::TriedDeed(deed) => deed_tried(alloc, keeper, &deed, body, moment),
        Call::TriedExchange => exchange_tried(alloc, keeper, body, moment),
        _ => not_called(call),
    }
}

// The response to a call by GET.
fn got_from<K: Keeper>(
    alloc: Global,
    keeper: &mut K,
    call: &Call<'_>,
    body: &[u8],
    moment: Moment,
) -> Response
    ensures { IsCallServed (K.standing keeper.old) (K.standing keeper.new) moment
        Get (seen_call call.now) body.now (seen result) }
{
    match looked_at(alloc, keeper, call) {
        Ok(response) => response,
        Err(fault) => of_fault(fault),
    }
}

/// The response to a request whose path calls for something. A fault inside is answered 503, and is
/// told in the response alone.
pub(crate) fn called<K: Keeper>(
    alloc: Global,
    keeper: &mut K,
    method: MethodKind,
    call: &Call<'_>,
    body: &[u8],
    moment: Moment,
) -> Response
    ensures { IsCallServed (K.standing keeper.old) (K.standing keeper.new) moment
        (seen_method method) (seen_call call.now) body.now (seen result) }
{
    match method {
        MethodKind::Get => got_from(alloc, keeper, call, body, moment),
        MethodKind::Post => posted_to(alloc, keeper, call, body, moment),
        MethodKind::Other => not_called(call),
    }
}
