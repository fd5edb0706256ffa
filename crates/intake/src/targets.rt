//! Where a path leads, by whom a server answers.
ghost use Rattle.std.specs.Prelude.{◌≡◌, IfOk, option_map};
ghost use Rattle.intake.specs.Answers.{seen};
ghost use Rattle.intake.specs.Calls as meant;
ghost use Rattle.intake.specs.Fields.{seen_method};
ghost use Rattle.intake.specs.Serving.{IsTargetServed};
ghost use Rattle.intake.specs.Targets as targets;
ghost use Rattle.intake.specs.Targets.{seen_call, seen_target, target_of};

use crate::audience::Audience;
use crate::calls::{Call, find_call};
use crate::clerks::called;
use crate::heading::MethodKind;
use crate::responding::respond_at;
use crate::response::Response;
use crate::routes::{Route, find_route, is_handed_in};
use std::alloc::{AllocError, Global};
use store::{Keeper, Moment};

/// Where a path leads.
#[derive(Clone, Copy)]
pub(crate) enum Target<'p> {
    /// To one of the routes that are always served, or nowhere.
    Route(Route<'p>),
    /// To what a clerk calls for.
    Call(Call<'p>),
}

// What a path calls for where partners may try an interchange out, and no more.
fn call_of_tester<'p>(path: &[u8]) -> Option<Call<'p>>
    ensures { option_map seen_call result ≡ targets.call_for Audience.Testers path.now }
{
    if path == b"/try/x12".as_slice() {
        Some(Call::TriedExchange)
    } else {
        None
    }
}

// What a path calls for, by whom is served.
fn call_for<'p>(
    alloc: Global,
    audience: Audience,
    path: &'p [u8],
) -> Result<Option<Call<'p>>, AllocError>
    ensures { IfOk result (λ call. option_map seen_call call ≡ targets.call_for audience path.now) }
{
    match audience {
        Audience::Partners => Ok(None),
        Audience::Testers => Ok(call_of_tester(path)),
        Audience::Clerks => find_call(alloc, path),
    }
}

/// Where a path leads. The one error is want of memory.
pub(crate) fn find_target<'p>(
    alloc: Global,
    audience: Audience,
    path: &'p [u8],
) -> Result<Target<'p>, AllocError>
    ensures { IfOk result (λ target. seen_target target ≡ target_of audience path.now) }
{
    match call_for(alloc, audience, path)? {
        Some(call) => Ok(Target::Call(call)),
        None => Ok(Target::Route(find_route(alloc, path)?)),
    }
}

// Whether an interchange comes with a call by this method, to be tried out.
fn is_tried_exchange(method: MethodKind, call: &Call<'_>) -> bool
    ensures { result ≡ meant.is_tried_exchange (seen_method method) (seen_call call.now) }
{
    matches!((method, call), (MethodKind::Post, Call::TriedExchange))
}

// Whether a call by this method has a body.
fn call_has_body(method: MethodKind, call: &Call<'_>) -> bool
    ensures { result ≡ meant.call_has_body (seen_method method) (seen_call call.now) }
{
    matches!(
        (method, call),
        (
            MethodKind::Post,
            Call::Deed(_) | Call::TriedDeed(_) | Call::TriedExchange
        )
    )
}

/// Whether a request has a body.
pub(crate) fn has_body(method: MethodKind, target: &Target<'_>) -> bool
    ensures { result ≡ targets.has_body (seen_method method) (seen_target target.now) }
{
    match target {
        Target::Route(route) => is_handed_in(method, route),
        Target::Call(call) => call_has_body(method, call),
    }
}

/// Whether an interchange comes with a request: it hands it in, or tries it out.
pub(crate) fn has_interchange(method: MethodKind, target: &Target<'_>) -> bool
    ensures { result ≡ targets.has_interchange (seen_method method) (seen_target target.now) }
{
    match target {
        Target::Route(route) => is_handed_in(method, route),
        Target::Call(call) => is_tried_exchange(method, call),
    }
}

/// Whether a request hands an interchange in.
pub(crate) fn hands_in(method: MethodKind, target: &Target<'_>) -> bool
    ensures { result ≡ targets.hands_in (seen_method method) (seen_target target.now) }
{
    match target {
        Target::Route(route) => is_handed_in(method, route),
        Target::Call(_) => false,
    }
}

/// The response to a request whose target is found. A fault inside is answered 503, and is told in
/// the response alone.
pub(crate) fn respond_to<K: Keeper>(
    alloc: Global,
    keeper: &mut K,
    method: MethodKind,
    target: &Target<'_>,
    body: &[u8],
    moment: Moment,
) -> Response
    ensures { IsTargetServed (K.standing keeper.old) (K.standing keeper.new) moment
        (seen_method method) (seen_target target.now) body.now (seen result) }
{
    match *target {
        Target::Route(route) => respond_at(alloc, keeper, method, &route, body, moment),
        Target::Call(call) => called(alloc, keeper, method, &call, body, moment),
    }
}
