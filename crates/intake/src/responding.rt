ghost use Rattle.std.specs.Prelude.{Some, true};
ghost use Rattle.definitions.specs.Rules.{Today};
ghost use Rattle.definitions.specs.Accepted.{reply_to};
ghost use Rattle.definitions.specs.Register.{Interchange};
ghost use Rattle.definitions.specs.Response.{Post, reply_response};
ghost use Rattle.intake.specs.Answers.{seen};
ghost use Rattle.intake.specs.Asking.{IsResponseOf, IsShutResponse};
ghost use Rattle.intake.specs.Fields.{seen_method, method_of};
ghost use Rattle.intake.specs.Routes.{seen_route, route_of};
ghost use Rattle.intake.specs.Serving.{IsRequestServed, IsRouteServed};

use crate::heading::{MethodKind, read_method};
use crate::queries::{got, not_served};
use crate::replies::{of_fault, of_reply};
use crate::response::Response;
use crate::routes::{Route, find_route, is_handed_in};
use http::Method;
use std::alloc::Global;
use store::{Command, Fault, Keeper, Moment, submit};

// Hands an interchange in.
fn hand_in<K: Keeper>(alloc: Global, keeper: &mut K, body: &[u8], moment: Moment) -> Response
    ensures { let c = Interchange body.now in
        IsRequestServed (K.standing keeper.old) (K.standing keeper.new) moment (Some c)
        (λ L. reply_response (reply_to Today (K.standing keeper.old).warehouse L c moment))
        true (IsResponseOf Fault.Reopen) (seen result) }
{
    match submit(alloc, keeper, &Command::Interchange(body), moment) {
        Ok(reply) => of_reply(reply),
        Err(fault) => of_fault(fault),
    }
}

// The response to a request by POST.
fn posted<K: Keeper>(
    alloc: Global,
    keeper: &mut K,
    route: &Route<'_>,
    body: &[u8],
    moment: Moment,
) -> Response
    ensures { IsRouteServed (K.standing keeper.old) (K.standing keeper.new) moment
        Post (seen_route route.now) body.now (IsResponseOf Fault.Reopen) (seen result) }
{
    if !is_handed_in(MethodKind::Post, route) {
        return not_served(route);
    }
    hand_in(alloc, keeper, body, moment)
}

/// The response to a request whose route is found. A fault inside is answered 503, and is told in
/// the response alone.
pub(crate) fn respond_at<K: Keeper>(
    alloc: Global,
    keeper: &mut K,
    method: MethodKind,
    route: &Route<'_>,
    body: &[u8],
    moment: Moment,
) -> Response
    ensures { IsRouteServed (K.standing keeper.old) (K.standing keeper.new) moment
        (seen_method method) (seen_route route.now) body.now (IsResponseOf Fault.Reopen)
        (seen result) }
{
    match method {
        MethodKind::Get => match got(alloc, keeper, route) {
            Ok(response) => response,
            Err(fault) => of_fault(fault),
        },
        MethodKind::Post => posted(alloc, keeper, route, body, moment),
        MethodKind::Other => not_served(route),
    }
}

/// The response to a request, by its method, its path and its body: an interchange is posted to
/// `/x12`; `/stock/{who}`, `/outbox/{who}` and `/outbox/{who}/{n}` show what a depositor has, what
/// went out to it, and one text of that. The path is taken as it is, and has no route where it
/// isn't UTF-8. The book is left as the interchange leaves it, and as it was by any other request.
/// A fault inside (40 to 43) is answered 503, with the book as it was, or to be opened again. A
/// book that has to be opened again answers 42 to whatever asks it for anything, or 40 where memory
/// for the path is wanting.
pub fn respond<K: Keeper>(
    alloc: Global,
    keeper: &mut K,
    method: &Method,
    path: &[u8],
    body: &[u8],
    moment: Moment,
) -> Response
    ensures { IsRouteServed (K.standing keeper.old) (K.standing keeper.new) moment
        (method_of method.now) (route_of path.now) body.now IsShutResponse (seen result) }
{
    match find_route(alloc, path) {
        Ok(route) => {
            let method = read_method(method.as_str().as_bytes());
            respond_at(alloc, keeper, method, &route, body, moment)
        }
        Err(_) => of_fault(Fault::OutOfMemory),
    }
}
