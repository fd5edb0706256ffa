ghost use Rattle.std.specs.Prelude.{◌≡◌, IfErr, IfOk};
ghost use Rattle.definitions.specs.Response.{is_exchange};
ghost use Rattle.matchit.specs.Params.{AllText, walk};
ghost use Rattle.intake.specs.Fields.{seen_method};
ghost use Rattle.intake.specs.Routes.{table, seen_route, route_of, route_by_row, part, route_by};
ghost use Rattle.matchit.specs.Seek.{first};

use crate::heading::MethodKind;
use matchit::{InsertError, Params, Router};
use std::alloc::{AllocError, Global};

/// What is found at a path.
#[derive(Clone, Copy)]
pub(crate) enum RouteKind {
    /// Where interchanges are handed in.
    Exchange,
    /// A depositor's stock.
    Stock,
    /// The list of what went out to a depositor.
    Outbox,
    /// One text that went out.
    Content,
}

/// Where a path leads, with the parts of it that stand for a depositor and a number.
#[derive(Clone, Copy)]
pub(crate) enum Route<'p> {
    /// `/x12`
    Exchange,
    /// `/stock/{who}`
    Stock(&'p str),
    /// `/outbox/{who}`
    Outbox(&'p str),
    /// `/outbox/{who}/{n}`
    Content(&'p str, &'p str),
    /// No route is this path's.
    Nowhere,
}

// The routes that are served. None of them conflicts with another, so that the one error is want of
// memory.
fn router(alloc: Global) -> Result<Router<RouteKind>, InsertError>
    ensures table { IfOk result (λ router. router ≡ table) }
    ensures short { IfErr result (λ error. error ≡ InsertError.OutOfMemory) }
{
    let mut router = Router::new(alloc);
    router.insert("/x12", RouteKind::Exchange)?;
    router.insert("/stock/{who}", RouteKind::Stock)?;
    router.insert("/outbox/{who}", RouteKind::Outbox)?;
    router.insert("/outbox/{who}/{n}", RouteKind::Content)?;
    Ok(router)
}

// The part of the path that a name took.
fn part_of<'p>(params: &Params<'_, 'p>, name: &str) -> &'p str
    requires { let p = params.now in AllText (walk p.pattern.now p.text.now p.path.now p.names.now 0
        0) }

    ensures { let p = params.now in result.now
        ≡ part name.now (walk p.pattern.now p.text.now p.path.now p.names.now 0 0) }
{
    params.get(name).unwrap_or("")
}

// The route of a place, with the parts that the path has for it.
fn route_at<'p>(place: RouteKind, params: &Params<'_, 'p>) -> Route<'p>
    requires { let p = params.now in AllText (walk p.pattern.now p.text.now p.path.now p.names.now 0
        0) }

    ensures { let p = params.now in seen_route result
        ≡ route_by place (walk p.pattern.now p.text.now p.path.now p.names.now 0 0) }
{
    match place {
        RouteKind::Exchange => Route::Exchange,
        RouteKind::Stock => Route::Stock(part_of(params, "who")),
        RouteKind::Outbox => Route::Outbox(part_of(params, "who")),
        RouteKind::Content => Route::Content(part_of(params, "who"), part_of(params, "n")),
    }
}

// The route of a path that is text.
fn route_in<'p>(alloc: Global, path: &'p str) -> Result<Route<'p>, AllocError>
    ensures { IfOk result
        (λ route. seen_route route ≡ route_by_row path.now (first table path.now)) }
{
    let Ok(router) = router(alloc) else {
        return Err(AllocError);
    };
    let Ok(found) = router.at(path) else {
        return Ok(Route::Nowhere);
    };
    Ok(route_at(*found.value, &found.params))
}

/// The route of a path: none where it isn't UTF-8. The one error is want of memory. Each request
/// makes its router anew: nothing is kept between connections.
pub(crate) fn find_route<'p>(alloc: Global, path: &'p [u8]) -> Result<Route<'p>, AllocError>
    ensures { IfOk result (λ route. seen_route route ≡ route_of path.now) }
{
    match str::from_utf8(path) {
        Ok(path) => route_in(alloc, path),
        Err(_) => Ok(Route::Nowhere),
    }
}

/// Whether a request hands an interchange in, and so has a body.
pub(crate) fn is_handed_in(method: MethodKind, route: &Route<'_>) -> bool
    ensures { result ≡ is_exchange (seen_method method) (seen_route route.now) }
{
    matches!((method, route), (MethodKind::Post, Route::Exchange))
}
