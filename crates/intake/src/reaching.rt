//! What may be asked for by its path, where a server stands behind one that says for whom it asks.
ghost use Rattle.std.specs.Prelude.{◌≡◌};
ghost use Rattle.intake.specs.Reaching as meant;
ghost use Rattle.intake.specs.Routes.{seen_route};
ghost use Rattle.intake.specs.Targets.{seen_call, seen_target};

use crate::calls::Call;
use crate::routes::Route;
use crate::targets::Target;
use request_guard::{Asker, is_named};
use store::Who;

// Whether nothing of another depositor is at a route.
fn is_own_route(who: &Who, route: &Route<'_>) -> bool
    ensures { result ≡ meant.is_own_route who.now (seen_route route.now) }
{
    match *route {
        Route::Stock(part) => is_named(who, part.as_bytes()),
        Route::Outbox(part) => is_named(who, part.as_bytes()),
        Route::Content(part, _) => is_named(who, part.as_bytes()),
        Route::Exchange | Route::Nowhere => true,
    }
}

// Whether a path calls for nothing of another depositor.
fn is_own_call(who: &Who, call: &Call<'_>) -> bool
    ensures { result ≡ meant.is_own_call who.now (seen_call call.now) }
{
    match *call {
        Call::Deed(deed) => is_named(who, deed.who),
        Call::TriedDeed(deed) => is_named(who, deed.who),
        Call::TriedExchange => true,
        Call::Order(part, _) => is_named(who, part),
        Call::Form(_, part, _) => is_named(who, part),
        Call::Export(part) => is_named(who, part),
        Call::Open(part) => is_named(who, part),
        Call::Page | Call::Depositors => false,
    }
}

/// Whether a request may be asked for by its path.
pub(crate) fn may_reach(asker: &Asker, target: &Target<'_>) -> bool
    ensures { result ≡ meant.may_reach asker.now (seen_target target.now) }
{
    match asker {
        Asker::Unnamed => true,
        Asker::Unknown => false,
        Asker::Depositor(who) => match target {
            Target::Route(route) => is_own_route(who, route),
            Target::Call(call) => is_own_call(who, call),
        },
    }
}
