ghost use Rattle.std.specs.Prelude.{◌≡◌, ◌==◌, ◌&&◌, ℕ, List, Some, None, true, IfOk, IsErrOf, if◌then◌else◌, is_some, option_map};
ghost use Rattle.definitions.specs.Rules.{Today};
ghost use Rattle.definitions.specs.Bytes.{value};
ghost use Rattle.definitions.specs.Header.{Who as Partner, who_of};
ghost use Rattle.definitions.specs.Moments.{Moment as Minute};
ghost use Rattle.definitions.specs.Register.{Entry};
ghost use Rattle.definitions.specs.Reports as reports;
ghost use Rattle.definitions.specs.Response.{Get, OtherMethod, is_plain_number, content_response, found_for, resp, with_body, plain_type};
ghost use Rattle.definitions.specs.Rows.{stock_of, outbox_of};
ghost use Rattle.reports.specs.Exports.{stock_text as meant_text};
ghost use Rattle.store.specs.Standing.{IsReading, OfKept};
ghost use Rattle.intake.specs.Answers.{seen, told_text};
ghost use Rattle.intake.specs.Asking.{route_asks};
ghost use Rattle.intake.specs.Routes.{seen_route};

use crate::replies::with_text;
use crate::response::{Allow, MediaType, Response, Status, bare_response, not_allowed_response};
use crate::routes::Route;
use reports::{outbox_list, stock_text};
use segments::{all_digits, number};
use std::alloc::Global;
use store::{Fault, Keeper, Who};

/// The stock report of the depositor that a part of a path names, or its export as CSV.
pub(crate) fn stock_at<K: Keeper>(
    alloc: Global,
    keeper: &mut K,
    who: &[u8],
    is_csv: bool,
) -> Result<Response, Fault>
    ensures response { OfKept (K.standing keeper.old) (K.standing keeper.new)
        (λ L. IfOk result (λ r. seen r ≡ found_for who.now (stock_of L)
        (λ rows. with_body 200 plain_type (meant_text is_csv rows)))) }
    ensures reading { IsReading (K.standing keeper.old) (K.standing keeper.new) result }
    ensures shut { (K.standing keeper.old).shut ≡ true → is_some (who_of who.now) ≡ true
        → IsErrOf result Fault.Reopen }
{
    let Some(who) = Who::new(who) else {
        return Ok(bare_response(Status::NotFound));
    };
    match store::stock(keeper, who)? {
        Some(rows) => {
            let text = stock_text(alloc, &rows, is_csv)?;
            Ok(with_text(Status::Okay, MediaType::Plain, text))
        }
        None => Ok(bare_response(Status::NotFound)),
    }
}

// The list of what went out to the depositor that a part of a path names.
fn outbox_at<K: Keeper>(alloc: Global, keeper: &mut K, who: &str) -> Result<Response, Fault>
    ensures response { OfKept (K.standing keeper.old) (K.standing keeper.new)
        (λ L. IfOk result (λ r. seen r ≡ found_for who.now
        (outbox_of (K.standing keeper.old).warehouse L)
        (λ rows. with_body 200 plain_type (reports.outbox_list rows)))) }
    ensures reading { IsReading (K.standing keeper.old) (K.standing keeper.new) result }
    ensures shut { (K.standing keeper.old).shut ≡ true → is_some (who_of who.now) ≡ true
        → IsErrOf result Fault.Reopen }
{
    let Some(who) = Who::new(who.as_bytes()) else {
        return Ok(bare_response(Status::NotFound));
    };
    match store::outbox(keeper, who)? {
        Some(rows) => Ok(with_text(Status::Okay, MediaType::Plain, outbox_list(alloc, &rows)?)),
        None => Ok(bare_response(Status::NotFound)),
    }
}

/// The number that is written so: 1 to 6 digits without a leading zero; None of any other text.
pub fn plain_number(text: &[u8]) -> Option<u32>
    ensures { result ≡ (if is_plain_number text.now then Some (value text.now) else None) }
{
    if text.is_empty() || text.len() > 6 || text[0] == b'0' || !all_digits(text) {
        return None;
    }
    Some(number(text))
}

// The text that went out, or 404 where none did, or to a stranger.
fn content_of(text: Option<Option<Vec<u8>>>) -> Response
    ensures { seen result ≡ told_text (option_map (option_map (λ v. v.items)) text) }
{
    match text {
        Some(Some(text)) => with_text(Status::Okay, MediaType::Interchange, text),
        Some(None) | None => bare_response(Status::NotFound),
    }
}

// The text that went out under the number that a part of a path names, to the depositor that
// another names.
fn content_at<K: Keeper>(keeper: &mut K, who: &str, n: &str) -> Result<Response, Fault>
    ensures response { OfKept (K.standing keeper.old) (K.standing keeper.new)
        (λ L. IfOk result (λ r. seen r ≡ found_for who.now
        (outbox_of (K.standing keeper.old).warehouse L) (content_response n.now))) }
    ensures reading { IsReading (K.standing keeper.old) (K.standing keeper.new) result }
    ensures shut { (K.standing keeper.old).shut ≡ true
        → (is_some (who_of who.now) && is_plain_number n.now) ≡ true
        → IsErrOf result Fault.Reopen }
{
    let Some(who) = Who::new(who.as_bytes()) else {
        return Ok(bare_response(Status::NotFound));
    };
    let Some(number) = plain_number(n.as_bytes()) else {
        return Ok(bare_response(Status::NotFound));
    };
    Ok(content_of(store::text(keeper, who, number)?))
}

/// The response to a request by GET. The book is as before. A fault is that of the query, or want
/// of memory for the response.
pub(crate) fn got<K: Keeper>(
    alloc: Global,
    keeper: &mut K,
    route: &Route<'_>,
) -> Result<Response, Fault>
    ensures response { OfKept (K.standing keeper.old) (K.standing keeper.new)
        (λ L. (body : List ℕ) (t : Minute) → IfOk result (λ r. seen r ≡ resp Today
        (K.standing keeper.old).warehouse L Get (seen_route route.now) body t)) }
    ensures reading { IsReading (K.standing keeper.old) (K.standing keeper.new) result }
    ensures shut { (K.standing keeper.old).shut ≡ true
        → route_asks Get (seen_route route.now) ≡ true
        → IsErrOf result Fault.Reopen }
{
    match *route {
        Route::Stock(who) => stock_at(alloc, keeper, who.as_bytes(), false),
        Route::Outbox(who) => outbox_at(alloc, keeper, who),
        Route::Content(who, n) => content_at(keeper, who, n),
        Route::Exchange => Ok(not_allowed_response(Allow::Post)),
        Route::Nowhere => Ok(bare_response(Status::NotFound)),
    }
}

/// The response to a request by a method that no path allows.
pub(crate) fn not_served(route: &Route<'_>) -> Response
    ensures { (W : Partner) (L : List Entry) (body : List ℕ) (t : Minute)
        → seen result ≡ resp Today W L OtherMethod (seen_route route.now) body t }
{
    match *route {
        Route::Exchange => not_allowed_response(Allow::Post),
        Route::Nowhere => bare_response(Status::NotFound),
        _ => not_allowed_response(Allow::Get),
    }
}
