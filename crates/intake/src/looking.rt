//! What clerks are shown: their page, the picking sheet of an order, forms to fill in, the export
//! of a depositor's stock, what it has open, and who is enrolled.
ghost use Rattle.std.specs.Prelude.{◌≡◌, ◌⊎◌, ℕ, List, true, IfOk, IsErrOf, is_some};
ghost use Rattle.definitions.specs.Header.{Who as Partner, who_of};
ghost use Rattle.definitions.specs.Moments.{Moment as Minute};
ghost use Rattle.definitions.specs.Register.{Entry};
ghost use Rattle.definitions.specs.Response.{Get, OtherMethod, with_body};
ghost use Rattle.page.specs.Pages.{page_text, page_type};
ghost use Rattle.store.specs.Standing.{IsReading, IsQuery, OfKept};
ghost use Rattle.intake.specs.Answers.{seen};
ghost use Rattle.intake.specs.Asking.{call_asks};
ghost use Rattle.intake.specs.Calls.{owner_of, open_response, depositors_response, call_resp};
ghost use Rattle.intake.specs.Targets.{seen_call};

use crate::calls::{Call, Form};
use crate::forms::form_at;
use crate::queries::stock_at;
use crate::replies::{bad_part, stranger, with_text};
use crate::response::{Allow, MediaType, Response, Status, not_allowed_response};
use definitions::MOST_NUMBER;
use page::page;
use reports::{depositor_list, open_report};
use std::alloc::{AllocError, Global};
use store::{Fault, Ident, Keeper, Who};

/// The depositor whose order or advice is named; None where one of the two texts can't be read.
pub fn owner(who: &[u8], number: &[u8]) -> Option<Who>
    ensures { result ≡ owner_of who.now number.now }
{
    Ident::new(number, MOST_NUMBER)?;
    Who::new(who)
}

// What the depositor has open that a part of a path names.
fn open_at<K: Keeper>(alloc: Global, keeper: &mut K, who: &[u8]) -> Result<Response, Fault>
    ensures response { OfKept (K.standing keeper.old) (K.standing keeper.new)
        (λ L. IfOk result (λ r. seen r ≡ open_response L (who_of who.now))) }
    ensures reading { IsReading (K.standing keeper.old) (K.standing keeper.new) result }
    ensures shut { (K.standing keeper.old).shut ≡ true → is_some (who_of who.now) ≡ true
        → IsErrOf result Fault.Reopen }
{
    let Some(who) = Who::new(who) else {
        return Ok(bad_part());
    };
    match keeper.open(who)? {
        Some(page) => Ok(with_text(Status::Okay, MediaType::Plain, open_report(alloc, &page)?)),
        None => Ok(stranger()),
    }
}

// Who is enrolled.
fn depositors_at<K: Keeper>(alloc: Global, keeper: &mut K) -> Result<Response, Fault>
    ensures response { OfKept (K.standing keeper.old) (K.standing keeper.new)
        (λ L. IfOk result (λ r. seen r ≡ depositors_response L)) }
    ensures query { IsQuery (K.standing keeper.old) (K.standing keeper.new) result }
{
    let whos = keeper.depositors()?;
    Ok(with_text(
        Status::Okay,
        MediaType::Plain,
        depositor_list(alloc, &whos)?,
    ))
}

// The page by which clerks work. It is no part of the book.
fn page_shown(alloc: Global) -> Result<Response, AllocError>
    ensures { IfOk result (λ r. seen r ≡ with_body 200 page_type page_text) }
{
    Ok(with_text(Status::Okay, MediaType::Page, page(alloc)?))
}

/// The response to a call by GET. The book is as before. A fault is that of the query, or want of
/// memory for the response.
pub(crate) fn looked_at<K: Keeper>(
    alloc: Global,
    keeper: &mut K,
    call: &Call<'_>,
) -> Result<Response, Fault>
    ensures response { OfKept (K.standing keeper.old) (K.standing keeper.new)
        (λ L. (body : List ℕ) (t : Minute) → IfOk result (λ r. seen r ≡ call_resp
        (K.standing keeper.old).warehouse L Get (seen_call call.now) body t)) }
    ensures reading { IsReading (K.standing keeper.old) (K.standing keeper.new) result }
    ensures shut { (body : List ℕ) → (K.standing keeper.old).shut ≡ true
        → call_asks Get (seen_call call.now) body ≡ true
        → IsErrOf result Fault.Reopen ⊎ IsErrOf result Fault.OutOfMemory }
{
    match *call {
        Call::Deed(_) | Call::TriedDeed(_) | Call::TriedExchange => {
            Ok(not_allowed_response(Allow::Post))
        }
        Call::Page => Ok(page_shown(alloc)?),
        Call::Order(who, number) => form_at(alloc, keeper, Form::PickList, who, number),
        Call::Form(form, who, number) => form_at(alloc, keeper, form, who, number),
        Call::Export(who) => stock_at(alloc, keeper, who, true),
        Call::Open(who) => open_at(alloc, keeper, who),
        Call::Depositors => depositors_at(alloc, keeper),
    }
}

/// The response to a call by a method that no path allows.
pub(crate) fn not_called(call: &Call<'_>) -> Response
    ensures { (W : Partner) (L : List Entry) (body : List ℕ) (t : Minute)
        → seen result ≡ call_resp W L OtherMethod (seen_call call.now) body t }
{
    match *call {
        Call::Deed(_) | Call::TriedDeed(_) | Call::TriedExchange => {
            not_allowed_response(Allow::Post)
        }
        _ => not_allowed_response(Allow::Get),
    }
}
