//! The forms that clerks take along and fill in.
ghost use Rattle.std.specs.Prelude.{◌≡◌, ◌⊎◌, Ok, Err, true, IfOk, IfErr, IsErrOf, is_some};
ghost use Rattle.definitions.specs.History.{History};
ghost use Rattle.store.specs.Decided.{IsHeldPart};
ghost use Rattle.store.specs.Standing.{IsReading, OfKept};
ghost use Rattle.intake.specs.Answers.{seen};
ghost use Rattle.intake.specs.Calls.{form_response, owner_of};
ghost use Rattle.intake.specs.Forms as meant;
ghost use Rattle.unready.specs.Refused.{IfRefused};

use crate::calls::Form;
use crate::looking::owner;
use crate::replies::{bad_part, refused, stranger, with_text};
use crate::response::{MediaType, Response, Status};
use reports::{need_of_advice, pick_list, picking_csv, receiving_csv, receiving_list};
use std::alloc::{AllocError, Global};
use store::{Fault, Keeper, Need, Page};
use unready::Unready;

// What a form needs of its depositor's page.
fn need_of(alloc: Global, form: Form, number: &[u8]) -> Result<Need, AllocError>
    ensures { IfOk result (λ need. need ≡ meant.form_need form number.now) }
{
    match form {
        Form::ReceivingList | Form::ReceivingCsv => need_of_advice(alloc, number),
        Form::PickList | Form::PickingCsv => Need::order(alloc, number),
    }
}

// The text of a form, or why there is none.
fn text_of(alloc: Global, page: &Page, form: Form, number: &[u8]) -> Result<Vec<u8>, Unready>
    ensures ok { IfOk result (λ text. (h : History)
        → IsHeldPart (meant.form_need form number.now) page.now h
        → meant.form_text form h.events number.now ≡ Ok text.items) }
    ensures err { IfErr result (IfRefused (λ refusal. (h : History)
        → IsHeldPart (meant.form_need form number.now) page.now h
        → meant.form_text form h.events number.now ≡ Err refusal)) }
{
    match form {
        Form::PickList => pick_list(alloc, page, number),
        Form::ReceivingList => receiving_list(alloc, page, number),
        Form::ReceivingCsv => receiving_csv(alloc, page, number),
        Form::PickingCsv => picking_csv(alloc, page, number),
    }
}

/// The form that a path names.
pub(crate) fn form_at<K: Keeper>(
    alloc: Global,
    keeper: &mut K,
    form: Form,
    who: &[u8],
    number: &[u8],
) -> Result<Response, Fault>
    ensures response { OfKept (K.standing keeper.old) (K.standing keeper.new)
        (λ L. IfOk result (λ r. seen r ≡ form_response L form (owner_of who.now number.now)
        number.now)) }
    ensures reading { IsReading (K.standing keeper.old) (K.standing keeper.new) result }
    ensures shut { (K.standing keeper.old).shut ≡ true
        → is_some (owner_of who.now number.now) ≡ true
        → IsErrOf result Fault.Reopen ⊎ IsErrOf result Fault.OutOfMemory }
{
    let Some(who) = owner(who, number) else {
        return Ok(bad_part());
    };
    let need = need_of(alloc, form, number)?;
    let Some(page) = keeper.load(who, &need)? else {
        return Ok(stranger());
    };
    match text_of(alloc, &page, form, number) {
        Ok(text) => Ok(with_text(Status::Okay, MediaType::Plain, text)),
        Err(Unready::Refused(refusal)) => Ok(refused(refusal, Vec::new(alloc))),
        Err(Unready::OutOfMemory) => Err(Fault::OutOfMemory),
    }
}
