//! What clerks call for, found by the path of a request.
ghost use Rattle.std.specs.Prelude.{◌≡◌, IfOk, map, option_map};
ghost use Rattle.definitions.specs.Readings.{parts_at};
ghost use Rattle.intake.specs.Calls as meant;
ghost use Rattle.intake.specs.Targets.{seen_call};

use std::alloc::{AllocError, Global};
use store::SheetKind;

/// A clerk's deed, by the parts of its path.
#[derive(Clone, Copy)]
pub(crate) struct Deed<'p> {
    /// What was done, which is the kind of its sheet.
    pub(crate) kind: SheetKind,
    /// The depositor.
    pub(crate) who: &'p [u8],
    /// The ticket.
    pub(crate) ticket: &'p [u8],
    /// The number of the advice or the order; nothing of a recount.
    pub(crate) number: &'p [u8],
}

/// A form that clerks take along and fill in.
#[derive(Clone, Copy)]
pub(crate) enum Form {
    /// What is reserved for an order, to pick by.
    PickList,
    /// What an advice announced, to write on.
    ReceivingList,
    /// The same as CSV, a sheet for its count.
    ReceivingCsv,
    /// What is reserved for an order as CSV, a sheet for its pick.
    PickingCsv,
}

/// What a path calls for, with its parts.
#[derive(Clone, Copy)]
pub(crate) enum Call<'p> {
    /// `/count/{who}/{ticket}/{shipment}`, `/pick/{who}/{ticket}/{order}` or
    /// `/recount/{who}/{ticket}`
    Deed(Deed<'p>),
    /// The same after `/try`: it is answered and not done.
    TriedDeed(Deed<'p>),
    /// `/try/x12`
    TriedExchange,
    /// `/`
    Page,
    /// `/orders/{who}/{order}`
    Order(&'p [u8], &'p [u8]),
    /// `/advices/{who}/{shipment}`, the same and `/csv`, and `/orders/{who}/{order}/csv`
    Form(Form, &'p [u8], &'p [u8]),
    /// `/stock/{who}/csv`
    Export(&'p [u8]),
    /// `/open/{who}`
    Open(&'p [u8]),
    /// `/depositors`
    Depositors,
}

// What a path of one part calls for.
fn call_of_one<'p>(name: &'p [u8]) -> Option<Call<'p>>
    ensures { option_map seen_call result ≡ meant.call_of_one name.now }
{
    if name.is_empty() {
        Some(Call::Page)
    } else if name == b"depositors".as_slice() {
        Some(Call::Depositors)
    } else {
        None
    }
}

// What a path of two parts calls for.
fn call_of_two<'p>(name: &[u8], who: &'p [u8]) -> Option<Call<'p>>
    ensures { option_map seen_call result ≡ meant.call_of_two name.now who.now }
{
    if name == b"open".as_slice() {
        Some(Call::Open(who))
    } else {
        None
    }
}

// What a path of three parts calls for.
fn call_of_three<'p>(name: &[u8], who: &'p [u8], last: &'p [u8]) -> Option<Call<'p>>
    ensures { option_map seen_call result ≡ meant.call_of_three name.now who.now last.now }
{
    if name == b"recount".as_slice() {
        Some(Call::Deed(Deed {
            kind: SheetKind::Recount,
            who,
            ticket: last,
            number: b"",
        }))
    } else if name == b"orders".as_slice() {
        Some(Call::Order(who, last))
    } else if name == b"advices".as_slice() {
        Some(Call::Form(Form::ReceivingList, who, last))
    } else if name == b"stock".as_slice() && last == b"csv".as_slice() {
        Some(Call::Export(who))
    } else {
        None
    }
}

// What a path of four parts calls for, the last of which is `csv`.
fn form_of<'p>(name: &[u8], who: &'p [u8], number: &'p [u8], last: &[u8]) -> Option<Call<'p>>
    ensures { option_map seen_call result ≡ meant.form_of name.now who.now number.now last.now }
{
    if name == b"advices".as_slice() && last == b"csv".as_slice() {
        Some(Call::Form(Form::ReceivingCsv, who, number))
    } else if name == b"orders".as_slice() && last == b"csv".as_slice() {
        Some(Call::Form(Form::PickingCsv, who, number))
    } else {
        None
    }
}

// What a path of four parts calls for.
fn call_of_four<'p>(
    name: &[u8],
    who: &'p [u8],
    middle: &'p [u8],
    last: &'p [u8],
) -> Option<Call<'p>>
    ensures { option_map seen_call result ≡ meant.call_of_four name.now who.now middle.now
        last.now }
{
    let kind = if name == b"count".as_slice() {
        SheetKind::Count
    } else if name == b"pick".as_slice() {
        SheetKind::Pick
    } else {
        return form_of(name, who, middle, last);
    };
    Some(Call::Deed(Deed {
        kind,
        who,
        ticket: middle,
        number: last,
    }))
}

// What a path calls for by its parts after the first slash, where it isn't to be tried out alone.
fn call_to_do<'p>(parts: &[&'p [u8]]) -> Option<Call<'p>>
    ensures { option_map seen_call result ≡ meant.call_to_do (map (λ part. part.now) parts.now) }
{
    match *parts {
        [name] => call_of_one(name),
        [name, who] => call_of_two(name, who),
        [name, who, last] => call_of_three(name, who, last),
        [name, who, middle, last] => call_of_four(name, who, middle, last),
        _ => None,
    }
}

// The same, tried out: a deed alone can be.
fn tried<'p>(call: Option<Call<'p>>) -> Option<Call<'p>>
    ensures { option_map seen_call result ≡ meant.tried (option_map seen_call call.entry) }
{
    match call {
        Some(Call::Deed(deed)) => Some(Call::TriedDeed(deed)),
        _ => None,
    }
}

// What a path calls for by its parts after `/try`.
fn call_to_try<'p>(parts: &[&'p [u8]]) -> Option<Call<'p>>
    ensures { option_map seen_call result ≡ meant.call_to_try (map (λ part. part.now) parts.now) }
{
    match *parts {
        [name] if name == b"x12".as_slice() => Some(Call::TriedExchange),
        [_] => None,
        _ => tried(call_to_do(parts)),
    }
}

// What a path calls for by its parts after the first slash.
fn call_of_parts<'p>(parts: &[&'p [u8]]) -> Option<Call<'p>>
    ensures { option_map seen_call result ≡ meant.call_of_parts (map (λ part. part.now) parts.now) }
{
    let (name, more) = parts.split_first()?;
    if *name == b"try".as_slice() {
        call_to_try(more)
    } else {
        call_to_do(parts)
    }
}

// What a path calls for by its parts, nothing before the first slash.
fn call_in<'p>(parts: &[&'p [u8]]) -> Option<Call<'p>>
    ensures { option_map seen_call result ≡ meant.call_in (map (λ part. part.now) parts.now) }
{
    let (front, parts) = parts.split_first()?;
    if front.is_empty() {
        call_of_parts(parts)
    } else {
        None
    }
}

// The parts of a path between slashes.
fn parts_of<'p>(alloc: Global, path: &'p [u8]) -> Result<Vec<&'p [u8]>, AllocError>
    ensures { IfOk result (λ v. map (λ part. part.now) v.items ≡ parts_at 47 path.now) }
{
    path.split(|b| *b == b'/').collect(alloc)
}

/// What a path calls for, if it does. The one error is want of memory.
pub(crate) fn find_call<'p>(alloc: Global, path: &'p [u8]) -> Result<Option<Call<'p>>, AllocError>
    ensures { IfOk result (λ call. option_map seen_call call ≡ meant.call_of path.now) }
{
    let parts = parts_of(alloc, path)?;
    Ok(call_in(&parts))
}
