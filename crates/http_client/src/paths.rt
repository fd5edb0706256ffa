//! Where a server takes what it is asked for.
ghost use Rattle.std.specs.Prelude.{◌≡◌, ◌∷◌, [], IfOk, string_bytes};
ghost use Rattle.http_client.specs.Paths as meant;

use crate::remote::path_of;
use command_line::{ClerkWords, Show};
use definitions::SheetKind;
use itoa::Buffer;
use std::alloc::{AllocError, Global};

// The word of a deed in its path.
fn name_of(kind: SheetKind) -> &'static str
    ensures { result.now ≡ meant.name_of kind }
{
    match kind {
        SheetKind::Count => "count",
        SheetKind::Pick => "pick",
        SheetKind::Recount => "recount",
    }
}

// The path of an act that has no number.
fn path_without<'a>(
    alloc: Global,
    name: &'a str,
    who: &'a str,
    ticket: &'a str,
) -> Result<String, AllocError>
    ensures { IfOk result
        (λ path. string_bytes path ≡ meant.path_text (name.now ∷ who.now ∷ ticket.now ∷ [])) }
{
    path_of(alloc, &[name, who, ticket])
}

// The path of an act about an advice or an order.
fn path_with<'a>(
    alloc: Global,
    name: &'a str,
    who: &'a str,
    ticket: &'a str,
    number: &'a str,
) -> Result<String, AllocError>
    ensures { IfOk result
        (λ path. string_bytes path ≡ meant.path_text (name.now ∷ who.now ∷ ticket.now ∷ number.now
        ∷ [])) }
{
    path_of(alloc, &[name, who, ticket, number])
}

/// The path to which a clerk's sheet is posted.
pub(crate) fn deed_path(alloc: Global, words: &ClerkWords<'_>) -> Result<String, AllocError>
    ensures { IfOk result (λ path. string_bytes path ≡ meant.deed_path words.now) }
{
    let name = name_of(words.kind);
    match words.kind {
        SheetKind::Recount => path_without(alloc, name, words.who, words.ticket),
        _ => path_with(alloc, name, words.who, words.ticket, words.number),
    }
}

/// The path at which a server tells what a clerk's sheet would be answered.
pub(crate) fn try_path(alloc: Global, words: &ClerkWords<'_>) -> Result<String, AllocError>
    ensures { IfOk result (λ path. string_bytes path ≡ meant.tried_at (meant.deed_path words.now)) }
{
    let path = deed_path(alloc, words)?;
    ["/try", path.as_str()].concat(alloc)
}

// The path of a text that went out.
fn text_path(alloc: Global, who: &str, number: u32) -> Result<String, AllocError>
    ensures { IfOk result (λ path. string_bytes path ≡ meant.text_path who.now number) }
{
    let mut digits = Buffer::new();
    let number = digits.format(number);
    path_of(alloc, &["outbox", who, number])
}

// The path of the sheet of an advice or an order, as text or as CSV.
fn sheet_path<'a>(
    alloc: Global,
    name: &'a str,
    who: &'a str,
    number: &'a str,
    is_csv: bool,
) -> Result<String, AllocError>
    ensures { IfOk result
        (λ path. string_bytes path ≡ meant.sheet_path name.now who.now number.now is_csv) }
{
    if is_csv {
        path_of(alloc, &[name, who, number, "csv"])
    } else {
        path_of(alloc, &[name, who, number])
    }
}

/// The path at which something is shown.
pub(crate) fn look_path(alloc: Global, show: &Show<'_>) -> Result<String, AllocError>
    ensures { IfOk result (λ path. string_bytes path ≡ meant.look_path show.now) }
{
    match show {
        Show::Stock { who, is_csv: false } => path_of(alloc, &["stock", *who]),
        Show::Stock { who, is_csv: true } => path_of(alloc, &["stock", *who, "csv"]),
        Show::Open { who } => path_of(alloc, &["open", *who]),
        Show::Advice {
            who,
            number,
            is_csv,
        } => sheet_path(alloc, "advices", *who, *number, *is_csv),
        Show::Order {
            who,
            number,
            is_csv,
        } => sheet_path(alloc, "orders", *who, *number, *is_csv),
        Show::Outbox { who, number: None } => path_of(alloc, &["outbox", *who]),
        Show::Outbox {
            who,
            number: Some(number),
        } => text_path(alloc, *who, *number),
        Show::Depositors => path_of(alloc, &["depositors"]),
    }
}
