//! Why a text makes no sheet, and at which line, for people.
ghost use Rattle.std.specs.Prelude.{◌≡◌, Err, IfOk, IsTrue, is_some, map, option_map, true};
ghost use Rattle.std.specs.List.{find, list_all, list_any};
ghost use Rattle.std.specs.String.{string_bytes};
ghost use Rattle.csv.specs.Records.{fields_of};
ghost use Rattle.definitions.specs.Rules.{Today};
ghost use Rattle.definitions.specs.Bytes.{is_identifier_byte};
ghost use Rattle.sheet_texts.specs.Texts.{sheet_of_text};
ghost use Rattle.sheet_texts.specs.Reasons as reasons;

use crate::records::first_records;
use crate::texts::field;
use csv::ByteRecord;
use definitions::{MOST_ITEM, MOST_LINES_TWO, MOST_LOT, MOST_QUANTITY_TWO, Refusal, SHEET_DIGITS};
use segments::{Ident, all_digits, value_up_to};
use sheets::SheetKind;
use std::alloc::{AllocError, Global};

/// What a sheet is refused for, and at which line of its text.
#[derive(Drop)]
pub struct BadLine {
    /// The line, from 1.
    pub line: u64,
    /// What is wrong there, or what should stand there: after the item and the lot, where both can
    /// be read.
    pub why: String,
}

// What of a record can't be read, if something can't.
fn unread_in(kind: SheetKind, row: &ByteRecord) -> Option<&'static str>
    ensures { option_map (λ why. why.now) result ≡ reasons.where_so
        (reasons.is_unread kind (fields_of row.now))
        (reasons.unread_text (fields_of row.now)) }
{
    let quantity = field(row, 2);
    if row.len() != 3 {
        Some("a line has three fields: item, lot and quantity")
    } else if Ident::new(field(row, 0), MOST_ITEM).is_none() {
        Some("an item has 1 to 20 characters of A to Z, 0 to 9, - and .")
    } else if Ident::new(field(row, 1), MOST_LOT).is_none() {
        Some("a lot has 1 to 12 characters of A to Z, 0 to 9, - and .")
    } else if quantity.is_empty() || !all_digits(quantity) {
        Some("a quantity is digits alone")
    } else if matches!(kind, SheetKind::Pick)
        && quantity.len() <= SHEET_DIGITS
        && value_up_to(quantity, 1) == 0
    {
        Some("a picked quantity is 1 at least")
    } else {
        None
    }
}

// Why a record's quantity is over the limit, if it is.
fn too_much_in(kind: SheetKind, row: &ByteRecord) -> Option<&'static str>
    ensures { option_map (λ why. why.now) result ≡ reasons.where_so
        (reasons.is_over kind (reasons.line_in (fields_of row.now)))
        (reasons.over_text kind) }
{
    let text = field(row, 2);
    let most = u64::from(MOST_QUANTITY_TWO);
    let is_long = text.len() > SHEET_DIGITS;
    match kind {
        SheetKind::Recount if is_long => Some("a quantity is at most 999,999,999"),
        SheetKind::Recount => None,
        _ if is_long || value_up_to(text, most + 1) > most => Some("a quantity is at most 999,999"),
        _ => None,
    }
}

// Whether a record has this pair.
fn has_pair(row: &ByteRecord, item: &[u8], lot: &[u8]) -> bool
    ensures { result ≡ reasons.has_pair item.now lot.now (fields_of row.now) }
{
    field(row, 0) == item && field(row, 1) == lot
}

// The first record that has this pair.
fn row_of_pair<'a>(rows: &'a [ByteRecord], item: &[u8], lot: &[u8]) -> Option<&'a ByteRecord>
    ensures { option_map (λ row. fields_of row.now) result
        ≡ find (reasons.has_pair item.now lot.now) (map fields_of rows.now) }
{
    rows.iter().find(|row| has_pair(row, item, lot))
}

// Whether the pair of a record stands in one of those before it.
fn repeated_in(before: &[ByteRecord], row: &ByteRecord) -> Option<&'static str>
    ensures { option_map (λ why. why.now) result ≡ reasons.where_so
        (reasons.is_repeated (map fields_of before.now) (fields_of row.now))
        reasons.repeated_text }
{
    if row_of_pair(before, field(row, 0), field(row, 1)).is_some() {
        Some("a line before it has this pair")
    } else {
        None
    }
}

// The text of an identifier, whose bytes are ASCII.
fn text_of(ident: &[u8]) -> &str
    requires { IsTrue (list_all is_identifier_byte ident.now) }

    ensures { result.now ≡ ident.now }
{
    str::from_utf8(ident).unwrap_or("")
}

// What is wrong with a record, after its pair where that can be read.
fn told_of(alloc: Global, row: &ByteRecord, why: &str) -> Result<String, AllocError>
    ensures { IfOk result (λ text. string_bytes text
        ≡ reasons.told (fields_of row.now) why.now) }
{
    let (item, lot) = (field(row, 0), field(row, 1));
    if Ident::new(item, MOST_ITEM).is_none() || Ident::new(lot, MOST_LOT).is_none() {
        return String::from_str(alloc, why);
    }
    [text_of(item), " ", text_of(lot), ": ", why].concat(alloc)
}

// The line of a record. The reader tells where it began to read it, which is before the empty lines
// that it passes over. No contract of csv says where that is, so none says here which line it is.
fn line_of(text: &[u8], row: &ByteRecord) -> u64 {
    let Some(position) = row.position() else {
        return 1;
    };
    let mut line = position.line();
    let before = usize::try_from(position.byte()).unwrap_or(0);
    for b in text.iter().skip(before) {
        match *b {
            b'\n' => line = line.saturating_add(1),
            b'\r' => {}
            _ => break,
        }
    }
    line
}

// Why a record is the reason of this refusal, if it is; those before it are known.
fn bad_in(
    kind: SheetKind,
    row: &ByteRecord,
    before: &[ByteRecord],
    refusal: Refusal,
) -> Option<&'static str>
    ensures { option_map (λ why. why.now) result ≡ reasons.where_so
        (reasons.is_reason kind (map fields_of before.now) (fields_of row.now) refusal)
        (reasons.reason_text kind (fields_of row.now) refusal) }
{
    match refusal {
        Refusal::BadText => unread_in(kind, row),
        Refusal::TooMuch => too_much_in(kind, row),
        Refusal::RepeatedLine => repeated_in(before, row),
        Refusal::TooManyLines if before.len() == usize::from(MOST_LINES_TWO) => {
            Some("a sheet has at most 999 lines")
        }
        _ => None,
    }
}

// The first record that is a reason of this refusal, and why it is; None where none is.
fn first_bad_in(
    kind: SheetKind,
    rows: &[ByteRecord],
    refusal: Refusal,
) -> Option<(&ByteRecord, &'static str)>
    ensures row { option_map (λ found. fields_of found.0.now) result ≡ option_map (λ p. p.1)
        (reasons.first_reason kind refusal (map fields_of rows.now)) }
    ensures why { option_map (λ found. found.1.now) result
        ≡ option_map (λ p. reasons.reason_text kind p.1 refusal)
        (reasons.first_reason kind refusal (map fields_of rows.now)) }
{
    for (at, row) in rows.iter().enumerate() {
        if let Some(why) = bad_in(kind, row, &rows[..at], refusal) {
            return Some((row, why));
        }
    }
    None
}

/// The first line of a sheet's text that is a reason of this refusal (30 to 33), and why it is;
/// None where there is none. A text that is refused so has one. The one error is want of memory.
pub fn first_bad(
    alloc: Global,
    kind: SheetKind,
    text: &[u8],
    refusal: Refusal,
) -> Result<Option<BadLine>, AllocError>
    ensures told { IfOk result (λ found. option_map (λ bad. string_bytes bad.why) found
        ≡ reasons.told_of_text kind refusal text.now) }
    ensures refused { IfOk result (λ found. sheet_of_text Today kind text.now ≡ Err refusal
        → is_some found ≡ true) }
{
    let rows = first_records(alloc, text)?;
    let Some((row, why)) = first_bad_in(kind, &rows, refusal) else {
        return Ok(None);
    };
    Ok(Some(BadLine {
        line: line_of(text, row),
        why: told_of(alloc, row, why)?,
    }))
}

/// The line of a sheet's text, from 1, at which an item and a lot stand first; None where they
/// stand nowhere. The one error is want of memory.
pub fn line_of_pair(
    alloc: Global,
    text: &[u8],
    item: &[u8],
    lot: &[u8],
) -> Result<Option<u64>, AllocError>
    ensures { IfOk result (λ found. is_some found
        ≡ list_any (reasons.has_pair item.now lot.now) (reasons.first_records text.now)) }
{
    let rows = first_records(alloc, text)?;
    Ok(row_of_pair(&rows, item, lot).map(|row| line_of(text, row)))
}
