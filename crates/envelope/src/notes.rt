ghost use Rattle.std.specs.Prelude.{◌≡◌, ◌++◌, length, codes, is_none, [], ◌∷◌};
ghost use Rattle.definitions.specs.Bytes.{is_one_of};
ghost use Rattle.definitions.specs.Moments as moments;
ghost use Rattle.definitions.specs.Halt.{header_notes};
ghost use Rattle.envelope.specs.Conditions as meant;

use crate::bytes::{all_spaces, same};
use crate::header::Isa;
use definitions::{DATE_DIGITS, LEAST_TIME};
use segments::{Delims, ElementRow, Kind, Who, element_fault, must};

// ISA09 after the century, and ISA10: the rows that tell a date and a time of day.
const DATE: ElementRow = must!(Kind::Date, DATE_DIGITS, DATE_DIGITS);

const CLOCK: ElementRow = must!(Kind::Time, LEAST_TIME, LEAST_TIME);

// Whether the six digits are a date of the years 2000 to 2099.
fn is_date(delims: &Delims, text: &[u8]) -> bool
    requires { length text.now ≡ 6 }

    ensures { result ≡ moments.is_date (codes "20" ++ text.now) }
{
    let mut date = *b"20000000";
    date[2..].copy_from_slice(text);
    element_fault(delims, &DATE, &date).is_none()
}

// Whether the four digits are a time of day.
fn is_clock(delims: &Delims, text: &[u8]) -> bool
    requires { length text.now ≡ 4 }

    ensures { result ≡ moments.is_clock text.now }
{
    element_fault(delims, &CLOCK, text).is_none()
}

// Whether ISA14, which asks for a TA1, is 0 or 1.
fn is_request(text: &[u8]) -> bool
    ensures { result ≡ is_one_of (codes "0" ∷ codes "1" ∷ []) text.now }
{
    same(text, b"0") || same(text, b"1")
}

// The note of the first condition on ISA09 to ISA15 that holds.
fn late_note(isa: &Isa<'_>) -> Option<u8>
    ensures { result ≡ meant.first_note (meant.late_notes isa.now) }
{
    if !is_date(&isa.delims(), isa.element(9)) {
        return Some(14);
    }
    if !is_clock(&isa.delims(), isa.element(10)) {
        return Some(15);
    }
    if !same(isa.element(11), b"U") {
        return Some(2);
    }
    if !same(isa.element(12), b"00401") {
        return Some(3);
    }
    if !is_request(isa.element(14)) {
        return Some(19);
    }
    if !same(isa.element(15), b"P") {
        return Some(20);
    }
    None
}

/// The note of the first condition on the header that holds, if one does: 9 the receiver (ISA07 and
/// ISA08) isn't the warehouse, 10 to 13 the authorization and security elements (ISA01 to ISA04),
/// 14 the date (ISA09), 15 the time (ISA10), 2 the standard (ISA11), 3 the version (ISA12), 19 the
/// request for a TA1 (ISA14), 20 the usage indicator (ISA15).
pub fn header_note(isa: &Isa<'_>, warehouse: &Who) -> Option<u8>
    ensures { result ≡ meant.first_note (header_notes warehouse.now isa.now) }
{
    if !isa.is_addressed_to(warehouse) {
        return Some(9);
    }
    if !same(isa.element(1), b"00") {
        return Some(10);
    }
    if !all_spaces(isa.element(2)) {
        return Some(11);
    }
    if !same(isa.element(3), b"00") {
        return Some(12);
    }
    if !all_spaces(isa.element(4)) {
        return Some(13);
    }
    late_note(isa)
}
