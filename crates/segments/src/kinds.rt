ghost use Rattle.std.specs.Prelude.{◌≡◌, ◌==◌, ◌&&◌, not, take, drop, nat_le, bytes_eq, length, true};
ghost use Rattle.std.specs.List.{list_all, list_any};
ghost use Rattle.definitions.specs.Bytes as bytes;
ghost use Rattle.definitions.specs.Moments as moments;
ghost use Rattle.definitions.specs.Elements as meant;
ghost use Rattle.segments.specs.Rows.{kind_of, row_of};

use crate::delims::Delims;
use crate::digits::{all_digits, number};
use crate::idents::{is_alphanumeric_byte, is_ident_byte};
use crate::moments::is_day;
use definitions::{DATE_DIGITS, LEAST_TIME};

/// The types of elements, as an element row names them.
pub enum Kind {
    /// One of these texts, the quoted values of a row.
    Coded(&'static [&'static [u8]]),
    /// Digits, of value at least 1.
    Quantity,
    /// Digits, of any value.
    Digits,
    /// Identifier bytes: A to Z, 0 to 9, `-` and `.`.
    Identifier,
    /// A to Z and 0 to 9.
    Alphanumeric,
    /// Data bytes.
    Data,
    /// Data bytes and component separators.
    Parts,
    /// CCYYMMDD, a date of the Gregorian calendar.
    Date,
    /// HHMM, HHMMSS or HHMMSSDD, of which the hours and minutes are tested.
    Time,
}

/// What an element may be: one row of a segment's element table.
pub struct ElementRow {
    /// Whether the element must be there.
    pub is_mandatory: bool,
    /// Its type.
    pub kind: Kind,
    /// The least length in bytes of an element that is there.
    pub least: usize,
    /// The greatest length in bytes.
    pub most: usize,
}

/// The row of an element that must be there, with its type and its least and greatest length in
/// bytes.
#[macro_export]
macro_rules! must {
    ($kind:expr, $least:expr, $most:expr) => {
        $crate::ElementRow {
            is_mandatory: true,
            kind: $kind,
            least: $least,
            most: $most,
        }
    };
}

// Whether the type takes the byte.
fn takes(delims: &Delims, kind: &Kind, b: u8) -> bool
    ensures { result ≡ meant.takes delims.now (kind_of kind.now) b }
{
    match kind {
        Kind::Coded(_) | Kind::Data => delims.leaves(b),
        Kind::Quantity | Kind::Digits | Kind::Date | Kind::Time => matches!(b, b'0'..=b'9'),
        Kind::Identifier => is_ident_byte(b),
        Kind::Alphanumeric => is_alphanumeric_byte(b),
        Kind::Parts => delims.leaves(b) || b == delims.component(),
    }
}

fn takes_all(delims: &Delims, kind: &Kind, element: &[u8]) -> bool
    ensures { result ≡ list_all (meant.takes delims.now (kind_of kind.now)) element.now }
{
    element.iter().all(|b| takes(delims, kind, *b))
}

// Whether the digits are of no value.
fn is_zero(text: &[u8]) -> bool
    ensures { result ≡ list_all (λ b. nat_le b 48) text.now }
{
    text.iter().all(|b| *b <= b'0')
}

// Whether eight digits are a day.
#[tactic(auto, using(crate::proofs::DigitsLemmas::taken_digits, crate::proofs::DigitsLemmas::dropped_digits))]
fn names_day(text: &[u8]) -> bool
    requires eight { length text.now ≡ 8 }
    requires digits { list_all bytes.is_digit text.now ≡ true }

    ensures { result ≡ moments.is_day (bytes.value (take 4 text.now))
        (bytes.value (take 2 (drop 4 text.now))) (bytes.value (drop 6 text.now)) }
{
    is_day(number(&text[..4]), number(&text[4..6]), number(&text[6..]))
}

fn is_date(text: &[u8]) -> bool
    ensures { result ≡ moments.is_date text.now }
{
    text.len() == DATE_DIGITS && all_digits(text) && names_day(text)
}

// Whether the first four are a time of day.
#[tactic(auto, using(crate::proofs::DigitsLemmas::taken_digits, crate::proofs::DigitsLemmas::dropped_digits))]
fn is_clock(text: &[u8]) -> bool
    ensures { result ≡ moments.is_clock text.now }
{
    text.len() == LEAST_TIME
        && all_digits(text)
        && number(&text[..2]) < 24
        && number(&text[2..]) < 60
}

fn is_time(text: &[u8]) -> bool
    ensures { result ≡ (moments.is_clock (take 4 text.now) && not (length text.now == 5)) }
{
    text.len() >= LEAST_TIME && text.len() != 5 && is_clock(&text[..LEAST_TIME])
}

fn is_among(texts: &[&[u8]], element: &[u8]) -> bool
    ensures { result ≡ list_any (λ t. bytes_eq element.now t.now) texts.now }
{
    texts.iter().any(|text| element == *text)
}

// What is wrong with a value of good length and bytes.
#[tactic(auto, using(crate::proofs::Values::zero_value, crate::proofs::Values::among_now))]
fn value_fault(kind: &Kind, element: &[u8]) -> Option<u8>
    ensures { result ≡ meant.value_fault (kind_of kind.now) element.now }
{
    match kind {
        Kind::Coded(texts) if !is_among(texts, element) => Some(7),
        Kind::Quantity if is_zero(element) => Some(7),
        Kind::Date if !is_date(element) => Some(8),
        Kind::Time if !is_time(element) => Some(8),
        _ => None,
    }
}

/// The code of the element's fault by its row (AK403), the first that holds of: 1 mandatory and
/// missing, 5 too long, 4 too short, 6 a wrong character, 7 a wrong code or a quantity of 0, 8 no
/// date (or time); None where it has none. An optional element that is empty has no fault.
pub fn element_fault(delims: &Delims, row: &ElementRow, element: &[u8]) -> Option<u8>
    ensures { result ≡ meant.element_fault delims.now (row_of row.now) element.now }
{
    if element.is_empty() {
        return if row.is_mandatory { Some(1) } else { None };
    }
    if element.len() > row.most {
        return Some(5);
    }
    if element.len() < row.least {
        return Some(4);
    }
    if !takes_all(delims, &row.kind, element) {
        return Some(6);
    }
    value_fault(&row.kind, element)
}
