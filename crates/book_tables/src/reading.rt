ghost use Rattle.std.specs.Prelude.{◌≡◌, ◌∷◌, [], ℕ, Bool, List, Option, Some, true, false, MatchOption, IfSome, IsNone, pos, length, ◌≤◌, ◌<◌, ◌^◌};
ghost use Rattle.definitions.specs.Header.{Who as Partner};
ghost use Rattle.definitions.specs.Bytes as bytes;
ghost use Rattle.definitions.specs.Moments.{Moment as Parts, is_moment};
ghost use Rattle.definitions.specs.Readings as written;
ghost use Rattle.definitions.specs.Rules.{rules_number};
ghost use Rattle.definitions.specs.Tables.{flag, text_or_null};
ghost use Rattle.sqlite.specs.Order.{column};
ghost use Rattle.sqlite.specs.declared.types.Value.TheVariants.{Int, Text, Blob};
ghost use Rattle.sqlite_value.specs.Value.{owned};
ghost use Rattle.rules.specs.Written.{Written};
ghost use Rattle.book_statements.specs.Held.{value_of};
ghost use Rattle.book_statements.specs.Recorded.{IsHouse, rules_shown};
ghost use Rattle.book_tables.specs.Showing.{is_state_of, lent_text, IsSentAs};

use definitions::Rules;
use rules::{Moment, OutKind, Warehouse, Who};
use segments::value_up_to;
use sqlite::Row;
use sqlite::types::ValueRef;
use store::DocumentState;

// The text that a value is.
fn text_in(value: ValueRef<'_>) -> Option<&[u8]>
    ensures { MatchOption result ((text : List ℕ) → owned value.entry ≡ Text text
        → ⊥) (λ text. owned value.entry ≡ Text text.now) }
{
    match value {
        ValueRef::Text(text) => Some(text),
        _ => None,
    }
}

// The text that a value is, if it isn't NULL; None where it is another value than these.
fn text_or_null_in(value: ValueRef<'_>) -> Option<Option<&[u8]>>
    ensures { MatchOption result ((text : Option (List ℕ))
        → owned value.entry ≡ value_of (text_or_null text) → ⊥)
        (λ text. owned value.entry ≡ value_of (text_or_null (lent_text text))) }
{
    match value {
        ValueRef::Null => Some(None),
        ValueRef::Text(text) => Some(Some(text)),
        _ => None,
    }
}

// The blob that a value is.
fn blob_in(value: ValueRef<'_>) -> Option<&[u8]>
    ensures { MatchOption result ((blob : List ℕ) → owned value.entry ≡ Blob blob
        → ⊥) (λ blob. owned value.entry ≡ Blob blob.now) }
{
    match value {
        ValueRef::Blob(blob) => Some(blob),
        _ => None,
    }
}

// The number that a value is, which is one that SQLite can hold.
fn number_in(value: ValueRef<'_>) -> Option<u64>
    ensures few { IfSome result (λ n. n < 2 ^ 63) }
    ensures number { MatchOption result ((n : ℕ) → owned value.entry ≡ Int (pos n)
        → ⊥) (λ n. owned value.entry ≡ Int (pos n)) }
{
    match value {
        ValueRef::Int(n) => u64::try_from(n).ok(),
        _ => None,
    }
}

/// The text in a column.
pub(crate) fn text_at(row: &Row, at: usize) -> Option<&[u8]>
    ensures { MatchOption result ((text : List ℕ) → column row.now at ≡ Text text
        → ⊥) (λ text. column row.now at ≡ Text text.now) }
{
    match row.get_ref(at) {
        Ok(value) => text_in(value),
        Err(_) => None,
    }
}

/// The text in a column, or that the column is NULL; None where it has another value, or there is
/// no such column.
pub(crate) fn text_or_null_at(row: &Row, at: usize) -> Option<Option<&[u8]>>
    ensures { MatchOption result ((text : Option (List ℕ)) → at < length row.now
        → column row.now at ≡ value_of (text_or_null text) → ⊥)
        (λ text. column row.now at ≡ value_of (text_or_null (lent_text text))) }
{
    match row.get_ref(at) {
        Ok(value) => text_or_null_in(value),
        Err(_) => None,
    }
}

/// The blob in a column.
pub(crate) fn blob_at(row: &Row, at: usize) -> Option<&[u8]>
    ensures { MatchOption result ((blob : List ℕ) → column row.now at ≡ Blob blob
        → ⊥) (λ blob. column row.now at ≡ Blob blob.now) }
{
    match row.get_ref(at) {
        Ok(value) => blob_in(value),
        Err(_) => None,
    }
}

/// The number in a column, which SQLite can hold; None where it is below 0 too.
pub(crate) fn number_at(row: &Row, at: usize) -> Option<u64>
    ensures few { IfSome result (λ n. n < 2 ^ 63) }
    ensures number { MatchOption result ((n : ℕ) → column row.now at ≡ Int (pos n)
        → ⊥) (λ n. column row.now at ≡ Int (pos n)) }
{
    match row.get_ref(at) {
        Ok(value) => number_in(value),
        Err(_) => None,
    }
}

/// The number in a column, of at most 32 bits; None where it is another.
pub(crate) fn small_at(row: &Row, at: usize) -> Option<u32>
    ensures { MatchOption result ((n : ℕ) → n < 2 ^ 32 → column row.now at ≡ Int (pos n)
        → ⊥) (λ n. column row.now at ≡ Int (pos n)) }
{
    match number_at(row, at) {
        Some(n) => u32::try_from(n).ok(),
        None => None,
    }
}

/// The flag in a column; None where it is neither 0 nor 1.
pub(crate) fn flag_at(row: &Row, at: usize) -> Option<bool>
    ensures { MatchOption result ((b : Bool) → column row.now at ≡ value_of (flag b)
        → ⊥) (λ b. column row.now at ≡ value_of (flag b)) }
{
    match number_at(row, at) {
        Some(0) => Some(false),
        Some(1) => Some(true),
        _ => None,
    }
}

// The value of at most four bytes as digits, of which a million cuts nothing.
fn value(text: &[u8]) -> u64
    requires { length text.now ≤ 4 }

    ensures { result ≡ bytes.value text.now }
{
    value_up_to(text, 1_000_000)
}

// The moment with these parts, if there is one.
fn moment_by(year: u64, month: u64, day: u64, hour: u64, minute: u64) -> Option<Moment>
    ensures { let m : Parts = record {
      year = year;
      month = month;
      day = day;
      hour = hour;
      minute =
          minute;
    } in MatchOption result (is_moment m ≡ false) (λ r. (is_moment m ≡ true) × (r ≡ m)) }
{
    Moment::new(
        u16::try_from(year).ok()?,
        u8::try_from(month).ok()?,
        u8::try_from(day).ok()?,
        u8::try_from(hour).ok()?,
        u8::try_from(minute).ok()?,
    )
}

/// The moment that a text writes as CCYYMMDDHHMM; None where it is another text.
pub(crate) fn moment_of(text: &[u8]) -> Option<Moment>
    ensures { result ≡ written.moment_of text.now }
{
    if text.len() != 12 {
        return None;
    }
    let moment = moment_by(
        value(&text[..4]),
        value(&text[4..6]),
        value(&text[6..8]),
        value(&text[8..10]),
        value(&text[10..12]),
    )?;
    if moment.stamp().as_slice() == text {
        Some(moment)
    } else {
        None
    }
}

/// The rules whose number stands in the first column, as in rows of `entry_rules` and `book`; None
/// where another stands there.
pub(crate) fn rules_in(row: &Row) -> Option<Rules>
    ensures shows { (w : Written) → row.now ≡ rules_shown w → result ≡ Some w.rules }
    ensures only { IfSome result (λ q. column row.now 0 ≡ Int (pos (rules_number q))) }
    ensures none { IsNone result → (q : Rules) → column row.now 0 ≡ Int (pos (rules_number q)) → ⊥ }
{
    match number_at(row, 0)? {
        1 => Some(Rules::One),
        2 => Some(Rules::Two),
        _ => None,
    }
}

// Whether a text of this kind can have this state.
fn is_state_of(kind: OutKind, state: DocumentState) -> bool
    ensures { result ≡ is_state_of kind state }
{
    match kind {
        OutKind::Answer => matches!(state, DocumentState::Unasked),
        _ => !matches!(state, DocumentState::Unasked),
    }
}

/// What a text that went out is and what was said of it, as two columns of its row have the words;
/// None where the one is no kind's word, or the other is no word of a state that this kind can
/// have. A row that shows none is no answer's either, so whoever reads it must not pass it over.
pub(crate) fn sent_as(row: &Row, kind: usize, state: usize) -> Option<(OutKind, DocumentState)>
    ensures { MatchOption result ((k : OutKind) (s : DocumentState)
        → IsSentAs row.now kind state k s → ⊥)
        (λ it. IsSentAs row.now kind state it.0 it.1) }
{
    let what = OutKind::of_text(text_at(row, kind)?)?;
    let said = DocumentState::of_text(text_at(row, state)?)?;
    if is_state_of(what, said) {
        Some((what, said))
    } else {
        None
    }
}

// The version and the warehouse that a row of `book` names.
fn house_in(row: &Row) -> Option<(Rules, Warehouse)>
    ensures { MatchOption result ((q : Rules) (W : Partner) → IsHouse q (row.now ∷ []) W
        → ⊥) (λ h. IsHouse h.0 (row.now ∷ []) h.1) }
{
    let version = rules_in(row)?;
    let who = Who::of(text_at(row, 1)?, text_at(row, 2)?)?;
    Some((version, Warehouse::new(who)))
}

/// The version and the warehouse that the rows of `book` name; None where there isn't one row, or
/// it has another version than 1 and 2, or no partner.
pub(crate) fn house_of(rows: &[Row]) -> Option<(Rules, Warehouse)>
    ensures { MatchOption result ((q : Rules) (W : Partner) → IsHouse q rows.now W
        → ⊥) (λ h. IsHouse h.0 rows.now h.1) }
{
    match rows {
        [row] => house_in(row),
        _ => None,
    }
}
