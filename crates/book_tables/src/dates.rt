ghost use Rattle.std.specs.Borrow.{Bor};
ghost use Rattle.std.specs.Prelude.{◌≡◌, ◌∷◌, ◌&&◌, ℕ, List, None, Some, IfOk, bytes_eq, if◌then◌else◌, map, option_map, true};
ghost use Rattle.definitions.specs.Rows.{LotRow};
ghost use Rattle.sqlite.specs.Order.{column};
ghost use Rattle.sqlite.specs.declared.types.Value.TheVariants.{Text};
ghost use Rattle.rules.specs.Keyed.{key_before, rises_by, row_key};
ghost use Rattle.book_statements.specs.Dated.{Dated, date_shown, dates_of};

use crate::reading::text_at;
use sqlite::Row;
use std::alloc::{AllocError, Global};

/// A copy of a text, if there is one.
pub(crate) fn copied(alloc: Global, text: Option<&[u8]>) -> Result<Option<Vec<u8>>, AllocError>
    ensures { IfOk result (λ copy. option_map (λ v. v.items) copy
        ≡ option_map (λ (t : Bor (List ℕ)). t.now) text.entry) }
{
    match text {
        Some(text) => Ok(Some(Vec::from_slice(alloc, text)?)),
        None => Ok(None),
    }
}

// The date in a row of item, lot and expiry, where it is of the pair that another row begins with.
fn date_in<'a>(row: &Row, date: &'a Row) -> Option<&'a [u8]>
    ensures { (item lot : List ℕ) (d : Dated) → column row.now 0 ≡ Text item
        → column row.now 1 ≡ Text lot → date.now ≡ date_shown d
        → option_map (λ (t : Bor (List ℕ)). t.now) result
        ≡ (if bytes_eq item d.item && bytes_eq lot d.lot then Some d.expiry else None) }
{
    let item = text_at(row, 0)?;
    let lot = text_at(row, 1)?;
    let its_item = text_at(date, 0)?;
    let its_lot = text_at(date, 1)?;
    if item == its_item && lot == its_lot {
        text_at(date, 2)
    } else {
        None
    }
}

/// The date of the pair that a row begins with, if rows of item, lot and expiry begin with it, and
/// those after it. Where the rows of lots and those of dates stand by item and lot, each date is
/// met at the row of its pair.
pub(crate) fn next_date<'a>(row: &Row, dates: &'a [Row]) -> (Option<&'a [u8]>, &'a [Row])
    ensures { (r : LotRow) (rs : List LotRow) → rises_by key_before row_key (r ∷ rs) ≡ true
        → column row.now 0 ≡ Text r.item → column row.now 1 ≡ Text r.lot
        → dates.now ≡ map date_shown (dates_of (r ∷ rs))
        → (option_map (λ (t : Bor (List ℕ)). t.now) result.0 ≡ r.expiry)
        × (result.1.now ≡ map date_shown (dates_of rs)) }
{
    let Some((first, rest)) = dates.split_first() else {
        return (None, dates);
    };
    match date_in(row, first) {
        Some(date) => (Some(date), rest),
        None => (None, dates),
    }
}
