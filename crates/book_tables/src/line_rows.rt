ghost use Rattle.std.specs.Prelude.{◌≡◌, ◌<◌, ◌^◌, List, Some, IfOk, map, option_map, true, length, IfSome, ◌≤◌};
ghost use Rattle.std.specs.List.{list_all};
ghost use Rattle.definitions.specs.Rules.{Today};
ghost use Rattle.definitions.specs.Means.{Line};
ghost use Rattle.rules.specs.Fitting.{is_fitting_line};
ghost use Rattle.book_tables.specs.Showing.{line_shown};

use crate::reading::{small_at, text_at};
use rules::Goods;
use sqlite::Row;
use std::alloc::{AllocError, Global};

// The line that a row of item, lot and quantity shows; None where it shows none.
fn line_in(alloc: Global, row: &Row) -> Result<Option<Goods>, AllocError>
    ensures { (l : Line) → l.quantity < 2 ^ 32 → row.now ≡ line_shown l
        → IfOk result (λ shown. shown ≡ Some l) }
{
    let Some(item) = text_at(row, 0) else {
        return Ok(None);
    };
    let Some(lot) = text_at(row, 1) else {
        return Ok(None);
    };
    let Some(quantity) = small_at(row, 2) else {
        return Ok(None);
    };
    Ok(Some(Goods {
        item: Vec::from_slice(alloc, item)?,
        lot: Vec::from_slice(alloc, lot)?,
        quantity,
    }))
}

/// The lines that rows of item, lot and quantity show; None where one of them shows none.
pub(crate) fn lines_in(alloc: Global, rows: &[Row]) -> Result<Option<Vec<Goods>>, AllocError>
    ensures shows { (ls : List Line) → list_all (is_fitting_line Today) ls ≡ true
        → rows.now ≡ map line_shown ls → IfOk result
        (λ shown. option_map (λ v. v.items) shown ≡ Some ls) }
    ensures all { IfOk result (λ shown. IfSome shown (λ v. length rows.now ≤ length v.items)) }
{
    let mut shown = Vec::new(alloc);
    for row in rows {
        let Some(line) = line_in(alloc, row)? else {
            return Ok(None);
        };
        shown.push(line)?;
    }
    Ok(Some(shown))
}
