ghost use Rattle.std.specs.Prelude.{◌≡◌, IfOk, map};
ghost use Rattle.page_rows.specs.Keyed.{IsSorted};
ghost use Rattle.page_rows.specs.OfPairs.{changed_rows};
ghost use Rattle.stock.specs.declared.steps.Change.TheVariants.{Stock};

use crate::places::has_row;
use crate::steps::Change;
use page_rows::Row;
use std::alloc::{AllocError, Global};

/// The rows of pairs that aren't those of the page.
pub(crate) fn row_changes(
    alloc: Global,
    rows: &[Row],
    touched: &[Row],
) -> Result<Vec<Change>, AllocError>
    requires { IsSorted rows.now }

    ensures { IfOk result
        (λ changes. changes.items ≡ map Stock (changed_rows rows.now touched.now)) }
{
    let mut changes = Vec::new(alloc);
    for row in touched {
        if !has_row(rows, row) {
            changes.push(Change::Stock(row.copy()?))?;
        }
    }
    Ok(changes)
}
