//! Rows in order: one is put, made, copied and looked for by its pair.
ghost use Rattle.std.specs.Prelude.{◌≡◌, ◌<◌, List, IfOk, OnOk, true};
ghost use Rattle.std.specs.List.{list_any};
ghost use Rattle.definitions.specs.Events.{is_pair, is_redated};
ghost use Rattle.definitions.specs.Means.{Line};
ghost use Rattle.page_rows.specs.Keyed.{put_row, IsSorted};
ghost use Rattle.page_rows.specs.OfPairs.{AreRowsOf, date_of_pair, one, same_row, blank};
ghost use Rattle.stock.specs.Touched.{IsTouched, IsTouchedBy};
ghost use Rattle.page_rows.specs.Moved.{IsPlaced};

use page_rows::{Row, place_of, rank_of};
use sets_in::{AdviceLine, Goods};
use std::alloc::{AllocError, Global};

// Whether one of the lines of which these are the rows is of the pair.
pub(crate) fn is_among(seen: &[Row], item: &[u8], lot: &[u8]) -> bool
    requires { IsSorted seen.now }

    ensures { (lines : List Line) → AreRowsOf lines seen.now
        → result ≡ list_any (is_pair item.now lot.now) lines }
{
    match place_of(seen, item, lot) {
        None => false,
        Some(_) => true,
    }
}

// Puts a row in the place of that of its pair, or where that belongs.
pub(crate) fn put_row(rows: &mut Vec<Row>, row: Row) -> Result<(), AllocError>
    requires { IsSorted rows.old.items }

    ensures { OnOk result (rows.new.items ≡ put_row row rows.old.items) }
{
    if let Some(i) = place_of(rows, &row.item, &row.lot) {
        rows[i] = row;
        return Ok(());
    }
    let i = rank_of(rows, &row.item, &row.lot);
    rows.insert(i, row)?;
    Ok(())
}

// The rows of the pairs that the lines name, as they are.
pub(crate) fn touched(alloc: Global, rows: &[Row], lines: &[Goods]) -> Result<Vec<Row>, AllocError>
    requires { IsSorted rows.now }

    ensures { IfOk result (λ touched. IsTouched lines.now rows.now touched.items) }
{
    let mut touched = Vec::new(alloc);
    for line in lines {
        touch(rows, &mut touched, line)?;
    }
    Ok(touched)
}

// Adds a copy of the row of a line's pair, if there is one.
fn touch(rows: &[Row], touched: &mut Vec<Row>, line: &Goods) -> Result<(), AllocError>
    requires rows { IsSorted rows.now }
    requires touched { IsSorted touched.old.items }

    ensures { OnOk result (IsTouchedBy line.now rows.now touched.old.items touched.new.items) }
{
    if let Some(i) = place_of(rows, &line.item, &line.lot) {
        put_row(touched, rows[i].copy()?)?;
    }
    Ok(())
}

// Whether a line gives a date to a pair whose row has another.
pub(crate) fn is_redated(rows: &[Row], line: &AdviceLine) -> bool
    requires { IsSorted rows.now }

    ensures { result ≡ is_redated (λ item lot. date_of_pair item lot rows.now) line.now }
{
    let goods = &line.line;
    match place_of(rows, &goods.item, &goods.lot) {
        None => false,
        Some(i) => rows[i].is_redated(line),
    }
}

// The place of the line's row, which is made where there is none.
pub(crate) fn placed(alloc: Global, rows: &mut Vec<Row>, line: &Goods) -> Result<usize, AllocError>
    requires { IsSorted rows.old.items }

    ensures { IfOk result (λ i. IsPlaced rows.old.items rows.new.items line.now i) }
{
    if let Some(i) = place_of(rows, &line.item, &line.lot) {
        return Ok(i);
    }
    let i = rank_of(rows, &line.item, &line.lot);
    rows.insert(i, Row::blank(alloc, line)?)?;
    Ok(i)
}

// Whether the row is one of these.
pub(crate) fn has_row(rows: &[Row], row: &Row) -> bool
    requires { IsSorted rows.now }

    ensures { result ≡ list_any (same_row row.now) rows.now }
{
    match place_of(rows, &row.item, &row.lot) {
        None => false,
        Some(i) => row.is_same(&rows[i]),
    }
}
