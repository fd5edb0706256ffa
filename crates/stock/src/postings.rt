//! What lines add to the columns of rows, take from them and set in them.
ghost use Rattle.std.specs.Prelude.{◌≡◌, [], ◌∷◌, ◌≤◌, ◌<◌, ◌+◌, ◌^◌, ℕ, List, map, OnOk};
ghost use Rattle.definitions.specs.Events.{quantity_of};
ghost use Rattle.definitions.specs.Movements.{Expected, OnHand, Reservation, Shipped};
ghost use Rattle.page_rows.specs.Keyed.{IsSorted};
ghost use Rattle.page_rows.specs.OfPairs.{of_pair, one, amount, named_by};
ghost use Rattle.page_rows.specs.Moved.{IsAdded, IsTaken, IsMarked, IsDated, IsCounted, IsRaised, IsShipped, SetsOnHand};
ghost use Rattle.page_rows.specs.Columns.{column_of};

use crate::places::placed;
use page_rows::{Column, Row, place_of};
use sets_in::{AdviceLine, Goods};
use std::alloc::{AllocError, Global};

// Adds a line to a column.
fn add_line(
    alloc: Global,
    rows: &mut Vec<Row>,
    column: Column,
    line: &Goods,
) -> Result<(), AllocError>
    requires sorted { IsSorted rows.old.items }
    requires fits { of_pair (amount (column_of column)) line.now.item line.now.lot rows.old.items +
        line.now.quantity < 2 ^ 64 }

    ensures { OnOk result (IsAdded (column_of column) (line.now ∷ []) rows.old.items
        rows.new.items) }
{
    let i = placed(alloc, rows, line)?;
    let row = &mut rows[i];
    row.add(column, line.quantity);
    Ok(())
}

// Takes a line from a column.
fn take_line(rows: &mut Vec<Row>, column: Column, line: &Goods)
    requires sorted { IsSorted rows.old.items }
    requires there { line.now.quantity ≤ of_pair (amount (column_of column)) line.now.item
        line.now.lot rows.old.items }

    ensures { IsTaken (column_of column) (line.now ∷ []) rows.old.items rows.new.items }
{
    if let Some(i) = place_of(rows, &line.item, &line.lot) {
        let row = &mut rows[i];
        row.take(column, line.quantity);
    }
}

// Adds a line to a column of its row, if there is one.
fn raise_line(rows: &mut Vec<Row>, column: Column, line: &Goods)
    requires sorted { IsSorted rows.old.items }
    requires fits { of_pair (amount (column_of column)) line.now.item line.now.lot rows.old.items +
        line.now.quantity < 2 ^ 64 }
    requires there { of_pair one line.now.item line.now.lot rows.old.items ≡ 0
        → line.now.quantity ≡ 0 }

    ensures { IsRaised (column_of column) (line.now ∷ []) rows.old.items rows.new.items }
{
    if let Some(i) = place_of(rows, &line.item, &line.lot) {
        let row = &mut rows[i];
        row.add(column, line.quantity);
    }
}

// Adds the lines to a column of their rows; a line whose pair has no row is of nothing.
pub(crate) fn raise_lines(rows: &mut Vec<Row>, column: Column, lines: &[Goods])
    requires sorted { IsSorted rows.old.items }
    requires fits { (item lot : List ℕ)
        → of_pair (amount (column_of column)) item lot rows.old.items
        + quantity_of lines.now item lot < 2 ^ 64 }
    requires there { (item lot : List ℕ) → of_pair one item lot rows.old.items ≡ 0
        → quantity_of lines.now item lot ≡ 0 }

    ensures { IsRaised (column_of column) lines.now rows.old.items rows.new.items }
{
    for line in lines {
        raise_line(rows, column, line);
    }
}

// Takes the sheet from what is on hand and adds it to what was shipped; takes what was reserved.
pub(crate) fn ship(rows: &mut Vec<Row>, reserved: &[Goods], sheet: &[Goods])
    requires sorted { IsSorted rows.old.items }
    requires on_hand { (item lot : List ℕ)
        → quantity_of sheet.now item lot ≤ of_pair (amount OnHand) item lot rows.old.items }
    requires fits { (item lot : List ℕ)
        → of_pair (amount Shipped) item lot rows.old.items + quantity_of sheet.now item lot < 2 ^
        64 }
    requires there { (item lot : List ℕ)
        → quantity_of reserved.now item lot ≤ of_pair (amount Reservation) item lot rows.old.items }

    ensures { IsShipped reserved.now sheet.now rows.old.items rows.new.items }
{
    take_lines(rows, Column::OnHand, sheet);
    raise_lines(rows, Column::Shipped, sheet);
    take_lines(rows, Column::Reservation, reserved);
}

// Sets what is on hand of the line's pair.
fn set_line(rows: &mut Vec<Row>, line: &Goods)
    requires sorted { IsSorted rows.old.items }
    requires there { 1 ≤ of_pair one line.now.item line.now.lot rows.old.items }

    ensures { SetsOnHand (line.now ∷ []) rows.old.items rows.new.items }
{
    if let Some(i) = place_of(rows, &line.item, &line.lot) {
        let row = &mut rows[i];
        row.set_on_hand(line.quantity);
    }
}

// Sets what is on hand of the lines' pairs.
pub(crate) fn set_lines(rows: &mut Vec<Row>, lines: &[Goods])
    requires sorted { IsSorted rows.old.items }
    requires there { (item lot : List ℕ)
        → named_by lines.now item lot ≤ of_pair one item lot rows.old.items }

    ensures { SetsOnHand lines.now rows.old.items rows.new.items }
{
    for line in lines {
        set_line(rows, line);
    }
}

// Adds the lines to a column.
pub(crate) fn add_lines(
    alloc: Global,
    rows: &mut Vec<Row>,
    column: Column,
    lines: &[Goods],
) -> Result<(), AllocError>
    requires sorted { IsSorted rows.old.items }
    requires fits { (item lot : List ℕ)
        → of_pair (amount (column_of column)) item lot rows.old.items
        + quantity_of lines.now item lot < 2 ^ 64 }

    ensures { OnOk result (IsAdded (column_of column) lines.now rows.old.items rows.new.items) }
{
    for line in lines {
        add_line(alloc, rows, column, line)?;
    }
    Ok(())
}

// Takes the lines from a column.
pub(crate) fn take_lines(rows: &mut Vec<Row>, column: Column, lines: &[Goods])
    requires sorted { IsSorted rows.old.items }
    requires there { (item lot : List ℕ)
        → quantity_of lines.now item lot ≤ of_pair (amount (column_of column)) item lot
        rows.old.items }

    ensures { IsTaken (column_of column) lines.now rows.old.items rows.new.items }
{
    for line in lines {
        take_line(rows, column, line);
    }
}

// Numbers the line's row, if it has no number.
fn mark_line(rows: &mut Vec<Row>, n: u32, line: &Goods)
    requires sorted { IsSorted rows.old.items }
    requires there { 1 ≤ of_pair one line.now.item line.now.lot rows.old.items }

    ensures { IsMarked n (line.now ∷ []) rows.old.items rows.new.items }
{
    if let Some(i) = place_of(rows, &line.item, &line.lot) {
        let row = &mut rows[i];
        row.mark(n);
    }
}

// Numbers the rows of the lines that have no number.
pub(crate) fn mark_lines(rows: &mut Vec<Row>, n: u32, lines: &[Goods])
    requires positive { 0 < n }
    requires sorted { IsSorted rows.old.items }
    requires there { (item lot : List ℕ)
        → named_by lines.now item lot ≤ of_pair one item lot rows.old.items }

    ensures { IsMarked n lines.now rows.old.items rows.new.items }
{
    for line in lines {
        mark_line(rows, n, line);
    }
}

// Gives the line's row the date of the line, if it has none.
fn date_line(alloc: Global, rows: &mut Vec<Row>, line: &AdviceLine) -> Result<(), AllocError>
    requires sorted { IsSorted rows.old.items }
    requires there { 1 ≤ of_pair one line.now.line.item line.now.line.lot rows.old.items }

    ensures { OnOk result (IsDated (line.now ∷ []) rows.old.items rows.new.items) }
{
    let goods = &line.line;
    if let Some(i) = place_of(rows, &goods.item, &goods.lot) {
        let row = &mut rows[i];
        row.date(alloc, line)?;
    }
    Ok(())
}

// Gives the rows of the lines that have no date those of the lines.
pub(crate) fn date_lines(
    alloc: Global,
    rows: &mut Vec<Row>,
    lines: &[AdviceLine],
) -> Result<(), AllocError>
    requires sorted { IsSorted rows.old.items }
    requires there { (item lot : List ℕ)
        → named_by (map (λ l. l.line) lines.now) item lot ≤ of_pair one item lot rows.old.items }

    ensures { OnOk result (IsDated lines.now rows.old.items rows.new.items) }
{
    for line in lines {
        date_line(alloc, rows, line)?;
    }
    Ok(())
}

// Takes what was expected, adds the sheet to what is on hand, and numbers the sheet's rows.
pub(crate) fn count(
    alloc: Global,
    rows: &mut Vec<Row>,
    n: u32,
    expected: &[Goods],
    sheet: &[Goods],
) -> Result<(), AllocError>
    requires positive { 0 < n }
    requires sorted { IsSorted rows.old.items }
    requires there { (item lot : List ℕ)
        → quantity_of expected.now item lot ≤ of_pair (amount Expected) item lot rows.old.items }
    requires fits { (item lot : List ℕ)
        → of_pair (amount OnHand) item lot rows.old.items + quantity_of sheet.now item lot < 2 ^
        64 }

    ensures { OnOk result (IsCounted n expected.now sheet.now rows.old.items rows.new.items) }
{
    take_lines(rows, Column::Expected, expected);
    add_lines(alloc, rows, Column::OnHand, sheet)?;
    mark_lines(rows, n, sheet);
    Ok(())
}
