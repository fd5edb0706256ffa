//! What is left of rows' amounts as lines are taken from them: each line is looked up once.
ghost use Rattle.std.specs.Prelude.{◌≡◌, ◌∷◌, [], IfOk, length, map};
ghost use Rattle.definitions.specs.Events as events;
ghost use Rattle.page_rows.specs.Columns.{column_of};
ghost use Rattle.page_rows.specs.Keyed.{IsSorted};
ghost use Rattle.stock.specs.Left.{IsLess};
ghost use Rattle.page_rows.specs.Pages as pages;
ghost use Rattle.page_rows.specs.OfPairs.{amount};

use page_rows::{Column, KnownAdvice, KnownOrder, Row, place_of};
use sets_in::Goods;
use std::alloc::{AllocError, Global};

// An amount of each row.
pub(crate) fn amounts(alloc: Global, rows: &[Row], column: Column) -> Result<Vec<u64>, AllocError>
    ensures { IfOk result (λ left. left.items ≡ map (amount (column_of column)) rows.now) }
{
    let mut left = Vec::new(alloc);
    for row in rows {
        left.push(row.amount(column))?;
    }
    Ok(left)
}

// Takes a line from what is left of its row; whether so much was left.
fn take_line(rows: &[Row], left: &mut Vec<u64>, line: &Goods) -> bool
    requires sorted { IsSorted rows.now }
    requires beside { length left.old.items ≡ length rows.now }

    ensures { IsLess rows.now (events.quantity_of (line.now ∷ [])) left.old.items left.new.items
        result }
{
    match place_of(rows, &line.item, &line.lot) {
        None => line.quantity == 0,
        Some(i) => match left[i].checked_sub(u64::from(line.quantity)) {
            None => false,
            Some(less) => {
                left[i] = less;
                true
            }
        },
    }
}

// Takes lines from what is left of their rows; whether so much was left.
fn take_lines(rows: &[Row], left: &mut Vec<u64>, lines: &[Goods]) -> bool
    requires sorted { IsSorted rows.now }
    requires beside { length left.old.items ≡ length rows.now }

    ensures { IsLess rows.now (events.quantity_of lines.now) left.old.items left.new.items result }
{
    for line in lines {
        if !take_line(rows, left, line) {
            return false;
        }
    }
    true
}

// Takes what open advices bring; whether so much was left.
pub(crate) fn take_awaited(rows: &[Row], left: &mut Vec<u64>, advices: &[KnownAdvice]) -> bool
    requires sorted { IsSorted rows.now }
    requires beside { length left.old.items ≡ length rows.now }

    ensures { IsLess rows.now (pages.awaited advices.now) left.old.items left.new.items result }
{
    for advice in advices {
        if advice.is_open() && !take_lines(rows, left, advice.lines()) {
            return false;
        }
    }
    true
}

// Takes what open orders hold; whether so much was left.
pub(crate) fn take_held(rows: &[Row], left: &mut Vec<u64>, orders: &[KnownOrder]) -> bool
    requires sorted { IsSorted rows.now }
    requires beside { length left.old.items ≡ length rows.now }

    ensures { IsLess rows.now (pages.held orders.now) left.old.items left.new.items result }
{
    for order in orders {
        if order.is_open && !take_lines(rows, left, &order.reserved) {
            return false;
        }
    }
    true
}
