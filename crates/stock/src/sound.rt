//! Whether lists are those of a page: what is true of every page is checked of them.
ghost use Rattle.std.specs.Prelude.{◌≡◌, ◌+◌, ◌<◌, IfOk, MatchOption, map, nat_le, true, bytes_eq, if◌then◌else◌};
ghost use Rattle.std.specs.List.{list_all, list_any};
ghost use Rattle.definitions.specs.Bytes.{is_one_of};
ghost use Rattle.definitions.specs.Events as events;
ghost use Rattle.page_rows.specs.Keyed.{IsSorted};
ghost use Rattle.page_rows.specs.Pages as pages;
ghost use Rattle.page_rows.specs.Soundness as meant;
ghost use Rattle.page_rows.specs.OfPairs.{AreRowsOf};
ghost use Rattle.stock.specs.Facts.{facts_of};

use crate::facts::Facts;
use crate::left::{amounts, take_awaited, take_held};
use crate::places::{is_among, placed};
use definitions::MOST_ENTRIES;
use page_rows::{
    Column, KnownAdvice, KnownLine, KnownOrder, Row, amount_of, are_within, is_of, new_line,
};
use sets_in::Goods;
use std::alloc::{AllocError, Global};

// What is left of an amount after what lines give a pair; None where they give more.
fn left_after(lines: &[Goods], item: &[u8], lot: &[u8], amount: u64) -> Option<u64>
    ensures { MatchOption result (amount < events.quantity_of lines.now item.now lot.now)
        (λ left. left + events.quantity_of lines.now item.now lot.now ≡ amount) }
{
    let mut left = amount;
    for line in lines {
        if is_of(line, item, lot) {
            left = left.checked_sub(u64::from(line.quantity))?;
        }
    }
    Some(left)
}

// Whether open advices bring at most so much of a pair.
fn awaits_at_most(advices: &[KnownAdvice], item: &[u8], lot: &[u8], most: u64) -> bool
    ensures { result ≡ nat_le (pages.awaited advices.now item.now lot.now) most }
{
    let mut left = most;
    for advice in advices {
        if advice.is_open() {
            match left_after(advice.lines(), item, lot, left) {
                Some(less) => left = less,
                None => return false,
            }
        }
    }
    true
}

// Whether open orders hold at most so much of a pair.
fn holds_at_most(orders: &[KnownOrder], item: &[u8], lot: &[u8], most: u64) -> bool
    ensures { result ≡ nat_le (pages.held orders.now item.now lot.now) most }
{
    let mut left = most;
    for order in orders {
        if order.is_open {
            match left_after(&order.reserved, item, lot, left) {
                Some(less) => left = less,
                None => return false,
            }
        }
    }
    true
}

// Whether what open advices bring of a line's pair is expected.
fn is_expected(rows: &[Row], advices: &[KnownAdvice], line: &Goods) -> bool
    requires { IsSorted rows.now }

    ensures { result ≡ meant.is_expected rows.now advices.now line.now }
{
    let expected = amount_of(rows, Column::Expected, &line.item, &line.lot);
    awaits_at_most(advices, &line.item, &line.lot, expected)
}

// Whether what open orders hold of a line's pair is reserved.
fn is_reserved(rows: &[Row], orders: &[KnownOrder], line: &Goods) -> bool
    requires { IsSorted rows.now }

    ensures { result ≡ meant.is_reserved rows.now orders.now line.now }
{
    let reserved = amount_of(rows, Column::Reservation, &line.item, &line.lot);
    holds_at_most(orders, &line.item, &line.lot, reserved)
}

// Whether what open advices bring of each line's pair is expected.
fn are_expected(rows: &[Row], advices: &[KnownAdvice], lines: &[Goods]) -> bool
    requires { IsSorted rows.now }

    ensures { result ≡ list_all (meant.is_expected rows.now advices.now) lines.now }
{
    lines.iter().all(|line| is_expected(rows, advices, line))
}

// Whether what open orders hold of each line's pair is reserved.
fn are_reserved(rows: &[Row], orders: &[KnownOrder], lines: &[Goods]) -> bool
    requires { IsSorted rows.now }

    ensures { result ≡ list_all (meant.is_reserved rows.now orders.now) lines.now }
{
    lines.iter().all(|line| is_reserved(rows, orders, line))
}

// Whether what an open advice brings is expected.
fn advice_expected(rows: &[Row], advices: &[KnownAdvice], advice: &KnownAdvice) -> bool
    requires { IsSorted rows.now }

    ensures { result ≡ (if advice.now.is_open then list_all (meant.is_expected rows.now advices.now)
        advice.now.lines else true) }
{
    !advice.is_open() || are_expected(rows, advices, advice.lines())
}

// Whether what an open order holds is reserved.
fn order_reserved(rows: &[Row], orders: &[KnownOrder], order: &KnownOrder) -> bool
    requires { IsSorted rows.now }

    ensures { result ≡ (if order.now.is_open then list_all (meant.is_reserved rows.now orders.now)
        order.now.reserved else true) }
{
    !order.is_open || are_reserved(rows, orders, &order.reserved)
}

// Whether each line of each open advice is expected. It compares each with all, and asks for no
// memory.
fn each_expected(rows: &[Row], advices: &[KnownAdvice]) -> bool
    requires { IsSorted rows.now }

    ensures { result ≡ meant.all_expected rows.now advices.now advices.now }
{
    advices
        .iter()
        .all(|advice| advice_expected(rows, advices, advice))
}

// Whether each line of each open order is reserved. It compares each with all, and asks for no
// memory.
fn each_reserved(rows: &[Row], orders: &[KnownOrder]) -> bool
    requires { IsSorted rows.now }

    ensures { result ≡ meant.all_reserved rows.now orders.now orders.now }
{
    orders
        .iter()
        .all(|order| order_reserved(rows, orders, order))
}

// The same of the advices with one look at each line, where there is memory for the sums.
fn expected_at_once(
    alloc: Global,
    rows: &[Row],
    advices: &[KnownAdvice],
) -> Result<bool, AllocError>
    requires { IsSorted rows.now }

    ensures { IfOk result (λ enough. enough ≡ meant.all_expected rows.now advices.now advices.now) }
{
    let mut left = amounts(alloc, rows, Column::Expected)?;
    Ok(take_awaited(rows, &mut left, advices))
}

// The same of the orders with one look at each line, where there is memory for the sums.
fn reserved_at_once(alloc: Global, rows: &[Row], orders: &[KnownOrder]) -> Result<bool, AllocError>
    requires { IsSorted rows.now }

    ensures { IfOk result (λ enough. enough ≡ meant.all_reserved rows.now orders.now orders.now) }
{
    let mut left = amounts(alloc, rows, Column::Reservation)?;
    Ok(take_held(rows, &mut left, orders))
}

// Whether all that open advices bring is expected.
fn all_expected(alloc: Global, rows: &[Row], advices: &[KnownAdvice]) -> bool
    requires { IsSorted rows.now }

    ensures { result ≡ meant.all_expected rows.now advices.now advices.now }
{
    match expected_at_once(alloc, rows, advices) {
        Ok(enough) => enough,
        Err(_) => each_expected(rows, advices),
    }
}

// Whether all that open orders hold is reserved.
fn all_reserved(alloc: Global, rows: &[Row], orders: &[KnownOrder]) -> bool
    requires { IsSorted rows.now }

    ensures { result ≡ meant.all_reserved rows.now orders.now orders.now }
{
    match reserved_at_once(alloc, rows, orders) {
        Ok(enough) => enough,
        Err(_) => each_reserved(rows, orders),
    }
}

// Whether one of the lines is of the item.
fn is_ordered(lines: &[KnownLine], item: &[u8]) -> bool
    ensures { result ≡ list_any (λ m. bytes_eq item.now m.item) lines.now }
{
    lines.iter().any(|line| item == line.item.as_slice())
}

// Whether an item is one of theirs.
fn is_of_lines(item: &[u8], lines: &[KnownLine]) -> bool
    ensures { result ≡ is_one_of (map (λ m. m.item) lines.now) item.now }
{
    is_ordered(lines, item)
}

// The items of lines, each once, as rows of no lot in order, so that one is found by halves.
fn item_rows(alloc: Global, lines: &[KnownLine]) -> Result<Vec<Row>, AllocError>
    ensures sorted { IfOk result (λ rows. IsSorted rows.items) }
    ensures are { IfOk result (λ rows. AreRowsOf (map meant.item_alone lines.now) rows.items) }
{
    let mut rows = Vec::new(alloc);
    for line in lines {
        placed(alloc, &mut rows, &new_line(alloc, &line.item, &[], 0)?)?;
    }
    Ok(rows)
}

// Whether what is reserved for an order is of items of its lines, where there is memory for these
// in order.
fn in_lines_at_once(alloc: Global, order: &KnownOrder) -> Result<bool, AllocError>
    ensures { IfOk result (λ all. all ≡ pages.is_in_lines order.now) }
{
    let items = item_rows(alloc, &order.lines)?;
    for line in &order.reserved {
        if !is_among(&items, &line.item, &[]) {
            return Ok(false);
        }
    }
    Ok(true)
}

// The same by a look at each line of the order for each that is reserved, which asks for no memory.
fn each_in_lines(order: &KnownOrder) -> bool
    ensures { result ≡ pages.is_in_lines order.now }
{
    order
        .reserved
        .iter()
        .all(|line| is_of_lines(&line.item, &order.lines))
}

// Whether what is reserved for an order is of items of its lines.
fn is_in_lines(alloc: Global, order: &KnownOrder) -> bool
    ensures { result ≡ pages.is_in_lines order.now }
{
    match in_lines_at_once(alloc, order) {
        Ok(all) => all,
        Err(_) => each_in_lines(order),
    }
}

// Whether that holds of each order.
fn all_in_lines(alloc: Global, orders: &[KnownOrder]) -> bool
    ensures { result ≡ list_all pages.is_in_lines orders.now }
{
    orders.iter().all(|order| is_in_lines(alloc, order))
}

/// Whether lists in order are those of a page after so many entries, with no event since.
pub(crate) fn is_kept(facts: &Facts) -> bool
    requires { IsSorted facts.now.rows.items }

    ensures { result ≡ meant.is_kept (facts_of facts.now) }
{
    let alloc = *facts.rows.allocator();
    facts.entries <= MOST_ENTRIES
        && are_within(&facts.rows, facts.entries)
        && all_expected(alloc, &facts.rows, &facts.advices)
        && all_reserved(alloc, &facts.rows, &facts.orders)
        && all_in_lines(alloc, &facts.orders)
}
