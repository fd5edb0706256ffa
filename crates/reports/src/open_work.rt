//! What a depositor has open.
ghost use Rattle.std.specs.Prelude.{◌≡◌, ◌++◌, IfOk, OnOk, filter, flat_map};
ghost use Rattle.reports.specs.Open as meant;
ghost use Rattle.store.specs.Open.{open_on};

use crate::columns::{append_left, append_right};
use crate::picking::{append_short, short_of};
use definitions::{AMOUNT_COLUMN, MOST_NUMBER};
use itoa::Buffer;
use std::alloc::{AllocError, Global};
use store::{Goods, KnownAdvice, KnownLine, KnownOrder, Page};

/// The report's column of how many lines there are.
pub(crate) const LINES_COLUMN: usize = 5;

// The text, or `-` in place of an empty one.
fn or_dash(text: &[u8]) -> &[u8]
    ensures { result.now ≡ meant.or_dash text.now }
{
    if text.is_empty() { b"-" } else { text }
}

// Appends a line of advices.
fn append_advice_columns(
    out: &mut Vec<u8>,
    number: &[u8],
    lines: &[u8],
    expected: &[u8],
    order: &[u8],
) -> Result<(), AllocError>
    ensures { OnOk result (out.new.items ≡ out.old.items
        ++ meant.advice_columns number.now lines.now expected.now order.now) }
{
    append_left(out, number, MOST_NUMBER)?;
    out.push(b' ')?;
    append_right(out, lines, LINES_COLUMN)?;
    out.push(b' ')?;
    append_right(out, expected, AMOUNT_COLUMN)?;
    out.push(b' ')?;
    out.extend_from_slice(order)?;
    out.push(b'\n')?;
    Ok(())
}

// Appends the line of an advice.
fn append_advice(out: &mut Vec<u8>, advice: &KnownAdvice) -> Result<(), AllocError>
    ensures { OnOk result (out.new.items ≡ out.old.items ++ meant.advice_line advice.now) }
{
    let mut lines = Buffer::new();
    let mut expected = Buffer::new();
    append_advice_columns(
        out,
        advice.shipment(),
        lines.format(advice.lines().len()).as_bytes(),
        expected.format(advice.total()).as_bytes(),
        or_dash(advice.order()),
    )
}

// Appends the headings of advices, and the lines of those that are open.
fn append_advices(out: &mut Vec<u8>, advices: &[KnownAdvice]) -> Result<(), AllocError>
    ensures { OnOk result (out.new.items ≡ out.old.items
        ++ (meant.advice_headings ++ flat_map meant.advice_line
        (filter (λ a. a.is_open) advices.now))) }
{
    append_advice_columns(out, b"advice", b"lines", b"expected", b"order")?;
    for advice in advices {
        if advice.is_open() {
            append_advice(out, advice)?;
        }
    }
    Ok(())
}

// Appends a line of orders.
fn append_order_columns(
    out: &mut Vec<u8>,
    number: &[u8],
    lines: &[u8],
    name: &[u8],
) -> Result<(), AllocError>
    ensures { OnOk result (out.new.items ≡ out.old.items
        ++ meant.order_columns number.now lines.now name.now) }
{
    append_left(out, number, MOST_NUMBER)?;
    out.push(b' ')?;
    append_right(out, lines, LINES_COLUMN)?;
    out.push(b' ')?;
    out.extend_from_slice(name)?;
    out.push(b'\n')?;
    Ok(())
}

// The name that an order goes to; nothing where its set didn't say so.
fn name_of(order: &KnownOrder) -> &[u8]
    ensures { result.now ≡ meant.name_of order.now.address }
{
    match &order.address {
        None => b"",
        Some(address) => &address.name,
    }
}

// Appends the line of an order.
fn append_order_line(out: &mut Vec<u8>, order: &KnownOrder) -> Result<(), AllocError>
    ensures { OnOk result (out.new.items ≡ out.old.items ++ meant.order_line order.now) }
{
    let mut lines = Buffer::new();
    append_order_columns(
        out,
        &order.number,
        lines.format(order.lines.len()).as_bytes(),
        or_dash(name_of(order)),
    )
}

// Appends what is short of a line of an order, where not all of it is reserved.
fn append_short_part(
    out: &mut Vec<u8>,
    reserved: &[Goods],
    line: &KnownLine,
) -> Result<(), AllocError>
    ensures { OnOk result (out.new.items ≡ out.old.items ++ meant.short_part reserved.now
        line.now) }
{
    let short = short_of(reserved, line);
    if short == 0 {
        return Ok(());
    }
    out.extend_from_slice(b"  ")?;
    append_short(out, &line.item, short)
}

// Appends an order, and its lines of which not all is reserved.
fn append_order(out: &mut Vec<u8>, order: &KnownOrder) -> Result<(), AllocError>
    ensures { OnOk result (out.new.items ≡ out.old.items ++ meant.order_part order.now) }
{
    append_order_line(out, order)?;
    for line in &order.lines {
        append_short_part(out, &order.reserved, line)?;
    }
    Ok(())
}

// Appends the headings of orders, and those that are open.
fn append_orders(out: &mut Vec<u8>, orders: &[KnownOrder]) -> Result<(), AllocError>
    ensures { OnOk result (out.new.items ≡ out.old.items
        ++ (meant.order_headings ++ flat_map meant.order_part
        (filter (λ k. k.is_open) orders.now))) }
{
    append_order_columns(out, b"order", b"lines", b"ship to")?;
    for order in orders {
        if order.is_open {
            append_order(out, order)?;
        }
    }
    Ok(())
}

/// The report of what a depositor has open, by a page, or a part of it, that has that: a line of
/// headings, and a line for each advice that isn't counted, by the bytes of its shipment number,
/// with that number left in 22, how many lines it has right in 5, the pieces announced, in the unit
/// EA, right in 15, and the number of its order; then a line of headings, and a line for each order
/// that isn't picked, by the bytes of its number, with that number left in 22, how many lines it
/// has right in 5, and the name that it goes to. `-` stands for an order's number or a name where
/// there is none. After an order stands, for each of its lines of which not all is reserved, what
/// is short of it, as the picking sheet says it, after two spaces. There is a space between each
/// two columns, and LF at the end of a line; what is longer than its column widens it. The one
/// error is want of memory.
pub fn open_report(alloc: Global, page: &Page) -> Result<Vec<u8>, AllocError>
    ensures { IfOk result (λ text. text.items ≡ meant.open_report (open_on page.now)) }
{
    let mut text = Vec::new(alloc);
    append_advices(&mut text, page.advices())?;
    append_orders(&mut text, page.orders())?;
    Ok(text)
}
