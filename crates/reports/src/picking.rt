ghost use Rattle.std.specs.Prelude.{◌≡◌, ◌++◌, Ok, Err, IfOk, IfErr, OnOk, flat_map, option_to_list};
ghost use Rattle.definitions.specs.History.{History};
ghost use Rattle.definitions.specs.Need.{need_of_number};
ghost use Rattle.definitions.specs.Reports as meant;
ghost use Rattle.reports.specs.Picking.{held_of, held_lines, short_of as meant_short_of, short_line, address_line, order_lines, order_sheet, listed};
ghost use Rattle.store.specs.Pages.{order_at};
ghost use Rattle.store.specs.Decided.{IsHeldPart};
ghost use Rattle.unready.specs.Refused.{IfRefused};

use crate::columns::{append_left, append_right};
use crate::opened::open_order;
use definitions::{MOST_ITEM, MOST_LOT, QUANTITY_COLUMN};
use itoa::Buffer;
use std::alloc::{AllocError, Global};
use store::{Address, Goods, KnownLine, KnownOrder, Page};
use unready::Unready;

/// Appends the beginning, the text and LF.
pub(crate) fn append_ended(
    out: &mut Vec<u8>,
    beginning: &[u8],
    text: &[u8],
) -> Result<(), AllocError>
    ensures { OnOk result (out.new.items ≡ out.old.items ++ meant.ended
        (beginning.now ++ text.now)) }
{
    out.extend_from_slice(beginning)?;
    out.extend_from_slice(text)?;
    out.push(b'\n')?;
    Ok(())
}

// Appends the line of a text of an address, where it isn't empty.
fn append_address_line(out: &mut Vec<u8>, text: &[u8]) -> Result<(), AllocError>
    ensures { OnOk result (out.new.items ≡ out.old.items ++ address_line text.now) }
{
    if text.is_empty() {
        return Ok(());
    }
    append_ended(out, b"   ", text)
}

// Appends where goods go: the name, and what else isn't empty.
fn append_address(out: &mut Vec<u8>, address: &Address) -> Result<(), AllocError>
    ensures { OnOk result (out.new.items ≡ out.old.items ++ meant.address_lines address.now) }
{
    append_ended(out, b"TO ", &address.name)?;
    append_address_line(out, &address.one)?;
    append_address_line(out, &address.two)?;
    append_address_line(out, &address.place)
}

// Appends where an order goes, if it says so.
fn append_destination(out: &mut Vec<u8>, order: &KnownOrder) -> Result<(), AllocError>
    ensures { OnOk result (out.new.items ≡ out.old.items
        ++ flat_map meant.address_lines (option_to_list order.now.address)) }
{
    match &order.address {
        None => Ok(()),
        Some(address) => append_address(out, address),
    }
}

// Appends a line of the sheet.
fn append_line(out: &mut Vec<u8>, item: &[u8], lot: &[u8], quantity: u32) -> Result<(), AllocError>
    ensures { OnOk result (out.new.items ≡ out.old.items ++ meant.pick_line item.now lot.now
        quantity) }
{
    let mut buffer = Buffer::new();
    append_left(out, item, MOST_ITEM)?;
    out.push(b' ')?;
    append_left(out, lot, MOST_LOT)?;
    out.push(b' ')?;
    append_right(out, buffer.format(quantity).as_bytes(), QUANTITY_COLUMN)?;
    out.push(b'\n')?;
    Ok(())
}

// Appends a line for each reservation of the item.
fn append_held(out: &mut Vec<u8>, reserved: &[Goods], item: &[u8]) -> Result<(), AllocError>
    ensures { OnOk result (out.new.items ≡ out.old.items ++ held_lines
        (held_of reserved.now item.now)) }
{
    for line in reserved {
        if line.item.as_slice() == item {
            append_line(out, &line.item, &line.lot, line.quantity)?;
        }
    }
    Ok(())
}

/// How much is short of a line of an order with these reservations: what is ordered, less what is
/// reserved of its item. Each reservation is taken from it, down to 0, so no sum can overflow.
pub(crate) fn short_of(reserved: &[Goods], line: &KnownLine) -> u32
    ensures { result ≡ meant_short_of reserved.now line.now }
{
    let mut short = line.quantity;
    for goods in reserved {
        if goods.item == line.item {
            short = short.saturating_sub(goods.quantity);
        }
    }
    short
}

/// Appends what is short of an item, where something is.
pub(crate) fn append_short(out: &mut Vec<u8>, item: &[u8], short: u32) -> Result<(), AllocError>
    ensures { OnOk result (out.new.items ≡ out.old.items ++ short_line item.now short) }
{
    if short == 0 {
        return Ok(());
    }
    append_line(out, item, b"(short)", short)
}

// Appends what of a line of an order is reserved, and what is short.
fn append_order_line(
    out: &mut Vec<u8>,
    reserved: &[Goods],
    line: &KnownLine,
) -> Result<(), AllocError>
    ensures { OnOk result (out.new.items ≡ out.old.items ++ order_lines reserved.now line.now) }
{
    append_held(out, reserved, &line.item)?;
    append_short(out, &line.item, short_of(reserved, line))
}

// The picking sheet of an order.
fn picking_sheet(alloc: Global, order: &KnownOrder) -> Result<Vec<u8>, AllocError>
    ensures { IfOk result (λ text. text.items ≡ order_sheet order.now) }
{
    let mut text = Vec::new(alloc);
    append_ended(&mut text, b"ORDER ", &order.number)?;
    append_destination(&mut text, order)?;
    for line in &order.lines {
        append_order_line(&mut text, &order.reserved, line)?;
    }
    Ok(text)
}

/// The picking sheet of an open order, by a page that has the order: its number, where it goes, and
/// for each of its lines what is reserved, by lot bytes, and what is short. The error is 24, an
/// unknown order, 25, one that was picked, or want of memory.
pub fn pick_list(alloc: Global, page: &Page, number: &[u8]) -> Result<Vec<u8>, Unready>
    // Of the history of which the page has the part that is needed.
    ensures ok { IfOk result
        (λ text. (h : History) → IsHeldPart (need_of_number number.now) page.now h
        → meant.pick_list h.events number.now ≡ Ok text.items) }
    ensures err { IfErr result
        (IfRefused (λ refusal. (h : History) → IsHeldPart (need_of_number number.now) page.now h
        → meant.pick_list h.events number.now ≡ Err refusal)) }

    // The same of the page alone.
    ensures sheet { IfOk result
        (λ text. listed (order_at number.now page.now.orders) ≡ Ok text.items) }
    ensures none { IfErr result
        (IfRefused (λ refusal. listed (order_at number.now page.now.orders) ≡ Err refusal)) }
{
    Ok(picking_sheet(alloc, open_order(page, number)?)?)
}
