//! What a pick tells: the 945.
ghost use Rattle.std.specs.Prelude.{◌≡◌, ◌≤◌, not, true, IfOk, bytes_eq, filter, length, map};
ghost use Rattle.definitions.specs.Rules.{Today};
ghost use Rattle.definitions.specs.Bytes.{comes_before};
ghost use Rattle.definitions.specs.Clerk.{is_ascending};
ghost use Rattle.definitions.specs.Limits.{most_lines};
ghost use Rattle.stock.specs.Keyed.{IsRank};
ghost use Rattle.rules.specs.Documents.{picked_lot, shipment_text, shipped_of};

use crate::documents::written::written;
use sets_in::Goods;
use sets_out::{Document, Envelope, PickedLot, Shipment, ShippedLine};
use std::alloc::{AllocError, Global};
use stock::{KnownLine, KnownOrder, Sheet, total};

// Whether a line is of an item before another.
fn is_before_item(line: &Goods, item: &[u8]) -> bool
    ensures { result ≡ comes_before line.now.item item.now }
{
    line.item.as_slice().cmp(&item).is_lt()
}

// Whether a line is of an item after another.
fn is_after_item(line: &Goods, item: &[u8]) -> bool
    ensures { result ≡ comes_before item.now line.now.item }
{
    item.cmp(&line.item.as_slice()).is_lt()
}

// Where the lines of an item begin.
fn item_start(sheet: &[Goods], item: &[u8]) -> usize
    requires { is_ascending sheet.now ≡ true }

    ensures { IsRank comes_before (λ l. l.item) sheet.now item.now result }
{
    sheet.partition_point(|line| is_before_item(line, item))
}

// Where the lines of an item end.
fn item_end(sheet: &[Goods], item: &[u8]) -> usize
    requires { is_ascending sheet.now ≡ true }

    ensures { IsRank (λ a b. not (comes_before b a)) (λ l. l.item) sheet.now item.now result }
{
    sheet.partition_point(|line| !is_after_item(line, item))
}

// The lines of an item, which stand together.
fn of_item<'a>(sheet: &'a [Goods], item: &[u8]) -> &'a [Goods]
    requires { is_ascending sheet.now ≡ true }

    ensures { result.now ≡ filter (λ k. bytes_eq k.item item.now) sheet.now }
{
    let start = item_start(sheet, item);
    let end = item_end(sheet, item);
    &sheet[start..end]
}

// What was picked of lots.
fn picked<'a>(alloc: Global, lines: &'a [Goods]) -> Result<Vec<PickedLot<'a>>, AllocError>
    ensures { IfOk result (λ v. v.items ≡ map picked_lot lines.now) }
{
    let mut lots = Vec::new(alloc);
    for line in lines {
        lots.push(PickedLot {
            lot: &line.lot,
            quantity: u64::from(line.quantity),
        })?;
    }
    Ok(lots)
}

// A line of an order with what a sheet says of its item.
fn shipped_line<'a>(
    alloc: Global,
    line: &'a KnownLine,
    sheet: &'a [Goods],
) -> Result<ShippedLine<'a>, AllocError>
    requires few { length sheet.now ≤ most_lines Today }
    requires rises { is_ascending sheet.now ≡ true }

    ensures { IfOk result (λ l. l ≡ shipped_of sheet.now line.now) }
{
    let lots = of_item(sheet, &line.item);
    Ok(ShippedLine {
        item: &line.item,
        ordered: u64::from(line.quantity),
        shipped: total(lots),
        lots: picked(alloc, lots)?,
    })
}

// The lines of an order with what a sheet says of each.
fn shipped_lines<'a>(
    alloc: Global,
    lines: &'a [KnownLine],
    sheet: &'a [Goods],
) -> Result<Vec<ShippedLine<'a>>, AllocError>
    requires few { length sheet.now ≤ most_lines Today }
    requires rises { is_ascending sheet.now ≡ true }

    ensures { IfOk result (λ v. v.items ≡ map (shipped_of sheet.now) lines.now) }
{
    let mut shipment = Vec::new(alloc);
    for line in lines {
        shipment.push(shipped_line(alloc, line, sheet)?)?;
    }
    Ok(shipment)
}

/// The 945 of a pick: each line of the order with what was picked of its item. Want of memory is
/// the one error.
pub fn shipment(
    alloc: Global,
    envelope: &Envelope,
    order: &KnownOrder,
    sheet: &Sheet,
) -> Result<Vec<u8>, AllocError>
    ensures { IfOk result (λ text. text.items ≡ shipment_text envelope.now order.now sheet.now) }
{
    let goods = sheet.lines(alloc)?;
    let lines = shipped_lines(alloc, &order.lines, &goods)?;
    let shipment = Shipment {
        order: &order.number,
        lines: &lines,
        shipped: total(&goods),
    };
    let document = Document::Shipped(&shipment);
    written(alloc, envelope, &document)
}
