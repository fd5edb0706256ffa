ghost use Rattle.std.specs.Prelude.{◌≡◌, ◌-◌, ◌==◌, ◌∷◌, [], if◌then◌else◌, codes, decimal, flat_map, map, IfOk};
ghost use Rattle.std.specs.List.{enumerate_from};
ghost use Rattle.definitions.specs.Moments.{date8};
ghost use Rattle.definitions.specs.Texts.{goods};
ghost use Rattle.segments.specs.Extends.{Extends};
ghost use Rattle.sets_out.specs.Appends.{Writes};
ghost use Rattle.sets_out.specs.Documents.{shipped_lot, shipped_line, shipment_body};
ghost use Rattle.sets_out.specs.Handed.{shipment_of};

use crate::sheets::{PickedLot, Shipment, ShippedLine};
use crate::writing::append_segment;
use itoa::Buffer;
use segments::{Delims, Moment};
use std::alloc::AllocError;

// N9 of a lot, or nothing.
fn append_lot(out: &mut Vec<u8>, delims: Delims, lot: &PickedLot<'_>) -> Result<usize, AllocError>
    ensures ok { IfOk result
        (λ n. Writes delims out.old.items out.new.items (shipped_lot lot.now ∷ []) n) }
    ensures kept { Extends out.old.items out.new.items }
{
    let mut buffer = Buffer::new();
    let quantity = buffer.format(lot.quantity).as_bytes();
    append_segment(out, delims, &[b"N9", b"LT", lot.lot, quantity])
}

// N9 of each lot, or a beginning of them.
fn append_lots(
    out: &mut Vec<u8>,
    delims: Delims,
    lots: &[PickedLot<'_>],
) -> Result<usize, AllocError>
    ensures ok { IfOk result
        (λ n. Writes delims out.old.items out.new.items (map shipped_lot lots.now) n) }
    ensures kept { Extends out.old.items out.new.items }
{
    let mut count = 0;
    for lot in lots {
        count += append_lot(out, delims, lot)?;
    }
    Ok(count)
}

// W1201: CC where all that was ordered is shipped, else CP.
fn code_of(ordered: u64, shipped: u64) -> &'static [u8]
    ensures { result.now ≡ (if shipped == ordered then codes "CC" else codes "CP") }
{
    if shipped == ordered { b"CC" } else { b"CP" }
}

// W12 with these elements, or nothing.
fn append_w12(
    out: &mut Vec<u8>,
    delims: Delims,
    code: &[u8],
    ordered: &[u8],
    shipped: &[u8],
    missing: &[u8],
    item: &[u8],
) -> Result<usize, AllocError>
    ensures ok { IfOk result
        (λ n. Writes delims out.old.items out.new.items ((codes "W12" ∷ code.now ∷ ordered.now
        ∷ shipped.now ∷ missing.now ∷ goods item.now) ∷ []) n) }
    ensures kept { Extends out.old.items out.new.items }
{
    append_segment(
        out,
        delims,
        &[
            b"W12", code, ordered, shipped, missing, b"EA", b"", b"SK", item,
        ],
    )
}

// W12, or nothing.
fn append_goods(
    out: &mut Vec<u8>,
    delims: Delims,
    item: &[u8],
    ordered: u64,
    shipped: u64,
) -> Result<usize, AllocError>
    ensures ok { IfOk result (λ n. Writes delims out.old.items out.new.items
        ((codes "W12" ∷ (if shipped == ordered then codes "CC" else codes "CP") ∷ decimal ordered
        ∷ decimal shipped ∷ decimal (ordered - shipped) ∷ goods item.now) ∷ []) n) }
    ensures kept { Extends out.old.items out.new.items }
{
    let code = code_of(ordered, shipped);
    let mut wanted = Buffer::new();
    let wanted = wanted.format(ordered).as_bytes();
    let mut sent = Buffer::new();
    let sent = sent.format(shipped).as_bytes();
    let missing = ordered.saturating_sub(shipped);
    let mut buffer = Buffer::new();
    let missing = buffer.format(missing).as_bytes();
    append_w12(out, delims, code, wanted, sent, missing, item)
}

// LX, or nothing.
fn append_place(out: &mut Vec<u8>, delims: Delims, place: u64) -> Result<usize, AllocError>
    ensures ok { IfOk result
        (λ n. Writes delims out.old.items out.new.items ((codes "LX" ∷ decimal place ∷ []) ∷ [])
        n) }
    ensures kept { Extends out.old.items out.new.items }
{
    let mut buffer = Buffer::new();
    let place = buffer.format(place).as_bytes();
    append_segment(out, delims, &[b"LX", place])
}

// LX, W12 and each N9 of a line, or a beginning of them.
fn append_line(
    out: &mut Vec<u8>,
    delims: Delims,
    place: u64,
    line: &ShippedLine<'_>,
) -> Result<usize, AllocError>
    ensures ok { IfOk result
        (λ n. Writes delims out.old.items out.new.items (shipped_line place line.now) n) }
    ensures kept { Extends out.old.items out.new.items }
{
    let first = append_place(out, delims, place)?;
    let goods = append_goods(out, delims, line.item, line.ordered, line.shipped)?;
    let lots = append_lots(out, delims, &line.lots)?;
    Ok(first + goods + lots)
}

// LX, W12 and each N9 of each line, or a beginning of them.
fn append_lines(
    out: &mut Vec<u8>,
    delims: Delims,
    lines: &[ShippedLine<'_>],
) -> Result<usize, AllocError>
    ensures ok { IfOk result
        (λ n. Writes delims out.old.items out.new.items (flat_map
        (λ p. shipped_line p.0 p.1) (enumerate_from 1 lines.now)) n) }
    ensures kept { Extends out.old.items out.new.items }
{
    let mut count = 0;
    for (index, line) in lines.iter().enumerate() {
        count += append_line(out, delims, index as u64 + 1, line)?;
    }
    Ok(count)
}

// W06, or nothing.
fn append_first(
    out: &mut Vec<u8>,
    delims: Delims,
    moment: &Moment,
    number: u32,
    order: &[u8],
) -> Result<usize, AllocError>
    ensures ok { IfOk result (λ n. Writes delims out.old.items out.new.items
        ((codes "W06" ∷ codes "F" ∷ order.now ∷ date8 moment.now ∷ decimal number ∷ []) ∷ []) n) }
    ensures kept { Extends out.old.items out.new.items }
{
    let date = moment.date();
    let mut buffer = Buffer::new();
    let number = buffer.format(number).as_bytes();
    append_segment(out, delims, &[b"W06", b"F", order, &date, number])
}

// W03, or nothing.
fn append_sum(out: &mut Vec<u8>, delims: Delims, shipped: u64) -> Result<usize, AllocError>
    ensures ok { IfOk result
        (λ n. Writes delims out.old.items out.new.items ((codes "W03" ∷ decimal shipped ∷ []) ∷ [])
        n) }
    ensures kept { Extends out.old.items out.new.items }
{
    let mut buffer = Buffer::new();
    let shipped = buffer.format(shipped).as_bytes();
    append_segment(out, delims, &[b"W03", shipped])
}

// W06 to W03, or a beginning of them.
pub(crate) fn append_body(
    out: &mut Vec<u8>,
    delims: Delims,
    moment: &Moment,
    number: u32,
    shipment: &Shipment<'_>,
) -> Result<usize, AllocError>
    ensures ok { IfOk result
        (λ n. Writes delims out.old.items out.new.items
        (shipment_body moment.now number (shipment_of shipment.now)) n) }
    ensures kept { Extends out.old.items out.new.items }
{
    let first = append_first(out, delims, moment, number, shipment.order)?;
    let lines = append_lines(out, delims, shipment.lines)?;
    let sum = append_sum(out, delims, shipment.shipped)?;
    Ok(first + lines + sum)
}
