ghost use Rattle.std.specs.Prelude.{◌∷◌, [], codes, decimal, flat_map, IfOk};
ghost use Rattle.definitions.specs.Moments.{date8};
ghost use Rattle.segments.specs.Extends.{Extends};
ghost use Rattle.sets_out.specs.Appends.{Writes};
ghost use Rattle.sets_out.specs.Documents.{received_line, receipt_body};
ghost use Rattle.sets_out.specs.Handed.{receipt_of};

use crate::sheets::{CountedLine, Receipt};
use crate::writing::append_segment;
use itoa::Buffer;
use segments::{Delims, Moment};
use std::alloc::AllocError;

// W07 and N9 of a pair, or a beginning of them.
fn append_line(
    out: &mut Vec<u8>,
    delims: Delims,
    line: &CountedLine<'_>,
) -> Result<usize, AllocError>
    ensures ok { IfOk result
        (λ n. Writes delims out.old.items out.new.items (received_line line.now) n) }
    ensures kept { Extends out.old.items out.new.items }
{
    let mut buffer = Buffer::new();
    let quantity = buffer.format(line.quantity).as_bytes();
    let goods = append_segment(
        out,
        delims,
        &[b"W07", quantity, b"EA", b"", b"SK", line.item],
    )?;
    let lot = append_segment(out, delims, &[b"N9", b"LT", line.lot])?;
    Ok(goods + lot)
}

// W07 and N9 of each pair, or a beginning of them.
fn append_lines(
    out: &mut Vec<u8>,
    delims: Delims,
    lines: &[CountedLine<'_>],
) -> Result<usize, AllocError>
    ensures ok { IfOk result
        (λ n. Writes delims out.old.items out.new.items (flat_map received_line lines.now) n) }
    ensures kept { Extends out.old.items out.new.items }
{
    let mut count = 0;
    for line in lines {
        count += append_line(out, delims, line)?;
    }
    Ok(count)
}

// W17, or nothing.
fn append_first(
    out: &mut Vec<u8>,
    delims: Delims,
    moment: &Moment,
    number: u32,
    receipt: &Receipt<'_>,
) -> Result<usize, AllocError>
    ensures ok { IfOk result (λ n. Writes delims out.old.items out.new.items
        ((codes "W17" ∷ codes "F" ∷ date8 moment.now ∷ decimal number ∷ receipt.now.order.now
        ∷ receipt.now.shipment.now ∷ []) ∷ []) n) }
    ensures kept { Extends out.old.items out.new.items }
{
    let date = moment.date();
    let mut buffer = Buffer::new();
    let number = buffer.format(number).as_bytes();
    append_segment(
        out,
        delims,
        &[b"W17", b"F", &date, number, receipt.order, receipt.shipment],
    )
}

// W14, or nothing.
fn append_sums(
    out: &mut Vec<u8>,
    delims: Delims,
    receipt: &Receipt<'_>,
) -> Result<usize, AllocError>
    ensures ok { IfOk result (λ n. Writes delims out.old.items out.new.items
        ((codes "W14" ∷ decimal receipt.now.counted ∷ decimal receipt.now.advised ∷ []) ∷ []) n) }
    ensures kept { Extends out.old.items out.new.items }
{
    let mut buffer = Buffer::new();
    let counted = buffer.format(receipt.counted).as_bytes();
    let mut buffer = Buffer::new();
    let advised = buffer.format(receipt.advised).as_bytes();
    append_segment(out, delims, &[b"W14", counted, advised])
}

// W17 to W14, or a beginning of them.
pub(crate) fn append_body(
    out: &mut Vec<u8>,
    delims: Delims,
    moment: &Moment,
    number: u32,
    receipt: &Receipt<'_>,
) -> Result<usize, AllocError>
    ensures ok { IfOk result
        (λ n. Writes delims out.old.items out.new.items
        (receipt_body moment.now number (receipt_of receipt.now)) n) }
    ensures kept { Extends out.old.items out.new.items }
{
    let first = append_first(out, delims, moment, number, receipt)?;
    let lines = append_lines(out, delims, receipt.lines)?;
    let sums = append_sums(out, delims, receipt)?;
    Ok(first + lines + sums)
}
