ghost use Rattle.std.specs.Prelude.{◌≡◌, ◌≤◌, ◌+◌, ◌++◌, ◌∷◌, [], codes, decimal, length, take, flat_map, IfOk};
ghost use Rattle.definitions.specs.Texts.{difference, goods};
ghost use Rattle.segments.specs.Extends.{Extends};
ghost use Rattle.sets_out.specs.Appends.{Writes};
ghost use Rattle.sets_out.specs.Documents.{changed_line, adjustment_body};

use crate::sheets::AdjustedLine;
use crate::writing::append_segment;
use itoa::Buffer;
use segments::{Delims, Moment};
use std::alloc::AllocError;

// W19, or nothing.
fn append_goods(
    out: &mut Vec<u8>,
    delims: Delims,
    change: &[u8],
    item: &[u8],
) -> Result<usize, AllocError>
    ensures ok { IfOk result
        (λ n. Writes delims out.old.items out.new.items ((codes "W19" ∷ codes "AA" ∷ change.now
        ∷ goods item.now) ∷ []) n) }
    ensures kept { Extends out.old.items out.new.items }
{
    append_segment(
        out,
        delims,
        &[b"W19", b"AA", change, b"EA", b"", b"SK", item],
    )
}

// The digits with `-` in front, at the front of what is returned.
fn with_minus(digits: &[u8]) -> [u8; 41]
    requires { length digits.now ≤ 40 }

    ensures { take (length digits.now + 1) result ≡ 45 ∷ digits.now }
{
    let mut text = [b'-'; 41];
    text[1..digits.len() + 1].copy_from_slice(digits);
    text
}

// W19 of a loss, or nothing.
fn append_loss(
    out: &mut Vec<u8>,
    delims: Delims,
    loss: u64,
    item: &[u8],
) -> Result<usize, AllocError>
    ensures ok { IfOk result
        (λ n. Writes delims out.old.items out.new.items ((codes "W19" ∷ codes "AA"
        ∷ (codes "-" ++ decimal loss) ∷ goods item.now) ∷ []) n) }
    ensures kept { Extends out.old.items out.new.items }
{
    let mut buffer = Buffer::new();
    let digits = buffer.format(loss).as_bytes();
    let text = with_minus(digits);
    append_goods(out, delims, &text[..digits.len() + 1], item)
}

// W19 of a change, or nothing.
fn append_change(
    out: &mut Vec<u8>,
    delims: Delims,
    item: &[u8],
    before: u64,
    after: u64,
) -> Result<usize, AllocError>
    ensures ok { IfOk result
        (λ n. Writes delims out.old.items out.new.items ((codes "W19" ∷ codes "AA"
        ∷ difference after before ∷ goods item.now) ∷ []) n) }
    ensures kept { Extends out.old.items out.new.items }
{
    if after < before {
        return append_loss(out, delims, before - after, item);
    }
    let mut buffer = Buffer::new();
    let gain = buffer.format(after - before).as_bytes();
    append_goods(out, delims, gain, item)
}

// W19 and N9 of a pair where it differs, or a beginning of them.
fn append_line(
    out: &mut Vec<u8>,
    delims: Delims,
    line: &AdjustedLine<'_>,
) -> Result<usize, AllocError>
    ensures ok { IfOk result
        (λ n. Writes delims out.old.items out.new.items (changed_line line.now) n) }
    ensures kept { Extends out.old.items out.new.items }
{
    if line.after == line.before {
        return Ok(0);
    }
    let goods = append_change(out, delims, line.item, line.before, line.after)?;
    let lot = append_segment(out, delims, &[b"N9", b"LT", line.lot])?;
    Ok(goods + lot)
}

// W19 and N9 of each pair that differs, or a beginning of them.
fn append_lines(
    out: &mut Vec<u8>,
    delims: Delims,
    lines: &[AdjustedLine<'_>],
) -> Result<usize, AllocError>
    ensures ok { IfOk result
        (λ n. Writes delims out.old.items out.new.items (flat_map changed_line lines.now) n) }
    ensures kept { Extends out.old.items out.new.items }
{
    let mut count = 0;
    for line in lines {
        count += append_line(out, delims, line)?;
    }
    Ok(count)
}

// W15 to the last N9, or a beginning of them.
pub(crate) fn append_body(
    out: &mut Vec<u8>,
    delims: Delims,
    moment: &Moment,
    number: u32,
    lines: &[AdjustedLine<'_>],
) -> Result<usize, AllocError>
    ensures ok { IfOk result
        (λ n. Writes delims out.old.items out.new.items
        (adjustment_body moment.now number lines.now) n) }
    ensures kept { Extends out.old.items out.new.items }
{
    let date = moment.date();
    let mut buffer = Buffer::new();
    let number = buffer.format(number).as_bytes();
    let first = append_segment(out, delims, &[b"W15", &date, number])?;
    let others = append_lines(out, delims, lines)?;
    Ok(first + others)
}
