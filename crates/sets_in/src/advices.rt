ghost use Rattle.std.specs.Prelude.{◌≡◌, ◌≤◌, ◌<◌, ◌^◌, ◌-◌, IfOk, All, codes, map, length, option_map};
ghost use Rattle.definitions.specs.Rules.{Today};
ghost use Rattle.definitions.specs.Cut.{segments_of, places_of, element};
ghost use Rattle.definitions.specs.Limits.{most_quantity};
ghost use Rattle.definitions.specs.Means as meant;
ghost use Rattle.definitions.specs.declared.set_kind.SetKind.TheVariants as kinds;
ghost use Rattle.definitions.specs.declared.widths.TheConstants.{ADVICE_TOTAL_DIGITS_TWO, QUANTITY_DIGITS_TWO};
ghost use Rattle.sets_in.specs.Amounts.{IsAmount, IsCountable, HaveAmounts};
ghost use Rattle.sets_in.specs.Said.{SaysAdvice};

use crate::lines::{AdviceLine, Goods};
use crate::reading::{copied, element_at, element_with, has_id_at, place_with};
use crate::sets::Advice;
use segments::{Segment, number};
use std::alloc::{AllocError, Global};
use tables::Checked;

// The segments of an advice, with what is known of their numbers.
fn advised<'a>(set: &Checked<'a>) -> &'a [Segment<'a>]
    requires { set.now.kind ≡ kinds.ShipmentAdvice }

    ensures same { result.now ≡ set.now.pieces }
    ensures short { length result.now < 2 ^ 32 - 1 }
    ensures counted { IsCountable (codes "W04") (codes "W03") ADVICE_TOTAL_DIGITS_TWO
        (segments_of result.now) }
    ensures says { SaysAdvice (segments_of result.now) (meant.advice_of (segments_of result.now)) }
{
    set.segments()
}

// The day on which the lot of the segment at the position expires, if it is an N9 that gives one.
fn expiry_at(
    alloc: Global,
    segments: &[Segment<'_>],
    position: usize,
) -> Result<Option<Vec<u8>>, AllocError>
    ensures { IfOk result
        (λ e. option_map (λ v. v.items) e
        ≡ meant.expiry_of (meant.segment_at (segments_of segments.now) position)) }
{
    let expiry = element_at(segments, position, 4);
    if has_id_at(segments, position, b"N9") && !expiry.is_empty() {
        Ok(Some(copied(alloc, expiry)?))
    } else {
        Ok(None)
    }
}

// The line whose W04 stands at the position.
fn advice_line(
    alloc: Global,
    segments: &[Segment<'_>],
    position: u32,
) -> Result<AdviceLine, AllocError>
    requires { IsAmount QUANTITY_DIGITS_TWO
        (element (meant.segment_at (segments_of segments.now) position) 1) }

    ensures line { IfOk result (λ l. l ≡ meant.advice_line (segments_of segments.now) position) }
    ensures small { IfOk result (λ l. l.line.quantity ≤ most_quantity Today) }
{
    let at = position as usize;
    let item = copied(alloc, element_at(segments, at, 5))?;
    let lot = copied(alloc, element_at(segments, at + 1, 2))?;
    let expiry = expiry_at(alloc, segments, at + 1)?;
    let quantity = number(element_at(segments, at, 1));
    Ok(AdviceLine {
        line: Goods {
            item,
            lot,
            quantity,
        },
        expiry,
        position,
    })
}

// The lines of an advice.
fn advice_lines(alloc: Global, segments: &[Segment<'_>]) -> Result<Vec<AdviceLine>, AllocError>
    requires short { length segments.now < 2 ^ 32 - 1 }
    requires quantities { HaveAmounts (codes "W04") 1 QUANTITY_DIGITS_TWO
        (segments_of segments.now) }

    ensures lines { IfOk result
        (λ v. v.items ≡ map (meant.advice_line (segments_of segments.now))
        (places_of (codes "W04") (segments_of segments.now))) }
    ensures small { IfOk result
        (λ v. All (λ (l : meant.AdviceLine). l.line.quantity ≤ most_quantity Today) v.items) }
    ensures placed { IfOk result
        (λ v. All (λ (l : meant.AdviceLine). l.position < 2 ^ 32 - 1) v.items) }
{
    let mut lines = Vec::new(alloc);
    for (index, segment) in segments.iter().enumerate() {
        if !segment.has_id(b"W04") {
            continue;
        }
        lines.push(advice_line(alloc, segments, index as u32 + 1)?)?;
    }
    Ok(lines)
}

// What the segments of an advice say.
fn said(alloc: Global, segments: &[Segment<'_>]) -> Result<Advice, AllocError>
    requires short { length segments.now < 2 ^ 32 - 1 }
    requires counted { IsCountable (codes "W04") (codes "W03") ADVICE_TOTAL_DIGITS_TWO
        (segments_of segments.now) }

    ensures { IfOk result (λ a. a ≡ meant.advice_of (segments_of segments.now)) }
{
    let shipment = copied(alloc, element_with(segments, b"W06", 4))?;
    let order = copied(alloc, element_with(segments, b"W06", 2))?;
    let lines = advice_lines(alloc, segments)?;
    Ok(Advice {
        shipment,
        order,
        lines,
        total: number(element_with(segments, b"W03", 1)),
        place_of_total: place_with(segments, b"W03"),
    })
}

/// What an advice that was judged says: its numbers, its lines in order, and its total, with their
/// positions. The one error is want of memory.
pub fn advice(alloc: Global, set: &Checked<'_>) -> Result<Advice, AllocError>
    requires { set.now.kind ≡ kinds.ShipmentAdvice }

    ensures value { IfOk result (λ a. a ≡ meant.advice_of (segments_of set.now.pieces)) }
    ensures says { IfOk result (λ a. SaysAdvice (segments_of set.now.pieces) a) }
{
    said(alloc, advised(set))
}
