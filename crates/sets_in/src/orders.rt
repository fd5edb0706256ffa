ghost use Rattle.std.specs.Prelude.{◌≡◌, ◌≤◌, ◌<◌, ◌^◌, ◌-◌, IfOk, All, codes, map, length, option_map};
ghost use Rattle.definitions.specs.Rules.{Today};
ghost use Rattle.definitions.specs.Cut.{segments_of, places_of, element};
ghost use Rattle.definitions.specs.Limits.{most_quantity};
ghost use Rattle.definitions.specs.Means as meant;
ghost use Rattle.definitions.specs.declared.set_kind.SetKind.TheVariants as kinds;
ghost use Rattle.definitions.specs.declared.widths.TheConstants.{ORDER_TOTAL_DIGITS_TWO, QUANTITY_DIGITS_TWO};
ghost use Rattle.sets_in.specs.Amounts.{IsAmount, IsCountable, HaveAmounts};
ghost use Rattle.sets_in.specs.SaidOrder.{SaysOrder};

use crate::addresses::ship_to;
use crate::reading::{copied, element_at, element_with, has_id_at, place_with};
use crate::shipping::{Order, OrderLine};
use segments::{Segment, number};
use std::alloc::{AllocError, Global};
use tables::Checked;

// The segments of an order, with what is known of their numbers.
fn ordered<'a>(set: &Checked<'a>) -> &'a [Segment<'a>]
    requires { set.now.kind ≡ kinds.ShippingOrder }

    ensures same { result.now ≡ set.now.pieces }
    ensures short { length result.now < 2 ^ 32 - 1 }
    ensures counted { IsCountable (codes "W01") (codes "W76") ORDER_TOTAL_DIGITS_TWO
        (segments_of result.now) }
    ensures says { SaysOrder (segments_of result.now) (meant.order_of (segments_of result.now)) }
{
    set.segments()
}

// The lot that the segment at the position pins to, if it is an N9.
fn pin_at(
    alloc: Global,
    segments: &[Segment<'_>],
    position: usize,
) -> Result<Option<Vec<u8>>, AllocError>
    ensures { IfOk result
        (λ p. option_map (λ v. v.items) p
        ≡ meant.pin_of (meant.segment_at (segments_of segments.now) position)) }
{
    if has_id_at(segments, position, b"N9") {
        Ok(Some(copied(alloc, element_at(segments, position, 2))?))
    } else {
        Ok(None)
    }
}

// The line whose W01 stands at the position.
fn order_line(
    alloc: Global,
    segments: &[Segment<'_>],
    position: u32,
) -> Result<OrderLine, AllocError>
    requires { IsAmount QUANTITY_DIGITS_TWO
        (element (meant.segment_at (segments_of segments.now) position) 1) }

    ensures line { IfOk result (λ l. l ≡ meant.order_line (segments_of segments.now) position) }
    ensures small { IfOk result (λ l. l.quantity ≤ most_quantity Today) }
{
    let at = position as usize;
    let item = copied(alloc, element_at(segments, at, 5))?;
    let pin = pin_at(alloc, segments, at + 1)?;
    let quantity = number(element_at(segments, at, 1));
    Ok(OrderLine {
        item,
        pin,
        quantity,
        position,
    })
}

// The lines of an order.
fn order_lines(alloc: Global, segments: &[Segment<'_>]) -> Result<Vec<OrderLine>, AllocError>
    requires short { length segments.now < 2 ^ 32 - 1 }
    requires quantities { HaveAmounts (codes "W01") 1 QUANTITY_DIGITS_TWO
        (segments_of segments.now) }

    ensures lines { IfOk result
        (λ v. v.items ≡ map (meant.order_line (segments_of segments.now))
        (places_of (codes "W01") (segments_of segments.now))) }
    ensures small { IfOk result
        (λ v. All (λ (l : meant.OrderLine). l.quantity ≤ most_quantity Today) v.items) }
{
    let mut lines = Vec::new(alloc);
    for (index, segment) in segments.iter().enumerate() {
        if !segment.has_id(b"W01") {
            continue;
        }
        lines.push(order_line(alloc, segments, index as u32 + 1)?)?;
    }
    Ok(lines)
}

// What the segments of an order say.
fn said(alloc: Global, segments: &[Segment<'_>]) -> Result<Order, AllocError>
    requires short { length segments.now < 2 ^ 32 - 1 }
    requires counted { IsCountable (codes "W01") (codes "W76") ORDER_TOTAL_DIGITS_TWO
        (segments_of segments.now) }

    ensures { IfOk result (λ o. o ≡ meant.order_of (segments_of segments.now)) }
{
    let number_text = copied(alloc, element_with(segments, b"W05", 2))?;
    let address = ship_to(alloc, segments)?;
    let lines = order_lines(alloc, segments)?;
    Ok(Order {
        number: number_text,
        address,
        lines,
        total: number(element_with(segments, b"W76", 1)),
        place_of_total: place_with(segments, b"W76"),
    })
}

/// What an order that was judged says: its number, where it goes, its lines in order, and its
/// total, with their positions. The one error is want of memory.
pub fn order(alloc: Global, set: &Checked<'_>) -> Result<Order, AllocError>
    requires { set.now.kind ≡ kinds.ShippingOrder }

    ensures value { IfOk result (λ o. o ≡ meant.order_of (segments_of set.now.pieces)) }
    ensures says { IfOk result (λ o. SaysOrder (segments_of set.now.pieces) o) }
{
    said(alloc, ordered(set))
}
