ghost use Rattle.std.specs.Prelude.{◌≡◌, ◌<◌, ◌-◌, ◌^◌, IfOk, IfSome, [], sum_by, Option, find, option_map};
ghost use Rattle.definitions.specs.Means as meant;
ghost use Rattle.definitions.specs.Events as events;
ghost use Rattle.page_rows.specs.Keyed.{IsSorted};
ghost use Rattle.page_rows.specs.OfPairs.{date_of_pair};
ghost use Rattle.sets_in.specs.Limits.{HasFewLines, HasFewOrderLines};

use crate::places::{is_among, is_redated, placed};
use page_rows::{Row, new_line};
use segments::{ElementFault, SetFault};
use sets_in::{Advice, AdviceLine, Order, OrderLine};
use std::alloc::{AllocError, Global};

// A trade fault of a segment, at an element of this place.
fn trade_fault(id: &'static [u8], position: u32, place: usize) -> SetFault<'static>
    ensures { result ≡ events.trade_fault id.now position place }
{
    SetFault {
        id,
        position: position as usize,
        code: 8,
        element: Some(ElementFault { place, code: 7 }),
    }
}

// The position of the first line whose pair stood before in the set. The pairs of the lines before
// it are kept as rows, in order, so that each is found by halves.
fn repeated_pair(alloc: Global, lines: &[AdviceLine]) -> Result<Option<u32>, AllocError>
    requires { HasFewLines lines.now }

    ensures room { IfOk result (λ o. IfSome o (λ n. n < 2 ^ 32 - 1)) }
    ensures first { IfOk result
        (λ o. o ≡ option_map
        (λ (l : meant.AdviceLine). l.position) (events.repeated events.same_advice_pair []
        lines.now)) }
{
    let mut seen = Vec::new(alloc);
    for line in lines {
        let goods = &line.line;
        if is_among(&seen, &goods.item, &goods.lot) {
            return Ok(Some(line.position));
        }
        placed(alloc, &mut seen, goods)?;
    }
    Ok(None)
}

// The position of the first line with a date for a pair whose row has another.
fn redated_pair(lines: &[AdviceLine], rows: &[Row]) -> Option<u32>
    requires few { HasFewLines lines.now }
    requires sorted { IsSorted rows.now }

    ensures room { IfSome result (λ n. n < 2 ^ 32 - 1) }
    ensures first { result ≡ option_map
        (λ (l : meant.AdviceLine). l.position) (find (events.is_redated
        (λ item lot. date_of_pair item lot rows.now)) lines.now) }
{
    for line in lines {
        if is_redated(rows, line) {
            return Some(line.position);
        }
    }
    None
}

// The fault at the lesser position, the first where they stand in one segment.
fn sooner(
    fault: Option<SetFault<'static>>,
    other: Option<SetFault<'static>>,
) -> Option<SetFault<'static>>
    ensures { result
        ≡ events.sooner fault.entry other.entry }
{
    let Some(fault) = fault else {
        return other;
    };
    let Some(other) = other else {
        return Some(fault);
    };
    if fault.position <= other.position {
        Some(fault)
    } else {
        Some(other)
    }
}

// The fault of a pair: it stands twice in the advice (element 2 of its N9), or has another date
// (element 4).
fn pair_fault(
    alloc: Global,
    advice: &Advice,
    rows: &[Row],
) -> Result<Option<SetFault<'static>>, AllocError>
    requires { IsSorted rows.now }

    ensures { IfOk result
        (λ f. f
        ≡ events.sooner (events.repeated_pair advice.now) (events.redated_pair
        (λ item lot. date_of_pair item lot rows.now) advice.now)) }
{
    let lines = advice.lines();
    let repeated = repeated_pair(alloc, lines)?.map(|position| trade_fault(b"N9", position + 1, 2));
    let redated = redated_pair(lines, rows).map(|position| trade_fault(b"N9", position + 1, 4));
    Ok(sooner(repeated, redated))
}

// The sum of the quantities of an advice.
fn advice_total(lines: &[AdviceLine]) -> u64
    requires { HasFewLines lines.now }

    ensures { result ≡ sum_by (λ l. l.line.quantity) lines.now }
{
    let mut total: u64 = 0;
    for line in lines {
        let line = &line.line;
        total += u64::from(line.quantity);
    }
    total
}

/// The trade fault of an advice, at the least position: its shipment number is known, a pair stands
/// twice in it or has another date in its row, or W03 isn't the sum.
pub(crate) fn advice_fault(
    alloc: Global,
    advice: &Advice,
    is_known: bool,
    rows: &[Row],
) -> Result<Option<SetFault<'static>>, AllocError>
    requires { IsSorted rows.now }

    ensures { IfOk result
        (λ f. f ≡ events.advice_fault_where is_known
        (λ item lot. date_of_pair item lot rows.now) advice.now) }
{
    let lines = advice.lines();
    if is_known {
        return Ok(Some(trade_fault(b"W06", 2, 4)));
    }
    if let Some(fault) = pair_fault(alloc, advice, rows)? {
        return Ok(Some(fault));
    }
    if advice_total(lines) != u64::from(advice.stated_total()) {
        return Ok(Some(trade_fault(b"W03", advice.total_position(), 1)));
    }
    Ok(None)
}

// The position of the first line whose item stood before in the set. The items of the lines before
// it are kept as rows of no lot, in order, so that each is found by halves.
fn repeated_item(alloc: Global, lines: &[OrderLine]) -> Result<Option<u32>, AllocError>
    ensures { IfOk result
        (λ o. o ≡ option_map
        (λ (l : meant.OrderLine). l.position) (events.repeated events.same_order_item []
        lines.now)) }
{
    let mut seen = Vec::new(alloc);
    for line in lines {
        if is_among(&seen, &line.item, &[]) {
            return Ok(Some(line.position));
        }
        placed(alloc, &mut seen, &new_line(alloc, &line.item, &[], 0)?)?;
    }
    Ok(None)
}

// The sum of the quantities of an order.
fn order_total(lines: &[OrderLine]) -> u64
    requires { HasFewOrderLines lines.now }

    ensures { result ≡ sum_by (λ l. l.quantity) lines.now }
{
    let mut total: u64 = 0;
    for line in lines {
        total += u64::from(line.quantity);
    }
    total
}

/// The trade fault of an order, at the least position: its number is known, an item stands twice in
/// it, or W76 isn't the sum.
pub(crate) fn order_fault(
    alloc: Global,
    order: &Order,
    is_known: bool,
) -> Result<Option<SetFault<'static>>, AllocError>
    ensures { IfOk result
        (λ f. f ≡ events.order_fault_where is_known order.now) }
{
    let lines = order.lines();
    if is_known {
        return Ok(Some(trade_fault(b"W05", 2, 2)));
    }
    if let Some(position) = repeated_item(alloc, lines)? {
        return Ok(Some(trade_fault(b"W01", position, 5)));
    }
    if order_total(lines) != u64::from(order.stated_total()) {
        return Ok(Some(trade_fault(b"W76", order.total_position(), 1)));
    }
    Ok(None)
}
