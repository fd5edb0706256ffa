//! What a command needs of its depositor's page: all that it names.
ghost use Rattle.std.specs.Prelude.{◌≡◌, IfOk};
ghost use Rattle.definitions.specs.Cut.{cut as meant_cut};
ghost use Rattle.definitions.specs.Need as meant;
ghost use Rattle.entries.specs.Asked.{act_of, asked};

use crate::commands::{Act, Command};
use crate::names::{Name, Need, add_if, add_number, items_of};
use envelope::isa;
use segments::{Delims, Segment, cut};
use std::alloc::{AllocError, Global};
use stock::Sheet;

// Puts after a need what a segment names: W04 and W01 an item, W06 a shipment number, W05 the
// number of an order, AK1 that of a document.
fn with_segment(alloc: Global, need: Need, segment: &Segment<'_>) -> Result<Need, AllocError>
    ensures { IfOk result
        (λ all. all ≡ meant.together need (meant.need_of_segment segment.now.elements)) }
{
    let Need {
        mut items,
        mut shipments,
        mut orders,
        mut documents,
    } = need;
    let is_goods = segment.has_id(b"W04") || segment.has_id(b"W01");
    add_if(alloc, &mut items, is_goods, segment.element(5))?;
    add_if(
        alloc,
        &mut shipments,
        segment.has_id(b"W06"),
        segment.element(4),
    )?;
    add_if(
        alloc,
        &mut orders,
        segment.has_id(b"W05"),
        segment.element(2),
    )?;
    add_number(&mut documents, segment.has_id(b"AK1"), segment.element(2))?;
    Ok(Need {
        items,
        shipments,
        orders,
        documents,
    })
}

// What the segments of a text name.
fn named_in(alloc: Global, text: &[u8], delims: Delims) -> Result<Need, AllocError>
    ensures { IfOk result
        (λ need. need ≡ meant.need_of_segments (meant_cut delims text.now).segments) }
{
    let mut need = Need::nothing(alloc);
    let mut left = cut(text, delims);
    while let Some(segment) = left.next() {
        need = with_segment(alloc, need, &segment)?;
    }
    Ok(need)
}

// What a text names: nothing where it can't be read.
fn of_text(alloc: Global, text: &[u8]) -> Result<Need, AllocError>
    ensures { IfOk result (λ need. need ≡ meant.need_of_text text.now) }
{
    match isa(text) {
        Ok(header) => named_in(alloc, text, header.delims()),
        Err(_) => Ok(Need::nothing(alloc)),
    }
}

// The items of a sheet.
fn items_in(alloc: Global, sheet: &Sheet) -> Result<Vec<Name>, AllocError>
    ensures { IfOk result (λ items. items.items ≡ meant.items_of sheet.now) }
{
    let lines = sheet.lines(alloc)?;
    items_of(alloc, &lines)
}

// What a clerk's act names: the items of its sheet, and the advice or the order.
fn of_act(alloc: Global, act: &Act<'_>) -> Result<Need, AllocError>
    ensures { IfOk result (λ need. need ≡ meant.need_of_act (act_of act.now)) }
{
    let mut need = Need::nothing(alloc);
    match act {
        Act::Count { shipment, .. } => need.shipments.push(Name::of(alloc, shipment)?)?,
        Act::Pick { order, .. } => need.orders.push(Name::of(alloc, order)?)?,
        Act::Recount { .. } => {}
    }
    need.items = items_in(alloc, act.sheet())?;
    Ok(need)
}

/// What a command needs of its depositor's page: all that it names, whether it passes or not. With
/// the part of the page that has this, the decision is that with the whole page. Want of memory is
/// the one error.
pub fn need(alloc: Global, command: &Command<'_>) -> Result<Need, AllocError>
    ensures { IfOk result (λ need. need ≡ meant.need_of (asked command.now)) }
{
    match command {
        Command::Interchange(text) => of_text(alloc, text),
        Command::Enrol(_) => Ok(Need::nothing(alloc)),
        Command::Clerk { act, .. } => of_act(alloc, act),
    }
}
