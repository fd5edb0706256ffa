ghost use Rattle.std.specs.Prelude.{true, ◌≡◌, ◌<◌, ◌++◌, [], ◌∷◌, List, None, IfOk, IfErr};
ghost use Rattle.definitions.specs.declared.rules.Rules.{Rules};
ghost use Rattle.definitions.specs.Limits.{most_sets};
ghost use Rattle.definitions.specs.Allotment.{order_shares};
ghost use Rattle.definitions.specs.Events.{Event, Ordered, order_fault, repeated, same_order_item};
ghost use Rattle.definitions.specs.Page.{reserved_lines};
ghost use Rattle.page_rows.specs.Lots.{all_shares_in};
ghost use Rattle.page_rows.specs.Pages.{PageFacts, IsSound, order_at};
ghost use Rattle.stock.specs.Parts.{Named, IsPart, NamesOrder};
ghost use Rattle.stock.specs.Puts.{put};
ghost use Rattle.stock.specs.Shows.{Shows};
ghost use Rattle.page_rows.specs.Steps.{IsReserved, opened_order};
ghost use Rattle.stock.specs.Stops.{StopsFor, order_changes};

use crate::changes::row_changes;
use crate::copies::{known_lines, reserved};
use crate::faults::order_fault;
use crate::page::Page;
use crate::places::touched;
use crate::postings::add_lines;
use crate::steps::{Change, SetStop, Step};
use definitions::Rules;
use page_rows::{Column, KnownOrder, all_shares};
use sets_in::{Address, Goods, Order};
use std::alloc::{AllocError, Global};

// A copy of the address of an order.
fn copied_address(order: &Order) -> Result<Option<Address>, AllocError>
    ensures { IfOk result (λ address. address ≡ order.now.address) }
{
    match order.address() {
        Some(address) => Ok(Some(address.clone()?)),
        None => Ok(None),
    }
}

// An order that is opened, with what is reserved for it.
fn opened(
    alloc: Global,
    order: &Order,
    shares: &[Goods],
    lines: Vec<Goods>,
) -> Result<KnownOrder, AllocError>
    requires { lines.items ≡ reserved_lines shares.now }

    ensures { IfOk result (λ known. known ≡ opened_order order.now shares.now) }
{
    let number = order.number().to_vec(alloc)?;
    let address = copied_address(order)?;
    let known = known_lines(alloc, order.lines())?;
    Ok(KnownOrder {
        number,
        address,
        lines: known,
        reserved: lines,
        is_open: true,
    })
}

// What an order that is opened changes, with its shares reserved.
fn changes(
    alloc: Global,
    page: &Page,
    order: &Order,
    shares: &[Goods],
) -> Result<Vec<Change>, AllocError>
    requires room { page.now.recent < most_sets }
    requires unknown { order_at order.now.number page.now.orders ≡ None }
    requires once { repeated same_order_item [] order.now.lines ≡ None }
    requires allotted { (r : Rules) × (shares.now ≡ all_shares_in r page.now.rows order.now.lines) }

    ensures made { IfOk result
        (λ changes. (n : Named) (P : PageFacts) → IsPart n page.now P → NamesOrder n order.now
        → IsReserved order.now shares.now P (put changes.items P)) }
    ensures exact { IfOk result
        (λ changes. (n : Named) (P : PageFacts) → IsPart n page.now P → NamesOrder n order.now
        → changes.items ≡ order_changes order.now.number P (put changes.items P)) }
    ensures sound { IfOk result (λ changes. IsSound (put changes.items page.now)) }
{
    let lines = reserved(alloc, shares)?;
    let rows = page.rows();
    let mut touched = touched(alloc, rows, &lines)?;
    add_lines(alloc, &mut touched, Column::Reservation, &lines)?;
    let mut changes = row_changes(alloc, rows, &touched)?;
    changes.push(Change::Order(opened(alloc, order, shares, lines)?))?;
    Ok(changes)
}

/// Opens an order: each of its lines is given what is free of the lots that it may have, as far as
/// it is wanted, and that is reserved. Under rules 1 the lot that was counted first comes before
/// the others. Under rules 2 that is the lot that expires first, those without a date come last,
/// and of one date the one that was counted first comes first. The error is the trade fault at the
/// least position (a known order number, an item that stands twice, a W76 that isn't the sum), or
/// want of memory.
pub fn reserve(alloc: Global, page: &Page, order: &Order, rules: Rules) -> Result<Step, SetStop>
    requires { page.now.recent < most_sets }

    ensures ok { IfOk result
        (λ step. (n : Named) (P : PageFacts) (es : List Event) → IsPart n page.now P
        → NamesOrder n order.now → Shows P es
        → (order_fault es order.now ≡ None)
        × Shows (put step.changes.items P) (es
        ++ Ordered order.now (order_shares rules es order.now) ∷ [])) }
    ensures err { IfErr result
        (λ stop. (n : Named) (P : PageFacts) (es : List Event) → IsPart n page.now P
        → n.orders order.now.number ≡ true → Shows P es
        → StopsFor (order_fault es order.now) stop) }
    ensures changes { IfOk result
        (λ step. (n : Named) (P : PageFacts) → IsPart n page.now P → NamesOrder n order.now
        → step.changes.items ≡ order_changes order.now.number P (put step.changes.items P)) }
    ensures sound { IfOk result (λ step. IsSound (put step.changes.items page.now)) }
{
    let is_known = page.has_order(order.number());
    if let Some(fault) = order_fault(alloc, order, is_known)? {
        return Err(SetStop::Fault(fault));
    }
    let shares = all_shares(alloc, page.rows(), order.lines(), rules)?;
    let changes = changes(alloc, page, order, &shares)?;
    Ok(Step { changes })
}
