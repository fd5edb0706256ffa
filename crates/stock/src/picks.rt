ghost use Rattle.std.specs.Prelude.{◌≡◌, ◌<◌, ◌+◌, ◌++◌, [], ◌∷◌, List, Ok, Some, IfOk, IfErr, true, false};
ghost use Rattle.std.specs.List.{list_any};
ghost use Rattle.definitions.specs.Limits.{most_sets};
ghost use Rattle.definitions.specs.Clerk.{picked};
ghost use Rattle.definitions.specs.Events.{Event};
ghost use Rattle.page_rows.specs.Pages.{PageFacts, IsSound, order_at};
ghost use Rattle.stock.specs.Parts.{Named, IsPart, NamesPick, are_items};
ghost use Rattle.stock.specs.Puts.{put};
ghost use Rattle.stock.specs.Shows.{Shows};
ghost use Rattle.page_rows.specs.Steps.{IsPicked, exceeds};
ghost use Rattle.stock.specs.Stops.{StopsAct, order_changes};
ghost use Rattle.page_rows.specs.declared.documents.Function.TheVariants.{Shipment};
ghost use Rattle.stock.specs.declared.steps.Change.TheVariants.{Sent};

use crate::changes::row_changes;
use crate::copies::joined;
use crate::page::Page;
use crate::places::touched;
use crate::postings::ship;
use crate::steps::{ActStop, Change, Step};
use definitions::Refusal;
use page_rows::{Function, KnownOrder, exceeds};
use sheets::Sheet;
use std::alloc::{AllocError, Global};

// What changes when the order is closed and the sheet shipped.
fn changes(
    alloc: Global,
    page: &Page,
    order: &KnownOrder,
    sheet: &Sheet,
) -> Result<Vec<Change>, AllocError>
    requires room { page.now.recent < most_sets }
    requires known { order_at order.now.number page.now.orders ≡ Some order.now }
    requires is_open { order.now.is_open ≡ true }
    requires covered { list_any (exceeds order.now.reserved) sheet.now ≡ false }

    ensures made { IfOk result
        (λ changes. (n : Named) (P : PageFacts) → IsPart n page.now P
        → are_items n order.now.reserved ≡ true → are_items n sheet.now ≡ true
        → IsPicked (page.now.entries + 1) order.now sheet.now P (put changes.items P)) }
    ensures exact { IfOk result
        (λ changes. (n : Named) (P : PageFacts) → IsPart n page.now P
        → are_items n order.now.reserved ≡ true → are_items n sheet.now ≡ true
        → changes.items ≡ order_changes order.now.number P (put changes.items P)
        ++ Sent (page.now.entries + 1) Shipment ∷ []) }
    ensures sound { IfOk result (λ changes. IsSound (put changes.items page.now)) }
{
    let goods = sheet.lines(alloc)?;
    let rows = page.rows();
    let lines = joined(alloc, &order.reserved, &goods)?;
    let mut touched = touched(alloc, rows, &lines)?;
    ship(&mut touched, &order.reserved, &goods);
    let mut changes = row_changes(alloc, rows, &touched)?;
    changes.push(Change::Order(order.closed()?))?;
    changes.push(Change::Sent {
        n: page.next_number(),
        function: Function::Shipment,
    })?;
    Ok(changes)
}

/// Ships the goods of an order under the number of the next entry: what the sheet says goes from
/// what is on hand, and nothing is reserved for the order any more. The error is 24 (there is no
/// such order), 25 (it was picked), 26 (a line exceeds what is reserved for the order of its pair),
/// each over all lines, or want of memory.
pub fn pick(alloc: Global, page: &Page, number: &[u8], sheet: &Sheet) -> Result<Step, ActStop>
    requires { page.now.recent < most_sets }

    ensures ok { IfOk result
        (λ step. (n : Named) (P : PageFacts) (es : List Event) → IsPart n page.now P
        → NamesPick n page.now number.now sheet.now → Shows P es
        → (e : Event) × (picked es (page.now.entries + 1) number.now sheet.now ≡ Ok e)
        × Shows (put step.changes.items P) (es ++ e ∷ [])) }
    ensures err { IfErr result
        (λ stop. (n : Named) (P : PageFacts) (es : List Event) → IsPart n page.now P
        → n.orders number.now ≡ true → Shows P es
        → StopsAct (picked es (page.now.entries + 1) number.now sheet.now) stop) }
    ensures changes { IfOk result
        (λ step. (n : Named) (P : PageFacts) → IsPart n page.now P
        → NamesPick n page.now number.now sheet.now
        → step.changes.items ≡ order_changes number.now P (put step.changes.items P)
        ++ Sent (page.now.entries + 1) Shipment ∷ []) }
    ensures sound { IfOk result (λ step. IsSound (put step.changes.items page.now)) }
{
    // for the prover: what this tells holds of every page (`IsSound`)
    let _ = page.rows();
    let Some(order) = page.order(number) else {
        return Err(ActStop::Refused(Refusal::UnknownOrder));
    };
    if !order.is_open {
        return Err(ActStop::Refused(Refusal::OrderClosed));
    }
    let goods = sheet.lines(alloc)?;
    if exceeds(&order.reserved, &goods) {
        return Err(ActStop::Refused(Refusal::NotReserved));
    }
    let changes = changes(alloc, page, order, sheet)?;
    Ok(Step { changes })
}
