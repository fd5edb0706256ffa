ghost use Rattle.std.specs.Prelude.{◌≡◌, ◌<◌, ◌+◌, ◌++◌, [], ◌∷◌, List, Ok, Some, IfOk, IfErr, true};
ghost use Rattle.definitions.specs.Limits.{most_sets};
ghost use Rattle.definitions.specs.Clerk.{counted};
ghost use Rattle.definitions.specs.Events.{Event};
ghost use Rattle.page_rows.specs.Pages.{PageFacts, IsSound, advice_at};
ghost use Rattle.stock.specs.Parts.{Named, IsPart, NamesCount, are_items};
ghost use Rattle.stock.specs.Puts.{put};
ghost use Rattle.stock.specs.Shows.{Shows};
ghost use Rattle.page_rows.specs.Steps.{IsReceived};
ghost use Rattle.stock.specs.Stops.{StopsAct, advice_changes};
ghost use Rattle.page_rows.specs.declared.documents.Function.TheVariants.{Receipt};
ghost use Rattle.stock.specs.declared.steps.Change.TheVariants.{Sent};

use crate::changes::row_changes;
use crate::copies::joined;
use crate::page::Page;
use crate::places::touched;
use crate::postings::count;
use crate::steps::{ActStop, Change, Step};
use definitions::Refusal;
use page_rows::{Function, KnownAdvice};
use sheets::Sheet;
use std::alloc::{AllocError, Global};

// What changes when the advice is closed and the sheet comes on hand.
fn changes(
    alloc: Global,
    page: &Page,
    advice: &KnownAdvice,
    sheet: &Sheet,
) -> Result<Vec<Change>, AllocError>
    requires room { page.now.recent < most_sets }
    requires known { advice_at advice.now.shipment page.now.advices ≡ Some advice.now }
    requires is_open { advice.now.is_open ≡ true }

    ensures made { IfOk result
        (λ changes. (n : Named) (P : PageFacts) → IsPart n page.now P
        → are_items n advice.now.lines ≡ true → are_items n sheet.now ≡ true
        → IsReceived (page.now.entries + 1) advice.now sheet.now P (put changes.items P)) }
    ensures exact { IfOk result
        (λ changes. (n : Named) (P : PageFacts) → IsPart n page.now P
        → are_items n advice.now.lines ≡ true → are_items n sheet.now ≡ true
        → changes.items ≡ advice_changes advice.now.shipment P (put changes.items P)
        ++ Sent (page.now.entries + 1) Receipt ∷ []) }
    ensures sound { IfOk result (λ changes. IsSound (put changes.items page.now)) }
{
    let goods = sheet.lines(alloc)?;
    let rows = page.rows();
    let lines = joined(alloc, advice.lines(), &goods)?;
    let mut touched = touched(alloc, rows, &lines)?;
    let n = page.next_number();
    count(alloc, &mut touched, n, advice.lines(), &goods)?;
    let mut changes = row_changes(alloc, rows, &touched)?;
    changes.push(Change::Advice(advice.closed()?))?;
    changes.push(Change::Sent {
        n,
        function: Function::Receipt,
    })?;
    Ok(changes)
}

/// Counts the goods of an advice under the number of the next entry: nothing of it is expected any
/// more, and what the sheet says is on hand. The error is 22 (there is no such advice), 23 (it was
/// counted), or want of memory.
pub fn receive(alloc: Global, page: &Page, shipment: &[u8], sheet: &Sheet) -> Result<Step, ActStop>
    requires { page.now.recent < most_sets }

    ensures ok { IfOk result
        (λ step. (n : Named) (P : PageFacts) (es : List Event) → IsPart n page.now P
        → NamesCount n page.now shipment.now sheet.now → Shows P es
        → (e : Event) × (counted es (page.now.entries + 1) shipment.now sheet.now ≡ Ok e)
        × Shows (put step.changes.items P) (es ++ e ∷ [])) }
    ensures err { IfErr result
        (λ stop. (n : Named) (P : PageFacts) (es : List Event) → IsPart n page.now P
        → n.shipments shipment.now ≡ true → Shows P es
        → StopsAct (counted es (page.now.entries + 1) shipment.now sheet.now) stop) }
    ensures changes { IfOk result
        (λ step. (n : Named) (P : PageFacts) → IsPart n page.now P
        → NamesCount n page.now shipment.now sheet.now
        → step.changes.items ≡ advice_changes shipment.now P (put step.changes.items P)
        ++ Sent (page.now.entries + 1) Receipt ∷ []) }
    ensures sound { IfOk result (λ step. IsSound (put step.changes.items page.now)) }
{
    let Some(advice) = page.advice(shipment) else {
        return Err(ActStop::Refused(Refusal::UnknownAdvice));
    };
    if !advice.is_open() {
        return Err(ActStop::Refused(Refusal::AdviceClosed));
    }
    let changes = changes(alloc, page, advice, sheet)?;
    Ok(Step { changes })
}
