ghost use Rattle.std.specs.Prelude.{◌≡◌, ◌<◌, ◌+◌, ◌++◌, [], ◌∷◌, List, Ok, IfOk, IfErr, true, false};
ghost use Rattle.std.specs.List.{list_any};
ghost use Rattle.definitions.specs.Limits.{most_sets};
ghost use Rattle.definitions.specs.Clerk.{recounted};
ghost use Rattle.definitions.specs.Events.{Event};
ghost use Rattle.page_rows.specs.Pages.{PageFacts, IsSound};
ghost use Rattle.stock.specs.Parts.{Named, IsPart, are_items};
ghost use Rattle.stock.specs.Puts.{put};
ghost use Rattle.stock.specs.Shows.{Shows};
ghost use Rattle.page_rows.specs.Steps.{IsRecounted, is_unknown, is_below};
ghost use Rattle.stock.specs.Stops.{StopsAct, row_changes};
ghost use Rattle.page_rows.specs.declared.documents.Function.TheVariants.{Adjustment};
ghost use Rattle.stock.specs.declared.steps.Change.TheVariants.{Sent};

use crate::changes::row_changes;
use crate::page::Page;
use crate::places::touched;
use crate::postings::set_lines;
use crate::steps::{ActStop, Change, Step};
use definitions::Refusal;
use page_rows::{Function, are_on_hand, has_below, has_unknown};
use sheets::Sheet;
use std::alloc::{AllocError, Global};

// What changes when what is on hand is as the sheet says.
fn changes(alloc: Global, page: &Page, sheet: &Sheet) -> Result<Vec<Change>, AllocError>
    requires room { page.now.recent < most_sets }
    requires known { list_any (is_unknown page.now.rows) sheet.now ≡ false }
    requires covered { list_any (is_below page.now.rows) sheet.now ≡ false }

    ensures made { IfOk result
        (λ changes. (n : Named) (P : PageFacts) → IsPart n page.now P → are_items n sheet.now ≡ true
        → IsRecounted (page.now.entries + 1) sheet.now P (put changes.items P)) }
    ensures exact { IfOk result
        (λ changes. (n : Named) (P : PageFacts) → IsPart n page.now P → are_items n sheet.now ≡ true
        → changes.items ≡ row_changes P (put changes.items P)
        ++ Sent (page.now.entries + 1) Adjustment ∷ []) }
    ensures sound { IfOk result (λ changes. IsSound (put changes.items page.now)) }
{
    let goods = sheet.lines(alloc)?;
    let rows = page.rows();
    let mut touched = touched(alloc, rows, &goods)?;
    set_lines(&mut touched, &goods);
    let mut changes = row_changes(alloc, rows, &touched)?;
    changes.push(Change::Sent {
        n: page.next_number(),
        function: Function::Adjustment,
    })?;
    Ok(changes)
}

/// Sets what is on hand of the sheet's pairs, under the number of the next entry. The error is 27
/// (no count named a pair), 28 (an amount is below what is reserved of its pair), 29 (no line
/// differs from what is on hand), each over all lines, or want of memory.
pub fn recount(alloc: Global, page: &Page, sheet: &Sheet) -> Result<Step, ActStop>
    requires { page.now.recent < most_sets }

    ensures ok { IfOk result
        (λ step. (n : Named) (P : PageFacts) (es : List Event) → IsPart n page.now P
        → are_items n sheet.now ≡ true → Shows P es
        → (e : Event) × (recounted es (page.now.entries + 1) sheet.now ≡ Ok e)
        × Shows (put step.changes.items P) (es ++ e ∷ [])) }
    ensures err { IfErr result
        (λ stop. (n : Named) (P : PageFacts) (es : List Event) → IsPart n page.now P
        → are_items n sheet.now ≡ true → Shows P es
        → StopsAct (recounted es (page.now.entries + 1) sheet.now) stop) }
    ensures changes { IfOk result
        (λ step. (n : Named) (P : PageFacts) → IsPart n page.now P → are_items n sheet.now ≡ true
        → step.changes.items ≡ row_changes P (put step.changes.items P)
        ++ Sent (page.now.entries + 1) Adjustment ∷ []) }
    ensures sound { IfOk result (λ step. IsSound (put step.changes.items page.now)) }
{
    let goods = sheet.lines(alloc)?;
    let rows = page.rows();
    if has_unknown(rows, &goods) {
        return Err(ActStop::Refused(Refusal::UnknownLot));
    }
    if has_below(rows, &goods) {
        return Err(ActStop::Refused(Refusal::BelowReserved));
    }
    if are_on_hand(rows, &goods) {
        return Err(ActStop::Refused(Refusal::NoDifference));
    }
    let changes = changes(alloc, page, sheet)?;
    Ok(Step { changes })
}
