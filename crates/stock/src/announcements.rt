ghost use Rattle.std.specs.Prelude.{◌≡◌, ◌<◌, ◌++◌, ◌≤◌, [], ◌∷◌, List, None, IfOk, IfErr, length};
ghost use Rattle.definitions.specs.Rules.{Today};
ghost use Rattle.definitions.specs.Limits.{most_lines, most_sets};
ghost use Rattle.definitions.specs.Events.{Event, Advised, advice_fault};
ghost use Rattle.definitions.specs.Means.{advised as meant_lines};
ghost use Rattle.page_rows.specs.Pages.{PageFacts, IsSound, advice_at};
ghost use Rattle.stock.specs.Parts.{Named, IsPart, NamesAdvice};
ghost use Rattle.stock.specs.Puts.{put};
ghost use Rattle.stock.specs.Shows.{Shows};
ghost use Rattle.page_rows.specs.Steps.{IsAnnounced, opened};
ghost use Rattle.stock.specs.Stops.{StopsFor, advice_changes};

use crate::changes::row_changes;
use crate::copies::advised;
use crate::faults::advice_fault;
use crate::page::Page;
use crate::places::touched;
use crate::postings::{add_lines, date_lines};
use crate::steps::{Change, SetStop, Step};
use page_rows::{Column, KnownAdvice};
use sets_in::{Advice, Goods};
use std::alloc::{AllocError, Global};

// An advice that is opened.
fn opened(alloc: Global, advice: &Advice, lines: Vec<Goods>) -> Result<KnownAdvice, AllocError>
    requires lines { lines.items ≡ meant_lines advice.now }
    requires few { length lines.items ≤ most_lines Today }

    ensures { IfOk result (λ known. known ≡ opened advice.now) }
{
    let shipment = advice.shipment().to_vec(alloc)?;
    let order = advice.order().to_vec(alloc)?;
    Ok(KnownAdvice::new(shipment, order, lines, true))
}

// What an advice that is opened changes.
fn changes(alloc: Global, page: &Page, advice: &Advice) -> Result<Vec<Change>, AllocError>
    requires unknown { advice_at advice.now.shipment page.now.advices ≡ None }
    requires room { page.now.recent < most_sets }

    ensures made { IfOk result
        (λ changes. (n : Named) (P : PageFacts) → IsPart n page.now P → NamesAdvice n advice.now
        → IsAnnounced advice.now P (put changes.items P)) }
    ensures exact { IfOk result
        (λ changes. (n : Named) (P : PageFacts) → IsPart n page.now P → NamesAdvice n advice.now
        → changes.items ≡ advice_changes advice.now.shipment P (put changes.items P)) }
    ensures sound { IfOk result (λ changes. IsSound (put changes.items page.now)) }
{
    let set_lines = advice.lines();
    let lines = advised(alloc, set_lines)?;
    let rows = page.rows();
    let mut touched = touched(alloc, rows, &lines)?;
    add_lines(alloc, &mut touched, Column::Expected, &lines)?;
    date_lines(alloc, &mut touched, set_lines)?;
    let mut changes = row_changes(alloc, rows, &touched)?;
    changes.push(Change::Advice(opened(alloc, advice, lines)?))?;
    Ok(changes)
}

/// Opens an advice: each of its lines is added to what is expected of its pair, and gives a pair
/// without a date of expiry its own, if it has one. The error is the trade fault at the least
/// position (a known shipment number, a pair that stands twice or has another date, a W03 that
/// isn't the sum), or want of memory.
pub fn announce(alloc: Global, page: &Page, advice: &Advice) -> Result<Step, SetStop>
    requires { page.now.recent < most_sets }

    ensures ok { IfOk result
        (λ step. (n : Named) (P : PageFacts) (es : List Event) → IsPart n page.now P
        → NamesAdvice n advice.now → Shows P es → (advice_fault es advice.now ≡ None)
        × Shows (put step.changes.items P) (es ++ Advised advice.now ∷ [])) }
    ensures err { IfErr result
        (λ stop. (n : Named) (P : PageFacts) (es : List Event) → IsPart n page.now P
        → NamesAdvice n advice.now → Shows P es → StopsFor (advice_fault es advice.now) stop) }
    ensures changes { IfOk result
        (λ step. (n : Named) (P : PageFacts) → IsPart n page.now P → NamesAdvice n advice.now
        → step.changes.items ≡ advice_changes advice.now.shipment P (put step.changes.items P)) }
    ensures sound { IfOk result (λ step. IsSound (put step.changes.items page.now)) }
{
    let is_known = page.has_advice(advice.shipment());
    if let Some(fault) = advice_fault(alloc, advice, is_known, page.rows())? {
        return Err(SetStop::Fault(fault));
    }
    let changes = changes(alloc, page, advice)?;
    Ok(Step { changes })
}
