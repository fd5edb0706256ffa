ghost use Rattle.std.specs.Prelude.{◌≡◌, ◌<◌, ◌+◌, ◌++◌, [], ◌∷◌, List, IfOk, true};
ghost use Rattle.std.specs.List.{list_any};
ghost use Rattle.definitions.specs.Limits.{most_sets};
ghost use Rattle.definitions.specs.Events.{Event, Acknowledged};
ghost use Rattle.page_rows.specs.Pages.{PageFacts, IsSound};
ghost use Rattle.stock.specs.Parts.{Named, IsPart};
ghost use Rattle.stock.specs.Puts.{put};
ghost use Rattle.stock.specs.Shows.{Shows};
ghost use Rattle.page_rows.specs.Steps.{decides};
ghost use Rattle.stock.specs.Stops.{document_changes};

use crate::page::Page;
use crate::steps::{Change, Step};
use sets_in::AckIn;
use std::alloc::{AllocError, Global};

// Whether the acknowledgment decides the document that it names.
fn is_decisive(page: &Page, ack: &AckIn) -> bool
    ensures { result ≡ list_any (decides page.now.entries ack.now) page.now.documents }
{
    // for the prover: what this tells holds of every page (`IsSound`)
    let _ = page.rows();
    match page.document(ack.document) {
        None => false,
        Some(document) => document.is_decided_by(page.entries(), ack),
    }
}

/// Takes an acknowledgment that the next entry brings: it decides the document of an earlier entry
/// that it names by number and kind, if none before it did. Want of memory is the one error.
pub fn acknowledge(alloc: Global, page: &Page, ack: &AckIn) -> Result<Step, AllocError>
    requires { page.now.recent < most_sets }

    ensures ok { IfOk result
        (λ step. (n : Named) (P : PageFacts) (es : List Event) → IsPart n page.now P
        → n.documents ack.now.document ≡ true → Shows P es
        → Shows (put step.changes.items P) (es ++ Acknowledged (page.now.entries + 1) ack.now
        ∷ [])) }
    ensures changes { IfOk result
        (λ step. (n : Named) (P : PageFacts) → IsPart n page.now P
        → n.documents ack.now.document ≡ true → step.changes.items ≡ document_changes P ack.now) }
    ensures sound { IfOk result (λ step. IsSound (put step.changes.items page.now)) }
{
    let mut changes = Vec::new(alloc);
    if is_decisive(page, ack) {
        changes.push(Change::Document {
            n: ack.document,
            accepts: ack.accepts,
        })?;
    }
    // for the prover: what this tells holds of every page (`IsSound`)
    let _ = page.rows();
    Ok(Step { changes })
}
