//! Which document tells of an act.
ghost use Rattle.std.specs.Prelude.{◌≡◌, List, Ok, IfOk};
ghost use Rattle.definitions.specs.Clerk.{performed};
ghost use Rattle.definitions.specs.Events.{Event};
ghost use Rattle.definitions.specs.Texts.{document_of};
ghost use Rattle.stock.specs.Pages.{PageFacts};
ghost use Rattle.stock.specs.Parts.{Named, IsPart};
ghost use Rattle.stock.specs.Shows.{Shows};
ghost use Rattle.entries.specs.Asked.{act_of};
ghost use Rattle.rules.specs.Needs.{NamesAct};

use crate::documents::{adjustment, receipt, shipment};
use entries::Act;
use sets_out::Envelope;
use std::alloc::{AllocError, Global};
use stock::Page;

/// The text of the document of an act that is performed over a page, under the number of the next
/// entry. Want of memory is the one error.
pub(crate) fn document(
    alloc: Global,
    envelope: &Envelope,
    page: &Page,
    act: &Act<'_>,
) -> Result<Vec<u8>, AllocError>
    ensures { IfOk result
        (λ text. (n : Named) (P : PageFacts) (es : List Event) (e : Event) → IsPart n page.now P
        → NamesAct n page.now (act_of act.now) → Shows P es
        → performed es envelope.now.number (act_of act.now) ≡ Ok e
        → text.items ≡ document_of envelope.now.warehouse envelope.now.depositor envelope.now.moment
        envelope.now.number e) }
{
    match act {
        Act::Count { shipment, sheet } => match page.advice(shipment) {
            Some(advice) => receipt(alloc, envelope, advice, sheet),
            None => Ok(Vec::new(alloc)),
        },
        Act::Pick { order, sheet } => match page.order(order) {
            Some(order) => shipment(alloc, envelope, order, sheet),
            None => Ok(Vec::new(alloc)),
        },
        Act::Recount { sheet } => adjustment(alloc, envelope, page, sheet),
    }
}
