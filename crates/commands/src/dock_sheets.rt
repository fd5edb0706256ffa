//! The sheets of advices and of orders, as text or as CSV.
ghost use Rattle.std.specs.Prelude.{◌≡◌, Ok, Err, IfOk, IfErr};
ghost use Rattle.definitions.specs.History.{History};
ghost use Rattle.definitions.specs.Need.{need_of_number};
ghost use Rattle.reports.specs.Receiving.{need_of_shipment};
ghost use Rattle.store.specs.Decided.{IsHeldPart};
ghost use Rattle.unready.specs.Refused.{IfRefused};
ghost use Rattle.commands.specs.Shown as meant;

use reports::{pick_list, picking_csv, receiving_csv, receiving_list};
use std::alloc::Global;
use store::Page;
use unready::Unready;

/// The receiving sheet of an open advice. Refused are 22, an unknown advice, and 23, one that was
/// counted; else memory was wanting.
pub(crate) fn receiving_text(
    alloc: Global,
    page: &Page,
    shipment: &[u8],
    is_csv: bool,
) -> Result<Vec<u8>, Unready>
    ensures ok { IfOk result
        (λ text. (h : History) → IsHeldPart (need_of_shipment shipment.now) page.now h
        → meant.receiving_text is_csv h.events shipment.now ≡ Ok text.items) }
    ensures err { IfErr result
        (IfRefused (λ refusal. (h : History)
        → IsHeldPart (need_of_shipment shipment.now) page.now h
        → meant.receiving_text is_csv h.events shipment.now ≡ Err refusal)) }
{
    if is_csv {
        receiving_csv(alloc, page, shipment)
    } else {
        receiving_list(alloc, page, shipment)
    }
}

/// The picking sheet of an open order. Refused are 24, an unknown order, and 25, one that was
/// picked; else memory was wanting.
pub(crate) fn picking_text(
    alloc: Global,
    page: &Page,
    number: &[u8],
    is_csv: bool,
) -> Result<Vec<u8>, Unready>
    ensures ok { IfOk result
        (λ text. (h : History) → IsHeldPart (need_of_number number.now) page.now h
        → meant.picking_text is_csv h.events number.now ≡ Ok text.items) }
    ensures err { IfErr result
        (IfRefused (λ refusal. (h : History)
        → IsHeldPart (need_of_number number.now) page.now h
        → meant.picking_text is_csv h.events number.now ≡ Err refusal)) }
{
    if is_csv {
        picking_csv(alloc, page, number)
    } else {
        pick_list(alloc, page, number)
    }
}
