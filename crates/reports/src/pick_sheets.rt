//! What is reserved for an open order, as a sheet for its pick.
ghost use Rattle.std.specs.Prelude.{◌≡◌, ◌++◌, Some, Ok, Err, IfOk, IfErr, OnOk};
ghost use Rattle.definitions.specs.declared.rules.Rules.{Rules};
ghost use Rattle.definitions.specs.declared.sheet_kind.SheetKind.TheVariants.{Pick};
ghost use Rattle.definitions.specs.Events.{pair_before};
ghost use Rattle.definitions.specs.History.{History};
ghost use Rattle.definitions.specs.Lists.{in_order};
ghost use Rattle.definitions.specs.Need.{need_of_number};
ghost use Rattle.definitions.specs.Page.{PageOrder};
ghost use Rattle.reports.specs.PairLines.{lines_text, ReadsBack};
ghost use Rattle.reports.specs.Picking.{held_of};
ghost use Rattle.reports.specs.PickSheets as meant;
ghost use Rattle.store.specs.Pages.{order_at};
ghost use Rattle.store.specs.Decided.{IsHeldPart};
ghost use Rattle.unready.specs.Refused.{IfRefused};

use crate::opened::open_order;
use crate::pair_lines::append_pair;
use std::alloc::{AllocError, Global};
use store::{Goods, KnownOrder, Page};
use unready::Unready;

// Appends a line for each reservation of the item.
fn append_held(out: &mut Vec<u8>, reserved: &[Goods], item: &[u8]) -> Result<(), AllocError>
    ensures { OnOk result (out.new.items ≡ out.old.items
        ++ lines_text (held_of reserved.now item.now)) }
{
    for line in reserved {
        if line.item.as_slice() == item {
            append_pair(out, &line.item, &line.lot, line.quantity)?;
        }
    }
    Ok(())
}

// The reservations of an order as CSV.
fn reserved_csv(alloc: Global, order: &KnownOrder) -> Result<Vec<u8>, AllocError>
    ensures { IfOk result (λ text. text.items ≡ lines_text (meant.held_pairs order.now)) }
{
    let mut text = Vec::new(alloc);
    for line in &order.lines {
        append_held(&mut text, &order.reserved, &line.item)?;
    }
    Ok(text)
}

/// What is reserved for an open order, by a page that has the order, as a sheet for its pick: CSV
/// without a header, the record `item,lot,quantity` for each reservation, in the order of the
/// picking sheet, without what is short, with quantities in the unit EA. The error is 24, an
/// unknown order, 25, one that was picked, or want of memory.
pub fn picking_csv(alloc: Global, page: &Page, number: &[u8]) -> Result<Vec<u8>, Unready>
    // Of the history of which the page has the part that is needed.
    ensures ok { IfOk result
        (λ text. (h : History) → IsHeldPart (need_of_number number.now) page.now h
        → meant.picking_csv h.events number.now ≡ Ok text.items) }
    ensures err { IfErr result
        (IfRefused (λ refusal. (h : History) → IsHeldPart (need_of_number number.now) page.now h
        → meant.picking_csv h.events number.now ≡ Err refusal)) }

    // The same of the page alone.
    ensures sheet { IfOk result
        (λ text. meant.csv_on (order_at number.now page.now.orders) ≡ Ok text.items) }
    ensures none { IfErr result
        (IfRefused (λ refusal. meant.csv_on (order_at number.now page.now.orders)
        ≡ Err refusal)) }

    // A pick that is handed the text gets a sheet of just these pairs, and takes it.
    ensures back { IfOk result
        (λ text. (r : Rules) (k : PageOrder) → order_at number.now page.now.orders ≡ Some k
        → ReadsBack r Pick text.items (meant.held_pairs k)) }
    ensures taken { IfOk result
        (λ text. (h : History) → IsHeldPart (need_of_number number.now) page.now h
        → (k : PageOrder) → order_at number.now page.now.orders ≡ Some k
        → meant.IsTaken h.events number.now (in_order pair_before (meant.held_pairs k))) }
{
    Ok(reserved_csv(alloc, open_order(page, number)?)?)
}
