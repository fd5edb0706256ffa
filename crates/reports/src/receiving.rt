//! What a clerk takes to the dock for an open advice.
ghost use Rattle.std.specs.Prelude.{◌≡◌, ◌++◌, Some, Ok, Err, IfOk, IfErr, OnOk};
ghost use Rattle.definitions.specs.declared.rules.Rules.{Rules};
ghost use Rattle.definitions.specs.declared.sheet_kind.SheetKind.TheVariants.{Count};
ghost use Rattle.definitions.specs.History.{History};
ghost use Rattle.definitions.specs.Page.{PageAdvice};
ghost use Rattle.reports.specs.PairLines.{lines_text, ReadsBack};
ghost use Rattle.reports.specs.Receiving as meant;
ghost use Rattle.store.specs.Pages.{advice_at};
ghost use Rattle.store.specs.Decided.{IsHeldPart};
ghost use Rattle.unready.specs.Refused.{IfRefused};

use crate::columns::{append_left, append_right};
use crate::opened::open_advice;
use crate::pair_lines::append_pairs;
use crate::picking::append_ended;
use definitions::{MOST_ITEM, MOST_LOT, QUANTITY_COLUMN};
use itoa::Buffer;
use std::alloc::{AllocError, Global};
use store::{Goods, KnownAdvice, Need, Page};
use unready::Unready;

/// What a receiving sheet needs of a page: an advice alone. The one error is want of memory.
pub fn need_of_advice(alloc: Global, shipment: &[u8]) -> Result<Need, AllocError>
    ensures { IfOk result (λ need. need ≡ meant.need_of_shipment shipment.now) }
{
    // `store` makes a need of an order's number alone; an advice is named likewise, by its bytes.
    let mut need = Need::order(alloc, shipment)?;
    std::mem::swap(&mut need.shipments, &mut need.orders);
    Ok(need)
}

// Appends a line of the sheet.
fn append_line(out: &mut Vec<u8>, line: &Goods) -> Result<(), AllocError>
    ensures { OnOk result (out.new.items ≡ out.old.items ++ meant.receiving_line line.now) }
{
    let mut buffer = Buffer::new();
    append_left(out, &line.item, MOST_ITEM)?;
    out.push(b' ')?;
    append_left(out, &line.lot, MOST_LOT)?;
    out.push(b' ')?;
    append_right(
        out,
        buffer.format(line.quantity).as_bytes(),
        QUANTITY_COLUMN,
    )?;
    out.extend_from_slice(b"  ________")?;
    out.push(b'\n')?;
    Ok(())
}

// The receiving sheet of an advice.
fn receiving_sheet(alloc: Global, advice: &KnownAdvice) -> Result<Vec<u8>, AllocError>
    ensures { IfOk result (λ text. text.items ≡ meant.receiving_sheet advice.now.shipment
        advice.now.lines) }
{
    let mut text = Vec::new(alloc);
    append_ended(&mut text, b"ADVICE ", advice.shipment())?;
    for line in advice.lines() {
        append_line(&mut text, line)?;
    }
    Ok(text)
}

// The pairs of an advice as CSV.
fn announced_csv(alloc: Global, advice: &KnownAdvice) -> Result<Vec<u8>, AllocError>
    ensures { IfOk result (λ text. text.items ≡ lines_text advice.now.lines) }
{
    let mut text = Vec::new(alloc);
    append_pairs(&mut text, advice.lines())?;
    Ok(text)
}

/// The receiving sheet of an open advice, by a page that has the advice: its shipment number, and a
/// line for each pair that it announces, in its own order: the item left in 20, the lot left in 12,
/// what was announced, in the unit EA, right in 6, and room to write what came. The error is 22, an
/// unknown advice, 23, one that was counted, or want of memory.
pub fn receiving_list(alloc: Global, page: &Page, shipment: &[u8]) -> Result<Vec<u8>, Unready>
    // Of the history of which the page has the part that is needed.
    ensures ok { IfOk result
        (λ text. (h : History) → IsHeldPart (meant.need_of_shipment shipment.now) page.now h
        → meant.receiving_list h.events shipment.now ≡ Ok text.items) }
    ensures err { IfErr result
        (IfRefused (λ refusal. (h : History)
        → IsHeldPart (meant.need_of_shipment shipment.now) page.now h
        → meant.receiving_list h.events shipment.now ≡ Err refusal)) }

    // The same of the page alone.
    ensures sheet { IfOk result
        (λ text. meant.sheet_on (advice_at shipment.now page.now.advices) ≡ Ok text.items) }
    ensures none { IfErr result
        (IfRefused (λ refusal. meant.sheet_on (advice_at shipment.now page.now.advices)
        ≡ Err refusal)) }
{
    Ok(receiving_sheet(alloc, open_advice(page, shipment)?)?)
}

/// What an open advice announces, by a page that has the advice, as a sheet for its count: CSV
/// without a header, the record `item,lot,quantity` for each pair, in the advice's own order, with
/// quantities in the unit EA. The error is 22, an unknown advice, 23, one that was counted, or want
/// of memory.
pub fn receiving_csv(alloc: Global, page: &Page, shipment: &[u8]) -> Result<Vec<u8>, Unready>
    // Of the history of which the page has the part that is needed.
    ensures ok { IfOk result
        (λ text. (h : History) → IsHeldPart (meant.need_of_shipment shipment.now) page.now h
        → meant.receiving_csv h.events shipment.now ≡ Ok text.items) }
    ensures err { IfErr result
        (IfRefused (λ refusal. (h : History)
        → IsHeldPart (meant.need_of_shipment shipment.now) page.now h
        → meant.receiving_csv h.events shipment.now ≡ Err refusal)) }

    // The same of the page alone.
    ensures sheet { IfOk result
        (λ text. meant.csv_on (advice_at shipment.now page.now.advices) ≡ Ok text.items) }
    ensures none { IfErr result
        (IfRefused (λ refusal. meant.csv_on (advice_at shipment.now page.now.advices)
        ≡ Err refusal)) }

    // A count that is handed the text gets a sheet of just these pairs.
    ensures back { IfOk result
        (λ text. (r : Rules) (k : PageAdvice) → advice_at shipment.now page.now.advices ≡ Some k
        → ReadsBack r Count text.items k.lines) }
{
    Ok(announced_csv(alloc, open_advice(page, shipment)?)?)
}
