//! What a count tells: the 944.
ghost use Rattle.std.specs.Prelude.{◌≡◌, ◌++◌, true, IfOk, map};
ghost use Rattle.definitions.specs.Clerk.{is_ascending};
ghost use Rattle.definitions.specs.Events.{pair_before};
ghost use Rattle.definitions.specs.Lists.{in_order};
ghost use Rattle.rules.specs.Documents.{received_line, receipt_text};

use crate::documents::written::written;
use sets_in::Goods;
use sets_out::{CountedLine, Document, Envelope, Receipt};
use std::alloc::{AllocError, Global};
use stock::{KnownAdvice, Sheet, in_order, joined, quantity_of, total};

// Each pair that was advised or counted, by item and then lot bytes.
fn pairs_of(alloc: Global, advised: &[Goods], counted: &[Goods]) -> Result<Vec<Goods>, AllocError>
    ensures { IfOk result
        (λ pairs. pairs.items ≡ in_order pair_before (advised.now ++ counted.now)) }
{
    in_order(joined(alloc, advised, counted)?)
}

// Each pair with what the sheet gives it.
fn received<'a>(
    alloc: Global,
    pairs: &'a [Goods],
    sheet: &[Goods],
) -> Result<Vec<CountedLine<'a>>, AllocError>
    requires { is_ascending sheet.now ≡ true }

    ensures { IfOk result (λ lines. lines.items ≡ map (received_line sheet.now) pairs.now) }
{
    let mut lines = Vec::new(alloc);
    for pair in pairs {
        lines.push(CountedLine {
            item: &pair.item,
            lot: &pair.lot,
            quantity: quantity_of(sheet, &pair.item, &pair.lot),
        })?;
    }
    Ok(lines)
}

/// The 944 of a count: each pair that was advised or counted, with what was counted. Want of memory
/// is the one error.
pub fn receipt(
    alloc: Global,
    envelope: &Envelope,
    advice: &KnownAdvice,
    sheet: &Sheet,
) -> Result<Vec<u8>, AllocError>
    ensures { IfOk result (λ text. text.items ≡ receipt_text envelope.now advice.now sheet.now) }
{
    let counted = sheet.lines(alloc)?;
    let pairs = pairs_of(alloc, advice.lines(), &counted)?;
    let lines = received(alloc, &pairs, &counted)?;
    let receipt = Receipt {
        order: advice.order(),
        shipment: advice.shipment(),
        lines: &lines,
        counted: total(&counted),
        advised: advice.total(),
    };
    let document = Document::Received(&receipt);
    written(alloc, envelope, &document)
}
