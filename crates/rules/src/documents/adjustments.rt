//! What a recount tells: the 947.
ghost use Rattle.std.specs.Prelude.{◌≡◌, true, IfOk, map};
ghost use Rattle.definitions.specs.Rules.{Today};
ghost use Rattle.definitions.specs.declared.sheet_kind.SheetKind.TheVariants.{Recount as RecountSheet};
ghost use Rattle.definitions.specs.Clerk.{is_sheet};
ghost use Rattle.rules.specs.Documents.{adjusted_from, adjustment_text};

use crate::documents::written::written;
use sets_in::Goods;
use sets_out::{AdjustedLine, Document, Envelope};
use std::alloc::{AllocError, Global};
use stock::{Page, Sheet};

// What was on hand of each pair, and what is there now.
fn adjusted<'a>(
    alloc: Global,
    page: &Page,
    sheet: &'a [Goods],
) -> Result<Vec<AdjustedLine<'a>>, AllocError>
    ensures { IfOk result (λ v. v.items ≡ map (adjusted_from page.now) sheet.now) }
{
    let mut lines = Vec::new(alloc);
    for line in sheet {
        lines.push(AdjustedLine {
            item: &line.item,
            lot: &line.lot,
            before: page.on_hand(&line.item, &line.lot),
            after: u64::from(line.quantity),
        })?;
    }
    Ok(lines)
}

/// The 947 of a recount: what was on hand of each pair, and what is there now. Want of memory is
/// the one error.
pub fn adjustment(
    alloc: Global,
    envelope: &Envelope,
    page: &Page,
    sheet: &Sheet,
) -> Result<Vec<u8>, AllocError>
    ensures text { IfOk result
        (λ text. text.items ≡ adjustment_text envelope.now page.now sheet.now) }
    ensures sheet { is_sheet Today RecountSheet sheet.now ≡ true }
{
    let goods = sheet.lines(alloc)?;
    let lines = adjusted(alloc, page, &goods)?;
    let document = Document::Adjusted(&lines);
    written(alloc, envelope, &document)
}
