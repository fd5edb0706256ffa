//! Which of the changes of several events last: each pair's row once, with its last value.
ghost use Rattle.std.specs.Prelude.{◌≡◌, [], ◌∷◌, ◌++◌, List, IfOk, OnOk, length, not, if◌then◌else◌};
ghost use Rattle.stock.specs.Keyed.{IsSorted};
ghost use Rattle.stock.specs.declared.steps.Change.{Change as Put};
ghost use Rattle.rules.specs.Lasting.{AreMarked, HasPairsOnce, HaveRows, is_replaced, lasting};

use std::alloc::{AllocError, Global};
use stock::{Change, Page, Row, place_of};

// Whether a change lasts, where those after it have marked the rows of their pairs. It marks its
// own.
fn lasts(rows: &[Row], marks: &mut Vec<bool>, change: &Change) -> bool
    requires sorted { IsSorted rows.now }
    requires beside { length marks.old.items ≡ length rows.now }
    requires row { HaveRows rows.now (change.now ∷ []) }

    ensures lasts { (later : List Put) → AreMarked rows.now later marks.old.items
        → result ≡ not (is_replaced change.now later) }
    ensures marks { (later : List Put) → AreMarked rows.now later marks.old.items
        → AreMarked rows.now (change.now ∷ later) marks.new.items }
{
    let Change::Stock(row) = change else {
        return true;
    };
    let Some(i) = place_of(rows, &row.item, &row.lot) else {
        return true;
    };
    let replaced = marks[i];
    marks[i] = true;
    !replaced
}

// Keeps a change, or lets it go.
fn keep_if(kept: &mut Vec<Change>, change: Change, lasts: bool) -> Result<(), AllocError>
    ensures { OnOk result (kept.new.items
        ≡ (if lasts then kept.old.items ++ change ∷ [] else kept.old.items)) }
{
    if lasts {
        kept.push(change)?;
    }
    Ok(())
}

/// The changes that last, in their order: of the rows of a pair the one that is put in last, and
/// every other change. The page has a row of each pair that changes, as it has after them. The time
/// is that of a search by halves for each change, and of a mark for each row of the page. Want of
/// memory is the one error.
pub(crate) fn lasting(
    alloc: Global,
    page: &Page,
    changes: Vec<Change>,
) -> Result<Vec<Change>, AllocError>
    requires { HaveRows page.now.rows changes.items }

    ensures lasts { IfOk result (λ kept. kept.items ≡ lasting changes.items) }
    ensures once { IfOk result (λ kept. HasPairsOnce kept.items) }
{
    let rows = page.rows();
    let mut marks = vec![in alloc; false; rows.len()]?;
    let mut kept = Vec::new(alloc);
    let mut left = changes;
    while let Some(change) = left.pop() {
        let lasts = lasts(rows, &mut marks, &change);
        keep_if(&mut kept, change, lasts)?;
    }
    kept.reverse();
    Ok(kept)
}
