//! Whether the amounts of rows are within their bounds.
ghost use Rattle.std.specs.Prelude.{◌≡◌, ◌+◌, ◌<◌};
ghost use Rattle.std.specs.List.{list_all};
ghost use Rattle.definitions.specs.Limits.{most_entries};
ghost use Rattle.page_rows.specs.Soundness as meant;

use crate::rows::Row;
use definitions::{MOST_RECOUNTED, MOST_SETS};

// Whether no more is reserved of a row than is on hand, and no amount is above the most.
fn is_within(row: &Row, most: u64) -> bool
    ensures { result ≡ meant.is_within most row.now }
{
    row.reserved <= row.on_hand
        && row.expected <= most
        && row.on_hand <= most
        && row.shipped <= most
}

// Whether that holds of each row.
fn all_within(rows: &[Row], most: u64) -> bool
    ensures { result ≡ list_all (meant.is_within most) rows.now }
{
    rows.iter().all(|row| is_within(row, most))
}

/// Whether no more is reserved of a row than is on hand and no amount is above the most that so
/// many entries can bring, of each row.
pub fn are_within(rows: &[Row], entries: u32) -> bool
    requires { entries < most_entries + 1 }

    ensures { result ≡ list_all (meant.is_within (meant.most_of entries)) rows.now }
{
    let most = (u64::from(MOST_RECOUNTED) + 1) * (MOST_SETS as u64 * u64::from(entries));
    all_within(rows, most)
}
