//! Whether lines may be what is on hand.
ghost use Rattle.std.specs.Prelude.{◌≡◌, ◌<◌, true, false};
ghost use Rattle.std.specs.List.{list_any, list_all};
ghost use Rattle.page_rows.specs.Keyed.{IsSorted};
ghost use Rattle.page_rows.specs.Steps.{is_unknown, is_below, is_on_hand};

use crate::rows::{Column, Row, amount_of, since_of};
use sets_in::Goods;

/// Whether no count named the pair of one of the lines.
pub fn has_unknown(rows: &[Row], lines: &[Goods]) -> bool
    requires { IsSorted rows.now }

    ensures { result ≡ list_any (is_unknown rows.now) lines.now }
{
    for line in lines {
        if since_of(rows, &line.item, &line.lot) == 0 {
            return true;
        }
    }
    false
}

// Whether a line is below what is reserved of its pair.
fn is_below(rows: &[Row], line: &Goods) -> bool
    requires { IsSorted rows.now }

    ensures { result ≡ is_below rows.now line.now }
{
    u64::from(line.quantity) < amount_of(rows, Column::Reservation, &line.item, &line.lot)
}

/// Whether one of the lines is below what is reserved of its pair.
pub fn has_below(rows: &[Row], lines: &[Goods]) -> bool
    requires { IsSorted rows.now }

    ensures { result ≡ list_any (is_below rows.now) lines.now }
{
    for line in lines {
        if is_below(rows, line) {
            return true;
        }
    }
    false
}

// Whether a line is what is on hand of its pair.
fn is_on_hand(rows: &[Row], line: &Goods) -> bool
    requires { IsSorted rows.now }

    ensures { result ≡ is_on_hand rows.now line.now }
{
    u64::from(line.quantity) == amount_of(rows, Column::OnHand, &line.item, &line.lot)
}

/// Whether each line is what is on hand of its pair.
pub fn are_on_hand(rows: &[Row], lines: &[Goods]) -> bool
    requires { IsSorted rows.now }

    ensures { result ≡ list_all (is_on_hand rows.now) lines.now }
{
    for line in lines {
        if !is_on_hand(rows, line) {
            return false;
        }
    }
    true
}
