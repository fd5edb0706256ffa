//! The order of lines, and what they give a pair.
ghost use Rattle.std.specs.Prelude.{◌≡◌, ◌<◌, ◌^◌, ℕ, List, IfOk, true};
ghost use Rattle.std.specs.List.{list_any};
ghost use Rattle.definitions.specs.Clerk.{is_ascending};
ghost use Rattle.definitions.specs.Events.{is_pair, pair_before, quantity_of};
ghost use Rattle.definitions.specs.Lists.{in_order};
ghost use Rattle.page_rows.specs.Keyed.{key_before, IsRank};
ghost use Rattle.page_rows.specs.Pairs.{pair_key, pairs_order};
ghost use Rattle.page_rows.specs.Steps.{exceeds};

use sets_in::Goods;
use std::alloc::AllocError;
use std::cmp::Ordering;

// How a line stands to another, by item and then by lot bytes.
fn pairs_order(line: &Goods, other: &Goods) -> Ordering
    ensures { result ≡ pairs_order line.now other.now }
{
    let lots = line.lot.as_slice().cmp(other.lot.as_slice());
    line.item.as_slice().cmp(other.item.as_slice()).then(lots)
}

// Whether a line stands before another, by item and then by lot bytes.
fn comes_before(line: &Goods, other: &Goods) -> bool
    ensures { result ≡ pair_before line.now other.now }
{
    pairs_order(line, other).is_lt()
}

// Whether each line stands before the next, so that no pair stands twice.
fn rises(lines: &[Goods]) -> bool
    ensures { result ≡ is_ascending lines.now }
{
    lines.is_sorted_by(|line, next| comes_before(line, next))
}

/// The lines by item and then by lot bytes, each pair once: of lines of one pair, that which stands
/// last stays. Want of memory is the one error.
pub fn in_order(mut lines: Vec<Goods>) -> Result<Vec<Goods>, AllocError>
    ensures { IfOk result (λ each. each.items ≡ in_order pair_before lines.items) }
{
    lines.reverse();
    lines.sort_by(|line, other| pairs_order(line, other))?;
    lines.dedup_by(|line, last| pairs_order(line, last).is_eq());
    Ok(lines)
}

/// Whether a line is of the pair.
pub fn is_of(line: &Goods, item: &[u8], lot: &[u8]) -> bool
    ensures { result ≡ is_pair item.now lot.now line.now }
{
    line.item.as_slice() == item && line.lot.as_slice() == lot
}

// Whether a line stands before a pair.
fn is_before(line: &Goods, item: &[u8], lot: &[u8]) -> bool
    ensures { result ≡ key_before (pair_key line.now) (item.now, lot.now) }
{
    line.item.as_slice().cmp(&item).is_lt()
        || (line.item.as_slice() == item && line.lot.as_slice().cmp(&lot).is_lt())
}

// How many lines stand before a pair.
fn rank_of(lines: &[Goods], item: &[u8], lot: &[u8]) -> usize
    requires { is_ascending lines.now ≡ true }

    ensures { IsRank key_before pair_key lines.now (item.now, lot.now) result }
{
    lines.partition_point(|line| is_before(line, item, lot))
}

/// The quantity that lines give a pair, where each line stands before the next, as those of a sheet
/// do: the pair is found by halves.
pub fn quantity_of(lines: &[Goods], item: &[u8], lot: &[u8]) -> u64
    requires { is_ascending lines.now ≡ true }

    ensures { result ≡ quantity_of lines.now item.now lot.now }
{
    let i = rank_of(lines, item, lot);
    if i == lines.len() {
        return 0;
    }
    let line = &lines[i];
    if is_of(line, item, lot) {
        return u64::from(line.quantity);
    }
    0
}

// The quantity that lines give a pair, in whichever order they stand.
fn sum_of(lines: &[Goods], item: &[u8], lot: &[u8]) -> u64
    requires { quantity_of lines.now item.now lot.now < 2 ^ 64 }

    ensures { result ≡ quantity_of lines.now item.now lot.now }
{
    let mut quantity: u64 = 0;
    for line in lines {
        if is_of(line, item, lot) {
            quantity += u64::from(line.quantity);
        }
    }
    quantity
}

// The quantity that lines give a pair. What events reserve stands in order, and a pair is found
// there by halves; no clause says so of the orders of a page, so it is asked first.
fn given(lines: &[Goods], rises: bool, item: &[u8], lot: &[u8]) -> u64
    requires fits { quantity_of lines.now item.now lot.now < 2 ^ 64 }
    requires asked { rises ≡ is_ascending lines.now }

    ensures { result ≡ quantity_of lines.now item.now lot.now }
{
    if rises {
        return quantity_of(lines, item, lot);
    }
    sum_of(lines, item, lot)
}

/// Whether one of the lines exceeds what is reserved of its pair.
pub fn exceeds(reserved: &[Goods], lines: &[Goods]) -> bool
    requires { (item lot : List ℕ) → quantity_of reserved.now item lot < 2 ^ 64 }

    ensures { result ≡ list_any (exceeds reserved.now) lines.now }
{
    let rises = rises(reserved);
    for line in lines {
        if given(reserved, rises, &line.item, &line.lot) < u64::from(line.quantity) {
            return true;
        }
    }
    false
}
