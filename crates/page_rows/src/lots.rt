ghost use Rattle.std.specs.Prelude.{◌≡◌, ◌≤◌, ◌<◌, ℕ, true, slice_index_or, min, IfOk, IsPermutation, length};
ghost use Rattle.std.specs.List.Sorted.{IsSortedBy};
ghost use Rattle.definitions.specs.Allotment.{ranks_before, may_have};
ghost use Rattle.definitions.specs.Bytes.{comes_before};
ghost use Rattle.definitions.specs.Rows.{LotRow};
ghost use Rattle.definitions.specs.Lists.{in_order};
ghost use Rattle.page_rows.specs.Keyed.{IsSorted};
ghost use Rattle.page_rows.specs.Lots.{is_lot_of, date_order, count_order, rank_order, ranks_of, free_in, shares_in, all_shares_in};

use crate::rows::{Column, Row, amount_of};
use definitions::Rules;
use sets_in::{Goods, OrderLine};
use std::alloc::{AllocError, Global};
use std::cmp::Ordering;
use std::marker::Model;

// The row of a lot, with its date, if it has one, and the number of the first count that named it.
#[derive(Drop)]
struct Ranked<'a> {
    row: &'a Row,
}

impl<'a> Model for Ranked<'a> {
    ghost use Rattle.definitions.specs.Allotment.{Ranked};
    ghost use Rattle.page_rows.specs.Lots.{rank_of};

    ghost Value = { Ranked };

    ghost view = { λ r. rank_of r.row.now };
}

impl<'a> Ranked<'a> {
    fn lot(&self) -> &'a [u8]
        ensures { result.now ≡ self.now.lot }
    {
        let row = self.row;
        &row.lot
    }

    // How its date stands to another's. A lot without a date comes last.
    fn date_order(&self, other: &Ranked<'_>) -> Ordering
        ensures { result ≡ date_order self.now.expiry other.now.expiry }
    {
        let (row, other) = (self.row, other.row);
        match (&row.expiry, &other.expiry) {
            (Some(date), Some(other)) => date.as_slice().cmp(&other.as_slice()),
            (Some(_), None) => Ordering::Less,
            (None, Some(_)) => Ordering::Greater,
            (None, None) => Ordering::Equal,
        }
    }

    // How it stands to another by the first count that named each, then by their bytes.
    fn count_order(&self, other: &Ranked<'_>) -> Ordering
        ensures { result ≡ count_order self.now other.now }
    {
        let (row, other) = (self.row, other.row);
        let lots = row.lot.as_slice().cmp(&other.lot.as_slice());
        row.since.cmp(&other.since).then(lots)
    }

    // How it stands to another in what is given: under rules 1 by its count, under rules 2 by its
    // date before that.
    fn order(&self, other: &Ranked<'_>, rules: Rules) -> Ordering
        ensures { result ≡ rank_order rules self.now other.now }
    {
        match rules {
            Rules::One => self.count_order(other),
            Rules::Two => self.date_order(other).then(self.count_order(other)),
        }
    }
}

// Whether it is the row of a lot of the item that a count named.
fn is_lot_of(row: &Row, item: &[u8]) -> bool
    ensures { result ≡ is_lot_of item.now row.now }
{
    row.item.as_slice() == item && 0 < row.since
}

// Where the rows of an item begin: those before are of items before it.
fn item_start(rows: &[Row], item: &[u8]) -> usize
    requires { IsSorted rows.now }

    ensures { (k : ℕ) (d : LotRow) → k < result
        → comes_before (slice_index_or rows.now k d).item item.now ≡ true }
{
    rows.partition_point(|row| row.is_before_item(item))
}

// Where the rows of an item end: those from there on are of items after it.
fn item_end(rows: &[Row], item: &[u8]) -> usize
    requires { IsSorted rows.now }

    ensures bound { result ≤ length rows.now }
    ensures back { (k : ℕ) (d : LotRow) → result ≤ k → k < length rows.now
        → comes_before item.now (slice_index_or rows.now k d).item ≡ true }
{
    rows.partition_point(|row| !row.is_after_item(item))
}

// The lots of an item that a count named, in the order of the rows.
fn counted_lots<'a>(
    alloc: Global,
    rows: &'a [Row],
    item: &[u8],
) -> Result<Vec<Ranked<'a>>, AllocError>
    requires { IsSorted rows.now }

    ensures { IfOk result (λ lots. lots.items ≡ ranks_of item.now rows.now) }
{
    let mut lots = Vec::new(alloc);
    for i in item_start(rows, item)..item_end(rows, item) {
        let row = &rows[i];
        if is_lot_of(row, item) {
            lots.push(Ranked { row })?;
        }
    }
    Ok(lots)
}

// The same lots in the order of the rules.
fn sorted(mut lots: Vec<Ranked<'_>>, rules: Rules) -> Vec<Ranked<'_>>
    ensures same { IsPermutation lots.entry.items result.items }
    ensures sorted { IsSortedBy (ranks_before rules) result.items }
{
    lots.sort_unstable_by(|lot, other| lot.order(other, rules));
    lots
}

// The lots of an item that a count named, in the order of the rules.
fn lots<'a>(
    alloc: Global,
    rows: &'a [Row],
    item: &[u8],
    rules: Rules,
) -> Result<Vec<Ranked<'a>>, AllocError>
    requires { IsSorted rows.now }

    ensures { IfOk result
        (λ lots. lots.items ≡ in_order (ranks_before rules) (ranks_of item.now rows.now)) }
{
    Ok(sorted(counted_lots(alloc, rows, item)?, rules))
}

/// A line of so much of a pair; want of memory is the one error.
pub fn new_line(alloc: Global, item: &[u8], lot: &[u8], quantity: u32) -> Result<Goods, AllocError>
    ensures { IfOk result
        (λ line. line ≡ record { item = item.now; lot = lot.now; quantity = quantity }) }
{
    Ok(Goods {
        item: item.to_vec(alloc)?,
        lot: lot.to_vec(alloc)?,
        quantity,
    })
}

// What is free of a pair: on hand and not reserved.
fn free(rows: &[Row], item: &[u8], lot: &[u8]) -> u64
    requires { IsSorted rows.now }

    ensures { result ≡ free_in rows.now item.now lot.now }
{
    let on_hand = amount_of(rows, Column::OnHand, item, lot);
    on_hand.saturating_sub(amount_of(rows, Column::Reservation, item, lot))
}

// Whether a line may have a lot: a pinned one has that lot alone.
fn may_have(line: &OrderLine, lot: &[u8]) -> bool
    ensures { result ≡ may_have line.now.pin lot.now }
{
    match &line.pin {
        None => true,
        Some(pin) => pin.as_slice() == lot,
    }
}

// What a lot gives where so much is still wanted.
fn share_of(left: u32, free: u64) -> u32
    ensures { result ≡ min left free }
{
    u64::from(left).min(free) as u32
}

// What a line of an order is given of each lot that it may have, 0 included.
fn shares(
    alloc: Global,
    rows: &[Row],
    line: &OrderLine,
    rules: Rules,
) -> Result<Vec<Goods>, AllocError>
    requires { IsSorted rows.now }

    ensures { IfOk result (λ shares. shares.items ≡ shares_in rules rows.now line.now) }
{
    let lots = lots(alloc, rows, &line.item, rules)?;
    let mut left = line.quantity;
    let mut shares = Vec::new(alloc);
    for ranked in &lots {
        if may_have(line, ranked.lot()) {
            let share = share_of(left, free(rows, &line.item, ranked.lot()));
            shares.push(new_line(alloc, &line.item, ranked.lot(), share)?)?;
            left -= share;
        }
    }
    Ok(shares)
}

/// What the lines of an order are given, line by line; want of memory is the one error.
pub fn all_shares(
    alloc: Global,
    rows: &[Row],
    lines: &[OrderLine],
    rules: Rules,
) -> Result<Vec<Goods>, AllocError>
    requires { IsSorted rows.now }

    ensures { IfOk result (λ all. all.items ≡ all_shares_in rules rows.now lines.now) }
{
    let mut all = Vec::new(alloc);
    for line in lines {
        all.append(&mut shares(alloc, rows, line, rules)?)?;
    }
    Ok(all)
}
