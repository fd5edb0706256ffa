ghost use Rattle.std.specs.Prelude.{◌≡◌, ◌≤◌, ◌<◌, ◌+◌, ◌^◌, IfOk, OnOk, MatchOption, true, ◌&&◌, option_map};
ghost use Rattle.definitions.specs.Rows.{LotRow};
ghost use Rattle.definitions.specs.Bytes.{comes_before};
ghost use Rattle.definitions.specs.Events.{is_other_date, is_redated};
ghost use Rattle.definitions.specs.Movements.{Expected, OnHand, Reservation, Shipped};
ghost use Rattle.page_rows.specs.Keyed.{key_before, row_key, IsSorted, IsRank};
ghost use Rattle.page_rows.specs.OfPairs.{is_row, of_pair, one, since, amount, same_date, same_row, raised, lowered, marked, dated, blank, with_on_hand};
ghost use Rattle.page_rows.specs.Moved.{IsPlace};
ghost use Rattle.page_rows.specs.Columns.{column_of};

use sets_in::{AdviceLine, Goods};
use std::alloc::{AllocError, Global};
use std::marker::Model;

/// An amount of a row.
#[derive(Clone, Copy, PartialEq, Eq)]
pub enum Column {
    /// What is announced and not counted yet.
    Expected,
    /// What is on hand.
    OnHand,
    /// What is reserved of it.
    Reservation,
    /// What has been shipped.
    Shipped,
}

/// What there is of a pair of an item and a lot. Amounts are in the unit EA.
#[derive(Clone, Drop)]
pub struct Row {
    /// The item, 1 to 20 bytes.
    pub item: Vec<u8>,
    /// The lot, 1 to 12 bytes.
    pub lot: Vec<u8>,
    /// The date on which it expires, eight digits CCYYMMDD: that in the first advice that gave the
    /// pair one.
    pub expiry: Option<Vec<u8>>,
    /// The number of the first count that named the pair, or 0.
    pub since: u32,
    /// What is announced and not counted yet.
    pub expected: u64,
    /// What is on hand.
    pub on_hand: u64,
    /// What is reserved of it.
    pub reserved: u64,
    /// What has been shipped.
    pub shipped: u64,
}

impl Model for Row {
    ghost use Rattle.std.specs.Prelude.{option_map};
    ghost use Rattle.definitions.specs.Rows.{LotRow};

    ghost Value = { LotRow };

    ghost view = { λ r. record {
      item = r.item.items;
      lot = r.lot.items;
      expiry = option_map (λ v. v.items) r.expiry;
      since = r.since;
      expected = r.expected;
      on_hand = r.on_hand;
      reserved = r.reserved;
      shipped = r.shipped;
    } };
}

impl Row {
    /// Whether it is the row of this pair.
    pub fn is_of(&self, item: &[u8], lot: &[u8]) -> bool
        ensures { result ≡ is_row item.now lot.now self.now }
    {
        self.item.as_slice() == item && self.lot.as_slice() == lot
    }

    // Whether it comes before the row of a pair.
    pub(crate) fn is_before(&self, item: &[u8], lot: &[u8]) -> bool
        ensures { result ≡ key_before (row_key self.now) (item.now, lot.now) }
    {
        if self.item.as_slice() == item {
            return self.lot.as_slice().cmp(&lot).is_lt();
        }
        self.item.as_slice().cmp(&item).is_lt()
    }

    // Whether its item comes before another.
    pub(crate) fn is_before_item(&self, item: &[u8]) -> bool
        ensures { result ≡ comes_before self.now.item item.now }
    {
        self.item.as_slice().cmp(&item).is_lt()
    }

    // Whether its item comes after another.
    pub(crate) fn is_after_item(&self, item: &[u8]) -> bool
        ensures { result ≡ comes_before item.now self.now.item }
    {
        item.cmp(&self.item.as_slice()).is_lt()
    }

    /// A copy of it; want of memory is the one error.
    pub fn copy(&self) -> Result<Row, AllocError>
        ensures { IfOk result (λ row. row ≡ self.now) }
    {
        self.clone()
    }

    // Whether another has the same date, or none has one.
    fn has_date_of(&self, other: &Row) -> bool
        ensures { result ≡ same_date self.now.expiry other.now.expiry }
    {
        match (&self.expiry, &other.expiry) {
            (Some(date), Some(other)) => date.as_slice() == other.as_slice(),
            (None, None) => true,
            _ => false,
        }
    }

    /// Whether it has a date, and the line another.
    pub fn is_redated(&self, line: &AdviceLine) -> bool
        ensures { result ≡ is_other_date self.now.expiry line.now.expiry }
    {
        match (&self.expiry, &line.expiry) {
            (Some(known), Some(date)) => known.as_slice() != date.as_slice(),
            _ => false,
        }
    }

    /// Whether another is the same.
    pub fn is_same(&self, other: &Row) -> bool
        ensures { result ≡ same_row self.now other.now }
    {
        self.item.as_slice() == other.item.as_slice()
            && self.lot.as_slice() == other.lot.as_slice()
            && self.has_date_of(other)
            && self.since == other.since
            && self.expected == other.expected
            && self.on_hand == other.on_hand
            && self.reserved == other.reserved
            && self.shipped == other.shipped
    }

    /// The row of a line's pair, with nothing in it; want of memory is the one error.
    pub fn blank(alloc: Global, line: &Goods) -> Result<Row, AllocError>
        ensures { IfOk result (λ row. row ≡ blank line.now) }
    {
        Ok(Row {
            item: line.item.to_vec(alloc)?,
            lot: line.lot.to_vec(alloc)?,
            expiry: None,
            since: 0,
            expected: 0,
            on_hand: 0,
            reserved: 0,
            shipped: 0,
        })
    }

    /// An amount of it.
    pub fn amount(&self, column: Column) -> u64
        ensures { result ≡ amount (column_of column) self.now }
    {
        match column {
            Column::Expected => self.expected,
            Column::OnHand => self.on_hand,
            Column::Reservation => self.reserved,
            Column::Shipped => self.shipped,
        }
    }

    // The number of the first count that named it, or 0.
    fn since(&self) -> u32
        ensures { result ≡ since self.now }
    {
        self.since
    }

    /// Keeps the number of the count that names it, if it has none.
    pub fn mark(&mut self, n: u32)
        ensures { self.new ≡ marked n self.old }
    {
        if self.since == 0 {
            self.since = n;
        }
    }

    /// Gives it the date of a line, if it has none; want of memory is the one error.
    pub fn date(&mut self, alloc: Global, line: &AdviceLine) -> Result<(), AllocError>
        ensures { OnOk result (self.new ≡ dated line.now.expiry self.old) }
    {
        if self.expiry.is_none() {
            self.expiry = copied_date(alloc, line)?;
        }
        Ok(())
    }

    /// Sets what is on hand.
    pub fn set_on_hand(&mut self, n: u32)
        ensures { self.new ≡ with_on_hand n self.old }
    {
        self.on_hand = u64::from(n);
    }

    /// Adds to an amount.
    pub fn add(&mut self, column: Column, n: u32)
        requires { amount (column_of column) self.old + n < 2 ^ 64 }

        ensures { self.new ≡ raised (column_of column) n self.old }
    {
        match column {
            Column::Expected => self.expected += n as u64,
            Column::OnHand => self.on_hand += n as u64,
            Column::Reservation => self.reserved += n as u64,
            Column::Shipped => self.shipped += n as u64,
        }
    }

    /// Takes from an amount.
    pub fn take(&mut self, column: Column, n: u32)
        requires { n ≤ amount (column_of column) self.old }

        ensures { self.new ≡ lowered (column_of column) n self.old }
    {
        match column {
            Column::Expected => self.expected -= n as u64,
            Column::OnHand => self.on_hand -= n as u64,
            Column::Reservation => self.reserved -= n as u64,
            Column::Shipped => self.shipped -= n as u64,
        }
    }
}

// A copy of the date of a line, if it gives one.
fn copied_date(alloc: Global, line: &AdviceLine) -> Result<Option<Vec<u8>>, AllocError>
    ensures { IfOk result (λ date. option_map (λ v. v.items) date ≡ line.now.expiry) }
{
    match &line.expiry {
        Some(date) => Ok(Some(date.to_vec(alloc)?)),
        None => Ok(None),
    }
}

/// How many rows come before that of a pair.
pub fn rank_of(rows: &[Row], item: &[u8], lot: &[u8]) -> usize
    requires { IsSorted rows.now }

    ensures { IsRank key_before row_key rows.now (item.now, lot.now) result }
{
    rows.partition_point(|row| row.is_before(item, lot))
}

/// The place of the row of a pair.
pub fn place_of(rows: &[Row], item: &[u8], lot: &[u8]) -> Option<usize>
    requires { IsSorted rows.now }

    ensures { MatchOption result (of_pair one item.now lot.now rows.now ≡ 0)
        (λ i. IsPlace item.now lot.now rows.now i) }
{
    let i = rank_of(rows, item, lot);
    if i == rows.len() {
        return None;
    }
    if rows[i].is_of(item, lot) {
        return Some(i);
    }
    None
}

/// An amount of a pair: 0 where there is no row of it.
pub fn amount_of(rows: &[Row], column: Column, item: &[u8], lot: &[u8]) -> u64
    requires { IsSorted rows.now }

    ensures { result ≡ of_pair (amount (column_of column)) item.now lot.now rows.now }
{
    match place_of(rows, item, lot) {
        None => 0,
        Some(i) => rows[i].amount(column),
    }
}

// The number of the first count that named a pair, or 0.
pub(crate) fn since_of(rows: &[Row], item: &[u8], lot: &[u8]) -> u32
    requires { IsSorted rows.now }

    ensures { result ≡ of_pair since item.now lot.now rows.now }
{
    match place_of(rows, item, lot) {
        None => 0,
        Some(i) => rows[i].since(),
    }
}
