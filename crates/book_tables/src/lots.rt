ghost use Rattle.std.specs.Borrow.{Bor};
ghost use Rattle.std.specs.Prelude.{◌≡◌, ◌<◌, ◌^◌, ℕ, List, Some, IfOk, bytes_eq, filter, map, option_map, true, length, IfSome, ◌≤◌};
ghost use Rattle.std.specs.List.{list_all};
ghost use Rattle.definitions.specs.Page.{page_of};
ghost use Rattle.definitions.specs.Register as register;
ghost use Rattle.definitions.specs.Rows.{LotRow, stock_rows};
ghost use Rattle.rules.specs.Keyed.{key_before, rises_by, row_key};
ghost use Rattle.rules.specs.Fitting.{is_fitting_row};
ghost use Rattle.book_statements.specs.Asking.{Asked, OfStanding};
ghost use Rattle.book_statements.specs.Dated.{date_shown, dates_of};
ghost use Rattle.book_tables.specs.Showing.{lot_shown};

use crate::connected::Tables;
use crate::dates::{copied, next_date};
use crate::reading::{number_at, small_at, text_at};
use rules::{Row, Who};
use sqlite::{Alter, Row as Shown};
use std::alloc::{AllocError, Global};
use store::{Fault, StockRow};

// The lot that a row of item, lot, since and the four amounts shows, with its date if it has one;
// None where it shows none.
fn lot_in(alloc: Global, row: &Shown, expiry: Option<&[u8]>) -> Result<Option<Row>, AllocError>
    ensures { (r : LotRow) → r.since < 2 ^ 32 → row.now ≡ lot_shown r
        → option_map (λ (date : Bor (List ℕ)). date.now) expiry.entry ≡ r.expiry
        → IfOk result (λ shown. shown ≡ Some r) }
{
    let Some(item) = text_at(row, 0) else {
        return Ok(None);
    };
    let Some(lot) = text_at(row, 1) else {
        return Ok(None);
    };
    let Some(since) = small_at(row, 2) else {
        return Ok(None);
    };
    let Some(expected) = number_at(row, 3) else {
        return Ok(None);
    };
    let Some(on_hand) = number_at(row, 4) else {
        return Ok(None);
    };
    let Some(reserved) = number_at(row, 5) else {
        return Ok(None);
    };
    let Some(shipped) = number_at(row, 6) else {
        return Ok(None);
    };
    Ok(Some(Row {
        item: Vec::from_slice(alloc, item)?,
        lot: Vec::from_slice(alloc, lot)?,
        expiry: copied(alloc, expiry)?,
        since,
        expected,
        on_hand,
        reserved,
        shipped,
    }))
}

// The lots that rows show, with the dates that rows of item, lot and expiry show of them, where
// both stand by item and lot; None where one of them shows none, or a date is of no row.
fn lots_in(alloc: Global, rows: &[Shown], dates: &[Shown]) -> Result<Option<Vec<Row>>, AllocError>
    ensures shows { (rs : List LotRow) → list_all is_fitting_row rs ≡ true
        → rises_by key_before row_key rs ≡ true → rows.now ≡ map lot_shown rs
        → dates.now ≡ map date_shown (dates_of rs)
        → IfOk result (λ shown. option_map (λ v. v.items) shown ≡ Some rs) }
    ensures all { IfOk result (λ shown. IfSome shown (λ v. length rows.now ≤ length v.items)) }
{
    let mut shown = Vec::new(alloc);
    let mut left = dates;
    for row in rows {
        let (expiry, rest) = next_date(row, left);
        left = rest;
        let Some(lot) = lot_in(alloc, row, expiry)? else {
            return Ok(None);
        };
        shown.push(lot)?;
    }
    // A date of no row: these aren't a book's tables.
    if !left.is_empty() {
        return Ok(None);
    }
    Ok(Some(shown))
}

impl<S: Alter + Drop> Tables<S> {
    /// What a depositor has of an item, by lot, with the dates; nothing of a stranger. 43 where a
    /// row shows no lot.
    pub(crate) fn lots_of(
        &mut self,
        alloc: Global,
        who: Who,
        item: &[u8],
    ) -> Result<Vec<Row>, Fault>
        ensures lots { OfStanding S.Store self.old self.new
            (λ W L. IfOk result (λ lots. lots.items ≡ filter (λ r. bytes_eq r.item item.now)
            (page_of (register.own L who)).rows)) }
        ensures asked { Asked S.Store self.old self.new result }
    {
        let rows = self.under_text(
            "SELECT item, lot, since, expected, on_hand, reserved, shipped FROM stock WHERE who = ?1 AND item = ?2 ORDER BY item, lot",
            who,
            item,
        )?;
        let dates = self.under_text(
            "SELECT item, lot, expiry FROM lot_expiry WHERE who = ?1 AND item = ?2 ORDER BY item, lot",
            who,
            item,
        )?;
        match lots_in(alloc, &rows, &dates)? {
            Some(lots) => Ok(lots),
            None => Err(Fault::NotThisBook),
        }
    }

    /// What a depositor has, by item and lot, with the dates, as its running rows say; nothing of a
    /// stranger. 43 where a row shows no lot.
    pub(crate) fn stock_rows(&mut self, alloc: Global, who: Who) -> Result<Vec<StockRow>, Fault>
        ensures rows { OfStanding S.Store self.old self.new
            (λ W L. IfOk result (λ rows. rows.items ≡ stock_rows (register.own L who))) }
        ensures asked { Asked S.Store self.old self.new result }
    {
        let rows = self.of_depositor(
            "SELECT item, lot, since, expected, on_hand, reserved, shipped FROM stock WHERE who = ?1 ORDER BY item, lot",
            who,
        )?;
        let dates = self.of_depositor(
            "SELECT item, lot, expiry FROM lot_expiry WHERE who = ?1 ORDER BY item, lot",
            who,
        )?;
        match lots_in(alloc, &rows, &dates)? {
            Some(lots) => Ok(StockRow::of_each(alloc, &lots)?),
            None => Err(Fault::NotThisBook),
        }
    }
}
