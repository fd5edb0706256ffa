//! What a depositor has open: the names of what is open by two queries, and then the part of its
//! page that they name.
ghost use Rattle.std.specs.Prelude.{◌≡◌, ℕ, List, Some, true, MatchOption, IfOk, map, option_map, length, IfSome, ◌≤◌};
ghost use Rattle.std.specs.List.{AllByRecursion};
ghost use Rattle.definitions.specs.Register as register;
ghost use Rattle.definitions.specs.Tables.{flag};
ghost use Rattle.rules.specs.Keyed.{number_of, shipment_of};
ghost use Rattle.sqlite.specs.declared.types.Value.TheVariants as value;
ghost use Rattle.sqlite.specs.Held.{state};
ghost use Rattle.sqlite.specs.Order.{column};
ghost use Rattle.sqlite.specs.State.{HasCleanDisk};
ghost use Rattle.store.specs.Open.{open_of, open_on, open_work};
ghost use Rattle.book_statements.specs.Asking.{Asked, OfStanding};
ghost use Rattle.book_statements.specs.Held.{value_of};
ghost use Rattle.book_tables.specs.Needed as needed;
ghost use Rattle.book_tables.specs.Opened.{open_shown, AnswersOpen, AreAnsweredOpen, IsOpen, numbers_text, shipments_text};

use crate::connected::Tables;
use crate::reading::{flag_at, text_at};
use rules::{Name, Need, Page, Who};
use sqlite::{Alter, Row};
use std::alloc::{AllocError, Global};
use store::Fault;

// The name that a row of a name and is_open shows of something open; None where it shows none. What
// is closed isn't asked for, so a row with another number than 1 is one that can't be read.
fn name_in(row: &Row) -> Option<&[u8]>
    ensures { MatchOption result ((name : List ℕ) → column row.now 0 ≡ value.Text name
        → column row.now 1 ≡ value_of (flag true) → ⊥)
        (λ name. (column row.now 0 ≡ value.Text name.now)
        × (column row.now 1 ≡ value_of (flag true))) }
{
    if flag_at(row, 1)? {
        text_at(row, 0)
    } else {
        None
    }
}

// The names that rows of a name and is_open show; None where one of them shows nothing open.
fn names_in(alloc: Global, rows: &[Row]) -> Result<Option<Vec<Name>>, AllocError>
    ensures shows { (names : List (List ℕ)) → rows.now ≡ map open_shown names
        → IfOk result (λ shown. option_map (λ v. v.items) shown ≡ Some names) }
    ensures all { IfOk result (λ shown. IfSome shown (λ v. length rows.now ≤ length v.items)) }
    ensures open { IfOk result (λ shown. IfSome shown (λ v. AllByRecursion IsOpen rows.now)) }
{
    let mut shown = Vec::new(alloc);
    for row in rows {
        let Some(name) = name_in(row) else {
            return Ok(None);
        };
        shown.push(Name::of(alloc, name)?)?;
    }
    Ok(Some(shown))
}

impl<S: Alter + Drop> Tables<S> {
    // The shipment numbers of a depositor's open advices, in their order. 43 where a row shows
    // none, or where `is_open` of an advice is neither 0 nor 1.
    fn open_shipments(&mut self, alloc: Global, who: Who) -> Result<Vec<Name>, Fault>
        ensures names { OfStanding S.Store self.old self.new
            (λ W L. IfOk result (λ names. names.items ≡ map shipment_of
            (open_work (register.own L who)).advices)) }
        ensures open { HasCleanDisk (state S.Store self.new.conn) → IfOk result
            (λ names. AnswersOpen shipments_text who (state S.Store self.old.conn)) }
        ensures asked { Asked S.Store self.old self.new result }
    {
        let rows = self.of_depositor(
            "SELECT shipment, is_open FROM advice WHERE who = ?1 AND is_open IS NOT 0 ORDER BY shipment",
            who,
        )?;
        match names_in(alloc, &rows)? {
            Some(names) => Ok(names),
            None => Err(Fault::NotThisBook),
        }
    }

    // The numbers of a depositor's open orders, in their order. 43 where a row shows none, or where
    // `is_open` of an order is neither 0 nor 1.
    fn open_numbers(&mut self, alloc: Global, who: Who) -> Result<Vec<Name>, Fault>
        ensures names { OfStanding S.Store self.old self.new
            (λ W L. IfOk result (λ names. names.items ≡ map number_of
            (open_work (register.own L who)).orders)) }
        ensures open { HasCleanDisk (state S.Store self.new.conn) → IfOk result
            (λ names. AnswersOpen numbers_text who (state S.Store self.old.conn)) }
        ensures asked { Asked S.Store self.old self.new result }
    {
        let rows = self.of_depositor(
            "SELECT ord, is_open FROM orders WHERE who = ?1 AND is_open IS NOT 0 ORDER BY ord",
            who,
        )?;
        match names_in(alloc, &rows)? {
            Some(names) => Ok(names),
            None => Err(Fault::NotThisBook),
        }
    }

    // What a depositor has open, by its names. 43 where a row shows none.
    fn open_need(&mut self, alloc: Global, who: Who) -> Result<Need, Fault>
        ensures need { OfStanding S.Store self.old self.new
            (λ W L. IfOk result (λ need. need ≡ needed.open_need
            (open_work (register.own L who)))) }
        ensures open { HasCleanDisk (state S.Store self.new.conn)
            → IfOk result (λ need. AreAnsweredOpen who (state S.Store self.old.conn)) }
        ensures asked { Asked S.Store self.old self.new result }
    {
        let shipments = self.open_shipments(alloc, who)?;
        match self.open_numbers(alloc, who) {
            Ok(orders) => Ok(Need {
                items: Vec::new(alloc),
                shipments,
                orders,
                documents: Vec::new(alloc),
            }),
            Err(fault) => Err(fault),
        }
    }

    /// The part of a depositor's page that has what is open, and no other advice or order, as the
    /// running rows say; None of a stranger. 43 where a row shows no name, where an advice or an
    /// order is neither open nor closed, or where the rows make no page.
    pub fn open_of(&mut self, alloc: Global, who: Who) -> Result<Option<Page>, Fault>
        ensures work { OfStanding S.Store self.old self.new
            (λ W L. IfOk result (λ page. option_map open_on page ≡ open_of L who)) }
        ensures open { HasCleanDisk (state S.Store self.new.conn)
            → IfOk result (λ page. AreAnsweredOpen who (state S.Store self.old.conn)) }
        ensures asked { Asked S.Store self.old self.new result }
    {
        let need = self.open_need(alloc, who)?;
        self.page_for(alloc, who, &need)
    }
}
