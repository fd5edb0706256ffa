ghost use Rattle.std.specs.Prelude.{◌≡◌, IfOk, IfSome, option_map};
ghost use Rattle.definitions.specs.Register as register;
ghost use Rattle.definitions.specs.Rows as meant;
ghost use Rattle.sqlite.specs.Held.{state};
ghost use Rattle.sqlite.specs.State.{HasCleanDisk};
ghost use Rattle.store.specs.Sent.{text_of};
ghost use Rattle.book_statements.specs.Asking.{Asked, OfStanding};
ghost use Rattle.book_tables.specs.Outgoing.{AnswersContent, AnswersOut};

use crate::connected::Tables;
use rules::Who;
use sqlite::Alter;
use std::alloc::Global;
use store::{Fault, OutRow, StockRow};

impl<S: Alter + Drop> Tables<S> {
    /// What a depositor has, by item and lot, as its running rows say; None of a stranger.
    pub fn stock_of(&mut self, alloc: Global, who: Who) -> Result<Option<Vec<StockRow>>, Fault>
        ensures rows { OfStanding S.Store self.old self.new
            (λ W L. IfOk result (λ rows. option_map (λ v. v.items) rows ≡ meant.stock_of L who)) }
        ensures asked { Asked S.Store self.old self.new result }
    {
        if !self.is_enrolled(alloc, who)? {
            return Ok(None);
        }
        match self.stock_rows(alloc, who) {
            Ok(rows) => Ok(Some(rows)),
            Err(fault) => Err(fault),
        }
    }

    /// The texts that went out to a depositor, by number, but for the empty ones, as the rows of
    /// `outgoing` say; None of a stranger. 43 where one of the rows can't be read.
    pub fn outbox_of(&mut self, alloc: Global, who: Who) -> Result<Option<Vec<OutRow>>, Fault>
        ensures rows { OfStanding S.Store self.old self.new
            (λ W L. IfOk result (λ rows. option_map (λ v. v.items) rows ≡ meant.outbox_of W L
            who)) }
        ensures known { HasCleanDisk (state S.Store self.new.conn) → IfOk result
            (λ rows. IfSome rows (λ v. AnswersOut who (state S.Store self.old.conn))) }
        ensures asked { Asked S.Store self.old self.new result }
    {
        if !self.is_enrolled(alloc, who)? {
            return Ok(None);
        }
        match self.sent_rows(alloc, who) {
            Ok(rows) => Ok(Some(rows)),
            Err(fault) => Err(fault),
        }
    }

    /// The text that went out to a depositor under a number, as its row of `outgoing` says; None of
    /// a stranger, and Some(None) where nothing went out under it. 43 where that row can't be read.
    pub fn text_of(
        &mut self,
        alloc: Global,
        who: Who,
        n: u32,
    ) -> Result<Option<Option<Vec<u8>>>, Fault>
        ensures text { OfStanding S.Store self.old self.new
            (λ W L. IfOk result (λ text. option_map (option_map (λ v. v.items)) text ≡ text_of W L
            who n)) }
        ensures known { HasCleanDisk (state S.Store self.new.conn) → IfOk result
            (λ text. IfSome text (λ t. AnswersContent who n (state S.Store self.old.conn))) }
        ensures asked { Asked S.Store self.old self.new result }
    {
        if !self.is_enrolled(alloc, who)? {
            return Ok(None);
        }
        match self.text_under(alloc, who, n) {
            Ok(text) => Ok(Some(text)),
            Err(fault) => Err(fault),
        }
    }
}
