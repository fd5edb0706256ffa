//! A book in tables kept: what it answers to commands and to questions, each from its tables.
ghost use Rattle.std.specs.Prelude.{◌≡◌, ◌≤◌, ◌<◌, ◌^◌, ◌-◌, ◌++◌, ◌∷◌, [], List, true, false, IfErr, IfOk, OnOk, OnErr, IsErrOf, length, option_map};
ghost use Rattle.definitions.specs.Decision as decided;
ghost use Rattle.definitions.specs.Register as register;
ghost use Rattle.definitions.specs.Rows.{stock_of, outbox_of};
ghost use Rattle.rules.specs.Asked.{mark_of};
ghost use Rattle.rules.specs.Decided.{IsAtRest, IsRecalled};
ghost use Rattle.store.specs.Extent as meant;
ghost use Rattle.store.specs.Extent.{extent_of, last_moment};
ghost use Rattle.store.specs.Held.{IsHeld};
ghost use Rattle.store.specs.Known.{first_under};
ghost use Rattle.store.specs.Open.{open_of, open_on, enrolled};
ghost use Rattle.store.specs.Sent.{text_of};
ghost use Rattle.store.specs.Standing.{IsUsable, IsUnchanged, IsQuery, IsNext, IsFault, IsCommitFault, LeavesEither, GoesOn, OfAnyKept, OfKept, OfUsable};
ghost use Rattle.book_statements.specs.Asking.{OfStanding, Went};
ghost use Rattle.book_statements.specs.Limits.{AreCounted, Counts};
ghost use Rattle.book_tables.specs.Needed.{needed_part};
ghost use Rattle.books.specs.Opened.{standing_of};

use crate::book::{Book, GREATEST};
use book_tables::Tables;
use rules::{Change, Entry, Key, Known, Moment, Need, Page, Warehouse, Who};
use sqlite::Alter;
use std::alloc::Global;
use store::{Extent, Fault, Keeper, OutRow, StockRow};

// The moment of the last of so many entries that tables hold; None where there are none.
fn last_of<S: Alter + Drop>(
    alloc: Global,
    tables: &mut Tables<S>,
    entries: u64,
) -> Result<Option<Moment>, Fault>
    ensures last { OfStanding S.Store tables.old tables.new
        (λ W L. entries ≡ length L → IfOk result (λ last. last ≡ last_moment L)) }
    ensures went { Went S.Store tables.old tables.new result }
{
    if entries > GREATEST {
        return Err(Fault::OutOfMemory);
    }
    match tables.entry_at(alloc, entries)? {
        Some(entry) => Ok(Some(entry.moment())),
        None => Ok(None),
    }
}

impl<S: Alter + Drop> Keeper for Book<S> {
    ghost use Rattle.books.specs.Opened.{standing_of};

    ghost standing = { λ b. standing_of S.Store b };

    fn warehouse(&self) -> Warehouse {
        self.warehouse
    }

    /// Just the part that is needed of a depositor's page, from the running rows; None for a
    /// stranger.
    fn load(&mut self, who: Who, need: &Need) -> Result<Option<Page>, Fault>
        ensures page { OfKept (standing_of S.Store self.old) (standing_of S.Store self.new)
            (λ L. IfOk result (λ page. IsHeld need.now page
            (decided.standing (register.own L who)))) }
        ensures part { OfAnyKept (standing_of S.Store self.old) (standing_of S.Store self.new)
            (λ L. IfOk result (λ page. page ≡ needed_part need.now L who)) }
        ensures rest { IfOk result IsAtRest }
        ensures query { IsQuery (standing_of S.Store self.old) (standing_of S.Store self.new)
            result }
        ensures calls { AreCounted self.old.tables self.new.tables result }
    {
        if self.shut {
            return Err(Fault::Reopen);
        }
        self.tables.page_for(self.alloc, who, need)
    }

    fn known(&mut self, who: Who, key: &Key<'_>) -> Result<Option<Known>, Fault>
        ensures entry { OfKept (standing_of S.Store self.old) (standing_of S.Store self.new)
            (λ L. IfOk result (λ known. IsRecalled known (decided.recalled
            (standing_of S.Store self.old).warehouse (mark_of key.now) (register.own L who)))) }
        ensures recorded { OfAnyKept (standing_of S.Store self.old) (standing_of S.Store self.new)
            (λ L. IfOk result (λ known. option_map (λ k. k.entry) known
            ≡ first_under who (mark_of key.now) L)) }
        ensures query { IsQuery (standing_of S.Store self.old) (standing_of S.Store self.new)
            result }
        ensures calls { AreCounted self.old.tables self.new.tables result }
    {
        if self.shut {
            return Err(Fault::Reopen);
        }
        let mark = key.text(self.alloc)?;
        self.tables.known_of(self.alloc, who, &mark)
    }

    /// Appends an entry, with the rows that it changes and the text that goes out for it, in one
    /// transaction. After a fault of the store the book has to be opened again, and answers 42
    /// until then. 41 where the numbers that SQLite has for entries are used up.
    fn commit(&mut self, entry: &Entry, changes: &[Change], outgoing: &[u8]) -> Result<(), Fault>
        ensures ok { OfUsable (standing_of S.Store self.old) (standing_of S.Store self.new)
            (λ L. (e : register.Entry)
            → IsNext (standing_of S.Store self.old).warehouse L e entry.now changes.now outgoing.now
            → OnOk result (IsUsable (standing_of S.Store self.new) (L ++ e ∷ []))) }
        ensures keeps { OfAnyKept (standing_of S.Store self.old) (standing_of S.Store self.new)
            (λ L. (e : register.Entry)
            → IsNext (standing_of S.Store self.old).warehouse L e entry.now changes.now outgoing.now
            → OnOk result ((standing_of S.Store self.new).keeps (L ++ e ∷ []))) }
        ensures left { OfUsable (standing_of S.Store self.old) (standing_of S.Store self.new)
            (λ L. (e : register.Entry)
            → IsNext (standing_of S.Store self.old).warehouse L e entry.now changes.now outgoing.now
            → OnErr result (LeavesEither (standing_of S.Store self.new) L (L ++ e ∷ []))) }
        ensures opened { OnOk result ((standing_of S.Store self.new).shut ≡ false) }
        ensures fault { IfErr result (λ fault. IsFault fault (standing_of S.Store self.old)
            (standing_of S.Store self.new)) }
        ensures kinds { IfErr result IsCommitFault }
        ensures store { IsErrOf result Fault.Store → (standing_of S.Store self.new).shut ≡ true }
        ensures broken { OnErr result
            ((standing_of S.Store self.old).refusals < (standing_of S.Store self.new).refusals
            → (standing_of S.Store self.new).shut ≡ true) }
        ensures used_up { self.old.shut ≡ false → 2 ^ 63 - 1 ≤ self.old.entries
            → IsErrOf result Fault.Store }
        ensures shut { (standing_of S.Store self.old).shut ≡ true
            → IsErrOf result Fault.Reopen
            × IsUnchanged (standing_of S.Store self.old) (standing_of S.Store self.new) }
        ensures goes { GoesOn (standing_of S.Store self.old) (standing_of S.Store self.new) }
        ensures calls { AreCounted self.old.tables self.new.tables result }
    {
        if self.shut {
            return Err(Fault::Reopen);
        }
        if self.entries >= GREATEST {
            self.shut = true;
            return Err(self.tables.use_up());
        }
        let depositor = entry.who();
        let who = depositor.text();
        let seq = self.entries + 1;
        match self.tables.append(seq, who, entry, changes, outgoing) {
            Ok(()) => {
                self.entries = seq;
                Ok(())
            }
            Err(fault) => {
                self.shut = true;
                Err(fault)
            }
        }
    }

    fn stock_rows(&mut self, who: Who) -> Result<Option<Vec<StockRow>>, Fault>
        ensures rows { OfKept (standing_of S.Store self.old) (standing_of S.Store self.new)
            (λ L. IfOk result (λ rows. option_map (λ v. v.items) rows ≡ stock_of L who)) }
        ensures query { IsQuery (standing_of S.Store self.old) (standing_of S.Store self.new)
            result }
        ensures calls { AreCounted self.old.tables self.new.tables result }
    {
        if self.shut {
            return Err(Fault::Reopen);
        }
        self.tables.stock_of(self.alloc, who)
    }

    fn outbox(&mut self, who: Who) -> Result<Option<Vec<OutRow>>, Fault>
        ensures rows { OfKept (standing_of S.Store self.old) (standing_of S.Store self.new)
            (λ L. IfOk result (λ rows. option_map (λ v. v.items) rows ≡ outbox_of
            (standing_of S.Store self.old).warehouse L who)) }
        ensures query { IsQuery (standing_of S.Store self.old) (standing_of S.Store self.new)
            result }
        ensures calls { AreCounted self.old.tables self.new.tables result }
    {
        if self.shut {
            return Err(Fault::Reopen);
        }
        self.tables.outbox_of(self.alloc, who)
    }

    fn text(&mut self, who: Who, n: u32) -> Result<Option<Option<Vec<u8>>>, Fault>
        ensures text { OfKept (standing_of S.Store self.old) (standing_of S.Store self.new)
            (λ L. IfOk result (λ text. option_map (option_map (λ v. v.items)) text ≡ text_of
            (standing_of S.Store self.old).warehouse L who n)) }
        ensures query { IsQuery (standing_of S.Store self.old) (standing_of S.Store self.new)
            result }
        ensures calls { AreCounted self.old.tables self.new.tables result }
    {
        if self.shut {
            return Err(Fault::Reopen);
        }
        self.tables.text_of(self.alloc, who, n)
    }

    fn open(&mut self, who: Who) -> Result<Option<Page>, Fault>
        ensures work { OfKept (standing_of S.Store self.old) (standing_of S.Store self.new)
            (λ L. IfOk result (λ page. option_map open_on page ≡ open_of L who)) }
        ensures query { IsQuery (standing_of S.Store self.old) (standing_of S.Store self.new)
            result }
        ensures calls { AreCounted self.old.tables self.new.tables result }
    {
        if self.shut {
            return Err(Fault::Reopen);
        }
        self.tables.open_of(self.alloc, who)
    }

    fn depositors(&mut self) -> Result<Vec<Who>, Fault>
        ensures whole { OfKept (standing_of S.Store self.old) (standing_of S.Store self.new)
            (λ L. IfOk result (λ whos. whos.items ≡ enrolled L)) }
        ensures query { IsQuery (standing_of S.Store self.old) (standing_of S.Store self.new)
            result }
        ensures calls { AreCounted self.old.tables self.new.tables result }
    {
        if self.shut {
            return Err(Fault::Reopen);
        }
        self.tables.depositors(self.alloc)
    }

    fn extent(&mut self) -> Result<Extent, Fault>
        ensures extent { OfAnyKept (standing_of S.Store self.old) (standing_of S.Store self.new)
            (λ L. IfOk result (λ extent. meant.extent extent ≡ extent_of L)) }
        ensures query { IsQuery (standing_of S.Store self.old) (standing_of S.Store self.new)
            result }
        ensures limit { Counts self.old.tables self.new.tables }
    {
        if self.shut {
            return Err(Fault::Reopen);
        }
        let entries = self.entries;
        let last = last_of(self.alloc, &mut self.tables, entries)?;
        Ok(Extent { entries, last })
    }

    fn refused(&self) -> u64 {
        self.tables.refused()
    }

    fn must_reopen(&self) -> bool {
        self.shut
    }
}
