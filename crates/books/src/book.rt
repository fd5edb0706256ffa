ghost use Rattle.std.specs.Prelude.{◌≡◌, ◌≢◌, ◌<◌, ◌^◌, ◌-◌, [], true, false, IfErr, IfOk, OnOk, OnErr, IsErrAnd, List, Some};
ghost use Rattle.definitions.specs.declared.rules.Rules.TheVariants.{One, Two};
ghost use Rattle.definitions.specs.Header.{Who as Partner};
ghost use Rattle.definitions.specs.Register as register;
ghost use Rattle.sqlite.specs.State.{HasCleanDisk, Survives};
ghost use Rattle.sqlite.specs.Held.{state};
ghost use Rattle.store.specs.Standing.{IsUsable, IsReading, IsQuery};
ghost use Rattle.book_statements.specs.Asking.{IsAsked};
ghost use Rattle.book_statements.specs.Exits.{IsAsBefore, StandsWhileOpen};
ghost use Rattle.book_statements.specs.Faults.{IsCallFault, IsOpeningFault};
ghost use Rattle.books.specs.Carrying.{BringsUp};
ghost use Rattle.books.specs.Verified.{CountsKept, IsAlwaysClean, IsOnlyRead, StandsChecked};
ghost use Rattle.book_statements.specs.Limits.{Counts};
ghost use Rattle.book_statements.specs.Layout.{no_layout};
ghost use Rattle.books.specs.Opened.{standing_of};
ghost use Rattle.books.specs.Opening.{IsHandedBack, IsOpened};
ghost use Rattle.book_statements.specs.Rises.{Rises};
ghost use Rattle.book_statements.specs.Standing.{StandsIn};
ghost use Rattle.book_tables.specs.Taken.{has_book_table};

use crate::blank::blank;
use crate::verifying::give_all;
use book_tables::Tables;
use definitions::Rules;
use rules::Warehouse;
use sqlite::Alter;
use std::alloc::Global;
use std::marker::Model;
use store::{Fault, Keeper};

// The greatest number that SQLite holds.
pub(crate) const GREATEST: u64 = 9_223_372_036_854_775_807;

/// A book of a warehouse in SQLite tables.
#[derive(Drop)]
pub struct Book<S: Alter + Drop> {
    pub(crate) alloc: Global,
    pub(crate) tables: Tables<S>,
    pub(crate) warehouse: Warehouse,
    pub(crate) entries: u64,
    pub(crate) shut: bool,
}

impl<S: Alter + Drop> Model for Book<S> {
    ghost use Rattle.books.specs.Opened.{Opened, opened_code};

    ghost Value = { Opened S };

    ghost coded = { opened_code S.code };

    ghost view = { λ b. record {
      tables = b.tables;
      warehouse = b.warehouse;
      entries = b.entries;
      shut = b.shut;
    } };
}

// Carries tables of version 1, which have so many entries, over to version 2; those of version 2
// stay. Of the entries `told` is handed how many were gone over of how many.
fn bring_up<S: Alter + Drop, T: FnMut(u64, u64)>(
    tables: &mut Tables<S>,
    version: Rules,
    entries: u64,
    told: T,
) -> Result<(), Fault>
    requires few { entries < 2 ^ 63 }
    requires told { T.IsAlwaysCallable told }

    ensures brought { BringsUp S.Store version entries tables.old tables.new result }
    ensures named { IfErr result IsCallFault }
    ensures counted { OnErr result (Rises tables.old.refused tables.new.refused) }
    ensures uncounted { OnOk result (tables.new.refused ≡ tables.old.refused) }
    ensures limit { Counts tables.old tables.new }
{
    match version {
        Rules::One => tables.carry_over(entries, told),
        Rules::Two => Ok(()),
    }
}

impl<S: Alter + Drop> Book<S> {
    /// Makes the tables of an empty register of the warehouse. A fault hands the tables back: 43
    /// where the store has a table with the name of a table of the book already, which leaves it as
    /// it is, and 40 or 41 where a call was refused.
    pub fn create(
        alloc: Global,
        mut tables: Tables<S>,
        warehouse: Warehouse,
    ) -> Result<Book<S>, (Fault, Tables<S>)>
        ensures usable { IfOk result (λ b. HasCleanDisk (state S.Store b.tables.conn)
            → (state S.Store tables.conn).now.schema ≡ no_layout
            → IsUsable (standing_of S.Store b) []) }
        ensures warehouse { IfOk result (λ b. b.warehouse ≡ warehouse) }
        ensures opened { IfOk result (λ b. b.shut ≡ false) }
        ensures before { IfErr result (λ e. HasCleanDisk (state S.Store e.1.conn)
            → IsAsBefore (state S.Store tables.conn) (state S.Store e.1.conn)) }
        ensures crash { IfErr result
            (λ e. Survives (state S.Store tables.conn) (state S.Store e.1.conn) (λ db.
            (state S.Store tables.conn).now.schema ≡ no_layout → StandsIn warehouse [] db)) }
        ensures taken { has_book_table (state S.Store tables.conn).now.schema.tables ≡ true
            → IsErrAnd result (λ e. (e.0 ≡ Fault.NotThisBook) × (e.1 ≡ tables)) }
        ensures free { IfErr result (λ e. e.0 ≡ Fault.NotThisBook
            → has_book_table (state S.Store tables.conn).now.schema.tables ≡ true) }
        ensures counted { IfErr result
            (λ e. e.0 ≢ Fault.NotThisBook → Rises tables.refused e.1.refused) }
        ensures named { IfErr result (λ e. IsOpeningFault e.0) }
        ensures uncounted_ok { IfOk result (λ b. b.tables.refused ≡ tables.refused) }
        ensures limit { IfOk result (λ b. Counts tables b.tables) }
        ensures limit_back { IfErr result (λ e. Counts tables e.1) }
        ensures allowed { OnOk result (tables.limit ≢ Some 0) }
    {
        if tables.are_taken() {
            return Err((Fault::NotThisBook, tables));
        }
        match tables.make(&warehouse) {
            Ok(()) => Ok(Book {
                alloc,
                tables,
                warehouse,
                entries: 0,
                shut: false,
            }),
            Err(fault) => Err((fault, tables)),
        }
    }

    /// Opens the book that tables hold. One of version 1 is carried over to version 2 first, in one
    /// transaction, which keeps every entry under the rules that it was judged by. A fault hands
    /// the tables back, which stand for the same register: 40 or 41 where a call was refused, 43
    /// where `book` hasn't one row, or that row has another version than 1 and 2 or no warehouse,
    /// which leaves the tables as they were, whatever they are.
    pub fn open_from(alloc: Global, tables: Tables<S>) -> Result<Book<S>, (Fault, Tables<S>)>
        ensures ok { IfOk result (IsOpened S.Store tables) }
        ensures err { IfErr result (λ e. IsHandedBack S.Store tables e.0 e.1) }
        ensures allowed { OnOk result (tables.limit ≢ Some 0) }
    {
        Book::open_from_telling(alloc, tables, |_, _| {})
    }

    /// The same as `open_from`; and while a book of version 1 is carried over, `told` is handed,
    /// after each of its entries, how many were gone over and how many there are.
    pub fn open_from_telling<T: FnMut(u64, u64)>(
        alloc: Global,
        mut tables: Tables<S>,
        told: T,
    ) -> Result<Book<S>, (Fault, Tables<S>)>
        requires told { T.IsAlwaysCallable told }

        ensures ok { IfOk result (IsOpened S.Store tables) }
        ensures err { IfErr result (λ e. IsHandedBack S.Store tables e.0 e.1) }
        ensures allowed { OnOk result (tables.limit ≢ Some 0) }
    {
        // For the prover alone: what the tables show is what was committed last.
        tables.settle();
        let (house, entries) = match tables.found() {
            Ok(found) => found,
            Err(fault) => return Err((fault, tables)),
        };
        let (version, warehouse) = house;
        if let Err(fault) = bring_up(&mut tables, version, entries, told) {
            return Err((fault, tables));
        }
        Ok(Book {
            alloc,
            tables,
            warehouse,
            entries,
            shut: false,
        })
    }

    /// Opens the book of version 2 that tables hold, which are only read, whatever they hold. A
    /// fault hands them back as they were: 40 or 41 where a call was refused, 43 where they are no
    /// book of version 2.
    pub fn open_second(alloc: Global, mut tables: Tables<S>) -> Result<Book<S>, (Fault, Tables<S>)>
        ensures ok { IfOk result (IsOpened S.Store tables) }
        ensures asked { IfOk result
            (λ b. IsAsked (state S.Store tables.conn) (state S.Store b.tables.conn)) }
        ensures left { IfErr result
            (λ e. IsAsked (state S.Store tables.conn) (state S.Store e.1.conn)) }
        ensures this { IfErr result (λ e. HasCleanDisk (state S.Store e.1.conn) → (W : Partner)
            (L : List register.Entry) → StandsWhileOpen (state S.Store tables.conn) W L
            → e.0 ≢ Fault.NotThisBook) }
        ensures named { IfErr result (λ e. IsOpeningFault e.0) }
    {
        // For the prover alone: what the tables show is what was committed last.
        tables.settle();
        let (named, entries) = match tables.found() {
            Ok(found) => found,
            Err(fault) => return Err((fault, tables)),
        };
        let (version, warehouse) = named;
        match version {
            Rules::One => Err((Fault::NotThisBook, tables)),
            Rules::Two => Ok(Book {
                alloc,
                tables,
                warehouse,
                entries,
                shut: false,
            }),
        }
    }

    /// How many entries the register has, where every table is what comes of giving their commands
    /// again, one after another, to an empty book in memory; 43 where one of them isn't. Nothing is
    /// written, whatever the tables hold. 40 and 41 are those of a query, 42 that of a book that
    /// has to be opened again. It holds a second book in memory for as long as it runs.
    pub fn verify(&mut self) -> Result<u64, Fault>
        ensures stands { StandsChecked S.Store self.old self.new result }
        ensures whole { CountsKept S.Store self.old self.new result }
        ensures query { IsQuery (standing_of S.Store self.old) (standing_of S.Store self.new)
            result }
        ensures unchanged { IsOnlyRead S.Store self.old self.new }
        ensures limit { Counts self.old.tables self.new.tables }
    {
        self.verify_telling(|_, _| {})
    }

    /// The same as `verify`; and `told` is handed, after each entry, how many were given again and
    /// how many there are.
    pub fn verify_telling<T: FnMut(u64, u64)>(&mut self, told: T) -> Result<u64, Fault>
        requires told { T.IsAlwaysCallable told }

        ensures stands { StandsChecked S.Store self.old self.new result }
        ensures whole { CountsKept S.Store self.old self.new result }
        ensures query { IsQuery (standing_of S.Store self.old) (standing_of S.Store self.new)
            result }
        ensures unchanged { IsOnlyRead S.Store self.old self.new }
        ensures limit { Counts self.old.tables self.new.tables }
    {
        if self.shut {
            return Err(Fault::Reopen);
        }
        let mut copy = blank(self.alloc, self.warehouse)?;
        self.check_by(&mut copy, told)
    }

    // How many entries the register has, where every table is what comes of giving their commands
    // again to this empty book.
    fn check_by<C: Alter + Drop, T: FnMut(u64, u64)>(
        &mut self,
        copy: &mut Book<C>,
        told: T,
    ) -> Result<u64, Fault>
        requires clean { IsAlwaysClean C.Store }
        requires empty { IsUsable (standing_of C.Store copy.old) [] }
        requires warehouse { copy.old.warehouse ≡ self.old.warehouse }
        requires told { T.IsAlwaysCallable told }

        ensures stands { StandsChecked S.Store self.old self.new result }
        ensures whole { CountsKept S.Store self.old self.new result }
        ensures reading { IsReading (standing_of S.Store self.old) (standing_of S.Store self.new)
            result }
        ensures unchanged { IsOnlyRead S.Store self.old self.new }
        ensures limit { Counts self.old.tables self.new.tables }
    {
        let all = give_all(self.alloc, &mut self.tables, copy, self.entries, told)?;
        if !all {
            return Err(Fault::NotThisBook);
        }
        let same = self.tables.same_tables(&mut copy.tables)?;
        if !same {
            return Err(Fault::NotThisBook);
        }
        Ok(copy.entries)
    }

    /// Hands the tables back.
    pub fn close(self) -> Tables<S>
        ensures { result ≡ self.tables }
    {
        let Book {
            alloc: _,
            tables,
            warehouse: _,
            entries: _,
            shut: _,
        } = self;
        tables
    }
}
