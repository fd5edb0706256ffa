ghost use Rattle.std.specs.Prelude.{◌≡◌, ◌<◌, ◌^◌, ◌++◌, ◌∷◌, [], List, false, length, IsTrue, IfOk, OnOk, None};
ghost use Rattle.definitions.specs.declared.rules.Rules.TheVariants.{One, Two};
ghost use Rattle.definitions.specs.Accepted.{IsLegal};
ghost use Rattle.definitions.specs.Header.{Who as Partner};
ghost use Rattle.definitions.specs.Register as register;
ghost use Rattle.sqlite.specs.State.{HasCleanDisk, IsLive};
ghost use Rattle.sqlite.specs.Held.{state};
ghost use Rattle.sqlite.specs.Values.{bound};
ghost use Rattle.book_statements.specs.Asking.{Finds, IsAsked, OnlyReads};
ghost use Rattle.book_statements.specs.Carrying.{CarriesOver, StandsOpenAs};
ghost use Rattle.book_statements.specs.Exits.{IsAppended, HasGrown, StandsWithEntry};
ghost use Rattle.book_statements.specs.Limits.{Called, Spent};
ghost use Rattle.book_statements.specs.Layout.{no_layout};
ghost use Rattle.book_statements.specs.Making.{Makes};
ghost use Rattle.book_statements.specs.Rises.{Rises};
ghost use Rattle.book_statements.specs.Standing.{StandsIn};
ghost use Rattle.book_transactions.specs.Whole.{IsWhole};

use book_statements::Calls;
use book_transactions::{append, carry_over, make};
use rules::{Change, Entry, Warehouse};
use sqlite::types::ValueRef;
use sqlite::{Alter, Connection, Row};
use sqlite_schema::schema::Schema;
use std::marker::Model;
use store::Fault;

/// A connection to the tables of a book, with the counts of its calls that were refused and of
/// those that were made.
#[derive(Drop)]
pub struct Tables<S: Alter + Drop> {
    conn: Connection<S>,
    calls: Calls,
}

impl<S: Alter + Drop> Model for Tables<S> {
    ghost use Rattle.std.specs.Prelude.{◌≡◌, false};
    ghost use Rattle.book_statements.specs.Kept.{Kept, kept_code};

    ghost Value = { Kept S };

    ghost coded = { kept_code S.code };

    ghost view = { λ t. record {
      conn = t.conn;
      refused = t.calls.refused;
      made = t.calls.made;
      limit = t.calls.limit;
    } };

    ghost invariant = { λ t. t.conn.in_transaction ≡ false };
}

impl<S: Alter + Drop> Tables<S> {
    /// The tables of a connection that is in no transaction. No call is refused yet, and any number
    /// may be made.
    pub fn new(conn: Connection<S>) -> Tables<S>
        requires { conn.in_transaction ≡ false }

        ensures conn { result.conn ≡ conn }
        ensures refused { result.refused ≡ 0 }
        ensures made { result.made ≡ 0 }
        ensures limit { result.limit ≡ None }
    {
        Tables {
            conn,
            calls: Calls::new(),
        }
    }

    /// How many calls the store refused. At its greatest number the count stays.
    pub fn refused(&self) -> u64
        ensures { result ≡ self.now.refused }
    {
        self.calls.refused
    }

    /// After that many more calls each, but the giving up of a transaction, is refused unmade and
    /// counted; None lifts that.
    pub fn limit_calls(&mut self, limit: Option<u64>)
        ensures conn { self.new.conn ≡ self.old.conn }
        ensures refused { self.new.refused ≡ self.old.refused }
        ensures made { self.new.made ≡ self.old.made }
        ensures limit { self.new.limit ≡ limit }
    {
        self.calls.limit = limit;
    }

    /// The connection.
    pub fn into_inner(self) -> Connection<S>
        ensures { result ≡ self.conn }
    {
        let Tables { conn, calls: _ } = self;
        conn
    }

    /// What tables the store has.
    pub(crate) fn schema(&self) -> &Schema
        ensures { result.now ≡ (state S.Store self.now.conn).now.schema }
    {
        self.conn.schema()
    }

    /// Runs nothing: a call of it stands for the prover alone. The connection is in no transaction,
    /// so what it shows is what was committed last; and that obeys its schema.
    pub fn settle(&self)
        ensures rest { IsTrue (state S.Store self.now.conn).is_open
            → (state S.Store self.now.conn).now ≡ (state S.Store self.now.conn).committed }
        ensures live { IsLive (state S.Store self.now.conn) }
    {
        let settled = self.conn.is_autocommit();
        prove!(settled);
        let _live = self.conn.schema();
    }

    /// The numbers of entries are used up: the call that would have taken one is refused.
    pub fn use_up(&mut self) -> Fault
        ensures told { result ≡ Fault.Store }
        ensures conn { self.new.conn ≡ self.old.conn }
        ensures made { self.new.made ≡ self.old.made }
        ensures limit { self.new.limit ≡ self.old.limit }
        ensures counted { Rises self.old.refused self.new.refused }
    {
        self.calls.refuse()
    }

    /// The rows that a text answers which only reads, under any schema: the tables are as they
    /// were. A refused call is 40 or 41, and counts.
    pub(crate) fn ask(&mut self, sql: &str, params: &[ValueRef<'_>]) -> Result<Vec<Row>, Fault>
        requires { OnlyReads sql.now }

        ensures finds { HasCleanDisk (state S.Store self.new.conn)
            → IfOk result (λ rows. IsTrue (state S.Store self.old.conn).is_open
            × Finds sql.now (bound params.now)
            (state S.Store self.old.conn).now rows.items) }
        ensures live { IsLive (state S.Store self.old.conn) }
        ensures asked { IsAsked (state S.Store self.old.conn) (state S.Store self.new.conn) }
        ensures called { Called self.old self.new result }
        ensures twice { OnOk result (Spent 2 self.old.made self.new.made self.old.limit
            self.new.limit) }
    {
        // For the prover alone: in no transaction, what is there is the last commit; and while the
        // store is open, it is a database.
        let settled = self.conn.is_autocommit();
        prove!(settled);
        let _live = self.conn.schema();
        self.calls.allow()?;
        let statement = match self.conn.prepare(sql) {
            Ok(statement) => statement,
            Err(error) => return Err(self.calls.failed(error)),
        };
        self.calls.allow()?;
        match statement.query_all(&mut self.conn, params) {
            Ok(rows) => Ok(rows),
            Err(error) => Err(self.calls.failed(error)),
        }
    }

    /// Appends an entry under the next number, with what its command changes and what goes out for
    /// it, in one transaction.
    pub fn append<'a>(
        &mut self,
        seq: u64,
        who: &'a [u8],
        entry: &'a Entry,
        changes: &'a [Change],
        outgoing: &'a [u8],
    ) -> Result<(), Fault>
        requires { seq < 2 ^ 63 }

        ensures whole { IsWhole
            ((W : Partner) (L : List register.Entry) (e : register.Entry)
            → IsAppended (state S.Store self.old.conn) W L e seq who.now entry.now changes.now
            outgoing.now → HasGrown (state S.Store self.new.conn) W (L ++ e ∷ []))
            (StandsWithEntry (state S.Store self.old.conn) seq who.now entry.now changes.now
            outgoing.now)
            (state S.Store self.old.conn) (state S.Store self.new.conn) result }
        ensures called { Called self.old self.new result }
    {
        append(
            &mut self.conn,
            &mut self.calls,
            seq,
            who,
            entry,
            changes,
            outgoing,
        )
    }

    /// Makes the tables of an empty register of the warehouse, of a book of version 2, in one
    /// transaction.
    pub fn make(&mut self, warehouse: &Warehouse) -> Result<(), Fault>
        ensures whole { IsWhole
            (Makes (state S.Store self.old.conn) (state S.Store self.new.conn) warehouse.now)
            (λ db. IsLegal Two warehouse.now [] → (state S.Store self.old.conn).now.schema
            ≡ no_layout → StandsIn warehouse.now [] db)
            (state S.Store self.old.conn) (state S.Store self.new.conn) result }
        ensures called { Called self.old self.new result }
    {
        make(&mut self.conn, &mut self.calls, warehouse)
    }

    /// Carries a book of version 1, which has so many entries, over to version 2, in one
    /// transaction. Of its entries `told` is handed how many were gone over of how many.
    pub fn carry_over<T: FnMut(u64, u64)>(&mut self, entries: u64, told: T) -> Result<(), Fault>
        requires few { entries < 2 ^ 63 }
        requires told { T.IsAlwaysCallable told }

        ensures whole { IsWhole
            (CarriesOver entries (state S.Store self.old.conn) (state S.Store self.new.conn))
            (λ db. (W : Partner) (L : List register.Entry) → entries ≡ length L
            → StandsOpenAs One (state S.Store self.old.conn) W L → StandsIn W L db)
            (state S.Store self.old.conn) (state S.Store self.new.conn) result }
        ensures called { Called self.old self.new result }
    {
        carry_over(&mut self.conn, &mut self.calls, entries, told)
    }
}
