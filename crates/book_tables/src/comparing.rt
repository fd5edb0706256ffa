ghost use Rattle.std.specs.Prelude.{◌≡◌, ◌≢◌, ◌<◌, ◌↔◌, List, length, IsTrue, IfOk, OnOk, false, true};
ghost use Rattle.definitions.specs.Header.{Who as Partner};
ghost use Rattle.definitions.specs.Register as register;
ghost use Rattle.sqlite.specs.Held.{state};
ghost use Rattle.sqlite.specs.Order.{column};
ghost use Rattle.sqlite.specs.State.{HasCleanDisk};
ghost use Rattle.book_statements.specs.Asking.{Asked, IsAsked, OnlyReads};
ghost use Rattle.book_statements.specs.Whole as whole;
ghost use Rattle.book_tables.specs.Comparing.{AreTables, Compares, IsLaid, ShowBoth};
ghost use Rattle.book_statements.specs.Exits.{StandsWhileOpen};
ghost use Rattle.book_statements.specs.Limits.{Counts};
ghost use Rattle.book_statements.specs.Standing.{StandsSecond};

use crate::connected::Tables;
use book_statements::{BOOK_TABLES, TableName};
use sqlite::{Alter, Row};
use sqlite_value::order::is_same;
use store::Fault;

// The text that asks for all that a table has, in the order of its keys.
fn whole_text(table: TableName) -> &'static str
    ensures { result.now ≡ whole.whole_text table }
{
    match table {
        TableName::Book => "SELECT rowid, version, qualifier, id FROM book",
        TableName::Entry => "SELECT seq, who, mark, n, moment, body FROM entry ORDER BY seq",
        TableName::Outgoing => "SELECT who, n, kind, content, state FROM outgoing ORDER BY who, n",
        TableName::Stock => {
            "SELECT who, item, lot, since, expected, on_hand, reserved, shipped FROM stock ORDER BY who, item, lot"
        }
        TableName::Advice => {
            "SELECT who, shipment, ord, is_open FROM advice ORDER BY who, shipment"
        }
        TableName::AdviceLine => {
            "SELECT who, shipment, line, item, lot, quantity FROM advice_line ORDER BY who, shipment, line"
        }
        TableName::Orders => {
            "SELECT who, ord, is_open, to_name, to_one, to_two, to_place FROM orders ORDER BY who, ord"
        }
        TableName::OrderLine => {
            "SELECT who, ord, line, item, lot, quantity FROM order_line ORDER BY who, ord, line"
        }
        TableName::Reservation => {
            "SELECT who, ord, item, lot, quantity FROM reservation ORDER BY who, ord, item, lot"
        }
        TableName::EntryRules => "SELECT seq, rules FROM entry_rules ORDER BY seq",
        TableName::LotExpiry => {
            "SELECT who, item, lot, expiry FROM lot_expiry ORDER BY who, item, lot"
        }
    }
}

// Whether two rows have the same value in a column that both have.
fn is_same_at(row: &Row, other: &Row, at: usize) -> bool
    ensures same { IsTrue result → column row.now at ≡ column other.now at }
    ensures differ { result ≡ false → at < length row.now → at < length other.now
        → column row.now at ≢ column other.now at }
{
    let Ok(value) = row.get_ref(at) else {
        return false;
    };
    match other.get_ref(at) {
        Ok(its) => is_same(value, its),
        Err(_) => false,
    }
}

// Whether two rows have the same values.
fn is_same_row(row: &Row, other: &Row) -> bool
    ensures { IsTrue result ↔ (row.now ≡ other.now) }
{
    if row.column_count() != other.column_count() {
        return false;
    }
    for at in 0..row.column_count() {
        if !is_same_at(row, other, at) {
            return false;
        }
    }
    true
}

// Whether they are the same rows, one after another.
fn are_same_rows(rows: &[Row], others: &[Row]) -> bool
    ensures { IsTrue result ↔ (rows.now ≡ others.now) }
{
    if rows.len() != others.len() {
        return false;
    }
    for at in 0..rows.len() {
        if !is_same_row(&rows[at], &others[at]) {
            return false;
        }
    }
    true
}

impl<S: Alter + Drop> Tables<S> {
    // Whether a text that only reads the book's tables answers the same rows there. A fault of the
    // other tables is 40, and no call of these is counted for it.
    fn shows_the_same<T: Alter + Drop>(
        &mut self,
        other: &mut Tables<T>,
        sql: &str,
    ) -> Result<bool, Fault>
        requires { OnlyReads sql.now }

        ensures same { HasCleanDisk (state S.Store self.new.conn)
            → HasCleanDisk (state T.Store other.new.conn)
            → IfOk result (ShowBoth sql.now (state S.Store self.old.conn)
            (state T.Store other.old.conn)) }
        ensures asked { Asked S.Store self.old self.new result }
        ensures other { IsAsked (state T.Store other.old.conn) (state T.Store other.new.conn) }
        ensures other_limit { Counts other.old other.new }
    {
        let rows = self.ask(sql, &[])?;
        match other.ask(sql, &[]) {
            Ok(others) => Ok(are_same_rows(&rows, &others)),
            Err(_) => Err(Fault::OutOfMemory),
        }
    }

    // Whether each table shows the same rows in both. It stops at the first that differs.
    fn compare_tables<T: Alter + Drop>(&mut self, other: &mut Tables<T>) -> Result<bool, Fault>
        ensures compares { HasCleanDisk (state S.Store self.new.conn)
            → HasCleanDisk (state T.Store other.new.conn)
            → IfOk result (λ same. Compares same (state S.Store self.old.conn)
            (state T.Store other.old.conn)) }
        ensures asked { Asked S.Store self.old self.new result }
        ensures other { IsAsked (state T.Store other.old.conn) (state T.Store other.new.conn) }
        ensures other_limit { Counts other.old other.new }
    {
        for table in &BOOK_TABLES {
            if !self.shows_the_same(other, whole_text(*table))? {
                return Ok(false);
            }
        }
        Ok(true)
    }

    /// Whether these tables hold the same rows as others, which stand for a register. Both are only
    /// read. A fault of the others is 40, so they are best in memory; and 41 where a call of these
    /// is refused.
    pub fn same_tables<T: Alter + Drop>(&mut self, other: &mut Tables<T>) -> Result<bool, Fault>
        ensures stands { HasCleanDisk (state S.Store self.new.conn)
            → HasCleanDisk (state T.Store other.new.conn) → IsLaid (state S.Store self.old.conn)
            → AreTables (state S.Store self.old.conn).now → (W : Partner) (L : List register.Entry)
            → StandsWhileOpen (state T.Store other.old.conn) W L
            → IfOk result (λ same. IsTrue same
            → StandsSecond W L (state S.Store self.old.conn).now) }
        ensures same { HasCleanDisk (state S.Store self.new.conn)
            → HasCleanDisk (state T.Store other.new.conn) → (W : Partner) (L : List register.Entry)
            → StandsWhileOpen (state T.Store other.old.conn) W L
            → StandsWhileOpen (state S.Store self.old.conn) W L → IfOk result IsTrue }
        ensures was_open { HasCleanDisk (state S.Store self.new.conn)
            → HasCleanDisk (state T.Store other.new.conn)
            → OnOk result (IsTrue (state S.Store self.old.conn).is_open) }
        ensures asked { Asked S.Store self.old self.new result }
        ensures other { IsAsked (state T.Store other.old.conn) (state T.Store other.new.conn) }
        ensures other_limit { Counts other.old other.new }
    {
        // For the prover alone: what both show is what was committed last.
        self.settle();
        other.settle();
        self.compare_tables(other)
    }
}
