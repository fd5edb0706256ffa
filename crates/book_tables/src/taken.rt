ghost use Rattle.std.specs.Prelude.{◌≡◌};
ghost use Rattle.book_tables.specs.Taken as names;
ghost use Rattle.sqlite.specs.Held.{state};

use crate::connected::Tables;
use book_statements::BOOK_TABLES;
use sqlite::Alter;
use sqlite_schema::names::same_name;
use sqlite_schema::schema::Table;

// Whether a table of the book has the name, whose case doesn't count.
fn is_book_name(name: &[u8]) -> bool
    ensures { result ≡ names.is_book_name name.now }
{
    BOOK_TABLES
        .iter()
        .any(|table| same_name(name, table.text()))
}

// Whether one of the tables has the name of a table of the book.
fn has_book_table(tables: &[Table]) -> bool
    ensures { result ≡ names.has_book_table tables.now }
{
    tables
        .iter()
        .any(|table| is_book_name(table.name.as_slice()))
}

impl<S: Alter + Drop> Tables<S> {
    /// Whether the store has a table with the name of a table of the book.
    pub fn are_taken(&self) -> bool
        ensures { result ≡ names.has_book_table (state S.Store self.now.conn).now.schema.tables }
    {
        has_book_table(self.schema().tables.as_slice())
    }
}
