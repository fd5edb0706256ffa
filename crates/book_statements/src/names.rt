//! The tables of a book, and the one list of them. What is so of a table, as its columns, its key
//! and the rows of a register, is a function of its name in the definitions.
ghost use Rattle.std.specs.Prelude.{◌≡◌};
ghost use Rattle.book_statements.specs.Standing.{name_of};

/// One of the tables of a book, in the order of its making.
#[derive(Clone, Copy)]
pub enum TableName {
    /// The warehouse and the version.
    Book,
    /// The register.
    Entry,
    /// What went out.
    Outgoing,
    /// The rows of pairs.
    Stock,
    /// Advices.
    Advice,
    /// Their lines.
    AdviceLine,
    /// Orders.
    Orders,
    /// Their lines.
    OrderLine,
    /// What is reserved for open orders.
    Reservation,
    /// The rules of each entry.
    EntryRules,
    /// The dates of pairs.
    LotExpiry,
}

/// All of them, in the order of their making.
pub const BOOK_TABLES: [TableName; 11] = [
    TableName::Book,
    TableName::Entry,
    TableName::Outgoing,
    TableName::Stock,
    TableName::Advice,
    TableName::AdviceLine,
    TableName::Orders,
    TableName::OrderLine,
    TableName::Reservation,
    TableName::EntryRules,
    TableName::LotExpiry,
];

impl TableName {
    /// Its name in SQLite.
    pub fn text(self) -> &'static [u8]
        ensures { result.now ≡ name_of self }
    {
        match self {
            TableName::Book => b"book",
            TableName::Entry => b"entry",
            TableName::Outgoing => b"outgoing",
            TableName::Stock => b"stock",
            TableName::Advice => b"advice",
            TableName::AdviceLine => b"advice_line",
            TableName::Orders => b"orders",
            TableName::OrderLine => b"order_line",
            TableName::Reservation => b"reservation",
            TableName::EntryRules => b"entry_rules",
            TableName::LotExpiry => b"lot_expiry",
        }
    }
}
