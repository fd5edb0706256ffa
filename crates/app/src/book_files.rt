//! The book in a file, and its log beside it. A book is opened and closed over any store, and a
//! database closed over any disk, since what owns a store on disk is dear to prove.

ghost use Rattle.std.specs.Prelude.{◌≡◌, ◌≢◌, ◌⊎◌, [], false, Err, IfOk, IfErr};
ghost use Rattle.sqlite.specs.Held.{state};
ghost use Rattle.sqlite.specs.State.{HasCleanDisk};
ghost use Rattle.store.specs.Standing.{IsUsable};
ghost use Rattle.book_statements.specs.Layout.{no_layout};
ghost use Rattle.books.specs.Opened.{standing_of};
ghost use Rattle.app.specs.Faults as meant;
ghost use Rattle.app.specs.Opening.{IsNotMade};

use books::{Book, Tables, is_blank};
use sqlite::{Alter, Connection, Error, ErrorCode};
use std::alloc::Global;
use store::{Fault, Warehouse};

/// The fault of a file that can't be opened or closed as a database. One that holds anything else,
/// or is damaged, is not this book; one that is in use, or can't be read or written, is a device
/// that failed.
pub fn fault(error: &Error) -> Fault
    ensures told { result ≡ meant.fault_of error.now }
    ensures named { (result ≡ Fault.NotThisBook)
        ⊎ ((result ≡ Fault.OutOfMemory) ⊎ (result ≡ Fault.Device)) }
{
    match error {
        Error::SqliteFailure(ErrorCode::OutOfMemory) => Fault::OutOfMemory,
        Error::SqliteFailure(ErrorCode::NotADatabase | ErrorCode::DatabaseCorrupt) => {
            Fault::NotThisBook
        }
        _ => Fault::Device,
    }
}

/// Whether a database couldn't be opened since somebody else has it open.
pub fn is_in_use(error: &Error) -> bool
    ensures { result ≡ meant.is_in_use error.now }
{
    matches!(error, Error::SqliteFailure(ErrorCode::DatabaseBusy))
}

/// Makes the book of a warehouse in a database that is in no transaction. NotThisBook (43) where
/// the database holds anything already, a book or tables of somebody else, which is handed back as
/// it is; 40 or 41 where a call was refused. What is handed back then can be given to `make` again.
pub fn make<S: Alter + Drop>(
    alloc: Global,
    database: Connection<S>,
    warehouse: Warehouse,
) -> Result<Book<S>, (Fault, Connection<S>)>
    requires { database.in_transaction ≡ false }

    ensures usable { IfOk result (λ b. HasCleanDisk (state S.Store b.tables.conn)
        → IsUsable (standing_of S.Store b) []) }
    ensures warehouse { IfOk result (λ b. b.warehouse ≡ warehouse) }
    ensures opened { IfOk result (λ b. b.shut ≡ false) }
    ensures taken { (state S.Store database).now.schema ≢ no_layout
        → result ≡ Err (Fault.NotThisBook, database) }
    ensures none { IfErr result (λ e. IsNotMade S.Store database e.1 warehouse e.0) }
{
    if !is_blank(&database) {
        return Err((Fault::NotThisBook, database));
    }
    match Book::create(alloc, Tables::new(database), warehouse) {
        Ok(book) => Ok(book),
        Err((fault, tables)) => Err((fault, tables.into_inner())),
    }
}

/// Closes a book.
pub fn close<S: Alter + Drop>(book: Book<S>) -> Connection<S>
    ensures { result ≡ book.tables.conn }
{
    book.close().into_inner()
}
