//! The book that is opened on what a stop leaves of its store.
ghost use Rattle.std.specs.Prelude.{◌≡◌, ◌≢◌, ◌≤◌, false, true, IfErr, IfOk, IsTrue, List, None};
ghost use Rattle.definitions.specs.Header.{Who as Partner};
ghost use Rattle.definitions.specs.Register.{Entry};
ghost use Rattle.sqlite.specs.Held.{state};
ghost use Rattle.sqlite_trees.specs.Tree.{Trees};
ghost use Rattle.sqlite_trees.specs.View.{IsClean, doubt};
ghost use Rattle.book_statements.specs.Faults.{IsCallFault, IsOpeningFault};
ghost use Rattle.book_statements.specs.Standing.{StandsIn};
ghost use Rattle.app.specs.Days.{AllCarried, IsOpenedOf, IsStill};
ghost use Rattle.app.specs.StopFaults.{fault_of_opening, fault_of_stop};
ghost use Rattle.books.specs.Opened.{standing_of};
ghost use Rattle.app.specs.Stopped.{IsReopened};

use book_tables::Tables;
use books::Book;
use sqlite::{Alter, Connection, Error, ErrorCode};
use sqlite_trees::error::StoreError;
use sqlite_trees::store::Reopen;
use std::alloc::Global;
use store::Fault;

// What a failure of the store is told as.
fn store_fault(error: StoreError) -> Fault
    ensures told { result ≡ fault_of_stop error }
    ensures named { IsCallFault result }
{
    match error {
        StoreError::OutOfMemory => Fault::OutOfMemory,
        _ => Fault::Store,
    }
}

// What a failure to open a store is told as: 43 where its trees are no database.
fn open_fault(error: Error) -> Fault
    ensures told { result ≡ fault_of_opening error }
    ensures not_this { result ≡ Fault.NotThisBook
        → error ≡ Error.SqliteFailure ErrorCode.NotADatabase }
    ensures named { IsOpeningFault result }
{
    match error {
        Error::SqliteFailure(ErrorCode::OutOfMemory) => Fault::OutOfMemory,
        Error::SqliteFailure(ErrorCode::NotADatabase) => Fault::NotThisBook,
        _ => Fault::Store,
    }
}

// Stops the process at this moment, as far as the store is concerned, and opens what is left, be it
// a book of version 1 or of version 2. A fault hands the store back, of which a crash leaves the
// same registers, each as it was or carried over, and says whether the store itself was opened: if
// not, nothing is known of another attempt.
pub(crate) fn opened_after<S: Alter + Reopen + Drop>(
    alloc: Global,
    mut store: S,
) -> Result<Book<S>, (Fault, S, bool)>
    requires { IsClean (S.Store.view store) → IsTrue (S.Store.view store).is_numbered }

    ensures opened { IfOk result (λ b. (standing_of S.Store b).doubt ≡ 0
        → (W : Partner) (all : AllCarried (S.Store.recovers store) W)
        → IsOpenedOf (S.Store.recovers store) W all (standing_of S.Store b)) }
    ensures anew { IfOk result
        (λ b. (b.shut ≡ false) × (b.tables.refused ≡ 0) × (b.tables.limit ≡ None)) }
    ensures still { IfErr result (λ e. IsClean (S.Store.view e.1)
        → (W : Partner) (all : AllCarried (S.Store.recovers store) W)
        → (db : Trees) → S.Store.recovers e.1 db → IsStill (S.Store.recovers store) W all db) }
    ensures same { IfErr result (λ e. IsClean (S.Store.view e.1)
        → (W : Partner) → ((db : Trees) → S.Store.recovers store db → (L : List Entry)
        × StandsIn W L db)
        → (db : Trees) → S.Store.recovers e.1 db → S.Store.recovers store db) }
    ensures this { IfErr result (λ e. IsClean (S.Store.view e.1)
        → (W : Partner) → AllCarried (S.Store.recovers store) W → e.0 ≢ Fault.NotThisBook) }
    ensures again { IfErr result (λ e. e.2 ≡ true → IsClean (S.Store.view e.1)
        → IsTrue (S.Store.view e.1).is_numbered) }
    ensures doubt { IfOk result
        (λ b. doubt (S.Store.view store).is_clean ≤ (standing_of S.Store b).doubt) }
    ensures doubt_back { IfErr result (λ e. doubt (S.Store.view store).is_clean
        ≤ doubt (S.Store.view e.1).is_clean) }
    ensures named { IfErr result (λ e. IsOpeningFault e.0) }
{
    if let Err(error) = store.crash_and_reopen() {
        return Err((store_fault(error), store, false));
    }
    match Connection::over(alloc, store) {
        Ok(conn) => match Book::open_from(alloc, Tables::new(conn)) {
            Ok(book) => Ok(book),
            Err((fault, tables)) => Err((fault, tables.into_inner().into_store(), true)),
        },
        Err((error, store)) => Err((open_fault(error), store, false)),
    }
}

// The store of a book, whatever of a transaction is left in it.
pub(crate) fn stopped<S: Alter + Drop>(book: Book<S>) -> S
    ensures left { (db : Trees) → S.Store.recovers result db
        → (state S.Store book.tables.conn).may_leave db }
    ensures doubt { (standing_of S.Store book).doubt ≤ doubt (S.Store.view result).is_clean }
    ensures numbered { IsClean (S.Store.view result) → IsTrue (S.Store.view result).is_numbered }
{
    book.close().into_inner().into_store()
}

/// Stops the process at this moment, as far as the store is concerned, and opens what is left: a
/// book that is usable for a register that a crash might leave. A fault hands the store back: 40 or
/// 41 where a call of the store failed, 43 where what is left is no book. Where all that a crash
/// might leave of the book stands for a register, and the disk is clean, it is never 43, and a
/// crash leaves nothing of that store that it might not have left of the book.
pub fn reopened<S: Alter + Reopen + Drop>(
    alloc: Global,
    book: Book<S>,
) -> Result<Book<S>, (Fault, S)>
    ensures left { IfOk result (λ b. (standing_of S.Store b).doubt ≡ 0
        → (standing_of S.Store book).all_stand
        → IsReopened (standing_of S.Store book) (standing_of S.Store b)) }
    ensures anew { IfOk result
        (λ b. (b.shut ≡ false) × (b.tables.refused ≡ 0) × (b.tables.limit ≡ None)) }
    ensures doubt { IfOk result
        (λ b. (standing_of S.Store book).doubt ≤ (standing_of S.Store b).doubt) }
    ensures doubt_back { IfErr result (λ e. (standing_of S.Store book).doubt
        ≤ doubt (S.Store.view e.1).is_clean) }
    ensures named { IfErr result (λ e. IsOpeningFault e.0) }
    ensures this { IfErr result
        (λ e. IsClean (S.Store.view e.1) → (standing_of S.Store book).all_stand
        → e.0 ≢ Fault.NotThisBook) }
    ensures kept { IfErr result
        (λ e. IsClean (S.Store.view e.1) → (standing_of S.Store book).all_stand
        → (db : Trees) → S.Store.recovers e.1 db → (state S.Store book.tables.conn).may_leave db) }
{
    match opened_after(alloc, stopped(book)) {
        Ok(book) => Ok(book),
        Err((fault, store, _)) => Err((fault, store)),
    }
}
