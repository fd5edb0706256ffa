//! A database that holds nothing, and an empty book in memory.
ghost use Rattle.std.specs.Prelude.{◌≡◌, ◌≢◌, [], true, false, IfErr, IfOk};
ghost use Rattle.sqlite.specs.Held.{state};
ghost use Rattle.sqlite.specs.State.{HasCleanDisk};
ghost use Rattle.store.specs.Standing.{IsUsable};
ghost use Rattle.book_statements.specs.Layout.{no_layout};
ghost use Rattle.books.specs.Opened.{standing_of};
ghost use Rattle.books.specs.Verified.{over_ram};

use crate::book::Book;
use crate::ram_disk::RamDisk;
use crate::verifying::of_copy;
use book_tables::Tables;
use rules::Warehouse;
use sqlite::{Alter, Connection, FileStore, Files, Options};
use std::alloc::Global;
use store::Fault;

/// Whether a database holds nothing yet: no table, no index and no view.
pub fn is_blank<S: Alter + Drop>(database: &Connection<S>) -> bool
    ensures blank { result ≡ true → (state S.Store database.now).now.schema ≡ no_layout }
    ensures used { result ≡ false → (state S.Store database.now).now.schema ≢ no_layout }
{
    let schema = database.schema();
    schema.tables.len() == 0 && schema.indexes.len() == 0 && schema.views.len() == 0
}

// An empty book of the warehouse in a database that holds nothing. What it lacks is memory: an
// empty file gets an empty database, so one that holds something isn't met.
fn over_nothing<S: Alter + Drop>(
    alloc: Global,
    database: Connection<S>,
    warehouse: Warehouse,
) -> Result<Book<S>, Fault>
    requires { database.in_transaction ≡ false }

    ensures warehouse { IfOk result (λ b. b.warehouse ≡ warehouse) }
    ensures usable { IfOk result (λ b. HasCleanDisk (state S.Store b.tables.conn)
        → IsUsable (standing_of S.Store b) []) }
    ensures named { IfErr result (λ f. f ≡ Fault.OutOfMemory) }
{
    if !is_blank(&database) {
        return Err(Fault::OutOfMemory);
    }
    match Book::create(alloc, Tables::new(database), warehouse) {
        Ok(book) => Ok(book),
        Err((fault, _)) => Err(of_copy(fault)),
    }
}

/// An empty book of the warehouse, in memory. What it lacks is memory. A row there costs what it
/// costs in a file, wherever it belongs: rows stand in trees of pages.
pub(crate) fn blank(alloc: Global, warehouse: Warehouse) -> Result<Book<FileStore<RamDisk>>, Fault>
    ensures warehouse { IfOk result (λ b. b.warehouse ≡ warehouse) }
    ensures usable { IfOk result (λ b. IsUsable (standing_of over_ram b) []) }
    ensures named { IfErr result (λ f. f ≡ Fault.OutOfMemory) }
{
    let files = Files {
        log: RamDisk::new(alloc),
        db: RamDisk::new(alloc),
    };
    match Connection::open_files(alloc, files, Options::new(0)) {
        Ok(database) => over_nothing(alloc, database, warehouse),
        Err(_) => Err(Fault::OutOfMemory),
    }
}
