//! A book in a database checked whole: its tables are read anew, and compared with what its
//! register gives.
ghost use Rattle.std.specs.Io.KnownBytes.{Appends};
ghost use Rattle.std.specs.Prelude.{◌≡◌, ◌≤◌, false, true, None, IfErr, IfOk, IsTrue, length};
ghost use Rattle.sqlite.specs.Held.{state};
ghost use Rattle.sqlite.specs.State.{HasCleanDisk};
ghost use Rattle.sqlite.specs.Tree.{Trees};
ghost use Rattle.sqlite_trees.specs.View.{doubt};
ghost use Rattle.store.specs.Standing.{IsQuery, IsReading, OfAnyKept};
ghost use Rattle.book_statements.specs.Asking.{IsOfFirst};
ghost use Rattle.books.specs.Opened.{standing_of};
ghost use Rattle.books.specs.Opening.{OfRegister};
ghost use Rattle.books.specs.Verified.{CountsKept, IsOnlyRead, OfTables, StandsChecked};
ghost use Rattle.app.specs.Checking.{AreReadThrough, IsCheckStopped, IsChecked, IsFoundWhole, IsWholeNow, StaysCommitted, TellsWhole, begins_as, told_whole};
ghost use Rattle.app.specs.Unchecked.{IsLeftCarrying, IsLeftUnchecked, IsOfCommitted, IsUnchecked, OfCommitted};
ghost use Rattle.app.specs.Faults.{IsReadFault};
ghost use Rattle.app.specs.Opening.{IsBookOf, IsOpenedAnew};

use crate::book_files::{close, fault};
use crate::over_file::open_watched;
use books::{Book, Tables};
use commands::{CommandError, ExitStatus, Verbosity};
use seals::{Beginning, Sealed};
use sqlite::{Alter, Connection};
use std::alloc::Global;
use std::io;
use store::Fault;

// Opens the book that tables hold which were read anew and are of no book of version 2: one of
// version 1 is carried over, and its tables are read anew once more.
fn carried<S: Alter + Drop, E: io::Write>(
    alloc: Global,
    tables: Tables<S>,
    verbosity: Verbosity,
    err: &mut E,
) -> Result<Book<S>, CommandError>
    ensures opened { IfOk result (λ b. b.shut ≡ false) }
    ensures through { IfOk result (λ b. HasCleanDisk (state S.Store b.tables.conn)
        → AreReadThrough (state S.Store b.tables.conn)) }
    ensures clean { IfOk result (λ b. doubt (state S.Store tables.conn).is_clean
        ≤ doubt (state S.Store b.tables.conn).is_clean) }
    ensures named { IfErr result IsReadFault }
    ensures stood { IfOk result (λ b. HasCleanDisk (state S.Store b.tables.conn)
        → OfRegister S.Store tables (IsBookOf S.Store b)) }
    ensures no_more { IfOk result (λ b. HasCleanDisk (state S.Store b.tables.conn)
        → (IsTrue (state S.Store tables.conn).is_open → IsOfFirst (state S.Store tables.conn).now
        → ⊥) → (db : Trees) → (state S.Store b.tables.conn).may_leave db
        → (state S.Store tables.conn).may_leave db) }
    ensures left { IfErr result (IsLeftCarrying S.Store tables) }
{
    let book = match open_watched(alloc, tables, verbosity, err) {
        Ok(book) => book,
        Err((fault, _)) => return Err(CommandError::Fault(fault)),
    };
    let again = match book.close().reopened(alloc) {
        Ok(again) => again,
        Err((failed, _)) => return Err(CommandError::Fault(fault(&failed))),
    };
    match Book::open_second(alloc, again) {
        Ok(book) => Ok(book),
        Err((fault, _)) => Err(CommandError::Fault(fault)),
    }
}

// Opens the book in a database that is in no transaction, to check it whole: its tables are read
// and tested against their schema anew first, so that all that `Book::verify` asks of them is
// known. Beyond the faults of an opening it is Device (44) where the file can't be read.
fn open_anew<S: Alter + Drop, E: io::Write>(
    alloc: Global,
    database: Connection<S>,
    verbosity: Verbosity,
    err: &mut E,
) -> Result<Book<S>, CommandError>
    requires { database.in_transaction ≡ false }

    ensures opened { IfOk result (λ b. b.shut ≡ false) }
    ensures anew { IfOk result (IsOpenedAnew S.Store database) }
    ensures clean { IfOk result (λ b. doubt (state S.Store database).is_clean
        ≤ doubt (state S.Store b.tables.conn).is_clean) }
    ensures named { IfErr result IsReadFault }
    ensures through { IfOk result (λ b. HasCleanDisk (state S.Store b.tables.conn)
        → AreReadThrough (state S.Store b.tables.conn)) }
    ensures stood { IfOk result (IsOfCommitted S.Store database) }
    ensures unchanged { IfOk result
        (λ b. StaysCommitted (state S.Store database) (state S.Store b.tables.conn)) }
    ensures left { IfErr result (IsLeftUnchecked S.Store database None) }
{
    let tables = match Tables::new(database).reopened(alloc) {
        Ok(tables) => tables,
        Err((error, _)) => return Err(CommandError::Fault(fault(&error))),
    };
    match Book::open_second(alloc, tables) {
        Ok(book) => Ok(book),
        Err((Fault::NotThisBook, tables)) => carried(alloc, tables, verbosity, err),
        Err((fault, _)) => Err(CommandError::Fault(fault)),
    }
}

// Checks a book whole, and says to somebody who watches how far it is until then.
fn watched<S: Alter + Drop, E: io::Write>(
    book: &mut Book<S>,
    verbosity: Verbosity,
    err: &mut E,
) -> Result<u64, Fault>
    ensures stands { StandsChecked S.Store book.old book.new result }
    ensures whole { CountsKept S.Store book.old book.new result }
    ensures query { IsQuery (standing_of S.Store book.old) (standing_of S.Store book.new) result }
    ensures unchanged { IsOnlyRead S.Store book.old book.new }
{
    if !verbosity.watches {
        return book.verify();
    }
    let found = book.verify_telling(|done, all| {
        verbosity.tell_progress(err, done, all, "entries");
    });
    if found.is_err() {
        verbosity.end_progress(err);
    }
    found
}

// Whether the register of a book begins as somebody noted it, if that is given.
fn begins_so<S: Alter + Drop>(book: &mut Book<S>, noted: &Option<Beginning>) -> Result<bool, Fault>
    ensures begins { OfAnyKept (standing_of S.Store book.old) (standing_of S.Store book.new)
        (λ L. IfOk result (λ begins. begins ≡ begins_as noted.now L)) }
    ensures reading { IsReading (standing_of S.Store book.old) (standing_of S.Store book.new)
        result }
    ensures unchanged { IsOnlyRead S.Store book.old book.new }
{
    let Some(noted) = noted else {
        return Ok(true);
    };
    match book.seal_of_first(noted.entries)? {
        Some(first) => Ok(first.seal == noted.seal),
        None => Ok(false),
    }
}

// Says how many entries a book has whose tables are what its register gives, which begins as it was
// noted, if that is given; NotThisBook (43) where it doesn't.
fn check<S: Alter + Drop, W: io::Write, E: io::Write>(
    book: &mut Book<S>,
    noted: &Option<Beginning>,
    verbosity: Verbosity,
    out: &mut W,
    err: &mut E,
) -> Result<ExitStatus, CommandError>
    ensures checked { IsChecked noted.now (standing_of S.Store book.old)
        (standing_of S.Store book.new) (W.contents out.old) (W.contents out.new) result }
    ensures stopped { IfErr result (IsCheckStopped noted.now (standing_of S.Store book.old)
        (standing_of S.Store book.new)) }
    ensures stands { OfTables S.Store book.old book.new
        (IfOk result (λ _. IsTrue (state S.Store book.old.tables.conn).is_open
        × TellsWhole (state S.Store book.old.tables.conn).now (W.contents out.old)
        (W.contents out.new))) }
    ensures unchanged { IsOnlyRead S.Store book.old book.new }
{
    let entries = watched(book, verbosity, err)?;
    if !begins_so(book, noted)? {
        return Err(CommandError::Fault(Fault::NotThisBook));
    }
    write!(out, "ok {entries}\n")?;
    Ok(ExitStatus::Done)
}

/// Reads the tables of the book in a database anew, says how many entries it has where every table
/// is what its register gives, and closes it. Nothing is written, but that a book of version 1 is
/// carried over. NotThisBook (43) where a table isn't, the tables are no book, or its first entries
/// aren't those that were noted, if some were; the other faults are those of an opening, which
/// `open_anew` tells, and of a query.
pub(crate) fn check_over<S: Alter + Drop, W: io::Write, E: io::Write>(
    alloc: Global,
    database: Connection<S>,
    noted: &Option<Beginning>,
    verbosity: Verbosity,
    out: &mut W,
    err: &mut E,
) -> Result<(ExitStatus, Connection<S>), CommandError>
    requires { database.in_transaction ≡ false }

    ensures whole { IfOk result (λ r. HasCleanDisk (state S.Store r.1)
        → IsFoundWhole (state S.Store database) (W.contents out.old) (W.contents out.new)) }
    ensures clean { IfOk result (λ r. doubt (state S.Store database).is_clean
        ≤ doubt (state S.Store r.1).is_clean) }
    ensures stopped { IfErr result (IsUnchecked S.Store database noted.now) }
    ensures now { IfOk result (λ r. HasCleanDisk (state S.Store r.1)
        → IsWholeNow (state S.Store r.1) (W.contents out.old) (W.contents out.new)) }
    ensures counted { IfOk result (λ r. HasCleanDisk (state S.Store r.1)
        → OfCommitted S.Store database (λ _ L. Appends (W.contents out.old) (W.contents out.new)
        (told_whole (length L)) × (begins_as noted.now L ≡ true))) }
    ensures unchanged { IfOk result
        (λ r. StaysCommitted (state S.Store database) (state S.Store r.1)) }
    ensures left { IfErr result (IsLeftUnchecked S.Store database noted.now) }
{
    let mut book = open_anew(alloc, database, verbosity, err)?;
    match check(&mut book, noted, verbosity, out, err) {
        Ok(status) => Ok((status, close(book))),
        Err(stop) => Err(stop),
    }
}
