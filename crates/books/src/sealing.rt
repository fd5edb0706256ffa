//! The seal of a book's register, by which it can be told later whether its entries still stand.
ghost use Rattle.std.specs.Prelude.{◌≡◌, ◌+◌, IfOk, option_map};
ghost use Rattle.store.specs.Replayed.{all_written};
ghost use Rattle.store.specs.Standing.{IsQuery, OfAnyKept};
ghost use Rattle.book_statements.specs.Asking.{OfStanding, Went};
ghost use Rattle.book_statements.specs.Limits.{Counts};
ghost use Rattle.book_statements.specs.Recorded.{written_at};
ghost use Rattle.seals.specs.Noted as meant;
ghost use Rattle.seals.specs.Noted.{noted_after, noted_in, noted_of, noted_of_first};
ghost use Rattle.books.specs.Opened.{standing_of};
ghost use Rattle.books.specs.Verified.{IsOnlyRead};

use crate::book::{Book, GREATEST};
use book_tables::Tables;
use seals::{NotedSeal, Sealed};
use sqlite::Alter;
use std::alloc::Global;
use store::Fault;

// What is noted when the entry that follows on those before is added; None where there is no such
// entry. 40 where it would have a greater number than SQLite holds, and the faults of a query.
fn seal_next<S: Alter + Drop>(
    alloc: Global,
    tables: &mut Tables<S>,
    before: &NotedSeal,
) -> Result<Option<NotedSeal>, Fault>
    ensures next { OfStanding S.Store tables.old tables.new
        (λ W L. IfOk result (λ next. noted_in next
        ≡ option_map (noted_after (meant.noted before.now))
        (written_at (all_written L) (before.now.entries + 1)))) }
    ensures went { Went S.Store tables.old tables.new result }
{
    if before.entries >= GREATEST {
        return Err(Fault::OutOfMemory);
    }
    match tables.entry_at(alloc, before.entries + 1)? {
        Some(entry) => Ok(Some(before.after(&entry))),
        None => Ok(None),
    }
}

// What is noted of the first so many entries that tables hold; None where they hold fewer.
fn seal_first<S: Alter + Drop>(
    alloc: Global,
    tables: &mut Tables<S>,
    count: u64,
) -> Result<Option<NotedSeal>, Fault>
    ensures seal { OfStanding S.Store tables.old tables.new
        (λ W L. IfOk result (λ seal. noted_in seal ≡ noted_of_first count L)) }
    ensures went { Went S.Store tables.old tables.new result }
{
    let mut seal = NotedSeal::blank();
    for before in 0..count {
        let Some(next) = seal_next(alloc, tables, &seal)? else {
            return Ok(None);
        };
        seal = next;
    }
    Ok(Some(seal))
}

impl<S: Alter + Drop> Sealed for Book<S> {
    fn seal(&mut self) -> Result<NotedSeal, Fault>
        ensures seal { OfAnyKept (standing_of S.Store self.old) (standing_of S.Store self.new)
            (λ L. IfOk result (λ seal. meant.noted seal ≡ noted_of L)) }
        ensures query { IsQuery (standing_of S.Store self.old) (standing_of S.Store self.new)
            result }
    {
        let entries = self.entries;
        match self.seal_of_first(entries)? {
            Some(seal) => Ok(seal),
            None => Err(Fault::NotThisBook),
        }
    }

    fn seal_of_first(&mut self, count: u64) -> Result<Option<NotedSeal>, Fault>
        ensures seal { OfAnyKept (standing_of S.Store self.old) (standing_of S.Store self.new)
            (λ L. IfOk result (λ seal. noted_in seal ≡ noted_of_first count L)) }
        ensures query { IsQuery (standing_of S.Store self.old) (standing_of S.Store self.new)
            result }
        ensures unchanged { IsOnlyRead S.Store self.old self.new }
        ensures limit { Counts self.old.tables self.new.tables }
    {
        if self.shut {
            return Err(Fault::Reopen);
        }
        if count > self.entries {
            return Ok(None);
        }
        seal_first(self.alloc, &mut self.tables, count)
    }
}
