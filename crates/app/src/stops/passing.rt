//! Days of a book, one after another.
ghost use Rattle.std.specs.Prelude.{◌≡◌, ◌≤◌, List, drop, length, map, take, true, IfErr, IsTrue};
ghost use Rattle.std.specs.List.{list_all};
ghost use Rattle.definitions.specs.Header.{Who as Partner};
ghost use Rattle.definitions.specs.Register.{Entry};
ghost use Rattle.sqlite_trees.specs.Tree.{Trees};
ghost use Rattle.sqlite_trees.specs.View.{IsClean, doubt};
ghost use Rattle.store.specs.Runs.{all_asked, can_be_given};
ghost use Rattle.book_statements.specs.Carrying.{LeavesCarried};
ghost use Rattle.book_statements.specs.Faults.{IsOpeningFault};
ghost use Rattle.app.specs.Days.{AllCarried, AreLed, AreOpenings, PassesTo, day_by_day, reached, reached_on};

use super::answering::{Answered, answer};
use super::reopening::{opened_after, stopped};
use sqlite::Alter;
use sqlite_trees::store::Reopen;
use std::alloc::Global;
use store::{Command, Fault, Moment};

// One day: opens what a stop left, answers commands, and stops. It also says whether the store can
// be opened again.
fn day<S: Alter + Reopen + Drop>(
    alloc: Global,
    store: S,
    commands: &[(Command<'_>, Moment)],
) -> (Result<Answered, Fault>, S, bool)
    requires { IsClean (S.Store.view store) → IsTrue (S.Store.view store).is_numbered }

    ensures passes { IsClean (S.Store.view result.1)
        → can_be_given (reached_on commands.now result.0) ≡ true
        → (W : Partner) (all : AllCarried (S.Store.recovers store) W) → (db : Trees)
        → S.Store.recovers result.1 db
        → PassesTo (S.Store.recovers store) W all (all_asked commands.now) result.0 db }
    ensures doubt { doubt (S.Store.view store).is_clean ≤ doubt (S.Store.view result.1).is_clean }
    ensures again { result.2 ≡ true → IsClean (S.Store.view result.1)
        → IsTrue (S.Store.view result.1).is_numbered }
    ensures named { IfErr result.0 IsOpeningFault }
{
    match opened_after(alloc, store) {
        Ok(mut book) => {
            let before = answer(alloc, &mut book, commands);
            (Ok(before), stopped(book), true)
        }
        Err((fault, store, again)) => (Err(fault), store, again),
    }
}

// The first of the commands, so many of them or all.
fn first_of<'a, 'b>(asked: &'a [(Command<'b>, Moment)], count: usize) -> &'a [(Command<'b>, Moment)]
    ensures { result.now ≡ take count asked.now }
{
    &asked[..count.min(asked.len())]
}

// The commands after these.
fn after_of<'a, 'b>(asked: &'a [(Command<'b>, Moment)], count: usize) -> &'a [(Command<'b>, Moment)]
    ensures { result.now ≡ drop count asked.now }
{
    &asked[count.min(asked.len())..]
}

/// Any number of days after one another, over a store that holds a book of version 1 or of version
/// 2. Each has as many of the commands as its count says, after those of the day before it. It
/// opens what the stop before it left, which carries a book of version 1 over, answers its
/// commands, and stops at its end, or at a fault. Told is what each came to: its replies, and
/// whether the book had to be opened again as it was stopped; or the fault at which the book wasn't
/// opened (40, 41 or 43, and never 43 where the days began with a book). What is left at last
/// stands for one register, to which the days led: no day lost an entry that was there before it or
/// that was answered on it, and an interchange or an act that was accepted is answered by the same
/// text when it is given again. Of the commands it is only asked that those can be given to which
/// the days came. Also whether all days came: they end early where no memory is left to write one
/// more down, and after one on which the store itself wasn't opened (40, 41).
pub fn days<S: Alter + Reopen + Drop>(
    alloc: Global,
    mut store: S,
    asked: &[(Command<'_>, Moment)],
    counts: &[usize],
) -> (Vec<Result<Answered, Fault>>, bool, S)
    requires { IsClean (S.Store.view store) → IsTrue (S.Store.view store).is_numbered }

    ensures led { IsClean (S.Store.view result.2)
        → list_all can_be_given (reached (day_by_day counts.now asked.now) result.0.items) ≡ true
        → (W : Partner) (L : List Entry)
        → ((db : Trees) → S.Store.recovers store db → LeavesCarried W L db)
        → (db : Trees) → S.Store.recovers result.2 db
        → AreLed W L (map all_asked (day_by_day counts.now asked.now)) result.0.items db }
    ensures all { result.1 ≡ true → length result.0.items ≡ length counts.now }
    ensures named { AreOpenings result.0.items }
    ensures most { length result.0.items ≤ length counts.now }
{
    let mut told = Vec::new(alloc);
    let mut rest = asked;
    for count in counts {
        if told.reserve(1).is_err() {
            return (told, false, store);
        }
        let (today, left, again) = day(alloc, store, first_of(rest, *count));
        store = left;
        rest = after_of(rest, *count);
        told.push(today).unwrap();
        if !again {
            return (told, false, store);
        }
    }
    (told, true, store)
}
