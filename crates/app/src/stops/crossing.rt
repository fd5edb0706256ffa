//! Commands on both sides of one stop.
ghost use Rattle.std.specs.Prelude.{◌≡◌, List, true, IfErr, IfOk, IsNone, length, take, ◌+◌};
ghost use Rattle.definitions.specs.Register as register;
ghost use Rattle.sqlite_trees.specs.View.{IsClean};
ghost use Rattle.store.specs.Runs.{all_asked, can_be_given};
ghost use Rattle.store.specs.Standing.{IsUsable, OfUsable};
ghost use Rattle.book_statements.specs.Faults.{IsOpeningFault};
ghost use Rattle.books.specs.Opened.{standing_of};
ghost use Rattle.app.specs.Stopped.{Crosses, StoresAgain, Waits};

use super::answering::{Answered, answer};
use super::reopening::reopened;
use books::Book;
use sqlite::Alter;
use sqlite_trees::store::Reopen;
use std::alloc::Global;
use store::{Command, Fault, Moment, Outcome, run};

/// Answers commands, stops the process, opens what is left, and answers more: these are answered on
/// the register of those that were answered before, or, only where the book had to be opened again
/// when it was stopped, on that one with the next command's entry. What was answered before the
/// stop is told in any case. Where the book was not opened again, there stand beside it 40, 41 or
/// 43 and the store, as `reopened` tells them: where all was in order before it is 40 or 41, and a
/// crash leaves of that store what the first commands left.
pub fn across<S: Alter + Reopen + Drop>(
    alloc: Global,
    mut book: Book<S>,
    first: &[(Command<'_>, Moment)],
    second: &[(Command<'_>, Moment)],
) -> (Answered, Result<(Outcome, Book<S>), (Fault, S)>)
    ensures all { IsNone result.0.outcome.fault
        → length result.0.outcome.replies.items ≡ length first.now }
    ensures later { IfOk result.1 (λ r. IsNone r.0.fault
        → length r.0.replies.items ≡ length second.now) }
    ensures named { IfErr result.1 (λ e. IsOpeningFault e.0) }
    ensures crossed { IfOk result.1 (λ r. OfUsable (standing_of S.Store book)
        (standing_of S.Store r.1)
        (λ L. can_be_given (take (length result.0.outcome.replies.items + 1) first.now) ≡ true
        → can_be_given (take (length r.0.replies.items + 1) second.now) ≡ true
        → Crosses (standing_of S.Store book) (standing_of S.Store r.1) L (all_asked first.now)
        (all_asked second.now) result.0 r.0)) }
    ensures stored { IfOk result.1 (λ r. OfUsable (standing_of S.Store book)
        (standing_of S.Store r.1)
        (λ L. can_be_given (take (length result.0.outcome.replies.items + 1) first.now) ≡ true
        → can_be_given (take (length r.0.replies.items + 1) second.now) ≡ true
        → StoresAgain (all_asked first.now) (all_asked second.now) result.0 r.0)) }
    ensures waits { IfErr result.1 (λ e. IsClean (S.Store.view e.1)
        → (L : List register.Entry) → IsUsable (standing_of S.Store book) L
        → can_be_given (take (length result.0.outcome.replies.items + 1) first.now) ≡ true
        → Waits book.warehouse L (all_asked first.now) result.0 e.0 (S.Store.recovers e.1)) }
{
    let before = answer(alloc, &mut book, first);
    match reopened(alloc, book) {
        Ok(mut book) => {
            let later = run(alloc, &mut book, second);
            (before, Ok((later, book)))
        }
        Err(error) => (before, Err(error)),
    }
}
