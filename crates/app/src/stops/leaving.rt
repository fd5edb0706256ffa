//! Laws of what a stop leaves.
ghost use Rattle.std.specs.Prelude.{◌≡◌, List};
ghost use Rattle.store.specs.Standing.{IsUsable};
ghost use Rattle.app.specs.Stopped.{IsReopened};
ghost use Rattle.definitions.specs.Register as register;
ghost use Rattle.books.specs.Opened.{standing_of};

use books::Book;
use sqlite::Alter;

/// A law, of which nothing runs: where whatever a crash may leave of a book stands for a register,
/// and the disk is clean, a crash leaves something.
pub fn something_is_left<S: Alter + Drop>(book: &Book<S>)
    ensures { (standing_of S.Store book.now).doubt ≡ 0 → (standing_of S.Store book.now).all_stand
        → ∥ ((L : List register.Entry) × (standing_of S.Store book.now).left L) ∥₁ }
{
    let _ = book;
}

/// A law, of which nothing runs: what is opened, after a stop, of a book that was usable for a
/// register, is usable for that register. So after any run that left its book open, `reopened`
/// leaves what was answered, and nothing beside it.
pub fn a_usable_book_is_reopened_whole<S: Alter + Drop>(book: &Book<S>, opened: &Book<S>)
    ensures { (L : List register.Entry) → IsUsable (standing_of S.Store book.now) L
        → IsReopened (standing_of S.Store book.now) (standing_of S.Store opened.now)
        → IsUsable (standing_of S.Store opened.now) L }
{
    let _ = book;
    let _ = opened;
}
