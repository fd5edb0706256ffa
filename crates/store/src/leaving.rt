ghost use Rattle.std.specs.Prelude.{◌≡◌, List};
ghost use Rattle.definitions.specs.Register as register;
ghost use Rattle.store.specs.Standing.{IsUsable};

use crate::keeping::Keeper;
use crate::replaying::ReplayBook;

/// A law, of which nothing runs: a book in memory is never in doubt, so every clause that asks for
/// a disk that is in none speaks of it.
pub fn memory_is_never_in_doubt(book: &ReplayBook)
    ensures { (⟦<ReplayBook as Keeper>⟧.standing book.now).doubt ≡ 0 }
{
    let _ = book;
}

/// A law, of which nothing runs: of a book in memory that serves, what a crash leaves is the
/// register that it keeps, and not nothing.
pub fn what_is_kept_is_left(book: &ReplayBook)
    ensures { (L : List register.Entry) → IsUsable (⟦<ReplayBook as Keeper>⟧.standing book.now) L
        → (⟦<ReplayBook as Keeper>⟧.standing book.now).left L }
{
    let _ = book;
}
