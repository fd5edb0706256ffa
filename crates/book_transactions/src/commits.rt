ghost use Rattle.std.specs.Prelude.{◌≡◌, false};
ghost use Rattle.sqlite.specs.Held.{state};
ghost use Rattle.book_statements.specs.Writing.{Ended};

use book_statements::Calls;
use sqlite::{Alter, Transaction};
use store::Fault;

/// Commits what stands in a transaction, by one call of the store. Where that is refused (40 or
/// 41), nothing of it is left.
pub(crate) fn commit<S: Alter>(tx: Transaction<'_, S>, calls: &mut Calls) -> Result<(), Fault>
    ensures over { tx.exit.0.now.in_transaction ≡ false }
    ensures ended { Ended (state S.Store tx.entry.conn.now) (state S.Store tx.exit.0.now)
        calls.old calls.new result }
{
    calls.allow()?;
    match tx.commit() {
        Ok(()) => Ok(()),
        Err(error) => Err(calls.failed(error)),
    }
}
