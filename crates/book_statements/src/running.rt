ghost use Rattle.std.specs.Prelude.{◌≡◌, OnOk};
ghost use Rattle.sqlite.specs.Values.{bound};
ghost use Rattle.book_statements.specs.Limits.{Spent};
ghost use Rattle.book_statements.specs.Writing.{Ran, WroteIn};

use crate::calls::Calls;
use sqlite::types::ValueRef;
use sqlite::{Alter, Transaction};
use store::Fault;

/// Runs one text inside a transaction, by one call of the store.
pub(crate) fn run<S: Alter>(
    tx: &mut Transaction<'_, S>,
    calls: &mut Calls,
    sql: &str,
    params: &[ValueRef<'_>],
) -> Result<(), Fault>
    ensures same_reference { tx.new.conn.ghost_name ≡ tx.old.conn.ghost_name }
    ensures wrote { WroteIn S.Store (λ old new. Ran sql.now (bound params.now) old new)
        tx.old.conn.now tx.new.conn.now calls.old calls.new result }
    ensures once { OnOk result (Spent 1 calls.old.made calls.new.made calls.old.limit
        calls.new.limit) }
{
    calls.allow()?;
    match tx.execute(sql, params) {
        Ok(_) => Ok(()),
        Err(error) => Err(calls.failed(error)),
    }
}
