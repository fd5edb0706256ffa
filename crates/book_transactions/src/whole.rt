ghost use Rattle.std.specs.Prelude.{◌≡◌, ◌<◌, ◌^◌, ◌++◌, ◌∷◌, [], List, false, length};
ghost use Rattle.definitions.specs.declared.rules.Rules.TheVariants.{One, Two};
ghost use Rattle.definitions.specs.Accepted.{IsLegal};
ghost use Rattle.definitions.specs.Header.{Who as Partner};
ghost use Rattle.definitions.specs.Register as register;
ghost use Rattle.sqlite.specs.Held.{state};
ghost use Rattle.book_statements.specs.Carrying.{CarriesOver, StandsOpenAs};
ghost use Rattle.book_statements.specs.Exits.{IsAppended, HasGrown, StandsWithEntry};
ghost use Rattle.book_statements.specs.Limits.{Called};
ghost use Rattle.book_statements.specs.Layout.{no_layout};
ghost use Rattle.book_statements.specs.Making.{Makes};
ghost use Rattle.book_statements.specs.Standing.{StandsIn};
ghost use Rattle.book_transactions.specs.Whole.{IsWhole, counted_by};

use crate::commits::commit;
use book_statements::{Calls, carry_all, make_all, write_entry};
use rules::{Change, Entry, Warehouse};
use sqlite::{Alter, Connection};
use store::Fault;

/// Appends an entry under the next number, with what its command changes and what goes out for
/// it, in one transaction. The connection is in none before it and after it.
pub fn append<'a, S: Alter>(
    conn: &mut Connection<S>,
    calls: &mut Calls,
    seq: u64,
    who: &'a [u8],
    entry: &'a Entry,
    changes: &'a [Change],
    outgoing: &'a [u8],
) -> Result<(), Fault>
    requires few { seq < 2 ^ 63 }
    requires outside { conn.old.in_transaction ≡ false }

    ensures over { conn.new.in_transaction ≡ false }
    ensures whole { IsWhole ((W : Partner) (L : List register.Entry) (e : register.Entry)
        → IsAppended (state S.Store conn.old) W L e seq who.now entry.now changes.now outgoing.now
        → HasGrown (state S.Store conn.new) W (L ++ e ∷ []))
        (StandsWithEntry (state S.Store conn.old) seq who.now entry.now changes.now outgoing.now)
        (state S.Store conn.old) (state S.Store conn.new) result }
    ensures called { Called (counted_by conn.old calls.old) (counted_by conn.new calls.new) result }
{
    // For the prover alone: in no transaction, what is there is the last commit; and while the
    // store is open, it is a database.
    let settled = conn.is_autocommit();
    prove!(settled);
    let _live = conn.schema();
    let mut tx = conn.transaction();
    write_entry(&mut tx, calls, seq, who, entry, changes, outgoing)?;
    commit(tx, calls)
}

/// Makes the tables of an empty register of the warehouse, of a book of version 2, in one
/// transaction. The connection is in none before it and after it.
pub fn make<S: Alter>(
    conn: &mut Connection<S>,
    calls: &mut Calls,
    warehouse: &Warehouse,
) -> Result<(), Fault>
    requires { conn.old.in_transaction ≡ false }

    ensures over { conn.new.in_transaction ≡ false }
    ensures whole { IsWhole
        (Makes (state S.Store conn.old) (state S.Store conn.new) warehouse.now)
        (λ db. IsLegal Two warehouse.now [] → (state S.Store conn.old).now.schema ≡ no_layout
        → StandsIn warehouse.now [] db)
        (state S.Store conn.old) (state S.Store conn.new) result }
    ensures called { Called (counted_by conn.old calls.old) (counted_by conn.new calls.new) result }
{
    // For the prover alone, as in `append`.
    let settled = conn.is_autocommit();
    prove!(settled);
    let mut tx = conn.transaction();
    make_all(&mut tx, calls, warehouse)?;
    commit(tx, calls)
}

/// Carries a book of version 1, which has so many entries, over to version 2, in one transaction.
/// Of its entries `told` is handed how many were gone over of how many. The connection is in no
/// transaction before it and after it.
pub fn carry_over<S: Alter, T: FnMut(u64, u64)>(
    conn: &mut Connection<S>,
    calls: &mut Calls,
    entries: u64,
    told: T,
) -> Result<(), Fault>
    requires few { entries < 2 ^ 63 }
    requires told { T.IsAlwaysCallable told }
    requires outside { conn.old.in_transaction ≡ false }

    ensures over { conn.new.in_transaction ≡ false }
    ensures whole { IsWhole
        (CarriesOver entries (state S.Store conn.old) (state S.Store conn.new))
        (λ db. (W : Partner) (L : List register.Entry) → entries ≡ length L
        → StandsOpenAs One (state S.Store conn.old) W L → StandsIn W L db)
        (state S.Store conn.old) (state S.Store conn.new) result }
    ensures called { Called (counted_by conn.old calls.old) (counted_by conn.new calls.new) result }
{
    // For the prover alone, as before an entry is appended.
    let settled = conn.is_autocommit();
    prove!(settled);
    let _live = conn.schema();
    let mut tx = conn.transaction();
    carry_all(&mut tx, calls, entries, told)?;
    commit(tx, calls)
}
