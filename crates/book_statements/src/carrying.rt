ghost use Rattle.std.specs.Prelude.{◌≡◌, ◌<◌, ◌^◌};
ghost use Rattle.sqlite.specs.State.{IsLive};
ghost use Rattle.book_statements.specs.Carrying.{CarriesOver, GivesRules, SetsVersion};
ghost use Rattle.book_statements.specs.Writing.{WroteIn};

use crate::calls::Calls;
use crate::making::make_fourth;
use crate::recording::insert_rules;
use crate::running::run;
use definitions::Rules;
use sqlite::types::ValueRef;
use sqlite::{Alter, Transaction};
use store::Fault;

/// Gives each entry, of so many, the first rules. After each, `told` is handed how many have them
/// of how many.
pub(crate) fn give_first_rules<S: Alter, T: FnMut(u64, u64)>(
    tx: &mut Transaction<'_, S>,
    calls: &mut Calls,
    entries: u64,
    mut told: T,
) -> Result<(), Fault>
    requires few { entries < 2 ^ 63 }
    requires told { T.IsAlwaysCallable told }

    ensures same_reference { tx.new.conn.ghost_name ≡ tx.old.conn.ghost_name }
    ensures wrote { WroteIn S.Store (λ old new. GivesRules entries old.now new.now)
        tx.old.conn.now tx.new.conn.now calls.old calls.new result }
{
    for before in 0..entries {
        insert_rules(tx, calls, before + 1, Rules::One)?;
        told(before + 1, entries);
    }
    Ok(())
}

/// Sets the version of the book to 2.
pub(crate) fn set_version<S: Alter>(
    tx: &mut Transaction<'_, S>,
    calls: &mut Calls,
) -> Result<(), Fault>
    ensures same_reference { tx.new.conn.ghost_name ≡ tx.old.conn.ghost_name }
    ensures wrote { WroteIn S.Store (λ old new. SetsVersion old.now new.now)
        tx.old.conn.now tx.new.conn.now calls.old calls.new result }
{
    run(
        tx,
        calls,
        "UPDATE book SET version = ?1",
        &[ValueRef::Int(2)],
    )
}

/// Carries the tables of a book of version 1, with so many entries, over to version 2: makes the
/// two tables that are new in it, gives every entry the first rules, of which `told` is handed how
/// many have them of how many, and sets the version. A statement that is refused is 40 or 41.
pub fn carry_all<S: Alter, T: FnMut(u64, u64)>(
    tx: &mut Transaction<'_, S>,
    calls: &mut Calls,
    entries: u64,
    told: T,
) -> Result<(), Fault>
    requires few { entries < 2 ^ 63 }
    requires told { T.IsAlwaysCallable told }

    ensures same_reference { tx.new.conn.ghost_name ≡ tx.old.conn.ghost_name }
    ensures wrote { WroteIn S.Store (λ old new. IsLive old → CarriesOver entries old new)
        tx.old.conn.now tx.new.conn.now calls.old calls.new result }
{
    make_fourth(tx, calls)?;
    give_first_rules(tx, calls, entries, told)?;
    set_version(tx, calls)
}
