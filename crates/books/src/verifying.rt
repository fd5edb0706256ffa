//! Whether the tables of a book are what its register says.
ghost use Rattle.std.specs.Prelude.{◌<◌, ◌+◌, length, IfSome, IsSomeAnd, ◌≡◌, ◌++◌, ◌∷◌, [], List, true, IfErr, IfOk, Some};
ghost use Rattle.definitions.specs.declared.rules.Rules.TheVariants.{One, Two};
ghost use Rattle.definitions.specs.Rules as meant;
ghost use Rattle.definitions.specs.Accepted.{IsLegal};
ghost use Rattle.definitions.specs.Header.{Who as Partner};
ghost use Rattle.definitions.specs.Register as register;
ghost use Rattle.rules.specs.Written.{written};
ghost use Rattle.sqlite.specs.Held.{state};
ghost use Rattle.sqlite.specs.State.{HasCleanDisk};
ghost use Rattle.store.specs.Standing.{GoesOn, IsUsable, OfUsable};
ghost use Rattle.books.specs.Opened.{standing_of};
ghost use Rattle.book_statements.specs.Asking.{Went};
ghost use Rattle.book_statements.specs.Exits.{StandsWhileOpen};
ghost use Rattle.books.specs.Verified.{Follows, IsAlwaysClean, IsCopy, Stays, last_rules, of_copy as meant_of_copy};

use crate::book::{Book, GREATEST};
use book_tables::Tables;
use definitions::Rules;
use rules::{Entry, command_of};
use sqlite::Alter;
use std::alloc::Global;
use store::{Fault, Keeper, submit_under};

// Whether rules may be those of an entry after one under these: they never fall.
fn may_follow(last: Rules, rules: Rules) -> bool
    ensures { result ≡ meant.may_follow last rules }
{
    !matches!((last, rules), (Rules::Two, Rules::One))
}

/// The fault of a book in memory, as that of the check which makes it: where its store refuses a
/// call, what that lacks is memory.
pub(crate) fn of_copy(fault: Fault) -> Fault
    ensures { result ≡ meant_of_copy fault }
{
    match fault {
        Fault::Store => Fault::OutOfMemory,
        other => other,
    }
}

// Gives a copy the command of an entry again, under the entry's rules: these, or None where no
// command made the entry, or its rules fall below the last ones. The one fault of a copy that keeps
// a register is want of memory.
fn give<K: Keeper>(
    alloc: Global,
    copy: &mut K,
    entry: &Entry,
    last: Rules,
) -> Result<Option<Rules>, Fault>
    ensures copy { (K.standing copy.new).doubt ≡ 0 → (W : Partner)
        → IsCopy last W (K.standing copy.old)
        → IfOk result (λ given. IfSome given (λ rules. IsCopy rules W (K.standing copy.new))) }
    ensures next { OfUsable (K.standing copy.old) (K.standing copy.new)
        (λ L. (e : register.Entry) (later : List register.Entry)
        → entry.now ≡ written L e → IsLegal Two (K.standing copy.old).warehouse (L ++ e ∷ later)
        → last ≡ last_rules One L → IsLegal last (K.standing copy.old).warehouse L
        → IfOk result (λ given. (given ≡ Some e.rules)
        × IsLegal e.rules (K.standing copy.new).warehouse (L ++ e ∷ [])
        × IsUsable (K.standing copy.new) (L ++ e ∷ []))) }
    ensures goes { GoesOn (K.standing copy.old) (K.standing copy.new) }
    ensures named { (K.standing copy.new).doubt ≡ 0 → (W : Partner)
        → IsCopy last W (K.standing copy.old) → IfErr result (λ f. f ≡ Fault.OutOfMemory) }
{
    let Some(given) = command_of(alloc, entry)? else {
        return Ok(None);
    };
    let rules = given.rules();
    if !may_follow(last, rules) {
        return Ok(None);
    }
    match submit_under(alloc, copy, &given.command(), entry.moment(), rules) {
        Ok(_) => Ok(Some(rules)),
        Err(fault) => Err(of_copy(fault)),
    }
}

// Gives a copy the command of the entry after so many again: the entry's rules, or None where there
// is no entry that a command made under rules that may follow the last ones. 40 where the copy
// lacks memory, as it would for more entries than SQLite has numbers, and 41 where a call of these
// tables is refused.
fn give_entry<S: Alter + Drop, C: Alter + Drop>(
    alloc: Global,
    tables: &mut Tables<S>,
    copy: &mut Book<C>,
    before: u64,
    last: Rules,
) -> Result<Option<Rules>, Fault>
    requires clean { IsAlwaysClean C.Store }
    requires copy { IsCopy last copy.old.warehouse (standing_of C.Store copy.old) }

    ensures copy { (W : Partner) → IsCopy last W (standing_of C.Store copy.old)
        → IfOk result (λ given. IfSome given (λ rules. IsCopy rules W
        (standing_of C.Store copy.new))) }
    ensures next { HasCleanDisk (state S.Store tables.new.conn)
        → (W : Partner) (L : List register.Entry)
        → before < length L → Follows before last (state S.Store tables.old.conn) W
        (standing_of C.Store copy.old) L
        → IfOk result (λ given. IsSomeAnd given
        (λ rules. Follows (before
        + 1) rules (state S.Store tables.new.conn) W (standing_of C.Store copy.new) L)) }
    ensures went { Went S.Store tables.old tables.new result }
{
    if before >= GREATEST {
        return Err(Fault::OutOfMemory);
    }
    match tables.entry_at(alloc, before + 1)? {
        Some(entry) => give(alloc, copy, &entry, last),
        None => Ok(None),
    }
}

/// Gives an empty book of the warehouse the commands of so many entries again, in their order, each
/// under the rules of its entry; false where one is missing, no command made it, or the rules fall.
/// After each, `told` is handed how many were given of how many.
pub(crate) fn give_all<S: Alter + Drop, C: Alter + Drop, T: FnMut(u64, u64)>(
    alloc: Global,
    tables: &mut Tables<S>,
    copy: &mut Book<C>,
    entries: u64,
    mut told: T,
) -> Result<bool, Fault>
    requires clean { IsAlwaysClean C.Store }
    requires empty { IsUsable (standing_of C.Store copy.old) [] }
    requires told { T.IsAlwaysCallable told }

    ensures copy { IfOk result (λ all. all ≡ true
        → IsCopy Two copy.old.warehouse (standing_of C.Store copy.new)) }
    ensures whole { HasCleanDisk (state S.Store tables.new.conn) → (L : List register.Entry)
        → entries ≡ length L
        → StandsWhileOpen (state S.Store tables.old.conn) copy.old.warehouse L
        → IfOk result (λ all. (all ≡ true) × Stays entries (state S.Store tables.new.conn)
        copy.old.warehouse (standing_of C.Store copy.new) L) }
    ensures went { Went S.Store tables.old tables.new result }
{
    let mut last = Rules::One;
    for before in 0..entries {
        let Some(rules) = give_entry(alloc, tables, copy, before, last)? else {
            return Ok(false);
        };
        last = rules;
        told(before + 1, entries);
    }
    Ok(true)
}
