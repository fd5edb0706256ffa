//! The rows of an entry itself, beside those that its command changes: its own, that of its rules,
//! and its text with the state of it, which a later acknowledgment sets.
ghost use Rattle.std.specs.Prelude.{◌≡◌, ◌<◌, ◌^◌, [], ◌∷◌, codes, IsTrue, Some, pos};
ghost use Rattle.definitions.specs.Changes.{Puts, SetsState};
ghost use Rattle.definitions.specs.Rules.{rules_number};
ghost use Rattle.definitions.specs.Rows.{state_text};
ghost use Rattle.sqlite.specs.declared.types.Value.TheVariants as value;
ghost use Rattle.sqlite.specs.Values.{bound};
ghost use Rattle.sqlite.specs.Held.{state};
ghost use Rattle.book_statements.specs.Held.{values};
ghost use Rattle.book_statements.specs.Leading.{Leads};
ghost use Rattle.book_statements.specs.Lines.{written_row, rules_row, sent_row};
ghost use Rattle.book_statements.specs.Writing.{WroteIn};

use crate::calls::Calls;
use crate::running::run;
use definitions::Rules;
use rules::Entry;
use sqlite::types::ValueRef;
use sqlite::{Alter, Transaction};
use store::{DocumentState, Fault};

// The columns of a row of `entry`.
fn entry_params<'a>(
    seq: u64,
    who: &'a [u8],
    entry: &'a Entry,
    moment: &'a [u8],
) -> [ValueRef<'a>; 6]
    requires { seq < 2 ^ 63 }

    ensures { bound result ≡ values (written_row seq who.now entry.now moment.now) }
{
    [
        ValueRef::Int(seq as i64),
        ValueRef::Text(who),
        ValueRef::Text(&entry.key),
        ValueRef::Int(i64::from(entry.number())),
        ValueRef::Text(moment),
        ValueRef::Blob(entry.body()),
    ]
}

/// Adds a row to `entry`, under a number that SQLite can hold.
pub(crate) fn insert_entry<'a, S: Alter>(
    tx: &mut Transaction<'_, S>,
    calls: &mut Calls,
    seq: u64,
    who: &'a [u8],
    entry: &'a Entry,
    moment: &'a [u8],
) -> Result<(), Fault>
    requires { seq < 2 ^ 63 }

    ensures same_reference { tx.new.conn.ghost_name ≡ tx.old.conn.ghost_name }
    ensures wrote { WroteIn S.Store (λ old new. IsTrue old.is_open
        × Leads (Puts (codes "entry") (written_row seq who.now entry.now moment.now) ∷ []) old.now
        new.now)
        tx.old.conn.now tx.new.conn.now calls.old calls.new result }
{
    run(
        tx,
        calls,
        "INSERT INTO entry (seq, who, mark, n, moment, body) VALUES (?1, ?2, ?3, ?4, ?5, ?6)",
        &entry_params(seq, who, entry, moment),
    )
}

// The number of rules.
fn number_of(rules: Rules) -> i64
    ensures { result ≡ pos (rules_number rules) }
{
    match rules {
        Rules::One => 1,
        Rules::Two => 2,
    }
}

// The columns of a row of `entry_rules`.
fn rules_params(seq: u64, rules: Rules) -> [ValueRef<'static>; 2]
    requires { seq < 2 ^ 63 }

    ensures { bound result ≡ values (rules_row seq rules) }
{
    [ValueRef::Int(seq as i64), ValueRef::Int(number_of(rules))]
}

/// Adds a row to `entry_rules`: the rules of the entry under a number that SQLite can hold.
pub(crate) fn insert_rules<S: Alter>(
    tx: &mut Transaction<'_, S>,
    calls: &mut Calls,
    seq: u64,
    rules: Rules,
) -> Result<(), Fault>
    requires { seq < 2 ^ 63 }

    ensures same_reference { tx.new.conn.ghost_name ≡ tx.old.conn.ghost_name }
    ensures wrote { WroteIn S.Store (λ old new. Leads
        (Puts (codes "entry_rules") (rules_row seq rules) ∷ []) old.now new.now)
        tx.old.conn.now tx.new.conn.now calls.old calls.new result }
{
    run(
        tx,
        calls,
        "INSERT INTO entry_rules (seq, rules) VALUES (?1, ?2)",
        &rules_params(seq, rules),
    )
}

// The columns of a row of `outgoing`.
fn outgoing_params<'a>(
    who: &'a [u8],
    n: u32,
    kind: &'a [u8],
    content: &'a [u8],
    state_text: &'a [u8],
) -> [ValueRef<'a>; 5]
    ensures { bound result ≡ values (sent_row who.now n kind.now content.now state_text.now) }
{
    [
        ValueRef::Text(who),
        ValueRef::Int(i64::from(n)),
        ValueRef::Text(kind),
        ValueRef::Blob(content),
        ValueRef::Text(state_text),
    ]
}

/// Adds a row to `outgoing`: the text that goes out for a numbered entry.
pub(crate) fn insert_outgoing<'a, S: Alter>(
    tx: &mut Transaction<'_, S>,
    calls: &mut Calls,
    who: &'a [u8],
    n: u32,
    kind: &'a [u8],
    content: &'a [u8],
    state_text: &'a [u8],
) -> Result<(), Fault>
    ensures same_reference { tx.new.conn.ghost_name ≡ tx.old.conn.ghost_name }
    ensures wrote { WroteIn S.Store (λ old new. Leads
        (Puts (codes "outgoing") (sent_row who.now n kind.now content.now state_text.now) ∷ [])
        old.now new.now)
        tx.old.conn.now tx.new.conn.now calls.old calls.new result }
{
    run(
        tx,
        calls,
        "INSERT INTO outgoing (who, n, kind, content, state) VALUES (?1, ?2, ?3, ?4, ?5)",
        &outgoing_params(who, n, kind, content, state_text),
    )
}

// The state of a document of which this was said.
fn said_text(accepts: bool) -> &'static [u8]
    ensures { result.now ≡ state_text (Some accepts) }
{
    DocumentState::of_said(Some(accepts)).text()
}

// Whose document it is, its number and its state.
fn state_params<'a>(who: &'a [u8], n: u32, said: &'a [u8]) -> [ValueRef<'a>; 3]
    ensures { bound result ≡ value.Text who.now ∷ value.Int (pos n) ∷ value.Text said.now ∷ [] }
{
    [
        ValueRef::Text(who),
        ValueRef::Int(i64::from(n)),
        ValueRef::Text(said),
    ]
}

/// Sets the state of a document, by what was said of it.
pub(crate) fn set_state<'a, S: Alter>(
    tx: &mut Transaction<'_, S>,
    calls: &mut Calls,
    who: &'a [u8],
    n: u32,
    accepts: bool,
) -> Result<(), Fault>
    ensures same_reference { tx.new.conn.ghost_name ≡ tx.old.conn.ghost_name }
    ensures wrote { WroteIn S.Store (λ old new. Leads (SetsState who.now n (Some accepts) ∷ [])
        old.now new.now)
        tx.old.conn.now tx.new.conn.now calls.old calls.new result }
{
    run(
        tx,
        calls,
        "UPDATE outgoing SET state = ?3 WHERE who = ?1 AND n = ?2",
        &state_params(who, n, said_text(accepts)),
    )
}
