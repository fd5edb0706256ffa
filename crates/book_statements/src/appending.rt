ghost use Rattle.std.specs.Prelude.{◌≡◌, ◌<◌, ◌^◌, ◌++◌, List, IsTrue};
ghost use Rattle.definitions.specs.Header.{Who as Partner, who_text};
ghost use Rattle.definitions.specs.Register as register;
ghost use Rattle.definitions.specs.Reply.{out};
ghost use Rattle.rules.specs.Written.{written};
ghost use Rattle.rules.specs.Tabled.{table_changes};
ghost use Rattle.book_statements.specs.Appending.{Appends, sent_changes, entry_changes};
ghost use Rattle.book_statements.specs.Leading.{Leads};
ghost use Rattle.book_statements.specs.Writing.{WroteIn};

use crate::calls::Calls;
use crate::changing::apply_all;
use crate::recording::{insert_entry, insert_outgoing, insert_rules};
use crate::texts::new_state_text;
use rules::{Change, Entry};
use sqlite::{Alter, Transaction};
use store::Fault;

/// Adds the text that goes out for a numbered entry.
fn insert_sent<'a, S: Alter>(
    tx: &mut Transaction<'_, S>,
    calls: &mut Calls,
    who: &'a [u8],
    entry: &'a Entry,
    outgoing: &'a [u8],
) -> Result<(), Fault>
    ensures same_reference { tx.new.conn.ghost_name ≡ tx.old.conn.ghost_name }
    ensures wrote { WroteIn S.Store (λ old new. (W : Partner) (L : List register.Entry)
        (e : register.Entry) → who.now ≡ who_text e.who → entry.now ≡ written L e
        → outgoing.now ≡ out W (register.own L e.who) e
        → Leads (sent_changes W L e) old.now new.now)
        tx.old.conn.now tx.new.conn.now calls.old calls.new result }
{
    if !entry.is_numbered() {
        return Ok(());
    }
    let kind = entry.kind().text();
    let state_text = new_state_text(&entry.key);
    insert_outgoing(tx, calls, who, entry.number(), kind, outgoing, state_text)
}

/// Adds an entry under the next number, with its rules, the text that goes out for it and the
/// changes that its command makes. A statement that is refused is 40 or 41.
pub fn write_entry<'a, S: Alter>(
    tx: &mut Transaction<'_, S>,
    calls: &mut Calls,
    seq: u64,
    who: &'a [u8],
    entry: &'a Entry,
    changes: &'a [Change],
    outgoing: &'a [u8],
) -> Result<(), Fault>
    requires { seq < 2 ^ 63 }

    ensures same_reference { tx.new.conn.ghost_name ≡ tx.old.conn.ghost_name }
    ensures wrote { WroteIn S.Store (λ old new. IsTrue old.is_open
        × ((W : Partner) (L : List register.Entry) (e : register.Entry) → who.now ≡ who_text e.who
        → Appends W L e seq entry.now changes.now outgoing.now
        → Leads (entry_changes W L e ++ table_changes e.who changes.now) old.now new.now))
        tx.old.conn.now tx.new.conn.now calls.old calls.new result }
{
    let moment = entry.moment().stamp();
    insert_entry(tx, calls, seq, who, entry, &moment)?;
    insert_rules(tx, calls, seq, entry.rules())?;
    insert_sent(tx, calls, who, entry, outgoing)?;
    apply_all(tx, calls, who, changes)
}
