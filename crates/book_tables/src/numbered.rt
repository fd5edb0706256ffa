ghost use Rattle.std.specs.Prelude.{◌≡◌, ◌∷◌, [], ◌<◌, ◌^◌, pos, Some, IfOk, OnOk, IsTrue, option_map};
ghost use Rattle.definitions.specs.Register as register;
ghost use Rattle.rules.specs.Written.{Written};
ghost use Rattle.sqlite.specs.declared.types.Value.TheVariants as value;
ghost use Rattle.sqlite.specs.Held.{state};
ghost use Rattle.sqlite.specs.State.{HasCleanDisk};
ghost use Rattle.sqlite.specs.Values.{bound};
ghost use Rattle.store.specs.Replayed.{all_written};
ghost use Rattle.book_statements.specs.Asking.{Asked, Finds, OfStanding};
ghost use Rattle.book_statements.specs.Recorded.{IsOfPartner, numbered_shown, numbered_text, rules_text, written_at};

use crate::connected::Tables;
use crate::reading::{blob_at, moment_of, rules_in, small_at, text_at};
use definitions::Rules;
use rules::{Entry, Who};
use sqlite::types::ValueRef;
use sqlite::{Alter, Row};
use std::alloc::{AllocError, Global};
use store::Fault;

// The number of an entry.
fn seq_params(seq: u64) -> [ValueRef<'static>; 1]
    requires { seq < 2 ^ 63 }

    ensures { bound result ≡ value.Int (pos seq) ∷ [] }
{
    [ValueRef::Int(seq as i64)]
}

// The entry under these rules that a row of who, mark, n, moment and body shows; None where it
// shows none.
fn numbered_entry_in(alloc: Global, row: &Row, rules: Rules) -> Result<Option<Entry>, AllocError>
    ensures { (w : Written) → IsOfPartner w → row.now ≡ numbered_shown w
        → IfOk result (λ entry. entry ≡ Some (record w { rules = rules })) }
{
    let Some(text) = text_at(row, 0) else {
        return Ok(None);
    };
    let Some(who) = Who::new(text) else {
        return Ok(None);
    };
    let Some(mark) = text_at(row, 1) else {
        return Ok(None);
    };
    let Some(n) = small_at(row, 2) else {
        return Ok(None);
    };
    let Some(stamp) = text_at(row, 3) else {
        return Ok(None);
    };
    let Some(moment) = moment_of(stamp) else {
        return Ok(None);
    };
    let Some(body) = blob_at(row, 4) else {
        return Ok(None);
    };
    Ok(Some(Entry {
        who,
        key: Vec::from_slice(alloc, mark)?,
        n,
        moment,
        body: Vec::from_slice(alloc, body)?,
        rules,
    }))
}

impl<S: Alter + Drop> Tables<S> {
    // The rows of `entry` with a number: there is one at most.
    fn rows_at(&mut self, seq: u64) -> Result<Vec<Row>, Fault>
        requires { seq < 2 ^ 63 }

        ensures finds { HasCleanDisk (state S.Store self.new.conn)
            → IfOk result (λ rows. IsTrue (state S.Store self.old.conn).is_open
            × Finds numbered_text (value.Int (pos seq) ∷ []) (state S.Store self.old.conn).now
            rows.items) }
        ensures asked { Asked S.Store self.old self.new result }
    {
        self.ask(
            "SELECT who, mark, n, moment, body FROM entry WHERE seq = ?1",
            &seq_params(seq),
        )
    }

    // The rows of `entry_rules` with a number: there is one at most.
    fn rules_rows_at(&mut self, seq: u64) -> Result<Vec<Row>, Fault>
        requires { seq < 2 ^ 63 }

        ensures finds { HasCleanDisk (state S.Store self.new.conn)
            → IfOk result (λ rows. IsTrue (state S.Store self.old.conn).is_open
            × Finds rules_text (value.Int (pos seq) ∷ []) (state S.Store self.old.conn).now
            rows.items) }
        ensures asked { Asked S.Store self.old self.new result }
    {
        self.ask(
            "SELECT rules FROM entry_rules WHERE seq = ?1",
            &seq_params(seq),
        )
    }

    // The rules of the entry under a number; None where there is none. 43 where their row shows
    // none.
    fn rules_at(&mut self, seq: u64) -> Result<Option<Rules>, Fault>
        requires { seq < 2 ^ 63 }

        ensures rules { OfStanding S.Store self.old self.new
            (λ W L. IfOk result (λ rules. rules ≡ option_map (λ (w : Written). w.rules)
            (written_at (all_written L) seq))) }
        ensures asked { Asked S.Store self.old self.new result }
    {
        let rows = self.rules_rows_at(seq)?;
        let Some(row) = rows.first() else {
            return Ok(None);
        };
        match rules_in(row) {
            Some(rules) => Ok(Some(rules)),
            None => Err(Fault::NotThisBook),
        }
    }

    /// The entry under a number, of all depositors' from 1 on, as it is written down; None where
    /// there is none. 43 where its row or that of its rules shows none, 40 where there is no memory
    /// for it, and 41 where a call is refused.
    pub fn entry_at(&mut self, alloc: Global, seq: u64) -> Result<Option<Entry>, Fault>
        requires { seq < 2 ^ 63 }

        ensures entry { OfStanding S.Store self.old self.new
            (λ W L. IfOk result (λ entry. entry ≡ written_at (all_written L) seq)) }
        ensures was_open { HasCleanDisk (state S.Store self.new.conn)
            → OnOk result (IsTrue (state S.Store self.old.conn).is_open) }
        ensures asked { Asked S.Store self.old self.new result }
    {
        let rows = self.rows_at(seq)?;
        let Some(row) = rows.first() else {
            return Ok(None);
        };
        let Some(rules) = self.rules_at(seq)? else {
            return Err(Fault::NotThisBook);
        };
        match numbered_entry_in(alloc, row, rules)? {
            Some(entry) => Ok(Some(entry)),
            None => Err(Fault::NotThisBook),
        }
    }
}
