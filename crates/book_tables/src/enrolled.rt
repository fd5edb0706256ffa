//! Whether a depositor is enrolled, and who is: the enrolments are looked up one after the other,
//! by the texts of the names, and no other entry is read.
ghost use Rattle.std.specs.Prelude.{◌≡◌, ◌∷◌, [], ◌++◌, not, ◌==◌, true, Some, IfOk, IsTrue, OnOk, length, map};
ghost use Rattle.std.specs.List.Sorted.{IsPermutation, IsSortedByKey};
ghost use Rattle.std.specs.Ordering.{nat_cmp};
ghost use Rattle.definitions.specs.Header.{is_partner};
ghost use Rattle.definitions.specs.Register as register;
ghost use Rattle.sqlite.specs.declared.types.Value.TheVariants as value;
ghost use Rattle.sqlite.specs.Held.{state};
ghost use Rattle.sqlite.specs.State.{HasCleanDisk};
ghost use Rattle.store.specs.Open.{enrolled};
ghost use Rattle.book_statements.specs.Asking.{Asked, Finds, OfStanding};
ghost use Rattle.book_tables.specs.Enrolments.{EnrolmentFacts, IsFirstFrom, enrolment_shown, enrolment_text, enrolments, next_text};

use crate::connected::Tables;
use crate::reading::{number_at, text_at};
use rules::Who;
use sqlite::types::ValueRef;
use sqlite::{Alter, Row};
use std::alloc::{AllocError, Global};
use std::marker::Model;
use store::Fault;

// A depositor, and the number of the entry that enrolled it.
#[derive(Clone, Copy)]
struct Enrolment {
    seq: u64,
    who: Who,
}

impl Model for Enrolment {
    ghost Value = { EnrolmentFacts };

    ghost view = { λ e. record { seq = e.seq; who = e.who } };

    ghost inverse = { λ e. record { seq = e.seq; who = e.who } };
}

// The enrolment that a row of seq and who shows; None where it shows none.
fn enrolment_in(row: &Row) -> Option<Enrolment>
    ensures { (e : EnrolmentFacts) → is_partner e.who ≡ true → row.now ≡ enrolment_shown e
        → result ≡ Some e }
{
    let Some(seq) = number_at(row, 0) else {
        return None;
    };
    let Some(text) = text_at(row, 1) else {
        return None;
    };
    let Some(who) = Who::new(text) else {
        return None;
    };
    Some(Enrolment { seq, who })
}

// Adds an enrolment, and gives the text that comes next after its depositor's by bytes.
fn add_enrolment(
    alloc: Global,
    found: &mut Vec<Enrolment>,
    enrolment: Enrolment,
) -> Result<Vec<u8>, AllocError>
    ensures found { OnOk result (found.new.items ≡ found.old.items ++ enrolment ∷ []) }
    ensures text { IfOk result (λ text. text.items ≡ next_text enrolment.who) }
{
    found.push(enrolment)?;
    let mut text = enrolment.who.text().to_vec(alloc)?;
    text.push(0)?;
    Ok(text)
}

// Enrolments in the order of their entries.
fn by_entries(mut enrolments: Vec<Enrolment>) -> Vec<Enrolment>
    ensures same { IsPermutation enrolments.items result.items }
    ensures sorted { IsSortedByKey (λ e. e.seq) nat_cmp result.items }
{
    enrolments.sort_unstable_by_key(|enrolment| enrolment.seq);
    enrolments
}

// Who was enrolled.
fn whos(alloc: Global, enrolments: &[Enrolment]) -> Result<Vec<Who>, AllocError>
    ensures { IfOk result (λ whos. whos.items ≡ map (λ e. e.who) enrolments.now) }
{
    let mut whos = Vec::new(alloc);
    for enrolment in enrolments {
        whos.push(enrolment.who)?;
    }
    Ok(whos)
}

impl<S: Alter + Drop> Tables<S> {
    /// Whether a depositor has entries: a stranger has none.
    pub(crate) fn is_enrolled(&mut self, alloc: Global, who: Who) -> Result<bool, Fault>
        ensures enrolled { OfStanding S.Store self.old self.new
            (λ W L. IfOk result (λ enrolled. enrolled ≡ not (length (register.own L who) == 0))) }
        ensures asked { Asked S.Store self.old self.new result }
    {
        let rows = self.of_depositor("SELECT seq FROM entry WHERE who = ?1 LIMIT 1", who)?;
        Ok(!rows.is_empty())
    }

    // The row of the first enrolment from a text on. `entry` has an index by who and n, in which an
    // enrolment, whose n is 0, is the first entry of its depositor: so one row is read, and none of
    // the depositor's other entries.
    fn enrolment_rows(&mut self, text: &[u8]) -> Result<Vec<Row>, Fault>
        ensures finds { HasCleanDisk (state S.Store self.new.conn)
            → IfOk result (λ rows. IsTrue (state S.Store self.old.conn).is_open
            × Finds enrolment_text (value.Text text.now
            ∷ []) (state S.Store self.old.conn).now rows.items) }
        ensures asked { Asked S.Store self.old self.new result }
    {
        self.ask(
            "SELECT seq, who FROM entry WHERE who >= ?1 AND n = 0 ORDER BY who LIMIT 1",
            &[ValueRef::Text(text)],
        )
    }

    // The first enrolment of those whose depositors' texts don't come before this one; None where
    // there is none. 43 where its row shows none.
    fn enrolment_from(&mut self, text: &[u8]) -> Result<Option<Enrolment>, Fault>
        ensures first { OfStanding S.Store self.old self.new
            (λ W L. IfOk result (λ found. IsFirstFrom text.now (enrolments L) found)) }
        ensures open { HasCleanDisk (state S.Store self.new.conn)
            → OnOk result (IsTrue (state S.Store self.old.conn).is_open) }
        ensures asked { Asked S.Store self.old self.new result }
    {
        let rows = self.enrolment_rows(text)?;
        let Some(row) = rows.first() else {
            return Ok(None);
        };
        match enrolment_in(row) {
            Some(enrolment) => Ok(Some(enrolment)),
            None => Err(Fault::NotThisBook),
        }
    }

    // All enrolments. Each look-up asks for the text that comes next after the last one found, and
    // not for all after that one: the index would go through the entries of its depositor first.
    fn enrolments(&mut self, alloc: Global) -> Result<Vec<Enrolment>, Fault>
        ensures all { OfStanding S.Store self.old self.new
            (λ W L. IfOk result (λ found. IsPermutation (enrolments L) found.items)) }
        ensures asked { Asked S.Store self.old self.new result }
    {
        let mut found = Vec::new(alloc);
        let mut from = Vec::new(alloc);
        for _ in 0..u64::MAX {
            match self.enrolment_from(&from)? {
                Some(enrolment) => from = add_enrolment(alloc, &mut found, enrolment)?,
                None => return Ok(found),
            }
        }
        // So many have no place in memory.
        Err(Fault::OutOfMemory)
    }

    /// The depositors, in the order in which they were enrolled: those of the entries without a
    /// number. 43 where such an entry's row names no partner.
    pub fn depositors(&mut self, alloc: Global) -> Result<Vec<Who>, Fault>
        ensures whole { OfStanding S.Store self.old self.new
            (λ W L. IfOk result (λ whos. whos.items ≡ enrolled L)) }
        ensures asked { Asked S.Store self.old self.new result }
    {
        let enrolments = by_entries(self.enrolments(alloc)?);
        Ok(whos(alloc, &enrolments)?)
    }
}
