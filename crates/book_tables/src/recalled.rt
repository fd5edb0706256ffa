ghost use Rattle.std.specs.Prelude.{◌≡◌, ◌++◌, ◌∷◌, ℕ, List, Some, IfOk, IfSome, option_map, if◌then◌else◌};
ghost use Rattle.definitions.specs.Decision.{recalled};
ghost use Rattle.definitions.specs.Register as register;
ghost use Rattle.definitions.specs.Reply.{out};
ghost use Rattle.rules.specs.Decided.{IsRecalled};
ghost use Rattle.sqlite.specs.Held.{state};
ghost use Rattle.sqlite.specs.State.{HasCleanDisk};
ghost use Rattle.store.specs.Known.{first_under};
ghost use Rattle.book_statements.specs.Asking.{Asked, OfStanding};
ghost use Rattle.book_tables.specs.Contents.{IsContent};
ghost use Rattle.book_tables.specs.Outgoing.{AnswersContent, IsReadFirst};

use crate::connected::Tables;
use crate::reading::{blob_at, number_at, sent_as};
use rules::{Entry, Known, Who};
use sqlite::{Alter, Row};
use std::alloc::{AllocError, Global};
use store::Fault;

/// The content that rows of content, kind and state show, which is that of the first, and empty
/// where there is none; None where it shows none, or can't be read.
pub(crate) fn content_in(alloc: Global, rows: &[Row]) -> Result<Option<Vec<u8>>, AllocError>
    ensures shows { (content : List ℕ) → IsContent rows.now content
        → IfOk result (λ shown. option_map (λ v. v.items) shown ≡ Some content) }
    ensures known { IfOk result (λ shown. IfSome shown (λ v. IsReadFirst 1 2 rows.now)) }
{
    let Some(row) = rows.first() else {
        return Ok(Some(Vec::new(alloc)));
    };
    let Some(_sent) = sent_as(row, 1, 2) else {
        return Ok(None);
    };
    match blob_at(row, 0) {
        Some(blob) => Ok(Some(Vec::from_slice(alloc, blob)?)),
        None => Ok(None),
    }
}

impl<S: Alter + Drop> Tables<S> {
    /// A depositor's entry under a mark, as it is written down. 43 where its row shows no number,
    /// or the entry under it isn't one.
    fn entry_under(&mut self, alloc: Global, who: Who, mark: &[u8]) -> Result<Option<Entry>, Fault>
        ensures entry { OfStanding S.Store self.old self.new
            (λ W L. IfOk result (λ entry. entry ≡ first_under who mark.now L)) }
        ensures asked { Asked S.Store self.old self.new result }
    {
        let rows = self.under_text(
            "SELECT seq FROM entry WHERE who = ?1 AND mark = ?2 ORDER BY seq",
            who,
            mark,
        )?;
        let Some(row) = rows.first() else {
            return Ok(None);
        };
        match number_at(row, 0) {
            Some(seq) => self.entry_at(alloc, seq),
            None => Err(Fault::NotThisBook),
        }
    }

    /// The text that went out for a depositor's entry under a number. 43 where its row shows none,
    /// or no kind and state.
    fn content_under(&mut self, alloc: Global, who: Who, n: u32) -> Result<Vec<u8>, Fault>
        ensures content { OfStanding S.Store self.old self.new
            (λ W L. (before : List register.Entry) (e : register.Entry)
            (back : List register.Entry) → register.own L who ≡ before ++ e ∷ back
            → n ≡ (if register.is_numbered e then register.next_number before else 0)
            → IfOk result (λ content. content.items ≡ out W before e)) }
        ensures known { HasCleanDisk (state S.Store self.new.conn) → IfOk result
            (λ content. AnswersContent who n (state S.Store self.old.conn)) }
        ensures asked { Asked S.Store self.old self.new result }
    {
        let rows = self.under_number(
            "SELECT content, kind, state FROM outgoing WHERE who = ?1 AND n = ?2",
            who,
            n,
        )?;
        match content_in(alloc, &rows)? {
            Some(content) => Ok(content),
            None => Err(Fault::NotThisBook),
        }
    }

    /// A depositor's entry under a mark, with its number and the text that went out for it; None
    /// where there is none. Four queries: its number, the entry, its rules and the text.
    pub fn known_of(&mut self, alloc: Global, who: Who, mark: &[u8]) -> Result<Option<Known>, Fault>
        ensures known { OfStanding S.Store self.old self.new
            (λ W L. IfOk result (λ known. IsRecalled known
            (recalled W mark.now (register.own L who)))) }
        ensures recorded { OfStanding S.Store self.old self.new
            (λ W L. IfOk result (λ known. option_map (λ k. k.entry) known ≡ first_under who mark.now
            L)) }
        ensures asked { Asked S.Store self.old self.new result }
    {
        let Some(entry) = self.entry_under(alloc, who, mark)? else {
            return Ok(None);
        };
        match self.content_under(alloc, who, entry.number()) {
            Ok(outgoing) => Ok(Some(Known { entry, outgoing })),
            Err(fault) => Err(fault),
        }
    }
}
