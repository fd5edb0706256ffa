ghost use Rattle.std.specs.Prelude.{◌≡◌, ◌≢◌, Some, IfOk, IfSome, IsTrue, OnOk, Option as Maybe, option_map};
ghost use Rattle.definitions.specs.Page.{PageDocument, page_of};
ghost use Rattle.definitions.specs.Register as register;
ghost use Rattle.definitions.specs.Rows.{OutRow, state_text};
ghost use Rattle.sqlite.specs.Held.{state};
ghost use Rattle.sqlite.specs.State.{HasCleanDisk};
ghost use Rattle.rules.specs.Pages.{document_at};
ghost use Rattle.book_statements.specs.Asking.{Asked, OfStanding};
ghost use Rattle.book_tables.specs.Looking.{function_as, IsRowOf};
ghost use Rattle.store.specs.Sent.{state_name, text_under};
ghost use Rattle.book_tables.specs.Outgoing.{AnswersContent, AnswersSent};
ghost use Rattle.book_tables.specs.Showing.{sent_shown, HasKindAndState};

use crate::connected::Tables;
use crate::reading::{sent_as, small_at};
use crate::recalled::content_in;
use rules::{Function, KnownDocument, OutKind, Who};
use sqlite::{Alter, Row};
use std::alloc::Global;
use store::{DocumentState, Fault};

// The kind of document that goes out as this; none as an answer.
fn function_as(kind: OutKind) -> Option<Function>
    ensures { result ≡ function_as kind }
{
    match kind {
        OutKind::Answer => None,
        OutKind::Receipt => Some(Function::Receipt),
        OutKind::Shipment => Some(Function::Shipment),
        OutKind::Adjustment => Some(Function::Adjustment),
    }
}

// What was said of a document, by its state; of an answer nothing is.
fn said_by(state: DocumentState) -> Option<bool>
    ensures { state ≢ DocumentState.Unasked → state_name state ≡ state_text result }
{
    match state {
        DocumentState::Unasked | DocumentState::Open => None,
        DocumentState::Accepted => Some(true),
        DocumentState::Refused => Some(false),
    }
}

// The document under a number that a row of kind and state shows, which is none where an answer
// went out; None where it shows none.
fn document_in(n: u32, row: &Row) -> Option<Option<KnownDocument>>
    ensures shows { (r : OutRow) (d : Maybe PageDocument) → IsRowOf n r d → row.now ≡ sent_shown r
        → result ≡ Some d }
    ensures known { IfSome result (λ document. HasKindAndState row.now 0 1) }
{
    let (kind, state) = sent_as(row, 0, 1)?;
    match function_as(kind) {
        Some(function) => Some(Some(KnownDocument {
            n,
            function,
            said: said_by(state),
        })),
        None => Some(None),
    }
}

impl<S: Alter + Drop> Tables<S> {
    /// The document that went out to a depositor under a number; None where there is none. 43 where
    /// its row shows none.
    pub(crate) fn document_under(
        &mut self,
        alloc: Global,
        who: Who,
        n: u32,
    ) -> Result<Option<KnownDocument>, Fault>
        ensures document { OfStanding S.Store self.old self.new
            (λ W L. IfOk result (λ document. document ≡ document_at n
            (page_of (register.own L who)).documents)) }
        ensures known { HasCleanDisk (state S.Store self.new.conn) → IfOk result
            (λ document. AnswersSent who n (state S.Store self.old.conn)) }
        ensures asked { Asked S.Store self.old self.new result }
    {
        let rows = self.under_number(
            "SELECT kind, state FROM outgoing WHERE who = ?1 AND n = ?2",
            who,
            n,
        )?;
        let Some(row) = rows.first() else {
            return Ok(None);
        };
        match document_in(n, row) {
            Some(document) => Ok(document),
            None => Err(Fault::NotThisBook),
        }
    }

    /// The text that went out to a depositor under a number, but for an empty one; None where there
    /// is none. 43 where its row shows none, or no kind and state.
    pub(crate) fn text_under(
        &mut self,
        alloc: Global,
        who: Who,
        n: u32,
    ) -> Result<Option<Vec<u8>>, Fault>
        ensures text { OfStanding S.Store self.old self.new
            (λ W L. IfOk result (λ text. option_map (λ v. v.items) text ≡ text_under W
            (register.own L who) n)) }
        ensures known { HasCleanDisk (state S.Store self.new.conn) → IfOk result
            (λ text. AnswersContent who n (state S.Store self.old.conn)) }
        ensures asked { Asked S.Store self.old self.new result }
    {
        let rows = self.under_number(
            "SELECT content, kind, state FROM outgoing WHERE who = ?1 AND n = ?2",
            who,
            n,
        )?;
        let Some(content) = content_in(alloc, &rows)? else {
            return Err(Fault::NotThisBook);
        };
        if content.is_empty() {
            Ok(None)
        } else {
            Ok(Some(content))
        }
    }

    /// How many numbered entries a depositor has. Each of them has its row in `outgoing`, also
    /// where nothing went out for it, and the key of that table ends in the number: so the last row
    /// under the depositor tells, and no other is read. 43 where it shows no number.
    pub(crate) fn last_number(&mut self, alloc: Global, who: Who) -> Result<u32, Fault>
        ensures number { OfStanding S.Store self.old self.new
            (λ W L. IfOk result (λ n. n ≡ (page_of (register.own L who)).entries)) }
        ensures open { HasCleanDisk (state S.Store self.new.conn)
            → OnOk result (IsTrue (state S.Store self.old.conn).is_open) }
        ensures asked { Asked S.Store self.old self.new result }
    {
        let rows = self.of_depositor(
            "SELECT n FROM outgoing WHERE who = ?1 ORDER BY n DESC LIMIT 1",
            who,
        )?;
        let Some(row) = rows.first() else {
            return Ok(0);
        };
        match small_at(row, 0) {
            Some(n) => Ok(n),
            None => Err(Fault::NotThisBook),
        }
    }
}
