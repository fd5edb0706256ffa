ghost use Rattle.std.specs.Prelude.{◌≡◌, List, Some, IfOk, IfSome, map, option_map, filter, length, nat_lt};
ghost use Rattle.std.specs.List.{AllByRecursion};
ghost use Rattle.definitions.specs.Register as register;
ghost use Rattle.definitions.specs.Rows as meant;
ghost use Rattle.sqlite.specs.declared.types.Value.TheVariants as value;
ghost use Rattle.sqlite.specs.Held.{state};
ghost use Rattle.sqlite.specs.Order.{column};
ghost use Rattle.sqlite.specs.State.{HasCleanDisk};
ghost use Rattle.sqlite_rules.specs.Lists.{Has};
ghost use Rattle.book_statements.specs.Asking.{Asked, OfStanding};
ghost use Rattle.book_tables.specs.Outgoing.{AnswersOut};
ghost use Rattle.book_tables.specs.Showing.{out_shown, HasKindAndState, IsOut, IsSent};

use crate::connected::Tables;
use crate::reading::{blob_at, number_at, sent_as};
use rules::Who;
use sqlite::{Alter, Row};
use std::alloc::{AllocError, Global};
use store::{Fault, OutRow};

// The text that a row of n, kind, content and state shows; None where it shows none.
fn out_row_in(alloc: Global, row: &Row) -> Result<Option<OutRow>, AllocError>
    ensures shows { (r : meant.OutRow) → IsSent r → row.now ≡ out_shown r
        → IfOk result (λ shown. shown ≡ Some r) }
    ensures text { IfOk result (λ shown. IfSome shown
        (λ r. column row.now 2 ≡ value.Blob r.content)) }
    ensures known { IfOk result (λ shown. IfSome shown (λ r. HasKindAndState row.now 1 3)) }
{
    let Some(n) = number_at(row, 0) else {
        return Ok(None);
    };
    let Ok(n) = u32::try_from(n) else {
        return Ok(None);
    };
    let Some((kind, state)) = sent_as(row, 1, 3) else {
        return Ok(None);
    };
    let Some(content) = blob_at(row, 2) else {
        return Ok(None);
    };
    Ok(Some(OutRow {
        n,
        kind,
        content: Vec::from_slice(alloc, content)?,
        state,
    }))
}

/// The texts that rows of n, kind, content and state show, but for the empty ones; None where one
/// of them shows none.
pub(crate) fn out_rows_in(alloc: Global, rows: &[Row]) -> Result<Option<Vec<OutRow>>, AllocError>
    ensures shows { (rs : List meant.OutRow) → ((r : meant.OutRow) → Has rs r → IsSent r)
        → rows.now ≡ map out_shown rs → IfOk result
        (λ shown. option_map (λ v. v.items) shown ≡ Some
        (filter (λ (r : meant.OutRow). nat_lt 0 (length r.content)) rs)) }
    ensures all { IfOk result (λ shown. IfSome shown (λ _. AllByRecursion IsOut rows.now)) }
{
    let mut shown = Vec::new(alloc);
    for row in rows {
        let Some(sent) = out_row_in(alloc, row)? else {
            return Ok(None);
        };
        if !sent.content.is_empty() {
            shown.push(sent)?;
        }
    }
    Ok(Some(shown))
}

impl<S: Alter + Drop> Tables<S> {
    /// The texts that went out to a depositor, by number, as the rows of `outgoing` say, but for
    /// the empty ones; nothing of a stranger. 43 where a row shows no text.
    pub(crate) fn sent_rows(&mut self, alloc: Global, who: Who) -> Result<Vec<OutRow>, Fault>
        ensures rows { OfStanding S.Store self.old self.new
            (λ W L. IfOk result (λ rows. rows.items ≡ meant.outbox_rows W (register.own L who))) }
        ensures known { HasCleanDisk (state S.Store self.new.conn) → IfOk result
            (λ rows. AnswersOut who (state S.Store self.old.conn)) }
        ensures asked { Asked S.Store self.old self.new result }
    {
        let rows = self.of_depositor(
            "SELECT n, kind, content, state FROM outgoing WHERE who = ?1 ORDER BY n",
            who,
        )?;
        match out_rows_in(alloc, &rows)? {
            Some(shown) => Ok(shown),
            None => Err(Fault::NotThisBook),
        }
    }
}
