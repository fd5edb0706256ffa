//! What went out, given again from the register.
ghost use Rattle.std.specs.Prelude.{◌≡◌, ◌==◌, ◌++◌, List, None, IfOk, find, option_map, Option, ◌<◌, ◌+◌, length, take, option_to_list};
ghost use Rattle.definitions.specs.Rules.{Today};
ghost use Rattle.definitions.specs.Accepted.{IsLegal};
ghost use Rattle.definitions.specs.Decision.{standing as history_of};
ghost use Rattle.definitions.specs.Register as register;
ghost use Rattle.definitions.specs.Reply.{out};
ghost use Rattle.definitions.specs.Rows.{outbox_rows, outbox_of};
ghost use Rattle.definitions.specs.History.{history, events};
ghost use Rattle.rules.specs.Decided.{IsPageOf};
ghost use Rattle.store.specs.Held.{IsHeldFor};
ghost use Rattle.store.specs.Replayed.{all_written};
ghost use Rattle.store.specs.Sent.{sent_on};

use crate::replaying::outgoing_later;
use crate::rows::OutRow;
use rules::{Entry, Page, Warehouse, Who};
use std::alloc::{AllocError, Global};

// What the entry at a place sent out, if it is a depositor's that counts, by the page of all of
// that depositor's entries; None also where it sent nothing.
fn sent_at(
    alloc: Global,
    warehouse: &Warehouse,
    entries: &[Entry],
    i: usize,
    page: &Page,
    who: &Who,
) -> Result<Option<OutRow>, AllocError>
    requires { i < length entries.now }

    ensures { IfOk result (λ row. (L : List register.Entry) → entries.now ≡ all_written L
        → IsLegal Today warehouse.now L → IsPageOf page.now (history (register.own L who.now))
        → sent_on warehouse.now (events (register.own L who.now))
        (register.own (take (i + 1) L) who.now)
        ≡ sent_on warehouse.now (events (register.own L who.now)) (register.own (take i L) who.now)
        ++ option_to_list row) }
{
    let entry = &entries[i];
    if !entry.is_of(who) {
        return Ok(None);
    }
    if !entry.is_numbered() {
        return Ok(None);
    }
    let content = outgoing_later(alloc, warehouse, &entries[..i], entry)?;
    if content.is_empty() {
        return Ok(None);
    }
    Ok(Some(OutRow::of(page, entry, content)))
}

// The texts that went out to a depositor with this page, by number: those of its numbered entries
// that aren't empty.
fn sent(
    alloc: Global,
    warehouse: &Warehouse,
    entries: &[Entry],
    page: &Page,
    who: &Who,
) -> Result<Vec<OutRow>, AllocError>
    ensures { IfOk result (λ rows. (L : List register.Entry) → entries.now ≡ all_written L
        → IsLegal Today warehouse.now L → IsPageOf page.now (history (register.own L who.now))
        → rows.items ≡ outbox_rows warehouse.now (register.own L who.now)) }
{
    let mut rows = Vec::new(alloc);
    for i in 0..entries.len() {
        if let Some(row) = sent_at(alloc, warehouse, entries, i, page, who)? {
            rows.push(row)?;
        }
    }
    Ok(rows)
}

/// The texts that went out to a depositor with this page; a stranger has none.
pub(crate) fn sent_to(
    alloc: Global,
    warehouse: &Warehouse,
    entries: &[Entry],
    page: Option<Page>,
    who: &Who,
) -> Result<Option<Vec<OutRow>>, AllocError>
    ensures { IfOk result (λ rows. (L : List register.Entry) → entries.now ≡ all_written L
        → IsLegal Today warehouse.now L → IsHeldFor page (history_of (register.own L who.now))
        → option_map (λ v. v.items) rows ≡ outbox_of warehouse.now L who.now) }
{
    match page {
        Some(page) => Ok(Some(sent(alloc, warehouse, entries, &page, who)?)),
        None => Ok(None),
    }
}

/// The content of the row under a number.
pub(crate) fn content_of(rows: Vec<OutRow>, n: u32) -> Option<Vec<u8>>
    ensures { option_map (λ v. v.items) result ≡ option_map
        (λ r. r.content) (find (λ r. r.n == n) rows.items) }
{
    for row in rows {
        if row.n == n {
            return Some(row.content);
        }
    }
    None
}
