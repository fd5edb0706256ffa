ghost use Rattle.std.specs.Prelude.{◌≡◌, [], ◌∷◌, ◌++◌, List, None, IfOk, OnOk, OnErr, MatchOption, find, option_map, Option, ℕ, ◌<◌, ◌+◌, length, take, slice_index_or as get_or};
ghost use Rattle.definitions.specs.Rules.{Today};
ghost use Rattle.definitions.specs.Accepted.{IsLegal};
ghost use Rattle.definitions.specs.Decision.{standing as history_of, recalled};
ghost use Rattle.definitions.specs.Register as register;
ghost use Rattle.definitions.specs.Reply.{out};
ghost use Rattle.definitions.specs.Rows.{stock_rows, stock_of};
ghost use Rattle.definitions.specs.History.{History, history};
ghost use Rattle.definitions.specs.Header.{Who as Partner};
ghost use Rattle.definitions.specs.Need as meant;
ghost use Rattle.rules.specs.Decided.{IsAtRest, IsRecalled, IsPageOf};
ghost use Rattle.rules.specs.Written.{written};
ghost use Rattle.rules.specs.Pages.{IsAt};
ghost use Rattle.store.specs.Extent as meant_extent;
ghost use Rattle.store.specs.Extent.{last_moment};
ghost use Rattle.store.specs.Held.{IsHeld, IsHeldFor};
ghost use Rattle.store.specs.Open.{open_of, open_on, enrolled};
ghost use Rattle.store.specs.Replayed.{all_written, is_under};
ghost use Rattle.store.specs.Standing.{IsUsable};

use crate::keeping::{Extent, Keeper};
use crate::rows::{OutRow, StockRow};
use crate::sending::{content_of, sent_to};
use definitions::Fault;
use rules::{Change, Entry, Key, Known, Moment, Need, Page, Warehouse, Who, replay};
use std::alloc::{AllocError, Global};
use std::marker::Model;

/// A book in memory, which keeps only the register and replays it. Nothing of it outlives the
/// process. Whatever is needed, it hands out the whole page, which has that.
#[derive(Drop)]
pub struct ReplayBook {
    alloc: Global,
    warehouse: Warehouse,
    entries: Vec<Entry>,
}

impl Model for ReplayBook {
    ghost use Rattle.store.specs.Replayed.{Replay};

    ghost Value = { Replay };

    ghost view = { λ b. record { warehouse = b.warehouse; entries = b.entries.items } };
}

impl ReplayBook {
    /// An empty book of the warehouse.
    pub fn new(alloc: Global, warehouse: Warehouse) -> ReplayBook
        ensures warehouse { result.warehouse ≡ warehouse }
        ensures usable { IsUsable (⟦<ReplayBook as Keeper>⟧.standing result) [] }
    {
        ReplayBook {
            alloc,
            warehouse,
            entries: Vec::new(alloc),
        }
    }
}

// The page of a depositor with one entry of the register more; another depositor's adds nothing.
#[tactic(auto, using(crate::proofs::Entries::held_other))]
fn with_entry(
    alloc: Global,
    warehouse: &Warehouse,
    page: Option<Page>,
    entry: &Entry,
    who: &Who,
) -> Result<Option<Page>, AllocError>
    requires { IsAtRest page }

    ensures page { (L later : List register.Entry) (i : ℕ)
        → IsLegal Today warehouse.now (L ++ later)
        → i < length (all_written L) → entry.now ≡ get_or (all_written L) i entry.now
        → IsHeldFor page (history_of (register.own (take i L) who.now))
        → IfOk result (λ next. IsHeldFor next (history_of
        (register.own (take (i + 1) L) who.now))) }
    ensures rest { IfOk result IsAtRest }
{
    if entry.is_of(who) {
        Ok(Some(replay(alloc, warehouse, page, entry)?.page))
    } else {
        Ok(page)
    }
}

// The page of a depositor after these entries.
fn page_later(
    alloc: Global,
    warehouse: &Warehouse,
    entries: &[Entry],
    who: &Who,
) -> Result<Option<Page>, AllocError>
    ensures page { (L later : List register.Entry) → entries.now ≡ all_written L
        → IsLegal Today warehouse.now (L ++ later)
        → IfOk result (λ page. IsHeldFor page (history_of (register.own L who.now))) }
    ensures rest { IfOk result IsAtRest }
{
    let mut page = None;
    for entry in entries {
        page = with_entry(alloc, warehouse, page, entry, who)?;
    }
    Ok(page)
}

// The whole page, which is handed out for any part of it: it is the part of itself that is needed,
// and has what is open of it.
fn whole(page: Option<Page>) -> Option<Page>
    ensures same { result ≡ page }
    ensures held { (need : meant.Need) (h : Option History) → IsHeldFor page h
        → IsHeld need result h }
    ensures work { (L : List register.Entry) (who : Partner)
        → IsHeldFor page (history_of (register.own L who))
        → option_map open_on result ≡ open_of L who }
{
    if let Some(page) = &page {
        // For the prover alone: that every page is sound, it takes from a call of `rows`.
        let _ = page.rows();
    }
    page
}

// The text that went out for an entry, with these before it.
pub(crate) fn outgoing_later(
    alloc: Global,
    warehouse: &Warehouse,
    before: &[Entry],
    entry: &Entry,
) -> Result<Vec<u8>, AllocError>
    ensures { (L : List register.Entry) (e : register.Entry) (later : List register.Entry)
        → before.now ≡ all_written L → entry.now ≡ written L e
        → IsLegal Today warehouse.now (L ++ e ∷ later)
        → IfOk result (λ text. text.items ≡ out warehouse.now (register.own L e.who) e) }
{
    let page = page_later(alloc, warehouse, before, &entry.who())?;
    Ok(replay(alloc, warehouse, page, entry)?.outgoing)
}

// The place of a depositor's first entry under a mark.
fn place_of(entries: &[Entry], who: &Who, mark: &[u8]) -> Option<usize>
    ensures { MatchOption result (find (is_under who.now mark.now) entries.now ≡ None)
        (λ i. IsAt (is_under who.now mark.now) entries.now i) }
{
    for (i, entry) in entries.iter().enumerate() {
        if entry.is_under(who, mark) {
            return Some(i);
        }
    }
    None
}

// A depositor's first entry under a mark, with the text that went out for it.
fn recalled(
    alloc: Global,
    warehouse: &Warehouse,
    entries: &[Entry],
    who: &Who,
    mark: &[u8],
) -> Result<Option<Known>, AllocError>
    ensures known { (L : List register.Entry) → entries.now ≡ all_written L
        → IsLegal Today warehouse.now L
        → IfOk result (λ known. IsRecalled known
        (recalled warehouse.now mark.now (register.own L who.now))) }
    ensures recorded { IfOk result (λ known. option_map
        (λ k. k.entry) known ≡ find (is_under who.now mark.now) entries.now) }
{
    let Some(i) = place_of(entries, who, mark) else {
        return Ok(None);
    };
    let entry = entries[i].copy()?;
    let outgoing = outgoing_later(alloc, warehouse, &entries[..i], &entry)?;
    Ok(Some(Known { entry, outgoing }))
}

// Appends an entry; at want of memory there are as many as before.
fn append(entries: &mut Vec<Entry>, entry: &Entry) -> Result<(), AllocError>
    ensures ok { OnOk result (entries.new.items ≡ entries.old.items ++ entry.now ∷ []) }
    ensures err { OnErr result (entries.new.items ≡ entries.old.items) }
{
    let copy = entry.copy()?;
    entries.push(copy)?;
    Ok(())
}

// The rows that a depositor with this page is shown; a stranger has none.
fn rows_for(alloc: Global, page: Option<Page>) -> Result<Option<Vec<StockRow>>, AllocError>
    ensures { IfOk result (λ rows. (L : List register.Entry) (who : Partner)
        → IsHeldFor page (history_of (register.own L who))
        → option_map (λ v. v.items) rows ≡ stock_of L who) }
{
    match page {
        Some(page) => Ok(Some(StockRow::of_each(alloc, page.rows())?)),
        None => Ok(None),
    }
}

// The depositors, in the order of their enrolments.
fn depositors_of(alloc: Global, entries: &[Entry]) -> Result<Vec<Who>, AllocError>
    ensures { IfOk result (λ whos. (L : List register.Entry) → entries.now ≡ all_written L
        → whos.items ≡ enrolled L) }
{
    let mut whos = Vec::new(alloc);
    for entry in entries {
        if !entry.is_numbered() {
            whos.push(entry.who())?;
        }
    }
    Ok(whos)
}

// The moment of the last of these entries.
fn last_of(entries: &[Entry]) -> Option<Moment>
    ensures { (L : List register.Entry) → entries.now ≡ all_written L → result ≡ last_moment L }
{
    match entries.last() {
        Some(entry) => Some(entry.moment()),
        None => None,
    }
}

// How far these entries go.
fn extent_of(entries: &[Entry]) -> Extent
    ensures { (L : List register.Entry) → entries.now ≡ all_written L
        → meant_extent.extent result ≡ meant_extent.extent_of L }
{
    Extent {
        entries: entries.len() as u64,
        last: last_of(entries),
    }
}

impl ReplayBook {
    // The whole page of a depositor; None for a stranger.
    fn page(&self, who: &Who) -> Result<Option<Page>, AllocError>
        ensures page { (L : List register.Entry) → self.now.entries ≡ all_written L
            → IsLegal Today self.now.warehouse L
            → IfOk result (λ page. IsHeldFor page (history_of (register.own L who.now))) }
        ensures rest { IfOk result IsAtRest }
    {
        page_later(self.alloc, &self.warehouse, &self.entries, who)
    }
}

impl Keeper for ReplayBook {
    ghost use Rattle.std.specs.Prelude.{false, ◌≡◌};
    ghost use Rattle.definitions.specs.Rules.{Today};
    ghost use Rattle.definitions.specs.Accepted.{IsLegal};
    ghost use Rattle.store.specs.Replayed.{all_written};

    ghost standing = { λ b. record {
      warehouse = b.warehouse;
      keeps = λ L. b.entries ≡ all_written L;
      left = λ L. (b.entries ≡ all_written L) × IsLegal Today b.warehouse L;
      all_stand = Unit {0};
      doubt = 0;
      refusals = 0;
      shut = false;
    } };

    fn warehouse(&self) -> Warehouse {
        self.warehouse
    }

    fn load(&mut self, who: Who, _need: &Need) -> Result<Option<Page>, Fault> {
        let page = self.page(&who)?;
        Ok(whole(page))
    }

    fn known(&mut self, who: Who, key: &Key<'_>) -> Result<Option<Known>, Fault> {
        let mark = key.text(self.alloc)?;
        Ok(recalled(self.alloc, &self.warehouse, &self.entries, &who, &mark)?)
    }

    fn commit(
        &mut self,
        entry: &Entry,
        _changes: &[Change],
        _outgoing: &[u8],
    ) -> Result<(), Fault> {
        append(&mut self.entries, entry)?;
        Ok(())
    }

    fn stock_rows(&mut self, who: Who) -> Result<Option<Vec<StockRow>>, Fault> {
        let page = self.page(&who)?;
        Ok(rows_for(self.alloc, page)?)
    }

    fn outbox(&mut self, who: Who) -> Result<Option<Vec<OutRow>>, Fault> {
        let page = self.page(&who)?;
        Ok(sent_to(self.alloc, &self.warehouse, &self.entries, page, &who)?)
    }

    fn text(&mut self, who: Who, n: u32) -> Result<Option<Option<Vec<u8>>>, Fault> {
        match self.outbox(who)? {
            Some(rows) => Ok(Some(content_of(rows, n))),
            None => Ok(None),
        }
    }

    fn open(&mut self, who: Who) -> Result<Option<Page>, Fault> {
        let page = self.page(&who)?;
        Ok(whole(page))
    }

    fn depositors(&mut self) -> Result<Vec<Who>, Fault> {
        Ok(depositors_of(self.alloc, &self.entries)?)
    }

    fn extent(&mut self) -> Result<Extent, Fault> {
        Ok(extent_of(&self.entries))
    }

    fn refused(&self) -> u64 {
        0
    }

    fn must_reopen(&self) -> bool {
        false
    }
}
