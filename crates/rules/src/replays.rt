//! What an entry of the register came to.
ghost use Rattle.std.specs.Prelude.{◌≡◌, ◌≤◌, ◌<◌, ◌+◌, [], ℕ, List, Result, Ok, Err, true, None, IfOk};
ghost use Rattle.definitions.specs.declared.rules.Rules.{Rules};
ghost use Rattle.definitions.specs.Clerk.{is_act, performed};
ghost use Rattle.definitions.specs.Cut.{cut};
ghost use Rattle.definitions.specs.Events.{Event};
ghost use Rattle.definitions.specs.Halt.{structure_note};
ghost use Rattle.definitions.specs.Header.{delims_of};
ghost use Rattle.definitions.specs.History.{History};
ghost use Rattle.definitions.specs.Limits.{most_entries};
ghost use Rattle.definitions.specs.Readings.{is_entry};
ghost use Rattle.definitions.specs.declared.refusals.Refusal.{Refusal};
ghost use Rattle.definitions.specs.Register as register;
ghost use Rattle.definitions.specs.Reply.{clerk_entry};
ghost use Rattle.definitions.specs.Structure.{groups_of};
ghost use Rattle.definitions.specs.Texts.{document_of};
ghost use Rattle.envelope.specs.Conditions.{IsTold};
ghost use Rattle.stock.specs.Pages.{IsSound, next_entry};
ghost use Rattle.stock.specs.Puts.{put};
ghost use Rattle.stock.specs.Shows.{Shows};
ghost use Rattle.stock.specs.Stops.{StopsAct};
ghost use Rattle.entries.specs.Asked.{act_of};
ghost use Rattle.rules.specs.Decided.{IsAtRest, IsPageOf};
ghost use Rattle.rules.specs.Played.{IsBefore, IsPlayed, IsReplayed, is_clean, number_after};
ghost use Rattle.entries.specs.Written.{written_as};

use crate::acts::perform;
use crate::readings::read;
use crate::told::document;
use definitions::{MOST_ENTRIES, Rules};
use entries::{Act, Entry, Warehouse, answer};
use envelope::{Halt, Interchange, Isa, isa, structure};
use set_effects::take_groups;
use sets_out::Envelope;
use std::alloc::{AllocError, Global};
use stock::{ActStop, Page, Step};

/// A page with one entry of the register more, and the text that went out for it.
#[derive(Drop)]
pub struct Replayed {
    /// The page.
    pub page: Page,
    /// The outgoing text.
    pub outgoing: Vec<u8>,
}

// A page to which nothing comes.
fn nothing(alloc: Global, page: Page) -> Replayed
    ensures page { result.page ≡ page }
    ensures outgoing { result.outgoing.items ≡ [] }
{
    Replayed {
        page,
        outgoing: Vec::new(alloc),
    }
}

// What the groups of an interchange came to by the rules.
fn grouped(
    alloc: Global,
    envelope: Envelope,
    page: Page,
    header: &Isa<'_>,
    interchange: &Interchange<'_>,
    rules: Rules,
) -> Result<Replayed, AllocError>
    requires parts { interchange.now ≡ record {
      delims = delims_of header.now;
      groups = groups_of (cut
          (delims_of header.now) header.now).segments;
    } }
    requires clean { structure_note header.now ≡ None }
    requires rest { page.recent ≡ 0 }

    ensures entries { IfOk result (λ r. r.page.entries ≡ page.entries) }
    ensures played { IfOk result
        (λ r. (h : History) → IsPageOf page h → envelope.number ≡ h.numbered + 1
        → IsPlayed envelope.warehouse h (record {
          who = envelope.depositor;
          moment = envelope.moment;
          deed =
              register.Received header.now;
          rules = rules;
        }) r.page r.outgoing.items) }
{
    // for the prover: what this tells holds of every page (`IsSound`)
    let _ = page.rows();
    let groups = take_groups(alloc, page, interchange, rules)?;
    let outgoing = answer(alloc, envelope, header, &groups.told)?;
    Ok(Replayed {
        page: groups.page,
        outgoing,
    })
}

// An interchange with a note is none that was accepted.
fn halted(alloc: Global, page: Page, halt: Halt) -> Result<Replayed, AllocError>
    ensures entries { IfOk result (λ r. r.page.entries ≡ page.entries) }
    ensures never { IfOk result
        (λ r. (text : List ℕ) → IsTold halt text → structure_note text ≡ None → ⊥) }
{
    match halt {
        Halt::Note(_) => Ok(nothing(alloc, page)),
        Halt::OutOfMemory => Err(AllocError),
    }
}

// What an interchange that can be read came to by the rules.
fn structured(
    alloc: Global,
    envelope: Envelope,
    page: Page,
    header: &Isa<'_>,
    text: &[u8],
    rules: Rules,
) -> Result<Replayed, AllocError>
    requires same { header.now ≡ text.now }
    requires rest { page.recent ≡ 0 }

    ensures entries { IfOk result (λ r. r.page.entries ≡ page.entries) }
    ensures played { IfOk result
        (λ r. (h : History) → IsPageOf page h → envelope.number ≡ h.numbered + 1
        → structure_note text.now ≡ None
        → IsPlayed envelope.warehouse h (record {
          who = envelope.depositor;
          moment = envelope.moment;
          deed =
              register.Received text.now;
          rules = rules;
        }) r.page r.outgoing.items) }
{
    match structure(alloc, text, header) {
        Ok(interchange) => grouped(alloc, envelope, page, header, &interchange, rules),
        Err(halt) => halted(alloc, page, halt),
    }
}

// What an interchange came to by the rules.
fn received(
    alloc: Global,
    envelope: Envelope,
    page: Page,
    text: &[u8],
    rules: Rules,
) -> Result<Replayed, AllocError>
    requires { page.recent ≡ 0 }

    ensures entries { IfOk result (λ r. r.page.entries ≡ page.entries) }
    ensures played { IfOk result
        (λ r. (h : History) → IsPageOf page h → envelope.number ≡ h.numbered + 1
        → is_clean (register.Received text.now) ≡ true
        → IsPlayed envelope.warehouse h (record {
          who = envelope.depositor;
          moment = envelope.moment;
          deed =
              register.Received text.now;
          rules = rules;
        }) r.page r.outgoing.items) }
{
    match isa(text) {
        Ok(header) => structured(alloc, envelope, page, &header, text, rules),
        Err(_) => Ok(nothing(alloc, page)),
    }
}

// An act that was stopped came to nothing.
fn stopped(alloc: Global, page: Page, stop: ActStop) -> Result<Replayed, AllocError>
    ensures { IfOk result (λ r. (r.page ≡ page) × (r.outgoing.items ≡ [])
        × ((outcome : Result Event Refusal) → StopsAct outcome stop → (refusal : Refusal)
        × (outcome ≡ Err refusal))) }
{
    match stop {
        ActStop::Refused(_) => Ok(nothing(alloc, page)),
        ActStop::OutOfMemory => Err(AllocError),
    }
}

// A page with what an act changes on it, and the act's document.
fn stepped(
    alloc: Global,
    envelope: &Envelope,
    page: Page,
    act: &Act<'_>,
    step: &Step,
) -> Result<Replayed, AllocError>
    requires { IsSound (put step.now.changes.items page) }

    ensures { IfOk result (λ r. (r.page ≡ put step.now.changes.items page)
        × ((es : List Event) (e : Event) → Shows page es
        → performed es envelope.now.number (act_of act.now) ≡ Ok e
        → r.outgoing.items ≡ document_of envelope.now.warehouse envelope.now.depositor
        envelope.now.moment envelope.now.number e)) }
{
    // for the prover: what this tells holds of every page (`IsSound`)
    let _ = page.rows();
    let outgoing = document(alloc, envelope, &page, act)?;
    Ok(Replayed {
        page: page.with(step)?,
        outgoing,
    })
}

// What an act came to.
fn done(
    alloc: Global,
    envelope: Envelope,
    page: Page,
    act: &Act<'_>,
) -> Result<Replayed, AllocError>
    requires { page.recent ≡ 0 }

    ensures entries { IfOk result (λ r. r.page.entries ≡ page.entries) }
    ensures played { IfOk result (λ r. (h : History) (ticket : List ℕ) (q : Rules) → IsPageOf page h
        → envelope.number ≡ h.numbered + 1
        → IsPlayed envelope.warehouse h (clerk_entry q envelope.depositor ticket (act_of act.now)
        envelope.moment) r.page r.outgoing.items) }
{
    // for the prover: what this tells holds of every page (`IsSound`)
    let _ = page.rows();
    match perform(alloc, &page, act) {
        Ok(step) => stepped(alloc, &envelope, page, act, &step),
        Err(stop) => stopped(alloc, page, stop),
    }
}

// What a clerk's act came to under the rules, by its canonical text.
fn performed(
    alloc: Global,
    envelope: Envelope,
    page: Page,
    text: &[u8],
    rules: Rules,
) -> Result<Replayed, AllocError>
    requires { page.recent ≡ 0 }

    ensures entries { IfOk result (λ r. r.page.entries ≡ page.entries) }
    ensures played { IfOk result (λ r. (h : History) (ticket : List ℕ) (act : register.Act)
        → IsPageOf page h → envelope.number ≡ h.numbered + 1
        → is_act rules act ≡ true → text.now ≡ register.canonical act
        → IsPlayed envelope.warehouse h
        (clerk_entry rules envelope.depositor ticket act envelope.moment) r.page
        r.outgoing.items) }
{
    match read(alloc, text, rules)? {
        Some(read) => done(alloc, envelope, page, &read.act()),
        None => Ok(nothing(alloc, page)),
    }
}

// The page with one numbered entry more.
fn ended(page: Page) -> Page
    requires { page.entries < most_entries }

    ensures next { result ≡ next_entry page }
    ensures shows { (es : List Event) → Shows page es → Shows result es }
{
    let mut page = page;
    page.next_entry();
    page
}

// What a numbered entry came to.
fn numbered(
    alloc: Global,
    warehouse: &Warehouse,
    page: Page,
    entry: &Entry,
) -> Result<Replayed, AllocError>
    requires { page.recent ≡ 0 }

    ensures rest { IfOk result (λ r. r.page.recent ≡ 0) }
    ensures replayed { IfOk result (λ r. (h : History) (e : register.Entry) → IsPageOf page h
        → register.is_numbered e ≡ true
        → entry.now ≡ written_as (number_after h e) e → number_after h e ≤ most_entries
        → is_entry e ≡ true
        → is_clean e.deed ≡ true
        → IsReplayed warehouse.now h e r.page r.outgoing.items) }
{
    if !entry.is_numbered() || page.entries() >= MOST_ENTRIES {
        return Ok(nothing(alloc, page));
    }
    let envelope = Envelope {
        warehouse: warehouse.who(),
        depositor: entry.who(),
        moment: entry.moment(),
        number: entry.number(),
    };
    let played = if entry.is_ticketed() {
        performed(alloc, envelope, page, entry.body(), entry.rules())?
    } else {
        received(alloc, envelope, page, entry.body(), entry.rules())?
    };
    Ok(Replayed {
        page: ended(played.page),
        outgoing: played.outgoing,
    })
}

/// What an entry of the register came to by its own rules, over the page that its depositor had
/// before it; an enrolment has none before it. An entry that no command can have made adds nothing
/// but its number. Want of memory is the one error.
pub fn replay(
    alloc: Global,
    warehouse: &Warehouse,
    page: Option<Page>,
    entry: &Entry,
) -> Result<Replayed, AllocError>
    requires { IsAtRest page }

    ensures rest { IfOk result (λ r. r.page.recent ≡ 0) }
    ensures replayed { IfOk result (λ r. (h : History) (e : register.Entry) → IsBefore page h e
        → entry.now ≡ written_as (number_after h e) e → number_after h e ≤ most_entries
        → is_entry e ≡ true
        → is_clean e.deed ≡ true
        → IsReplayed warehouse.now h e r.page r.outgoing.items) }
{
    match page {
        Some(page) => numbered(alloc, warehouse, page, entry),
        None => Ok(nothing(alloc, Page::new(alloc))),
    }
}
