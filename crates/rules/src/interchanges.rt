//! What an interchange comes to.
ghost use Rattle.std.specs.Prelude.{◌≡◌, ◌+◌, ℕ, false, List, None, Option, IfOk, option_copied};
ghost use Rattle.definitions.specs.declared.rules.Rules.{Rules};
ghost use Rattle.definitions.specs.Header.{is_unreadable, sender};
ghost use Rattle.definitions.specs.Halt.{structure_note};
ghost use Rattle.definitions.specs.History.{History};
ghost use Rattle.definitions.specs.Register as register;
ghost use Rattle.definitions.specs.Reply as replies;
ghost use Rattle.definitions.specs.Decision as recalled;
ghost use Rattle.definitions.specs.Cut.{cut};
ghost use Rattle.definitions.specs.Header.{delims_of};
ghost use Rattle.definitions.specs.Structure.{groups_of};
ghost use Rattle.envelope.specs.Conditions.{IsTold};
ghost use Rattle.stock.specs.Pages.{PageFacts};
ghost use Rattle.rules.specs.Needs.{HasNeeded};
ghost use Rattle.rules.specs.Lasting.{PutsOnce};
ghost use Rattle.rules.specs.Decided.{MakesEntry, IsPageOf, IsGiven, IsAtRest, LeadsOn, LeadsFrom, entries_of};
ghost use Rattle.entries.specs.Replies.{IsNoEntry, IsReply};

use crate::lasting::lasting;
use definitions::{MOST_ENTRIES, Refusal, Rules};
use entries::{Decision, Known, Warehouse, answer, interchange_again, interchange_entry, noted};
use envelope::{Halt, Interchange, Isa, header_note, isa, structure};
use segments::{Moment, Who};
use set_effects::take_groups;
use sets_out::Envelope;
use std::alloc::{AllocError, Global};
use stock::Page;

// What an interchange comes to that no condition halts: it is accepted under the next number, if
// there is one. Its sets may change a row again and again; only the last value is put in.
fn accepted(
    alloc: Global,
    envelope: Envelope,
    page: Page,
    header: &Isa<'_>,
    interchange: &Interchange<'_>,
    text: &[u8],
    rules: Rules,
) -> Result<Decision, AllocError>
    requires same { header.now ≡ text.now }
    requires parts { interchange.now ≡ record {
      delims = delims_of text.now;
      groups = groups_of (cut
          (delims_of text.now) text.now).segments;
    } }
    requires readable { is_unreadable text.now ≡ false }
    requires clean { structure_note text.now ≡ None }
    requires number { envelope.number ≡ page.entries + 1 }
    requires rest { page.recent ≡ 0 }
    requires whose { envelope.depositor ≡ sender text.now }

    ensures comes { IfOk result (MakesEntry rules (register.Interchange text.now) envelope.moment) }
    ensures leads { IfOk result
        (LeadsOn rules page (register.Interchange text.now) envelope.moment) }
    ensures once { IfOk result (PutsOnce) }
    ensures reply { IfOk result (λ d. (h : History) (P : PageFacts)
        → HasNeeded (register.Interchange text.now) page P → IsPageOf P h
        → IsReply rules page.entries (register.Interchange text.now) envelope.moment
        (recalled.accepted_by
        envelope.warehouse h (replies.interchange_entry rules text.now envelope.moment)) d) }
{
    if page.entries() >= MOST_ENTRIES {
        return Ok(Decision::Refused(Refusal::NumbersUsedUp, Vec::new(alloc)));
    }
    let groups = take_groups(alloc, page, interchange, rules)?;
    let all = groups.changes;
    let changes = lasting(alloc, &groups.page, all)?;
    let outgoing = answer(alloc, envelope, header, &groups.told)?;
    let entry = interchange_entry(alloc, &envelope, header, text, rules)?;
    Ok(Decision::Accepted {
        entry,
        changes,
        outgoing,
    })
}

// What an interchange comes to that is halted at its segments.
fn halted(
    alloc: Global,
    warehouse: &Warehouse,
    header: &Isa<'_>,
    moment: Moment,
    halt: Halt,
) -> Result<Decision, AllocError>
    ensures comes { IfOk result (IsNoEntry) }
    ensures reply { IfOk result
        (λ d. (r : Rules) (text : List ℕ) (h : History) (n : ℕ) → IsTold halt text
        → header.now ≡ text
        → IsReply r n (register.Interchange text) moment
        (recalled.interchange_new r warehouse.now h text moment
        (structure_note text)) d) }
{
    match halt {
        Halt::Note(code) => noted(alloc, warehouse, header, moment, code),
        Halt::OutOfMemory => Err(AllocError),
    }
}

// What an interchange of an enrolled depositor comes to whose control number is new.
fn fresh(
    alloc: Global,
    warehouse: &Warehouse,
    page: Page,
    who: Who,
    header: &Isa<'_>,
    text: &[u8],
    moment: Moment,
    rules: Rules,
) -> Result<Decision, AllocError>
    requires same { header.now ≡ text.now }
    requires readable { is_unreadable text.now ≡ false }
    requires rest { page.recent ≡ 0 }
    requires whose { who ≡ sender text.now }

    ensures comes { IfOk result (MakesEntry rules (register.Interchange text.now) moment) }
    ensures leads { IfOk result (LeadsOn rules page (register.Interchange text.now) moment) }
    ensures reply { IfOk result (λ d. (h : History) (P : PageFacts)
        → HasNeeded (register.Interchange text.now) page P → IsPageOf P h
        → IsReply rules page.entries (register.Interchange text.now) moment
        (recalled.interchange_new rules warehouse.now h text.now moment
        (recalled.new_note warehouse.now text.now)) d) }
{
    if let Some(code) = header_note(header, &warehouse.who()) {
        return noted(alloc, warehouse, header, moment, code);
    }
    let envelope = Envelope {
        warehouse: warehouse.who(),
        depositor: who,
        moment,
        number: page.next_number(),
    };
    match structure(alloc, text, header) {
        Ok(interchange) => accepted(alloc, envelope, page, header, &interchange, text, rules),
        Err(halt) => halted(alloc, warehouse, header, moment, halt),
    }
}

// What an interchange comes to that can be read.
fn readable(
    alloc: Global,
    warehouse: &Warehouse,
    page: Option<Page>,
    known: Option<&Known>,
    header: &Isa<'_>,
    text: &[u8],
    moment: Moment,
    rules: Rules,
) -> Result<Decision, AllocError>
    requires same { header.now ≡ text.now }
    requires readable { is_unreadable text.now ≡ false }
    requires rest { IsAtRest page }

    ensures comes { IfOk result (MakesEntry rules (register.Interchange text.now) moment) }
    ensures leads { IfOk result (LeadsFrom rules page (register.Interchange text.now) moment) }
    ensures reply { IfOk result (λ d. (h : Option History) (k : Option recalled.Recalled)
        → IsGiven page (option_copied known.entry) (register.Interchange text.now) h k
        → IsReply rules (entries_of page) (register.Interchange text.now) moment
        (recalled.interchange_known
        rules warehouse.now h k text.now moment) d) }
{
    let (Some(page), Some(who)) = (page, header.sender()) else {
        return noted(alloc, warehouse, header, moment, 6);
    };
    match known {
        Some(known) => interchange_again(alloc, warehouse, known, header, text, moment),
        None => fresh(alloc, warehouse, page, who, header, text, moment, rules),
    }
}

/// What an interchange comes to under the rules of the day: it is refused where it can't be read;
/// where its sender isn't enrolled; where its control number is known of other bytes; at the first
/// condition on its header and its segments that holds; where the numbers are used up. A known
/// interchange is answered with what was sent for it. Want of memory is the one error.
pub(crate) fn interchange(
    alloc: Global,
    warehouse: &Warehouse,
    page: Option<Page>,
    known: Option<&Known>,
    text: &[u8],
    moment: Moment,
    rules: Rules,
) -> Result<Decision, AllocError>
    requires { IsAtRest page }

    ensures comes { IfOk result (MakesEntry rules (register.Interchange text.now) moment) }
    ensures leads { IfOk result (LeadsFrom rules page (register.Interchange text.now) moment) }
    ensures reply { IfOk result (λ d. (h : Option History) (k : Option recalled.Recalled)
        → IsGiven page (option_copied known.entry) (register.Interchange text.now) h k
        → IsReply rules (entries_of page) (register.Interchange text.now) moment
        (recalled.interchange_by
        rules warehouse.now h k text.now moment) d) }
{
    match isa(text) {
        Ok(header) => readable(alloc, warehouse, page, known, &header, text, moment, rules),
        Err(_) => Ok(Decision::Refused(Refusal::Unreadable, Vec::new(alloc))),
    }
}
