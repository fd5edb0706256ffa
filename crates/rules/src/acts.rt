//! What a clerk's act comes to.
ghost use Rattle.std.specs.Prelude.{◌≡◌, ◌<◌, ◌+◌, ◌++◌, ◌∷◌, [], ℕ, List, Option, Some, Ok, IfOk, IfErr, option_copied};
ghost use Rattle.definitions.specs.declared.rules.Rules.{Rules};
ghost use Rattle.definitions.specs.Limits.{most_sets};
ghost use Rattle.definitions.specs.Clerk.{performed};
ghost use Rattle.definitions.specs.Decision as recalled;
ghost use Rattle.definitions.specs.Events.{Event};
ghost use Rattle.definitions.specs.Header.{Who};
ghost use Rattle.definitions.specs.Moments.{Moment};
ghost use Rattle.definitions.specs.History.{History, after_entry};
ghost use Rattle.definitions.specs.Register as register;
ghost use Rattle.stock.specs.Pages.{PageFacts, IsSound};
ghost use Rattle.stock.specs.Parts.{Named, IsPart};
ghost use Rattle.rules.specs.Needs.{NamesAct, HasNeeded};
ghost use Rattle.stock.specs.Puts.{put};
ghost use Rattle.stock.specs.Shows.{Shows};
ghost use Rattle.stock.specs.Stops.{StopsAct};
ghost use Rattle.entries.specs.Asked.{act_of, command_of, entry_of};
ghost use Rattle.rules.specs.Decided.{MakesEntry, IsPageOf, IsRecalled, IsUnder, LeadsOn, AreLeading};
ghost use Rattle.entries.specs.Replies.{IsNoEntry, IsReply};
ghost use Rattle.set_effects.specs.Proper.{AreProper};

use crate::told::document;
use definitions::{MOST_ENTRIES, Refusal, Rules};
use entries::{Act, Decision, Known, act_again, act_entry};
use sets_out::Envelope;
use std::alloc::{AllocError, Global};
use stock::{ActStop, Change, Page, Step, pick, receive, recount};

/// What an act's event changes on the page.
pub(crate) fn perform(alloc: Global, page: &Page, act: &Act<'_>) -> Result<Step, ActStop>
    requires { page.now.recent < most_sets }

    ensures ok { IfOk result
        (λ step. (n : Named) (P : PageFacts) (es : List Event) → IsPart n page.now P
        → NamesAct n page.now (act_of act.now) → Shows P es
        → (e : Event) × (performed es (page.now.entries + 1) (act_of act.now) ≡ Ok e)
        × Shows (put step.changes.items P) (es ++ e ∷ []) × AreProper P step.changes.items) }
    ensures err { IfErr result
        (λ stop. (n : Named) (P : PageFacts) (es : List Event) → IsPart n page.now P
        → NamesAct n page.now (act_of act.now) → Shows P es
        → StopsAct (performed es (page.now.entries + 1) (act_of act.now)) stop) }
    ensures sound { IfOk result (λ step. IsSound (put step.changes.items page.now)) }
{
    match act {
        Act::Count { shipment, sheet } => receive(alloc, page, shipment, sheet),
        Act::Pick { order, sheet } => pick(alloc, page, order, sheet),
        Act::Recount { sheet } => recount(alloc, page, sheet),
    }
}

// The refusal that stopped an act.
fn refused(alloc: Global, stop: ActStop) -> Result<Decision, AllocError>
    ensures comes { IfOk result (IsNoEntry) }
    ensures reply { IfOk result (λ d. (es : List Event) (number : ℕ) (act : register.Act)
        → StopsAct (performed es number act) stop
        → (r : Rules) (W : Who) (h : History) (e : register.Entry) (n : ℕ) (c : register.Command)
        (t : Moment)
        → IsReply r n c t (recalled.act_told W h e (performed es number act)) d) }
{
    match stop {
        ActStop::Refused(refusal) => Ok(Decision::Refused(refusal, Vec::new(alloc))),
        ActStop::OutOfMemory => Err(AllocError),
    }
}

// An act that was performed: it is accepted under the next number, if there is one.
fn accepted(
    alloc: Global,
    envelope: &Envelope,
    page: &Page,
    ticket: &[u8],
    act: &Act<'_>,
    changes: Vec<Change>,
    rules: Rules,
) -> Result<Decision, AllocError>
    requires number { envelope.now.number ≡ page.now.entries + 1 }
    requires led { (h : History) (P : PageFacts)
        → HasNeeded (command_of envelope.now ticket.now act.now) page.now P
        → IsPageOf P h
        → AreLeading P changes.items
        (after_entry h (entry_of rules envelope.now ticket.now act.now)) }

    ensures comes { IfOk result
        (MakesEntry rules (command_of envelope.now ticket.now act.now) envelope.now.moment) }
    ensures leads { IfOk result
        (LeadsOn rules page.now (command_of envelope.now ticket.now act.now) envelope.now.moment) }
    ensures reply { IfOk result (λ d. (h : History) (P : PageFacts) (e : Event)
        → HasNeeded (command_of envelope.now ticket.now act.now) page.now P
        → IsPageOf P h → performed h.events (page.now.entries + 1) (act_of act.now) ≡ Ok e
        → IsReply rules page.now.entries (command_of envelope.now ticket.now act.now)
        envelope.now.moment
        (recalled.accepted_by envelope.now.warehouse h
        (entry_of rules envelope.now ticket.now act.now)) d) }
{
    if page.entries() >= MOST_ENTRIES {
        return Ok(Decision::Refused(Refusal::NumbersUsedUp, Vec::new(alloc)));
    }
    let outgoing = document(alloc, envelope, page, act)?;
    let entry = act_entry(alloc, envelope, ticket, act, rules)?;
    Ok(Decision::Accepted {
        entry,
        changes,
        outgoing,
    })
}

// What an act comes to under a new ticket.
fn fresh(
    alloc: Global,
    envelope: &Envelope,
    page: &Page,
    ticket: &[u8],
    act: &Act<'_>,
    rules: Rules,
) -> Result<Decision, AllocError>
    requires number { envelope.now.number ≡ page.now.entries + 1 }
    requires rest { page.now.recent ≡ 0 }

    ensures comes { IfOk result
        (MakesEntry rules (command_of envelope.now ticket.now act.now) envelope.now.moment) }
    ensures leads { IfOk result
        (LeadsOn rules page.now (command_of envelope.now ticket.now act.now) envelope.now.moment) }
    ensures reply { IfOk result (λ d. (h : History) (P : PageFacts)
        → HasNeeded (command_of envelope.now ticket.now act.now) page.now P
        → IsPageOf P h
        → IsReply rules page.now.entries (command_of envelope.now ticket.now act.now)
        envelope.now.moment
        (recalled.act_new envelope.now.warehouse h
        (entry_of rules envelope.now ticket.now act.now) (act_of act.now)) d) }
{
    // for the prover: what this tells holds of every page (`IsSound`)
    let _ = page.rows();
    match perform(alloc, page, act) {
        Ok(step) => accepted(alloc, envelope, page, ticket, act, step.changes, rules),
        Err(stop) => refused(alloc, stop),
    }
}

/// What a clerk's act comes to under the rules of the day: it is refused where the depositor isn't
/// enrolled, where its ticket is known of another act, at the first of its own refusals, and where
/// the numbers are used up. A known act is answered with its document. Want of memory is the one
/// error.
pub(crate) fn clerk(
    alloc: Global,
    envelope: &Envelope,
    page: &Page,
    known: Option<&Known>,
    ticket: &[u8],
    act: &Act<'_>,
    rules: Rules,
) -> Result<Decision, AllocError>
    requires number { envelope.now.number ≡ page.now.entries + 1 }
    requires rest { page.now.recent ≡ 0 }

    ensures comes { IfOk result
        (MakesEntry rules (command_of envelope.now ticket.now act.now) envelope.now.moment) }
    ensures leads { IfOk result
        (LeadsOn rules page.now (command_of envelope.now ticket.now act.now) envelope.now.moment) }
    ensures reply { IfOk result (λ d. (h : History) (P : PageFacts) (k : Option recalled.Recalled)
        → HasNeeded (command_of envelope.now ticket.now act.now) page.now P
        → IsPageOf P h → IsRecalled (option_copied known.entry) k
        → IsUnder (register.ticket_mark ticket.now) k
        → IsReply rules page.now.entries (command_of envelope.now ticket.now act.now)
        envelope.now.moment
        (recalled.clerk_by rules envelope.now.warehouse (Some h) k envelope.now.depositor ticket.now
        (act_of act.now) envelope.now.moment) d) }
{
    match known {
        Some(known) => act_again(alloc, known, act),
        None => fresh(alloc, envelope, page, ticket, act, rules),
    }
}
