//! What a repeat of a clerk's act comes to, and its entry.
ghost use Rattle.std.specs.Prelude.{◌≡◌, ℕ, List, IfOk};
ghost use Rattle.definitions.specs.declared.rules.Rules.{Rules};
ghost use Rattle.definitions.specs.Decision as recalled;
ghost use Rattle.definitions.specs.Header.{Who};
ghost use Rattle.definitions.specs.Moments.{Moment};
ghost use Rattle.definitions.specs.Register as register;
ghost use Rattle.entries.specs.Asked.{act_of, entry_of};
ghost use Rattle.entries.specs.Written.{written_as};
ghost use Rattle.entries.specs.Replies.{IsNoEntry, IsEntry, IsReply};

use crate::commands::{Act, Key};
use crate::decisions::Decision;
use crate::entries::{Entry, Known};
use definitions::{Refusal, Rules};
use sets_out::Envelope;
use std::alloc::{AllocError, Global};

/// The entry of an act under a ticket, by these rules. Want of memory is the one error.
pub fn act_entry(
    alloc: Global,
    envelope: &Envelope,
    ticket: &[u8],
    act: &Act<'_>,
    rules: Rules,
) -> Result<Entry, AllocError>
    ensures { IfOk result
        (λ e. e ≡ written_as envelope.now.number (entry_of rules envelope.now ticket.now act.now)) }
{
    Ok(Entry {
        who: envelope.depositor,
        key: Key::Ticket(ticket).text(alloc)?,
        n: envelope.number,
        moment: envelope.moment,
        body: act.canonical(alloc)?,
        rules,
    })
}

/// What an act comes to under a known ticket: the stored text where it is the same act, else the
/// ticket's refusal. Want of memory is the one error.
pub fn act_again(alloc: Global, known: &Known, act: &Act<'_>) -> Result<Decision, AllocError>
    ensures comes { IfOk result (IsNoEntry) }
    ensures reply { IfOk result
        (λ d. (r : Rules) (n : ℕ) (k : recalled.Recalled) (who : Who) (ticket : List ℕ) (t : Moment)
        → IsEntry known.now k → register.mark k.entry ≡ register.ticket_mark ticket
        → IsReply r n (register.Clerk who ticket (act_of act.now)) t
        (recalled.act_again (act_of act.now) k) d) }
{
    let text = act.canonical(alloc)?;
    if known.is_of(&text) {
        return Ok(Decision::Stored(known.outgoing().to_vec(alloc)?));
    }
    Ok(Decision::Refused(Refusal::TicketUsed, Vec::new(alloc)))
}
