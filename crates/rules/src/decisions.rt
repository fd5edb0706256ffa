//! What each command comes to.
ghost use Rattle.std.specs.Prelude.{List, Option, IfOk, option_copied};
ghost use Rattle.definitions.specs.Accepted.{own_of};
ghost use Rattle.definitions.specs.Decision as meant;
ghost use Rattle.definitions.specs.Decision.{standing};
ghost use Rattle.definitions.specs.History.{History};
ghost use Rattle.entries.specs.Asked.{act_of, asked};
ghost use Rattle.definitions.specs.Header.{Who as Partner};
ghost use Rattle.definitions.specs.Register as register;
ghost use Rattle.entries.specs.Replies.{IsReply};
ghost use Rattle.rules.specs.Decided.{MakesEntry, IsAtRest, IsGiven, StandsFor, LeadsFrom, LeadsInTables, entries_of};

use crate::acts::clerk;
use crate::interchanges::interchange;
use definitions::{Refusal, Rules};
use entries::{Act, Command, Decision, Known, Warehouse, enrolment};
use segments::{Moment, Who};
use sets_out::Envelope;
use std::alloc::{AllocError, Global};
use stock::Page;

// The decision on an enrolment.
fn enrol(
    alloc: Global,
    page: Option<Page>,
    who: Who,
    moment: Moment,
    rules: Rules,
) -> Result<Decision, AllocError>
    ensures comes { IfOk result (MakesEntry rules (register.Enrol who) moment) }
    ensures leads { IfOk result (LeadsFrom rules page (register.Enrol who) moment) }
    ensures reply { IfOk result
        (λ d. (h : Option History) (k : Option meant.Recalled) (W : Partner)
        → StandsFor (register.Enrol who) page h
        → IsReply rules (entries_of page) (register.Enrol who) moment
        (meant.reply_by rules W h k (register.Enrol who) moment) d) }
{
    if page.is_some() {
        return Ok(Decision::Refused(Refusal::AlreadyEnrolled, Vec::new(alloc)));
    }
    Ok(Decision::Accepted {
        entry: enrolment(alloc, who, moment, rules)?,
        changes: Vec::new(alloc),
        outgoing: Vec::new(alloc),
    })
}

// The decision on a clerk's act.
fn perform(
    alloc: Global,
    warehouse: &Warehouse,
    page: Option<Page>,
    known: Option<&Known>,
    who: Who,
    ticket: &[u8],
    act: &Act<'_>,
    moment: Moment,
    rules: Rules,
) -> Result<Decision, AllocError>
    requires { IsAtRest page }

    ensures comes { IfOk result (MakesEntry rules (register.Clerk who ticket.now (act_of act.now))
        moment) }
    ensures leads { IfOk result
        (LeadsFrom rules page (register.Clerk who ticket.now (act_of act.now)) moment) }
    ensures reply { IfOk result
        (λ d. (h : Option History) (k : Option meant.Recalled)
        → IsGiven page (option_copied known.entry)
        (register.Clerk who ticket.now (act_of act.now)) h k
        → IsReply rules (entries_of page) (register.Clerk who ticket.now (act_of act.now))
        moment (meant.clerk_by rules warehouse.now h k who ticket.now (act_of act.now) moment) d) }
{
    let Some(page) = page else {
        return Ok(Decision::Refused(Refusal::UnknownDepositor, Vec::new(alloc)));
    };
    let envelope = Envelope {
        warehouse: warehouse.who(),
        depositor: who,
        moment,
        number: page.next_number(),
    };
    clerk(alloc, &envelope, &page, known, ticket, act, rules)
}

/// What a command comes to under the rules of the day, by the page of the depositor that it names,
/// if that is enrolled, and what is known under its key: the defined reply, with the entry that is
/// to be recorded, which has these rules, and the changes that lead from the tables of every legal
/// register with that page to those with the entry. The page may be a part of the whole one that
/// has what the command names. Only want of memory keeps it from being decided.
pub fn decide(
    alloc: Global,
    warehouse: &Warehouse,
    page: Option<Page>,
    known: Option<&Known>,
    command: &Command<'_>,
    moment: Moment,
    rules: Rules,
) -> Result<Decision, AllocError>
    requires { IsAtRest page }

    ensures comes { IfOk result (MakesEntry rules (asked command.now) moment) }
    ensures leads { IfOk result (LeadsFrom rules page (asked command.now) moment) }
    ensures tables { IfOk result
        (λ d. (W : Partner) (L : List register.Entry)
        → StandsFor (asked command.now) page (standing (own_of L (asked command.now)))
        → LeadsInTables rules W L (asked command.now) moment d) }
    ensures reply { IfOk result
        (λ d. (h : Option History) (k : Option meant.Recalled)
        → IsGiven page (option_copied known.entry) (asked command.now) h k
        → IsReply rules (entries_of page) (asked command.now) moment
        (meant.reply_by rules warehouse.now h k (asked command.now) moment) d) }
{
    match command {
        Command::Interchange(text) => interchange(
            alloc, warehouse, page, known, text, moment, rules,
        ),
        Command::Enrol(who) => enrol(alloc, page, *who, moment, rules),
        Command::Clerk { who, ticket, act } => {
            perform(
                alloc, warehouse, page, known, *who, ticket, act, moment, rules,
            )
        }
    }
}
