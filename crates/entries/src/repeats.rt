//! What a command comes to that is known: its answer looks at no page.
ghost use Rattle.std.specs.Prelude.{◌≡◌, ℕ, Some, IfOk};
ghost use Rattle.definitions.specs.declared.rules.Rules.{Rules};
ghost use Rattle.definitions.specs.Decision as meant;
ghost use Rattle.definitions.specs.History.{History};
ghost use Rattle.definitions.specs.Register as register;
ghost use Rattle.entries.specs.Asked.{asked};
ghost use Rattle.entries.specs.Replies.{IsEntry, IsNoEntry, IsReply};

use crate::acts::act_again;
use crate::commands::Command;
use crate::decisions::Decision;
use crate::entries::Known;
use crate::house::Warehouse;
use crate::interchanges::interchange_again;
use definitions::Refusal;
use envelope::isa;
use segments::Moment;
use std::alloc::{AllocError, Global};

// What a text comes to under its known control number; one that can't be read is refused.
fn text_again(
    alloc: Global,
    warehouse: &Warehouse,
    known: &Known,
    text: &[u8],
    moment: Moment,
) -> Result<Decision, AllocError>
    ensures comes { IfOk result (IsNoEntry) }
    ensures reply { IfOk result
        (λ d. (r : Rules) (n : ℕ) (h : History) (k : meant.Recalled) → IsEntry known.now k
        → register.mark k.entry ≡ register.command_mark (register.Interchange text.now)
        → IsReply r n (register.Interchange text.now) moment
        (meant.reply_by r warehouse.now (Some h) (Some k)
        (register.Interchange text.now) moment) d) }
{
    match isa(text) {
        Ok(header) => interchange_again(alloc, warehouse, known, &header, text, moment),
        Err(_) => Ok(Decision::Refused(Refusal::Unreadable, Vec::new(alloc))),
    }
}

/// What a command of an enrolled depositor comes to whose key is known: the text that went out
/// then, where it says the same, and else its refusal, as `decide` has it. It looks at no page of
/// the depositor. Only want of memory keeps it from being decided.
pub fn decide_again(
    alloc: Global,
    warehouse: &Warehouse,
    known: &Known,
    command: &Command<'_>,
    moment: Moment,
) -> Result<Decision, AllocError>
    ensures comes { IfOk result (IsNoEntry) }
    ensures reply { IfOk result
        (λ d. (r : Rules) (n : ℕ) (h : History) (k : meant.Recalled) → IsEntry known.now k
        → register.mark k.entry ≡ register.command_mark (asked command.now)
        → IsReply r n (asked command.now) moment (meant.reply_by r warehouse.now (Some h) (Some k)
        (asked command.now) moment) d) }
{
    match command {
        Command::Interchange(text) => text_again(alloc, warehouse, known, text, moment),
        Command::Enrol(_) => Ok(Decision::Refused(Refusal::AlreadyEnrolled, Vec::new(alloc))),
        Command::Clerk { act, .. } => act_again(alloc, known, act),
    }
}
