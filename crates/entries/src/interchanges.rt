//! The refusal of an interchange by a note, what a repeat of one comes to, and its entry. A repeat
//! is known by its control number, and is one only where its bytes are the same.
ghost use Rattle.std.specs.Prelude.{◌≡◌, ℕ, IfOk};
ghost use Rattle.definitions.specs.declared.rules.Rules.{Rules};
ghost use Rattle.definitions.specs.Header.{isa as meant_isa};
ghost use Rattle.definitions.specs.Register as register;
ghost use Rattle.definitions.specs.declared.refusals.Refusal.TheVariants as refusals;
ghost use Rattle.definitions.specs.Reply as replies;
ghost use Rattle.definitions.specs.Decision as recalled;
ghost use Rattle.entries.specs.Replies.{IsNoEntry, IsEntry, IsReply};

use crate::answers::refusal;
use crate::commands::Key;
use crate::decisions::Decision;
use crate::entries::{Entry, Known};
use crate::house::Warehouse;
use definitions::{Refusal, Rules};
use envelope::Isa;
use segments::Moment;
use sets_out::Envelope;
use std::alloc::{AllocError, Global};

/// The refusal of an interchange with a note code (TA105). Want of memory is the one error.
pub fn noted(
    alloc: Global,
    warehouse: &Warehouse,
    header: &Isa<'_>,
    moment: Moment,
    code: u8,
) -> Result<Decision, AllocError>
    ensures comes { IfOk result (IsNoEntry) }
    ensures reply { IfOk result (λ d. (r : Rules) (n : ℕ) (c : register.Command)
        → IsReply r n c moment (replies.Refused (refusals.Note code)
        (replies.refusal_answer warehouse.now header.now moment (refusals.Note code))) d) }
{
    let answer = refusal(alloc, warehouse.who(), header, moment, code)?;
    Ok(Decision::Refused(Refusal::Note(code), answer))
}

// The refusal of an interchange whose control number is known, and whose bytes are others.
fn duplicate(
    alloc: Global,
    warehouse: &Warehouse,
    header: &Isa<'_>,
    moment: Moment,
) -> Result<Decision, AllocError>
    ensures comes { IfOk result (IsNoEntry) }
    ensures reply { IfOk result (λ d. (r : Rules) (n : ℕ) (c : register.Command)
        → IsReply r n c moment (replies.Refused refusals.Duplicate
        (replies.refusal_answer warehouse.now header.now moment refusals.Duplicate)) d) }
{
    let answer = refusal(alloc, warehouse.who(), header, moment, 25)?;
    Ok(Decision::Refused(Refusal::Duplicate, answer))
}

/// What an interchange comes to whose control number is known: the stored text where its bytes are
/// the same, whatever else is said of them; else it is refused as a duplicate. Want of memory is
/// the one error.
pub fn interchange_again(
    alloc: Global,
    warehouse: &Warehouse,
    known: &Known,
    header: &Isa<'_>,
    text: &[u8],
    moment: Moment,
) -> Result<Decision, AllocError>
    requires { header.now ≡ text.now }

    ensures comes { IfOk result (IsNoEntry) }
    ensures reply { IfOk result
        (λ d. (r : Rules) (n : ℕ) (k : recalled.Recalled) → IsEntry known.now k
        → register.mark k.entry ≡ register.interchange_mark (meant_isa text.now 13)
        → IsReply r n (register.Interchange text.now) moment
        (recalled.interchange_again warehouse.now text.now moment k) d) }
{
    if known.is_of(text) {
        return Ok(Decision::Stored(known.outgoing().to_vec(alloc)?));
    }
    duplicate(alloc, warehouse, header, moment)
}

/// The entry of an interchange, under these rules. Want of memory is the one error.
pub fn interchange_entry(
    alloc: Global,
    envelope: &Envelope,
    header: &Isa<'_>,
    text: &[u8],
    rules: Rules,
) -> Result<Entry, AllocError>
    ensures { IfOk result (λ e. e ≡ record {
      who = envelope.now.depositor;
      key = register.interchange_mark
          (meant_isa header.now 13);
      n = envelope.now.number;
      moment = envelope.now.moment;
      body = text.now;
      rules = rules;
    }) }
{
    Ok(Entry {
        who: envelope.depositor,
        key: Key::Interchange(header.element(13)).text(alloc)?,
        n: envelope.number,
        moment: envelope.moment,
        body: text.to_vec(alloc)?,
        rules,
    })
}
