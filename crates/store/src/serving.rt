ghost use Rattle.std.specs.Prelude.{◌≡◌, ◌++◌, ◌∷◌, [], List, None, Bool, true, false, IfOk, OnOk, OnErr, IsErrOf, IfErr, IfSome, IsSome, IsNone, option_map, length, ◌<◌, ◌≤◌, ◌+◌};
ghost use Rattle.std.specs.Prelude.{take, map, IsTrue};
ghost use Rattle.std.specs.List.{list_all};
ghost use Rattle.definitions.specs.Rules.{Today};
ghost use Rattle.definitions.specs.Register as register;
ghost use Rattle.definitions.specs.Accepted.{IsLegal, is_command, own_of, reply_to, after, accepted_on, replies_on};
ghost use Rattle.definitions.specs.Decision.{standing as history_of, recalled};
ghost use Rattle.definitions.specs.Rows.{stock_of, outbox_of};
ghost use Rattle.rules.specs.Asked.{asked};
ghost use Rattle.rules.specs.Decided.{LeadsInTables};
ghost use Rattle.store.specs.Held.{IsDecided};
ghost use Rattle.store.specs.Sent.{text_of};
ghost use Rattle.store.specs.Runs.{told, all_asked, can_be_given, UnlessAccepted};
ghost use Rattle.store.specs.Standing.{Standing, IsUsable, IsUnchanged, GoesOn, IsFault, IsReading, IsQuery, IsRunFault, KeepsLegal, LeavesEither, OfKept, OfUsable};

use crate::keeping::Keeper;
use crate::rows::{OutRow, StockRow};
use definitions::{Fault, Rules, TODAY};
use rules::{Command, Decision, Moment, Refusal, Who, decide, decide_again, need, subject};
use std::alloc::Global;

/// What is answered to a command.
#[derive(Drop)]
pub enum Reply {
    /// It is accepted, with its answer or document.
    Accepted(Vec<u8>),
    /// It was accepted before: the text that went out then.
    Stored(Vec<u8>),
    /// It is refused, and nothing is changed.
    Refused {
        /// Why.
        refusal: Refusal,
        /// The answer to send, nothing where none is due.
        answer: Vec<u8>,
    },
}

// What a command of this depositor comes to under these rules, where nothing is known under its
// key: it needs a part of the depositor's page. The book is as before.
fn judge_new<K: Keeper>(
    alloc: Global,
    keeper: &mut K,
    who: Who,
    command: &Command<'_>,
    moment: Moment,
    rules: Rules,
) -> Result<Decision, Fault>
    requires whose { (L : List register.Entry) → own_of L (asked command.now) ≡ register.own L who }

    ensures decision { OfKept (K.standing keeper.old) (K.standing keeper.new)
        (λ L. recalled (K.standing keeper.old).warehouse (register.command_mark (asked command.now))
        (own_of L (asked command.now)) ≡ None → IfOk result (IsDecided rules
        (K.standing keeper.old).warehouse L (asked command.now) moment)) }
    ensures tables { OfKept (K.standing keeper.old) (K.standing keeper.new)
        (λ L. IfOk result (LeadsInTables rules (K.standing keeper.old).warehouse L
        (asked command.now) moment)) }
    ensures reading { IsReading (K.standing keeper.old) (K.standing keeper.new) result }
{
    let warehouse = keeper.warehouse();
    let need = need(alloc, command)?;
    let page = keeper.load(who, &need)?;
    Ok(decide(alloc, &warehouse, page, None, command, moment, rules)?)
}

// What a command comes to under these rules. What is known under its key is asked first, since that
// needs no page. The book is as before.
#[tactic(auto, using(crate::proofs::Changes::unchanged_trans, crate::proofs::Changes::unchanged_refl))]
fn judge<K: Keeper>(
    alloc: Global,
    keeper: &mut K,
    command: &Command<'_>,
    moment: Moment,
    rules: Rules,
) -> Result<Decision, Fault>
    ensures decision { OfKept (K.standing keeper.old) (K.standing keeper.new)
        (λ L. IfOk result (IsDecided rules (K.standing keeper.old).warehouse L (asked command.now)
        moment)) }
    ensures tables { OfKept (K.standing keeper.old) (K.standing keeper.new)
        (λ L. IfOk result (LeadsInTables rules (K.standing keeper.old).warehouse L
        (asked command.now) moment)) }
    ensures reading { IsReading (K.standing keeper.old) (K.standing keeper.new) result }
{
    let warehouse = keeper.warehouse();
    let Some(named) = subject(command) else {
        return Ok(decide(alloc, &warehouse, None, None, command, moment, rules)?);
    };
    match keeper.known(named.0, &named.1)? {
        Some(known) => Ok(decide_again(alloc, &warehouse, &known, command, moment)?),
        None => judge_new(alloc, keeper, named.0, command, moment, rules),
    }
}

/// Answers one command under these rules, which an accepted one's entry has: those of the day, or,
/// where a register is given again, those of its entry. An accepted command is one commit, and the
/// reply is made before it. A refusal leaves the book as it was, and so does a fault, unless the
/// book must be opened again after it; then a crash leaves the register as it was, or with the
/// command's entry. The rules of a register never fall, so the register with the entry has to be
/// legal.
pub fn submit_under<K: Keeper>(
    alloc: Global,
    keeper: &mut K,
    command: &Command<'_>,
    moment: Moment,
    rules: Rules,
) -> Result<Reply, Fault>
    ensures reply { OfKept (K.standing keeper.old) (K.standing keeper.new)
        (λ L. IfOk result (λ reply. told reply ≡ reply_to rules (K.standing keeper.old).warehouse L
        (asked command.now) moment)) }
    ensures ok { OfUsable (K.standing keeper.old) (K.standing keeper.new)
        (λ L. IsLegal Today (K.standing keeper.old).warehouse
        (after rules (K.standing keeper.old).warehouse L (asked command.now, moment))
        → OnOk result (IsUsable (K.standing keeper.new)
        (after rules (K.standing keeper.old).warehouse L (asked command.now, moment)))) }
    ensures keeps { OfKept (K.standing keeper.old) (K.standing keeper.new)
        (λ L. IsLegal Today (K.standing keeper.old).warehouse
        (after rules (K.standing keeper.old).warehouse L (asked command.now, moment))
        → OnOk result (KeepsLegal (K.standing keeper.new)
        (after rules (K.standing keeper.old).warehouse L (asked command.now, moment)))) }
    ensures left { OfUsable (K.standing keeper.old) (K.standing keeper.new)
        (λ L. IsLegal Today (K.standing keeper.old).warehouse
        (after rules (K.standing keeper.old).warehouse L (asked command.now, moment))
        → OnErr result (LeavesEither (K.standing keeper.new) L
        (after rules (K.standing keeper.old).warehouse L
        (asked command.now, moment)))) }
    ensures kept { IfOk result
        (λ reply. UnlessAccepted reply (IsUnchanged (K.standing keeper.old)
        (K.standing keeper.new))) }
    ensures opened { OnOk result ((K.standing keeper.new).shut ≡ false) }
    ensures fault { IfErr result
        (λ fault. IsFault fault (K.standing keeper.old) (K.standing keeper.new)) }
    ensures shut { (K.standing keeper.old).shut ≡ true → IsErrOf result Fault.Reopen
        × IsUnchanged (K.standing keeper.old) (K.standing keeper.new) }
    ensures goes { GoesOn (K.standing keeper.old) (K.standing keeper.new) }
{
    if keeper.must_reopen() {
        return Err(Fault::Reopen);
    }
    match judge(alloc, keeper, command, moment, rules)? {
        Decision::Stored(text) => Ok(Reply::Stored(text)),
        Decision::Refused(refusal, answer) => Ok(Reply::Refused { refusal, answer }),
        Decision::Accepted {
            entry,
            changes,
            outgoing,
        } => {
            keeper.commit(&entry, &changes, &outgoing)?;
            Ok(Reply::Accepted(outgoing))
        }
    }
}

/// Answers one command under the rules of the day: an accepted one is one commit, and the reply is
/// made before it. A refusal leaves the book as it was, and so does a fault, unless the book must
/// be opened again after it; then a crash leaves the register as it was, or with the command's
/// entry.
pub fn submit<K: Keeper>(
    alloc: Global,
    keeper: &mut K,
    command: &Command<'_>,
    moment: Moment,
) -> Result<Reply, Fault>
    ensures reply { OfKept (K.standing keeper.old) (K.standing keeper.new)
        (λ L. IfOk result (λ reply. told reply ≡ reply_to Today (K.standing keeper.old).warehouse L
        (asked command.now) moment)) }
    ensures ok { OfUsable (K.standing keeper.old) (K.standing keeper.new)
        (λ L. is_command Today (asked command.now) ≡ true
        → OnOk result (IsUsable (K.standing keeper.new)
        (after Today (K.standing keeper.old).warehouse L (asked command.now, moment)))) }
    ensures keeps { OfKept (K.standing keeper.old) (K.standing keeper.new)
        (λ L. is_command Today (asked command.now) ≡ true
        → OnOk result (KeepsLegal (K.standing keeper.new)
        (after Today (K.standing keeper.old).warehouse L (asked command.now, moment)))) }
    ensures left { OfUsable (K.standing keeper.old) (K.standing keeper.new)
        (λ L. is_command Today (asked command.now) ≡ true
        → OnErr result (LeavesEither (K.standing keeper.new) L
        (after Today (K.standing keeper.old).warehouse L
        (asked command.now, moment)))) }
    ensures kept { IfOk result
        (λ reply. UnlessAccepted reply (IsUnchanged (K.standing keeper.old)
        (K.standing keeper.new))) }
    ensures opened { OnOk result ((K.standing keeper.new).shut ≡ false) }
    ensures fault { IfErr result
        (λ fault. IsFault fault (K.standing keeper.old) (K.standing keeper.new)) }
    ensures shut { (K.standing keeper.old).shut ≡ true → IsErrOf result Fault.Reopen
        × IsUnchanged (K.standing keeper.old) (K.standing keeper.new) }
    ensures goes { GoesOn (K.standing keeper.old) (K.standing keeper.new) }
{
    submit_under(alloc, keeper, command, moment, TODAY)
}

/// What would be answered to a command now, under the rules of the day. Nothing is committed: the
/// book is as before, whatever is answered.
pub fn try_out<K: Keeper>(
    alloc: Global,
    keeper: &mut K,
    command: &Command<'_>,
    moment: Moment,
) -> Result<Reply, Fault>
    ensures reply { OfKept (K.standing keeper.old) (K.standing keeper.new)
        (λ L. IfOk result (λ reply. told reply ≡ reply_to Today (K.standing keeper.old).warehouse L
        (asked command.now) moment)) }
    ensures query { IsQuery (K.standing keeper.old) (K.standing keeper.new) result }
{
    if keeper.must_reopen() {
        return Err(Fault::Reopen);
    }
    match judge(alloc, keeper, command, moment, TODAY)? {
        Decision::Stored(text) => Ok(Reply::Stored(text)),
        Decision::Refused(refusal, answer) => Ok(Reply::Refused { refusal, answer }),
        Decision::Accepted { outgoing, .. } => Ok(Reply::Accepted(outgoing)),
    }
}

/// What a depositor has, by item and lot; None for a stranger. The book is as before.
pub fn stock<K: Keeper>(keeper: &mut K, who: Who) -> Result<Option<Vec<StockRow>>, Fault>
    ensures rows { OfKept (K.standing keeper.old) (K.standing keeper.new)
        (λ L. IfOk result (λ rows. option_map (λ v. v.items) rows ≡ stock_of L who)) }
    ensures query { IsQuery (K.standing keeper.old) (K.standing keeper.new) result }
{
    keeper.stock_rows(who)
}

/// The texts that went out to a depositor, by number; None for a stranger. The book is as before.
pub fn outbox<K: Keeper>(keeper: &mut K, who: Who) -> Result<Option<Vec<OutRow>>, Fault>
    ensures rows { OfKept (K.standing keeper.old) (K.standing keeper.new)
        (λ L. IfOk result (λ rows. option_map (λ v. v.items) rows ≡ outbox_of
        (K.standing keeper.old).warehouse L who)) }
    ensures query { IsQuery (K.standing keeper.old) (K.standing keeper.new) result }
{
    keeper.outbox(who)
}

/// The text that went out to a depositor under a number; None for a stranger, and Some(None) where
/// nothing went out under it. The book is as before.
pub fn text<K: Keeper>(keeper: &mut K, who: Who, n: u32) -> Result<Option<Option<Vec<u8>>>, Fault>
    ensures text { OfKept (K.standing keeper.old) (K.standing keeper.new)
        (λ L. IfOk result (λ text. option_map (option_map (λ v. v.items)) text ≡ text_of
        (K.standing keeper.old).warehouse L who n)) }
    ensures query { IsQuery (K.standing keeper.old) (K.standing keeper.new) result }
{
    keeper.text(who, n)
}

/// What a list of commands came to.
#[derive(Drop)]
pub struct Outcome {
    /// The replies, in order.
    pub replies: Vec<Reply>,
    /// The fault at which the run stopped.
    pub fault: Option<Fault>,
}

// Answers one command more. Room for its reply is made first.
fn answer_next<K: Keeper>(
    alloc: Global,
    keeper: &mut K,
    command: &Command<'_>,
    moment: Moment,
    replies: &mut Vec<Reply>,
) -> Result<(), Fault>
    ensures reply { OfKept (K.standing keeper.old) (K.standing keeper.new)
        (λ L. OnOk result (map told replies.new.items ≡ map told replies.old.items ++ reply_to Today
        (K.standing keeper.old).warehouse L (asked command.now) moment ∷ [])) }
    ensures ok { OfUsable (K.standing keeper.old) (K.standing keeper.new)
        (λ L. is_command Today (asked command.now) ≡ true
        → OnOk result (IsUsable (K.standing keeper.new)
        (after Today (K.standing keeper.old).warehouse L (asked command.now, moment)))) }
    ensures keeps { OfKept (K.standing keeper.old) (K.standing keeper.new)
        (λ L. is_command Today (asked command.now) ≡ true
        → OnOk result (KeepsLegal (K.standing keeper.new)
        (after Today (K.standing keeper.old).warehouse L (asked command.now, moment)))) }
    ensures more { OnOk result (length replies.new.items ≡ length replies.old.items + 1) }
    ensures no_more { OnErr result (replies.new.items ≡ replies.old.items) }
    ensures left { OfUsable (K.standing keeper.old) (K.standing keeper.new)
        (λ L. is_command Today (asked command.now) ≡ true
        → OnErr result (LeavesEither (K.standing keeper.new) L
        (after Today (K.standing keeper.old).warehouse L
        (asked command.now, moment)))) }
    ensures opened { OnOk result ((K.standing keeper.old).shut ≡ (K.standing keeper.new).shut) }
    ensures fault { IfErr result
        (λ fault. IsFault fault (K.standing keeper.old) (K.standing keeper.new)) }
    ensures goes { GoesOn (K.standing keeper.old) (K.standing keeper.new) }
{
    replies.reserve(1)?;
    let reply = submit(alloc, keeper, command, moment)?;
    replies.push(reply).unwrap();
    Ok(())
}

/// Answers commands in order, and stops at the first fault. Of the commands it is only asked that
/// those can be given that were answered, and the one at which it stopped. Without a fault there is
/// a reply to every command, and the register is the one before with the entries of the accepted
/// commands, in order. At a fault a crash leaves the register of the commands that were answered,
/// or, only where the book must be opened again, that one with the next command's entry.
pub fn run<K: Keeper>(alloc: Global, keeper: &mut K, commands: &[(Command<'_>, Moment)]) -> Outcome
    ensures all { IsNone result.fault → length result.replies.items ≡ length commands.now }
    ensures stopped { IsSome result.fault → length result.replies.items < length commands.now }
    ensures replies { OfUsable (K.standing keeper.old) (K.standing keeper.new)
        (λ L. can_be_given (take (length result.replies.items + 1) commands.now) ≡ true
        → map told result.replies.items ≡ replies_on Today (K.standing keeper.old).warehouse L
        (take (length result.replies.items) (all_asked commands.now))) }
    ensures left { OfUsable (K.standing keeper.old) (K.standing keeper.new)
        (λ L. can_be_given (take (length result.replies.items + 1) commands.now) ≡ true
        → (K.standing keeper.new).shut ≡ false
        → IsUsable (K.standing keeper.new)
        (accepted_on Today (K.standing keeper.old).warehouse L (take (length
        result.replies.items) (all_asked commands.now)))) }
    ensures broken { OfUsable (K.standing keeper.old) (K.standing keeper.new)
        (λ L. can_be_given (take (length result.replies.items + 1) commands.now) ≡ true
        → (K.standing keeper.new).shut ≡ true
        → IsSome result.fault × LeavesEither (K.standing keeper.new)
        (accepted_on Today (K.standing keeper.old).warehouse L
        (take (length result.replies.items) (all_asked commands.now)))
        (accepted_on Today (K.standing keeper.old).warehouse L (take (length result.replies.items
        + 1) (all_asked
        commands.now)))) }
    ensures goes { GoesOn (K.standing keeper.old) (K.standing keeper.new) }
    ensures fault { IfSome result.fault
        (λ fault. IsRunFault fault (can_be_given (take (length result.replies.items + 1)
        commands.now)) (K.standing keeper.old) (K.standing keeper.new)) }
{
    let mut replies = Vec::new(alloc);
    for (command, moment) in commands {
        if let Err(fault) = answer_next(alloc, keeper, command, *moment, &mut replies) {
            return Outcome {
                replies,
                fault: Some(fault),
            };
        }
    }
    Outcome {
        replies,
        fault: None,
    }
}
