//! What a book answers before it is stopped.
ghost use Rattle.std.specs.Prelude.{◌≡◌, ◌+◌, List, true, IsNone, length, take};
ghost use Rattle.definitions.specs.Register as register;
ghost use Rattle.store.specs.Runs.{all_asked, can_be_given};
ghost use Rattle.store.specs.Standing.{GoesOn, IsUsable};
ghost use Rattle.app.specs.Stopped.{Runs};

use std::alloc::Global;
use store::{Command, Keeper, Moment, Outcome, run};

/// What was answered before a stop.
#[derive(Drop)]
pub struct Answered {
    /// The replies, and the fault at which they ended.
    pub outcome: Outcome,
    /// Whether the book had to be opened again as it was stopped. Only then may there be an entry
    /// of the command at which they ended.
    pub must_reopen: bool,
}

// Answers commands as `run` does, and tells whether the book has to be opened again after them.
pub(crate) fn answer<K: Keeper>(
    alloc: Global,
    keeper: &mut K,
    commands: &[(Command<'_>, Moment)],
) -> Answered
    ensures all { IsNone result.outcome.fault
        → length result.outcome.replies.items ≡ length commands.now }
    ensures must_reopen { result.must_reopen ≡ (K.standing keeper.new).shut }
    ensures runs { (L : List register.Entry) → IsUsable (K.standing keeper.old) L
        → can_be_given (take (length result.outcome.replies.items + 1) commands.now) ≡ true
        → Runs (K.standing keeper.old) (K.standing keeper.new) L (all_asked commands.now)
        result.outcome }
    ensures goes { GoesOn (K.standing keeper.old) (K.standing keeper.new) }
{
    let outcome = run(alloc, keeper, commands);
    let must_reopen = keeper.must_reopen();
    Answered {
        outcome,
        must_reopen,
    }
}
