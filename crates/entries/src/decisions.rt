//! What a command comes to: the text of a repeat, a refusal, or an entry with what it changes and
//! sends. The entry of an enrolment stands here too, since nothing decides on one.
ghost use Rattle.std.specs.Prelude.{◌≡◌, IfOk};
ghost use Rattle.definitions.specs.Reply.{enrolment_entry};
ghost use Rattle.entries.specs.Written.{written_as};

use crate::commands::Key;
use crate::entries::Entry;
use definitions::{Refusal, Rules};
use segments::{Moment, Who};
use std::alloc::{AllocError, Global};
use stock::Change;

/// What a command comes to.
#[derive(Drop)]
pub enum Decision {
    /// It was accepted before: the text that went out then.
    Stored(Vec<u8>),
    /// It is refused, with the answer to send.
    Refused(Refusal, Vec<u8>),
    /// It is accepted.
    Accepted {
        /// The entry to append to the register.
        entry: Entry,
        /// The rows of the depositor's page that it changes.
        changes: Vec<Change>,
        /// The text that goes out for it.
        outgoing: Vec<u8>,
    },
}

/// The entry of an enrolment, under these rules. Want of memory is the one error.
pub fn enrolment(alloc: Global, who: Who, moment: Moment, rules: Rules) -> Result<Entry, AllocError>
    ensures { IfOk result (λ entry. entry ≡ written_as 0 (enrolment_entry rules who moment)) }
{
    Ok(Entry {
        who,
        key: Key::Enrolment.text(alloc)?,
        n: 0,
        moment,
        body: Vec::new(alloc),
        rules,
    })
}
