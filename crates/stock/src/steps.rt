ghost use Rattle.std.specs.Prelude.{◌≡◌};

use definitions::Refusal;
use page_rows::{Function, KnownAdvice, KnownOrder, Row};
use segments::SetFault;
use std::alloc::AllocError;

/// A row of a depositor's tables that an event changes, as a whole, by its key.
#[derive(Drop)]
pub enum Change {
    /// The row of a pair.
    Stock(Row),
    /// An advice, new or closed.
    Advice(KnownAdvice),
    /// An order, new with what is reserved for it; or closed, when nothing is reserved for it any
    /// more.
    Order(KnownOrder),
    /// A document that is sent with its entry, unless one was sent under its number.
    Sent {
        /// The number of its entry, 1 to 1,000,000.
        n: u32,
        /// What kind of document it is.
        function: Function,
    },
    /// What the first acknowledgment says of a document.
    Document {
        /// The number of the document's entry.
        n: u32,
        /// Whether it is accepted.
        accepts: bool,
    },
}

/// What one event more changes on a page: `Page::with` puts it in.
#[derive(Drop)]
pub struct Step {
    /// The rows of pairs that change, in order, and after them the advice, the order and the
    /// document.
    pub changes: Vec<Change>,
}

/// Why a set comes to no step.
#[derive(Drop)]
pub enum SetStop {
    /// Its trade fault, at the least position.
    Fault(SetFault<'static>),
    /// A growth was refused.
    OutOfMemory,
}

impl From<AllocError> for SetStop {
    ghost use Rattle.stock.specs.declared.steps.SetStop.TheVariants.{OutOfMemory};

    ghost from_gives = { λ _ s. s ≡ OutOfMemory };

    fn from(_error: AllocError) -> SetStop {
        SetStop::OutOfMemory
    }
}

/// Why a clerk's act comes to no step.
#[derive(Drop)]
pub enum ActStop {
    /// Its first refusal, one of 22 to 29.
    Refused(Refusal),
    /// A growth was refused.
    OutOfMemory,
}

impl From<AllocError> for ActStop {
    ghost use Rattle.stock.specs.declared.steps.ActStop.TheVariants.{OutOfMemory};

    ghost from_gives = { λ _ s. s ≡ OutOfMemory };

    fn from(_error: AllocError) -> ActStop {
        ActStop::OutOfMemory
    }
}
