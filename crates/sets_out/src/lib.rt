//! Interchanges that go out: answers and documents, written byte for byte.
#![tactic(auto)]

mod acknowledgment;
mod adjustments;
mod documents;
mod envelopes;
mod headings;
mod interchanges;
pub mod laws;
mod receipts;
mod sheets;
mod shipments;
mod told;
mod writing;

pub use acknowledgment::write_997;
pub use documents::{write_944, write_945, write_947};
pub use envelopes::Envelope;
pub use headings::{Heading, write_ta1};
pub use interchanges::{Answer, NoteAnswer, Outgoing, write_interchange};
pub use sheets::{AdjustedLine, CountedLine, Document, PickedLot, Receipt, Shipment, ShippedLine};
pub use told::{Rejection, ToldGroup, ToldSet};
