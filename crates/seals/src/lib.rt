//! The seal of a register: a digest chained over its entries in their order. A book that is older
//! than another, or was copied without its log, or in which a byte of an entry was changed, has
//! another seal: so who noted the seal of a book, and how many entries it had, can find out later
//! whether these entries still stand there as they stood then.
#![tactic(auto)]

mod beginning;
pub mod laws;
mod noted;
mod seal;
mod sealed;

pub use beginning::{Beginning, begins_with, entries_in};
pub use noted::NotedSeal;
pub use seal::{SEAL_BYTES, SEAL_DIGITS, Seal};
pub use sealed::Sealed;
