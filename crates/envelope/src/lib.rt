//! The envelope of an interchange: its header ISA, its functional groups and their sets, and the
//! note that halts it.
#![tactic(auto)]

mod bytes;
mod content;
mod cutting;
mod halt;
mod header;
mod looking;
mod making;
mod notes;
mod parts;
mod places;
mod reading;
mod trailer;
mod whole;

pub use bytes::{has_value, same};
pub use halt::Halt;
pub use header::{Isa, Unreadable};
pub use looking::last_element;
pub use notes::header_note;
pub use parts::{Group, Interchange, Set};
pub use reading::isa;
pub use whole::structure;
