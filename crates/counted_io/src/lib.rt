//! Readers and writers whose errors are counted, and bytes that are sent to one: all of them, or a
//! beginning that is told.
#![tactic(auto)]

mod gauge;
mod sending;

pub use gauge::Gauge;
pub use sending::{Unwritten, send_pieces};
