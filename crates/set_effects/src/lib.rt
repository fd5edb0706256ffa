//! The sets of an interchange, judged over a depositor's page and put into it, one after another.
#![tactic(auto)]

mod judging;
mod taking;

pub use taking::{TakenGroups, take_groups};
