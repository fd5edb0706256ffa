//! The rules of the house: what each command comes to, given a depositor's page and the entry that
//! is known under the command's key. No store and no clock are asked here.
#![tactic(auto)]

mod acts;
mod decisions;
mod documents;
mod given;
mod interchanges;
mod lasting;
pub mod laws;
mod readings;
mod replays;
mod told;

pub use decisions::decide;
pub use definitions::{Refusal, Rules};
pub use entries::{
    Act, Command, Decision, Entry, Key, Known, Name, Need, OutKind, Warehouse, decide_again, need,
    subject,
};
pub use given::{Given, command_of};
pub use replays::{Replayed, replay};
pub use segments::{Ident, Moment, Who};
pub use sets_in::{Address, Goods};
pub use stock::{
    Change, Draft, Function, KnownAdvice, KnownDocument, KnownLine, KnownOrder, Line, Page, Row,
    Sheet, SheetKind,
};
