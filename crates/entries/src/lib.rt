//! What a command is, what is kept of one that was accepted, and what it comes to when it is given
//! again: the text that went out then, or its refusal. What a command needs of its depositor's
//! page stands here too, and the words for the kinds of texts that go out. No page, no store and no
//! clock are asked.
#![tactic(auto)]

mod acts;
mod answers;
mod commands;
mod decisions;
mod entries;
mod house;
mod interchanges;
mod kinds;
mod names;
mod needs;
mod repeats;

pub use acts::{act_again, act_entry};
pub use answers::answer;
pub use commands::{Act, Command, Key, subject};
pub use decisions::{Decision, enrolment};
pub use entries::{Entry, Known};
pub use house::Warehouse;
pub use interchanges::{interchange_again, interchange_entry, noted};
pub use kinds::OutKind;
pub use names::{Name, Need};
pub use needs::need;
pub use repeats::decide_again;
