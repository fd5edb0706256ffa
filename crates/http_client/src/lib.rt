//! What a command asks of a running server, and what it prints of the answer: the same as over the
//! book in its file.
#![tactic(auto)]

mod answers;
mod courier;
mod errand;
mod handing_on;
pub mod laws;
mod listed;
mod paths;
mod reasons;
pub mod remote;
mod running;
mod telling;

pub use answers::{HeardAs, heard, heard_query};
pub use courier::{Courier, Network};
pub use errand::{Errand, errand_of};
pub use handing_on::{HandOn, hand_on_there};
pub use reasons::{Listening, tell_reason_there};
pub use running::carry_out;
pub use telling::{tell_document, tell_report};
