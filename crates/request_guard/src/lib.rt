//! Which HTTP requests are answered at all, as their heads say, and for whom. A server on loopback
//! is reached by every page that is open in a browser of the same machine: a page of another origin
//! can post a form to it, and a name that was made to lead here can read it. Neither is answered,
//! and other programs are, as before.
#![tactic(auto)]

mod askers;
mod barred;
mod forms;
mod hosts;
mod judging;
pub mod laws;
mod origins;
mod texts;

pub use askers::{Asker, asker_of, is_named, may_send};
pub use barred::Barred;
pub use judging::{Doors, judge_head};
