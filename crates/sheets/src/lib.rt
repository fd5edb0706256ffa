//! The sheets of a clerk's counts, picks and recounts: lines as they were read, tested and put in
//! order.
#![tactic(auto)]

mod lines;
mod making;
mod writing;

pub use definitions::SheetKind;
pub use lines::Line;
pub use making::Sheet;
