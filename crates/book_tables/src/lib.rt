//! The SQLite tables of a warehouse's book: an entry and what it changes are written in one
//! transaction, and what a command needs is read back by keys.
#![tactic(auto, using(book_statements::proofs::Limited::spends_both, book_statements::proofs::Limited::spends_same))]

mod advised;
mod asking;
mod comparing;
mod connected;
mod dates;
mod enrolled;
pub mod laws;
mod line_rows;
mod looking;
mod lots;
mod needed;
mod numbered;
mod numbers;
mod opened;
mod opening;
mod orders;
mod reading;
mod recalled;
mod sent;
mod shown;
mod taken;

pub use connected::Tables;
