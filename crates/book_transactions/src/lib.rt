//! The transactions of a warehouse's book, each done whole or not at all: its tables are made, an
//! entry is appended with what it changes, a book of version 1 is carried over.
#![tactic(auto, using(book_statements::proofs::Limited::spends_both, book_statements::proofs::Limited::spends_same))]

mod commits;
mod whole;

pub use whole::{append, carry_over, make};
