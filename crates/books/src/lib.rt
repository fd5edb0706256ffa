//! A warehouse's book in SQLite tables: what a crash leaves is a prefix of what was answered.
#![tactic(auto, using(book_statements::proofs::Limited::spends_both, book_statements::proofs::Limited::spends_same))]

mod blank;
mod book;
mod keeping;
mod ram_disk;
mod sealing;
mod verifying;

pub use blank::is_blank;
pub use book::Book;
pub use book_tables::Tables;
