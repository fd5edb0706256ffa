//! How the tables of a warehouse's book are laid out in SQLite, what the texts of statements over
//! them mean, and the statements that write: tables are made, an entry is added with what it
//! changes, a book of version 1 is carried over. Each is part of a transaction that its caller
//! begins and ends.
#![tactic(auto)]

mod appending;
mod calls;
mod carrying;
mod changing;
mod inserting;
mod making;
mod names;
mod recording;
mod running;
mod texts;
mod writing;

pub use appending::write_entry;
pub use calls::Calls;
pub use carrying::carry_all;
pub use changing::apply_all;
pub use making::make_all;
pub use names::{BOOK_TABLES, TableName};
