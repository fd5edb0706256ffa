//! A line of words run: over the book in its file, which is made, opened and closed for it, or as a
//! script over a book in memory. The program calls `program`, which hands its words to `command`,
//! and has nothing else. What is left of a book where the program is stopped stands in `stops`.
#![tactic(auto)]

mod book_files;
mod checking;
mod explaining;
mod from_file;
mod missing_texts;
mod over_file;
mod over_server;
mod run;
mod starting;
pub mod stops;
mod waiting;

pub use from_file::FilesLeft;
pub use over_file::Job;
pub use run::{FilesBehind, Starts, command, command_from, command_leaving};
pub use starting::program;
