//! The program's commands, done over a book of any kind: what a line of words asks for is made
//! ready, done and told. The book in its file, and the program's own line, are the crate's above
//! this one.
#![tactic(auto)]

mod acts;
mod causes;
mod clock;
mod clock_told;
mod dock_sheets;
mod endpoints;
mod enrolments;
mod files;
mod handing_on;
mod line_stops;
mod printing;
mod reasons;
mod script;
mod sealing;
mod served_files;
mod serving;
mod shows;
mod slips;
mod takes;
mod takes_into;
mod tasks;
mod told;
mod tries;
mod verbosity;

pub use acts::{Ready, perform, ready_at};
pub use causes::{
    about_book, about_document, about_file, about_missing, about_opening, about_server, about_use,
};
pub use clock::{TimeSource, moment_for};
pub use command_line::Service;
pub use files::read_lines;
pub use handing_on::{Document, hand_on, leave_telling};
pub use line_stops::LineStop;
pub use printing::{Printer, print};
pub use reasons::{KeptPair, reason, tell_cause, tell_reason, tell_unready};
pub use script::{play_over, run_script};
pub use sealing::tell_seal;
pub use served_files::{FileId, FileNames, ServedFile};
pub use serving::{crowd_of, serve, serve_on};
pub use shows::{Look, ask, show};
pub use slips::{Slip, sheet_text_of};
pub use takes_into::Inbox;
pub use told::{CommandError, ExitStatus, tell_refusal, tell_stop, tell_text, usage};
pub use tries::{tell_tried, try_ready};
pub use verbosity::Verbosity;
