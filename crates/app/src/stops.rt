//! What a stop leaves of a warehouse's book, and the book that is opened on it: nothing that was
//! answered is lost.
mod answering;
mod crossing;
mod leaving;
mod passing;
mod reopening;
mod rerunning;

pub use answering::Answered;
pub use crossing::across;
pub use leaving::{a_usable_book_is_reopened_whole, something_is_left};
pub use passing::days;
pub use reopening::reopened;
pub use rerunning::{StoppedRun, run_and_stop, run_twice};
