//! A folder of interchanges: each is handed in, and its answer written beside it.
#![tactic(auto)]

mod answers;
mod aside;
mod calls;
mod claims;
mod documents;
mod file_system;
mod files;
mod folder;
mod into;
pub mod laws;
mod lines;
mod names;
mod naming;
mod passing;
mod paths;
mod staying;
mod system;
mod told_names;

pub use documents::{DocumentLeft, is_sent, leave_document};
pub use file_system::{EntryKind, FileSystem, FolderEntry};
pub use files::{read_first, read_interchange};
pub use folder::{FileOutcome, FolderStop, Taken, TakenFolder, take_folder, take_folder_telling};
pub use into::{IntoStep, IntoStop, TakenInto, take_into};
pub use naming::{Done, RunFolder};
pub use passing::{PassedOver, WhyPassed};
pub use staying::{Staying, WhyStays};
pub use told_names::write_name;
