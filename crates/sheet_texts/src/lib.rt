//! Sheets as texts of CSV: their records, the sheet that these make, and where a text that makes
//! none is wrong.
#![tactic(auto)]

mod bad;
mod records;
mod texts;

pub use bad::{BadLine, first_bad, line_of_pair};
pub use texts::sheet;
