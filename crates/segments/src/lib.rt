//! Segments of an X12 text, cut from it and written into it, and the small values that their
//! elements hold: delimiters, numbers, moments, identifiers and partners. Elements judged by their
//! rows: the one meaning of an element row, for control segments and for the segments of sets.
#![tactic(auto)]

mod begin;
mod cutting;
mod delims;
mod digits;
mod faults;
mod idents;
mod kinds;
mod moments;
mod partners;
mod writing;

pub use begin::cut;
pub use cutting::{Cut, Segment, part};
pub use delims::Delims;
pub use digits::{all_digits, number, value_up_to};
pub use faults::{ElementFault, SetFault, faulty_element, is_well_formed};
pub use idents::{Ident, all_alphanumeric};
pub use kinds::{ElementRow, Kind, element_fault};
pub use moments::{Moment, is_day};
pub use partners::Who;
pub use writing::{append_parts, write_segment};
