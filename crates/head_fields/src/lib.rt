//! The fields of an HTTP head by their names (RFC 9110, section 5), as `httparse` found them, and
//! how much of a head is read.
#![tactic(auto)]

mod limits;
mod values;

pub use limits::{MOST_FIELDS, MOST_HEAD};
pub use values::{Values, is_among, values_of};
