//! Judging a set: the first segment in error of a shipment advice (943), a shipping order (940) or
//! a functional acknowledgment (997), by the order in which segments may stand and by the elements
//! that each may have.
#![tactic(auto)]

mod acknowledgment;
mod advice;
mod checked;
mod faults;
mod ids;
mod order;
mod rows;
mod stages;

pub use checked::{Checked, is_closed, judge};
pub use definitions::SetKind;
