//! Texts of cases that are constants: sets, requests of clerks and the responses to them; and how a text is read, its sections
//! and the parts that stand in it more than once. `test_calls` takes them from here, since its tests have no files;
//! `test_program` plays those of clerks too, and has the other cases in files.
#![tactic(auto)]

pub mod clerks;
pub mod sections;
pub mod sets;
pub mod spreading;
