//! Tests of texts that are judged, and of public calls: stores that fail, requests and responses
//! that break off. There is nothing here but tests: a crate with tests is proved twice.
#![tactic(auto)]

#[cfg(test)]
mod tests;
