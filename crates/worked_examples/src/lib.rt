//! Worked examples of the definitions, evaluated by the checker: proofs/Rows*.antt.
//! They stand in a crate of their own, so that after one more no other crate is proved again.
//! Nothing here runs.
#![tactic(auto)]
