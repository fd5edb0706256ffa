//! A warehouse's book, whichever way it is kept: commands that are submitted to it, what they
//! leave, and what can be asked.
#![tactic(auto)]

mod keeping;
pub mod laws;
mod leaving;
mod replaying;
mod rows;
mod sending;
mod serving;

pub use definitions::Fault;
pub use keeping::{Extent, Keeper};
pub use leaving::{memory_is_never_in_doubt, what_is_kept_is_left};
pub use replaying::ReplayBook;
pub use rows::{DocumentState, OutRow, StockRow};
pub use rules::{
    Act, Address, Change, Command, Decision, Entry, Goods, Ident, Key, Known, KnownAdvice,
    KnownLine, KnownOrder, Line, Moment, Need, OutKind, Page, Refusal, Row, Sheet, SheetKind,
    Warehouse, Who, decide, decide_again, need, subject,
};
pub use serving::{Outcome, Reply, outbox, run, stock, submit, submit_under, text, try_out};
