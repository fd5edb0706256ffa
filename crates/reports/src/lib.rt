//! What people look at: the stock report and its export, the list of what went out, receiving and
//! picking sheets, the same as sheets of CSV for counts and picks, what a depositor has open, and
//! the list of depositors.
#![tactic(auto)]

mod balances;
mod columns;
mod dates;
mod depositors;
mod exports;
mod open_work;
mod opened;
mod outboxes;
mod pair_lines;
mod pick_sheets;
mod picking;
mod receiving;

pub use balances::stock_report;
pub use depositors::depositor_list;
pub use exports::{stock_csv, stock_text};
pub use open_work::open_report;
pub use outboxes::outbox_list;
pub use pick_sheets::picking_csv;
pub use picking::pick_list;
pub use receiving::{need_of_advice, receiving_csv, receiving_list};
