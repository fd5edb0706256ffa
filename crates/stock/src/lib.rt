//! The depositors' pages: what there is of each item and lot, what was announced and ordered, which
//! documents were sent, and what each event makes of it.
#![tactic(auto)]

mod acknowledgments;
mod allotment;
mod announcements;
mod changes;
mod copies;
mod drafts;
mod facts;
mod faults;
pub mod laws;
mod left;
mod page;
mod picks;
mod places;
mod postings;
mod receipts;
mod recounts;
mod reservations;
mod searches;
mod sound;
mod steps;

pub use acknowledgments::acknowledge;
pub use allotment::allot;
pub use announcements::announce;
pub use copies::joined;
pub use drafts::Draft;
pub use page::Page;
pub use page_rows::{
    Function, KnownAdvice, KnownDocument, KnownLine, KnownOrder, Row, in_order, place_of,
    quantity_of, total,
};
pub use picks::pick;
pub use receipts::receive;
pub use recounts::recount;
pub use reservations::reserve;
pub use sheets::{Line, Sheet, SheetKind};
pub use steps::{ActStop, Change, SetStop, Step};
