//! What a page is made of: rows of pairs, advices, orders and documents, and what rows and lines
//! tell of a pair. Nothing here knows a page.
#![tactic(auto)]

mod bounds;
mod corrections;
mod documents;
mod known_advices;
mod known_orders;
mod lines;
mod lots;
mod rows;

pub use bounds::are_within;
pub use corrections::{are_on_hand, has_below, has_unknown};
pub use documents::{Function, KnownDocument};
pub use known_advices::{KnownAdvice, total};
pub use known_orders::{KnownLine, KnownOrder};
pub use lines::{exceeds, in_order, is_of, quantity_of};
pub use lots::{all_shares, new_line};
pub use rows::{Column, Row, amount_of, place_of, rank_of};
