//! Sets that were judged and have no fault, as values of their own: a shipment advice (943), a
//! shipping order (940) and a functional acknowledgment (997).
#![tactic(auto)]

mod acks;
mod addresses;
mod advices;
pub mod laws;
mod lines;
mod orders;
mod reading;
mod sets;
mod shipping;

pub use acks::{AckIn, ack};
pub use advices::advice;
pub use lines::{AdviceLine, Goods};
pub use orders::order;
pub use sets::{Address, Advice};
pub use shipping::{Order, OrderLine};
