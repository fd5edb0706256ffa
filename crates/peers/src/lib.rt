//! Many connections on one thread, by `mio` (epoll): requests are gathered as they come, and
//! responses leave as far as their peers take them, so that no peer waits for another.
#![tactic(auto)]

mod arrival;
mod entrances;
mod gathered;
mod listener;
mod peer;
mod places;
mod room;
mod sending;
mod streams;

pub use arrival::Arrival;
pub use entrances::{Door, Listeners};
pub use gathered::{End, Gathered};
pub use listener::{Listener, PeerAddress};
pub use peer::Framing;
pub use room::{Limits, Next, Room};
pub use sending::Sending;
pub use streams::PeerStream;
