//! How interchanges come in: over HTTP on loopback, one request a connection, from a folder, and
//! from a file; and how clerks are served over HTTP.
#![tactic(auto)]

mod audience;
mod callers;
mod calls;
mod clerks;
mod crowd;
mod forms;
mod heading;
mod health;
pub mod laws;
mod listening;
mod looking;
mod patience;
mod queries;
mod reaching;
mod reading;
mod replies;
mod responding;
mod response;
mod routes;
mod senders;
mod served;
mod serving;
mod slips;
mod targets;
mod texts;
mod trying;

pub use audience::{Access, Audience};
pub use callers::{Caller, Callers};
pub use counted_io::Gauge;
pub use crowd::Crowd;
pub use folders::{
    FileOutcome, FolderStop, PassedOver, Taken, TakenFolder, WhyPassed, read_first,
    read_interchange, take_folder, take_folder_telling,
};
pub use listening::{serve_count, serve_within};
pub use looking::owner;
pub use patience::Patience;
pub use peers::{Door, Listener, Listeners, PeerAddress};
pub use queries::plain_number;
pub use request_guard::Doors;
pub use responding::respond;
pub use response::{Allow, Body, MediaType, Response, Status};
pub use served::{Connection, RequestLine, Served, write_sender};
pub use serving::{serve_one, serve_telling};
pub use slips::{act_of, depositor};
