//! Requests to a running server: HTTP/1.1, one request a connection (RFC 9112).

mod answers;
mod calling;
mod heading;
pub mod laws;
mod paths;
mod reading;
mod requests;

pub use answers::{ServerAnswer, Unanswered, read_answer};
pub use calling::call;
pub use paths::path_of;
pub use requests::{Request, Verb, write_request};
