//! Requests to a server with `--clerks`, the responses to them, and what a command with `--server` prints of these.
//!
//! A text is made of sections (sections.rt). Each case has the line of a request after `asked`, with its body below; the response below `answered`, whose
//! head has its lines with LF alone here; by what a command tells it (`document`, `report`, or `look` of what only clerks are shown); what that prints; and its exit status after `ends`, with what is told on
//! standard error below.

pub mod deeds;
pub mod looks;
pub mod strays;

use std::alloc::{AllocError, Global};

/// A request of this line and body. The error is want of memory.
pub fn request_of(alloc: Global, line: &str, body: &str) -> Result<String, AllocError> {
    let length = body.len();
    format!(in alloc; "{line} HTTP/1.1\r\nContent-Length: {length}\r\n\r\n{body}")
}

/// The response whose text stands in a case. The error is want of memory.
pub fn response_of(alloc: Global, text: &str) -> Result<String, AllocError> {
    let (head, body) = text.split_once("\n\n").unwrap_or((text, ""));
    let mut response = String::new(alloc);
    for line in head.split('\n') {
        response.push_str(line)?;
        response.push_str("\r\n")?;
    }
    response.push_str("\r\n")?;
    response.push_str(body)?;
    Ok(response)
}
