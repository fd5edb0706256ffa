//! What a server writes in response to a request, whomever it answers.
use intake::{Access, Gauge, serve_telling};
use std::alloc::Global;
use std::test::Fail;
use store::{Keeper, Moment};

pub(crate) const FORBIDDEN: &str =
    "HTTP/1.1 403 Forbidden\r\nContent-Type: text/plain\r\nContent-Length: 14\r\nConnection: close\r\n\r\n403 Forbidden\n";

// The list of what went out, where nothing did.
pub(crate) const NONE_OUT: &str =
    "HTTP/1.1 200 OK\r\nContent-Type: text/plain\r\nContent-Length: 0\r\nConnection: close\r\n\r\n";

// The head of the response to the advice.
pub(crate) const HEAD: &str =
    "HTTP/1.1 200 OK\r\nContent-Type: application/EDI-X12\r\nContent-Length: 265\r\nConnection: close\r\n\r\n";

// The texts, one after the other.
pub(crate) fn concat_of(alloc: Global, texts: &[&str]) -> Result<String, Fail> {
    let mut whole = String::new(alloc);
    for text in texts {
        whole.push_str(text)?;
    }
    Ok(whole)
}

// Whether a server that answers these writes this in response to a request.
pub(crate) fn is_written<K: Keeper>(
    alloc: Global,
    book: &mut K,
    access: Access<'_>,
    moment: Moment,
    request: &str,
    response: &str,
) -> bool {
    let mut reader = Gauge::new(request.as_bytes());
    let mut writer = Gauge::new(Vec::new(alloc));
    let served = serve_telling(alloc, &mut reader, &mut writer, book, access, moment);
    served.outcome.is_ok() && writer.into_inner().as_slice() == response.as_bytes()
}
