//! A server that tells the health of its book: to whoever the doors let in, and of no depositor.
use super::worked::{enrolled, morning};
use super::writing::is_written;
use intake::{Access, Audience, Doors};
use std::test::Fail;

// It tells its health, also where it wants to know for whom other requests are asked.
const TELLING: Access<'static> = Access {
    audience: Audience::Partners,
    doors: Some(Doors { names: &[] }),
    from: Some("X-Depositor"),
    tells_health: true,
};

const SILENT: Access<'static> = Access {
    audience: Audience::Partners,
    doors: None,
    from: None,
    tells_health: false,
};

// One depositor is enrolled, at 09:15 on 4 March 2025.
const WELL: &str =
    "HTTP/1.1 200 OK\r\nContent-Type: text/plain\r\nContent-Length: 43\r\nConnection: close\r\n\r\nok\nversion 2.0\nentries 1\nlast 202503040915\n";

const NOT_BY_POST: &str =
    "HTTP/1.1 405 Method Not Allowed\r\nContent-Type: text/plain\r\nContent-Length: 23\r\nAllow: GET\r\nConnection: close\r\n\r\n405 Method Not Allowed\n";

const NOT_FOUND: &str =
    "HTTP/1.1 404 Not Found\r\nContent-Type: text/plain\r\nContent-Length: 14\r\nConnection: close\r\n\r\n404 Not Found\n";

const MISDIRECTED: &str =
    "HTTP/1.1 421 Misdirected Request\r\nContent-Type: text/plain\r\nContent-Length: 24\r\nConnection: close\r\n\r\n421 Misdirected Request\n";

#[test]
fn health_is_told_to_whoever_is_let_in(rt: HostRuntime) -> Result<(), Fail> {
    let (alloc, moment) = (rt.alloc(), morning()?);
    let mut book = enrolled(alloc, moment)?;
    let cases = [
        (
            TELLING,
            "GET /health HTTP/1.1\r\nHost: localhost\r\n\r\n",
            WELL,
        ),
        (TELLING, "GET /health HTTP/1.1\r\n\r\n", WELL),
        (
            TELLING,
            "POST /health HTTP/1.1\r\nContent-Length: 0\r\n\r\n",
            NOT_BY_POST,
        ),
        (
            TELLING,
            "GET /health HTTP/1.1\r\nHost: elsewhere.example\r\n\r\n",
            MISDIRECTED,
        ),
        (SILENT, "GET /health HTTP/1.1\r\n\r\n", NOT_FOUND),
    ];
    for (access, request, response) in cases {
        if !is_written(alloc, &mut book, access, moment, request, response) {
            return Err(Fail::new(format_args!("{request}")));
        }
    }
    Ok(())
}
