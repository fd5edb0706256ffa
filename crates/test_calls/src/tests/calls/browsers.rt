//! A server with doors: what a browser sends for a page of somebody else is turned away, and leaves
//! nothing; other requests are answered as without doors.
use super::worked::{ADVICE, ANSWER, enrolled, morning};
use super::writing::{FORBIDDEN, HEAD, NONE_OUT, concat_of, is_written};
use intake::{Access, Audience, Doors};
use std::alloc::Global;
use std::test::Fail;
use store::{Keeper, Moment};

const MISDIRECTED: &str =
    "HTTP/1.1 421 Misdirected Request\r\nContent-Type: text/plain\r\nContent-Length: 24\r\nConnection: close\r\n\r\n421 Misdirected Request\n";

const BAD: &str =
    "HTTP/1.1 400 Bad Request\r\nContent-Type: text/plain\r\nContent-Length: 16\r\nConnection: close\r\n\r\n400 Bad Request\n";

const ENCODED: &str =
    "HTTP/1.1 501 Not Implemented\r\nContent-Type: text/plain\r\nContent-Length: 20\r\nConnection: close\r\n\r\n501 Not Implemented\n";

// The lines of a head after its first, without Content-Length, of an advice that is posted; and how
// it is answered. In between nothing is recorded.
const TURNED_AWAY: &[(&str, &str)] = &[
    ("Host: evil.example\r\n", MISDIRECTED),
    ("Host: dock.example.evil.example\r\n", MISDIRECTED),
    ("Host: evil.dock.example\r\n", MISDIRECTED),
    ("Host: \r\n", MISDIRECTED),
    ("Host: :8080\r\n", MISDIRECTED),
    ("Host: localhost\r\nHost: localhost\r\n", BAD),
    ("Host: localhost\r\nOrigin: null\r\n", FORBIDDEN),
    (
        "Host: localhost\r\nOrigin: http://evil.example\r\n",
        FORBIDDEN,
    ),
    ("Origin: http://localhost\r\n", FORBIDDEN),
    (
        "Host: localhost\r\nSec-Fetch-Site: cross-site\r\n",
        FORBIDDEN,
    ),
    (
        "Host: localhost\r\nOrigin: http://localhost\r\nContent-Type: text/plain\r\n",
        FORBIDDEN,
    ),
    (
        "Host: localhost\r\nSec-Fetch-Mode: no-cors\r\nContent-Type: text/plain\r\n",
        FORBIDDEN,
    ),
    (
        "Host: evil.example\r\nTransfer-Encoding: chunked\r\n",
        MISDIRECTED,
    ),
    ("Host: localhost\r\nTransfer-Encoding: chunked\r\n", ENCODED),
];

// Of the same advice, posted by a program, by a page of the server's own, and under its given name.
const ANSWERED: &[&str] = &[
    "Host: Dock.Example:8080\r\n",
    "Host: edi.example\r\n",
    "Host: 127.0.0.1:8080\r\nContent-Type: application/x-www-form-urlencoded\r\n",
    "Host: localhost\r\nOrigin: http://localhost\r\nSec-Fetch-Site: same-origin\r\nContent-Type: application/EDI-X12\r\n",
    "",
];

const WITH_DOORS: Access<'static> = Access {
    audience: Audience::Partners,
    doors: Some(Doors {
        names: &["first.example,edi.example", "dock.example"],
    }),
    from: None,
    tells_health: false,
};

// Fails where the advice, posted with these lines in its head, is answered otherwise.
fn post<K: Keeper>(
    alloc: Global,
    book: &mut K,
    moment: Moment,
    lines: &str,
    response: &str,
) -> Result<(), Fail> {
    let advice = std::str::from_utf8(ADVICE)?;
    let head = "POST /x12 HTTP/1.1\r\nContent-Length: 255\r\n";
    let request = concat_of(alloc, &[head, lines, "\r\n", advice])?;
    if is_written(alloc, book, WITH_DOORS, moment, &request, response) {
        Ok(())
    } else {
        Err(Fail::new(format_args!("{lines}")))
    }
}

#[test]
fn what_a_browser_sends_for_others_is_turned_away(rt: HostRuntime) -> Result<(), Fail> {
    let (alloc, moment) = (rt.alloc(), morning()?);
    let mut book = enrolled(alloc, moment)?;
    for (lines, response) in TURNED_AWAY {
        post(alloc, &mut book, moment, lines, response)?;
    }
    let outbox = "GET /outbox/ZZ-ACME HTTP/1.1\r\nHost: localhost\r\n\r\n";
    assert!(rt; is_written(alloc, &mut book, WITH_DOORS, moment, outbox, NONE_OUT));
    let answer = concat_of(alloc, &[HEAD, std::str::from_utf8(ANSWER)?])?;
    for lines in ANSWERED {
        post(alloc, &mut book, moment, lines, &answer)?;
    }
    Ok(())
}
