//! A server behind one that says for which depositor it asks: a depositor reaches what is its own,
//! and what another has or sent is turned away, and leaves nothing.
use super::worked::{ADVICE, ANSWER, enrolled, morning};
use super::writing::{FORBIDDEN, HEAD, NONE_OUT, concat_of, is_written};
use intake::{Access, Audience};
use std::alloc::Global;
use std::test::Fail;
use store::{Keeper, Moment};

const BEHIND: Access<'static> = Access {
    audience: Audience::Clerks,
    doors: None,
    from: Some("X-Depositor"),
    tells_health: false,
};

const NOT_FOUND: &str =
    "HTTP/1.1 404 Not Found\r\nContent-Type: text/plain\r\nContent-Length: 14\r\nConnection: close\r\n\r\n404 Not Found\n";

const UNREADABLE: &str =
    "HTTP/1.1 400 Bad Request\r\nContent-Type: text/plain\r\nContent-Length: 13\r\nConnection: close\r\n\r\n1 Unreadable\n";

// Requests without their last line ends, of ZZ ACME's and of nobody's, and how they are answered
// while nothing is recorded.
const ASKED: &[(&str, &str)] = &[
    (
        "GET /outbox/ZZ-ACME HTTP/1.1\r\nX-Depositor: ZZ-ACME\r\n",
        NONE_OUT,
    ),
    (
        "GET /outbox/ZZ-ACME HTTP/1.1\r\nx-depositor: ZZ-ACME\r\n",
        NONE_OUT,
    ),
    ("GET /outbox/ZZ-ACME HTTP/1.1\r\n", FORBIDDEN),
    (
        "GET /outbox/ZZ-ACME HTTP/1.1\r\nX-Depositor: \r\n",
        FORBIDDEN,
    ),
    (
        "GET /outbox/ZZ-ACME HTTP/1.1\r\nX-Depositor: ACME\r\n",
        FORBIDDEN,
    ),
    (
        "GET /outbox/ZZ-ACME HTTP/1.1\r\nX-Depositor: ZZ-ACME2\r\n",
        FORBIDDEN,
    ),
    (
        "GET /outbox/ZZ-ACME HTTP/1.1\r\nX-Depositor: ZZ-OTHER\r\n",
        FORBIDDEN,
    ),
    (
        "GET /outbox/ZZ-ACME HTTP/1.1\r\nX-Depositor: ZZ-ACME\r\nX-Depositor: ZZ-ACME\r\n",
        FORBIDDEN,
    ),
    (
        "GET /outbox/ZZ-ACME/1 HTTP/1.1\r\nX-Depositor: ZZ-ACME\r\n",
        NOT_FOUND,
    ),
    (
        "GET /outbox/ZZ-ACME/1 HTTP/1.1\r\nX-Depositor: ZZ-OTHER\r\n",
        FORBIDDEN,
    ),
    (
        "GET /stock/ZZ-ACME HTTP/1.1\r\nX-Depositor: ZZ-OTHER\r\n",
        FORBIDDEN,
    ),
    (
        "GET /stock/ZZ-ACME/csv HTTP/1.1\r\nX-Depositor: ZZ-OTHER\r\n",
        FORBIDDEN,
    ),
    (
        "GET /open/ZZ-ACME HTTP/1.1\r\nX-Depositor: ZZ-OTHER\r\n",
        FORBIDDEN,
    ),
    (
        "GET /orders/ZZ-ACME/ORD1 HTTP/1.1\r\nX-Depositor: ZZ-OTHER\r\n",
        FORBIDDEN,
    ),
    (
        "POST /recount/ZZ-ACME/REC-1 HTTP/1.1\r\nContent-Length: 0\r\nX-Depositor: ZZ-OTHER\r\n",
        FORBIDDEN,
    ),
    (
        "GET /depositors HTTP/1.1\r\nX-Depositor: ZZ-ACME\r\n",
        FORBIDDEN,
    ),
    (
        "GET /nowhere HTTP/1.1\r\nX-Depositor: ZZ-ACME\r\n",
        NOT_FOUND,
    ),
    ("GET /nowhere HTTP/1.1\r\n", FORBIDDEN),
    (
        "POST /x12 HTTP/1.1\r\nContent-Length: 0\r\nX-Depositor: ZZ-ACME\r\n",
        UNREADABLE,
    ),
];

// Fails where a request is answered otherwise.
fn ask<K: Keeper>(
    alloc: Global,
    book: &mut K,
    moment: Moment,
    request: &str,
    response: &str,
) -> Result<(), Fail> {
    if is_written(alloc, book, BEHIND, moment, request, response) {
        Ok(())
    } else {
        Err(Fail::new(format_args!("{request}")))
    }
}

// The advice, posted by the word of what stands in front.
fn advice_from(alloc: Global, field: &str) -> Result<String, Fail> {
    let advice = std::str::from_utf8(ADVICE)?;
    let head = "POST /x12 HTTP/1.1\r\nContent-Length: 255\r\n";
    concat_of(alloc, &[head, field, "\r\n", advice])
}

#[test]
fn a_depositor_reaches_what_is_its_own(rt: HostRuntime) -> Result<(), Fail> {
    let (alloc, moment) = (rt.alloc(), morning()?);
    let mut book = enrolled(alloc, moment)?;
    let own = advice_from(alloc, "X-Depositor: ZZ-ACME\r\n")?;
    let others = advice_from(alloc, "X-Depositor: ZZ-OTHER\r\n")?;
    ask(alloc, &mut book, moment, &others, FORBIDDEN)?;
    ask(
        alloc,
        &mut book,
        moment,
        &advice_from(alloc, "")?,
        FORBIDDEN,
    )?;
    for (request, response) in ASKED {
        let request = concat_of(alloc, &[*request, "\r\n"])?;
        ask(alloc, &mut book, moment, &request, response)?;
    }
    let answer = concat_of(alloc, &[HEAD, std::str::from_utf8(ANSWER)?])?;
    ask(alloc, &mut book, moment, &own, &answer)?;
    // The stored answer isn't another's either.
    ask(alloc, &mut book, moment, &others, FORBIDDEN)?;
    ask(alloc, &mut book, moment, &own, &answer)
}
