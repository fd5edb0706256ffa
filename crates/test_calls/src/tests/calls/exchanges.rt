//! Requests and responses over HTTP: what is answered, and what is left where a reader or a writer
//! fails.
mod texts;

use super::breaking::BreakingBook;
use super::worked::{acme, counts, empty, enrolled, faultless, morning, ninety};
use super::writing::is_written;
use case_files::clerks::{deeds, looks, request_of, response_of, strays};
use case_files::sections::section_of;
use http::Method;
use intake::{Access, Audience, Gauge, Status, respond, serve_one};
use std::alloc::Global;
use std::io::{self, ErrorKind, Read, Write};
use std::test::Fail;
use store::{Fault, Keeper, Moment, ReplayBook, SheetKind, outbox};
use texts::*;

// Gives some bytes, and then its end or an error.
#[derive(Drop)]
struct Given<'a> {
    bytes: &'a [u8],
    fails: bool,
}

impl<'a> Read for Given<'a> {
    fn read(&mut self, buf: &mut [u8]) -> io::Result<usize> {
        if self.bytes.is_empty() && self.fails {
            return Err(io::Error::from(ErrorKind::Interrupted));
        }
        self.bytes.read(buf)
    }
}

// Takes so many bytes, one a call, and then nothing, or gives an error. It counts how often it is
// flushed, of which the second fails.
#[derive(Drop)]
struct Taking {
    bytes: Vec<u8>,
    room: usize,
    fails: bool,
    flushes: u8,
}

impl Write for Taking {
    fn write(&mut self, buf: &[u8]) -> io::Result<usize> {
        if buf.is_empty() || self.bytes.len() >= self.room {
            return if self.fails {
                Err(io::Error::from(ErrorKind::Interrupted))
            } else {
                Ok(0)
            };
        }
        self.bytes.push(buf[0])?;
        Ok(1)
    }

    fn flush(&mut self) -> io::Result<()> {
        self.flushes = self.flushes.saturating_add(1);
        if self.flushes > 1 {
            return Err(io::Error::from(ErrorKind::Interrupted));
        }
        Ok(())
    }
}

// A writer with room for so many bytes.
fn with_room(alloc: Global, room: usize, fails: bool) -> Gauge<Taking> {
    Gauge::new(Taking {
        bytes: Vec::new(alloc),
        room,
        fails,
        flushes: 0,
    })
}

// What is to come of a request: whether it is served, how often the reader and the writer fail, and
// what is written.
#[derive(Drop)]
struct Exchange<'a> {
    is_served: bool,
    failed: (u64, u64),
    written: &'a [u8],
}

// Serves a request, to a writer with so much room: whether that comes of it.
fn comes_to<K: Keeper>(
    alloc: Global,
    book: &mut K,
    moment: Moment,
    request: Given<'_>,
    (room, fails): (usize, bool),
    want: Exchange<'_>,
) -> bool {
    let mut reader = Gauge::new(request);
    let mut writer = with_room(alloc, room, fails);
    let is_so = match serve_one(alloc, &mut reader, &mut writer, book, moment) {
        Ok(_) => want.is_served,
        Err(fault) => fault == Fault::Device && !want.is_served,
    };
    is_so
        && (reader.errors(), writer.errors()) == want.failed
        && writer.into_inner().bytes.as_slice() == want.written
}

// Whether a request whose bytes end is answered so.
fn is_answered<K: Keeper>(
    alloc: Global,
    book: &mut K,
    moment: Moment,
    bytes: &[u8],
    response: &[u8],
) -> bool {
    let request = Given {
        bytes,
        fails: false,
    };
    let want = Exchange {
        is_served: true,
        failed: (0, 0),
        written: response,
    };
    comes_to(alloc, book, moment, request, (10_000, true), want)
}

// Whether a request whose reader fails after these bytes ends with a fault: how often the reader
// and the writer failed, and what was written.
fn is_broken_off<K: Keeper>(
    alloc: Global,
    book: &mut K,
    moment: Moment,
    bytes: &[u8],
    room: (usize, bool),
    (failed, written): ((u64, u64), &[u8]),
) -> bool {
    let request = Given { bytes, fails: true };
    let want = Exchange {
        is_served: false,
        failed,
        written,
    };
    comes_to(alloc, book, moment, request, room, want)
}

// Whether so many texts went out.
fn has_sent<K: Keeper>(book: &mut K, count: usize) -> Result<bool, Fail> {
    match faultless(outbox(book, acme()?))? {
        Some(texts) => Ok(texts.len() == count),
        None => Ok(false),
    }
}

const BEFORE_THE_COUNT: &[(&[u8], &[u8])] = &[
    (NOTED, NOTE),
    (CUT_OFF, UNREADABLE),
    (REQUEST, RESPONSE),
    (REQUEST, RESPONSE),
    (CHANGED, CONFLICT),
    (b"GET /x12 HTTP/1.1\r\n\r\n", NO_GET),
    (b"POST /x12 HTTP/1.1\r\n\r\n", NO_LENGTH),
    (
        b"POST /x12 HTTP/1.1\r\nContent-Length: 1\r\ncontent-length: 1\r\n\r\nX",
        BAD_REQUEST,
    ),
    (
        b"POST /x12 HTTP/1.1\r\nContent-Length: +1\r\n\r\nX",
        BAD_REQUEST,
    ),
    (
        b"POST /x12 HTTP/1.1\r\nContent-Length: 1048577\r\n\r\n",
        TOO_LARGE,
    ),
    (
        b"POST /x12 HTTP/1.1\r\nContent-Length: 2\r\n\r\nX",
        BAD_REQUEST,
    ),
];

const AFTER_THE_COUNT: &[(&[u8], &[u8])] = &[
    (b"GET /stock/ZZ-ACME HTTP/1.1\r\n\r\n", STOCK),
    (b"GET /outbox/ZZ-ACME HTTP/1.1\r\n\r\n", OUTBOX),
    (b"GET /outbox/ZZ-ACME/2 HTTP/1.1\r\n\r\n", RECEIPT),
    (b"GET /outbox/ZZ-ACME/02 HTTP/1.1\r\n\r\n", NOT_FOUND),
    (b"GET /outbox/ZZ-ACME/3 HTTP/1.1\r\n\r\n", NOT_FOUND),
    (b"GET /stock/ZZ-NONE HTTP/1.1\r\n\r\n", NOT_FOUND),
    (b"GET /outbox/ACME HTTP/1.1\r\n\r\n", NOT_FOUND),
    (b"DELETE /orders HTTP/1.1\r\n\r\n", NOT_FOUND),
    (b"GET /orders/ZZ-ACME/ORD1 HTTP/1.1\r\n\r\n", NOT_FOUND),
    (b"GET /stock/ZZ-ACME/csv HTTP/1.1\r\n\r\n", NOT_FOUND),
    (b"GET /open/ZZ-ACME HTTP/1.1\r\n\r\n", NOT_FOUND),
    (b"GET /depositors HTTP/1.1\r\n\r\n", NOT_FOUND),
    (
        b"POST /recount/ZZ-ACME/R1 HTTP/1.1\r\nContent-Length: 0\r\n\r\n",
        NOT_FOUND,
    ),
    (b"POST /stock/ZZ-ACME HTTP/1.1\r\n\r\n", NO_POST),
    (
        b"GET / HTTP/1.1\r\ntransfer-encoding: chunked\r\n\r\n",
        ENCODED,
    ),
    (ACKNOWLEDGMENT, EMPTY),
    (ACKNOWLEDGMENT, EMPTY),
];

// Fails at the first of the requests that is answered otherwise.
fn all_answered<K: Keeper>(
    alloc: Global,
    book: &mut K,
    moment: Moment,
    rows: &[(&[u8], &[u8])],
) -> Result<(), Fail> {
    for (i, (request, response)) in rows.iter().enumerate() {
        if !is_answered(alloc, book, moment, request, response) {
            return Err(Fail::new(format_args!("request {i}")));
        }
    }
    Ok(())
}

#[test]
fn requests_are_answered(rt: HostRuntime) -> Result<(), Fail> {
    let (alloc, acme, moment) = (rt.alloc(), acme()?, morning()?);
    let sheet = ninety(alloc, SheetKind::Count)?;
    let mut book = enrolled(alloc, moment)?;
    all_answered(alloc, &mut book, moment, BEFORE_THE_COUNT)?;
    assert!(rt; counts(alloc, &mut book, acme, &sheet, moment));
    all_answered(alloc, &mut book, moment, AFTER_THE_COUNT)
}

const AFTER_THE_FAULT: &[(&[u8], &[u8])] = &[
    (REQUEST, STORE_FAULT),
    (REQUEST, REOPEN_FAULT),
    (b"GET /stock/ZZ-ACME HTTP/1.1\r\n\r\n", REOPEN_FAULT),
    (b"GET /outbox/ZZ-ACME HTTP/1.1\r\n\r\n", REOPEN_FAULT),
    (b"GET /outbox/ZZ-ACME/1 HTTP/1.1\r\n\r\n", REOPEN_FAULT),
    (b"GET /x12 HTTP/1.1\r\n\r\n", NO_GET),
];

// A commit that fails in the store is answered with 41, and what asks the book after it with 42.
#[test]
fn a_fault_is_answered_by_its_number(rt: HostRuntime) -> Result<(), Fail> {
    let moment = morning()?;
    let mut book = BreakingBook::new(enrolled(rt.alloc(), moment)?, 0, false);
    all_answered(rt.alloc(), &mut book, moment, AFTER_THE_FAULT)
}

const OF_CLERKS: Access<'static> = Access {
    audience: Audience::Clerks,
    doors: None,
    from: None,
    tells_health: false,
};

// Whether a request of this line and body is answered as a case says.
fn is_case<K: Keeper>(
    alloc: Global,
    book: &mut K,
    moment: Moment,
    line: &str,
    body: &str,
    case: &str,
) -> Result<bool, Fail> {
    let request = request_of(alloc, line, body)?;
    let response = response_of(alloc, section_of(case, "answered").1)?;
    Ok(is_written(alloc, book, OF_CLERKS, moment, &request, &response))
}

// Fails at the first case of a text that is answered otherwise.
fn all_written<K: Keeper>(
    alloc: Global,
    book: &mut K,
    moment: Moment,
    text: &str,
) -> Result<(), Fail> {
    for case in text.split("@case ").skip(1) {
        let (line, body) = section_of(case, "asked");
        if !is_case(alloc, book, moment, line, body, case)? {
            return Err(Fail::new(format_args!("{case}")));
        }
    }
    Ok(())
}

// Fails at the first deed of a text that is answered otherwise, when it is tried or then done.
fn all_tried_and_done<K: Keeper>(
    alloc: Global,
    book: &mut K,
    moment: Moment,
    text: &str,
) -> Result<(), Fail> {
    for case in text.split("@case ").skip(1) {
        let (line, body) = section_of(case, "asked");
        let path = line.strip_prefix("POST ").ok_or("a deed")?;
        let tried = ["POST /try", path].concat(alloc)?;
        if !is_case(alloc, book, moment, tried.as_str(), body, case)?
            || !is_case(alloc, book, moment, line, body, case)?
        {
            return Err(Fail::new(format_args!("{case}")));
        }
    }
    Ok(())
}

#[test]
fn clerks_are_answered(rt: HostRuntime) -> Result<(), Fail> {
    let (alloc, moment) = (rt.alloc(), morning()?);
    let mut book = enrolled(alloc, moment)?;
    all_tried_and_done(alloc, &mut book, moment, deeds::CASES)?;
    all_written(alloc, &mut book, moment, looks::CASES)?;
    all_written(alloc, &mut book, moment, strays::CASES)
}

// A path that isn't UTF-8, which no head has.
#[test]
fn a_path_that_is_no_text_is_not_found(rt: HostRuntime) -> Result<(), Fail> {
    let moment = morning()?;
    let mut book = empty(rt.alloc())?;
    let path = b"/stock/\xff";
    let response = respond(rt.alloc(), &mut book, &Method::GET, path, b"", moment);
    assert!(rt; response.status == Status::NotFound);
    Ok(())
}

// Fails at the first beginning of a request that isn't answered 400, or after which an error isn't
// 44 with nothing written.
fn all_begun<K: Keeper>(alloc: Global, book: &mut K, moment: Moment) -> Result<(), Fail> {
    for k in 0..REQUEST.len() {
        let bytes = &REQUEST[..k];
        let is_so = is_answered(alloc, book, moment, bytes, BAD_REQUEST)
            && is_broken_off(alloc, book, moment, bytes, (10_000, true), ((1, 0), b""));
        if !is_so {
            return Err(Fail::new(format_args!("{k}")));
        }
    }
    Ok(())
}

// Each beginning of a request is 400, and an error after it is 44 with nothing written. The book is
// as before.
#[test]
fn requests_break_off_at_each_byte(rt: HostRuntime) -> Result<(), Fail> {
    let (alloc, moment) = (rt.alloc(), morning()?);
    let mut book = enrolled(alloc, moment)?;
    all_begun(alloc, &mut book, moment)?;
    assert!(rt; has_sent(&mut book, 0)?);
    assert!(rt; is_answered(alloc, &mut book, moment, REQUEST, RESPONSE));
    Ok(())
}

// Whether a response that breaks off there is the beginning of it, and the interchange is taken.
fn is_taken<K: Keeper>(
    alloc: Global,
    book: &mut K,
    moment: Moment,
    room: (usize, bool),
    begun: &[u8],
) -> Result<bool, Fail> {
    Ok(
        is_broken_off(alloc, book, moment, REQUEST, room, ((0, 1), begun))
            && has_sent(book, 1)?
            && is_answered(alloc, book, moment, REQUEST, RESPONSE),
    )
}

// A writer that takes so many bytes and then fails, or takes nothing: what it took is the beginning
// of the response, and the interchange is taken.
#[test]
fn responses_break_off_at_each_byte(rt: HostRuntime) -> Result<(), Fail> {
    let (alloc, moment) = (rt.alloc(), morning()?);
    for room in 0..RESPONSE.len() {
        let begun = &RESPONSE[..room];
        for fails in [true, false] {
            let mut book = enrolled(alloc, moment)?;
            assert!(rt;
                is_taken(alloc, &mut book, moment, (room, fails), begun)?,
                "{room}"
            );
        }
    }
    Ok(())
}

// A flush of a gauge flushes its device once, and has its answer.
#[test]
fn a_flush_goes_through(rt: HostRuntime) {
    let mut writer = with_room(rt.alloc(), 0, false);
    let first = (writer.flush().is_ok(), writer.errors());
    let second = (writer.flush().is_ok(), writer.errors());
    assert!(rt; first == (true, 0) && second == (false, 1));
    assert!(rt; writer.into_inner().flushes == 2);
}
