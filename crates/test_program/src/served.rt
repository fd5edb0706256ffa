//! A book that is served.
ghost use Rattle.std.specs.Prelude.{◌≡◌, false};

use crate::left::open_book;
use crate::ran::{Wanted, do_lines, run_lines};
use crate::serving::{Nobody, ServedAt, Told, served, service_at, told_of};
use crate::telling::{hold, tell};
use crate::texts::{advice, answer, remove_book, text_of};
use case_files::clerks::response_of;
use commands::ServedFile;
use sqlite::{Alter, Connection};
use std::fs;
use std::io::{Read, Write};
use std::net::{TcpListener, TcpStream};
use std::test::Fail;
use store::{Command, Keeper, Moment, ReplayBook, Warehouse, Who, submit};

// The head of the response to the advice; its answer comes after it.
const HEAD: &str = "HTTP/1.1 200 OK\r\nContent-Type: application/EDI-X12\r\nContent-Length: 265\r\n\
Connection: close\r\n\r\n";

// The request that posts an interchange.
fn posted(rt: &HostRuntime, interchange: &str) -> Result<String, Fail> {
    let length = interchange.len();
    Ok(format!(in rt.alloc();
        "POST /x12 HTTP/1.1\r\nHost: localhost\r\nContent-Length: {length}\r\n\r\n{interchange}"
    )?)
}

// Enrols ZZ ACME.
fn enrol<K: Keeper>(rt: &HostRuntime, book: &mut K, moment: Moment) -> Result<(), Fail> {
    let who = Who::new(b"ZZ-ACME").ok_or("a depositor")?;
    match submit(rt.alloc(), book, &Command::Enrol(who), moment) {
        Ok(_) => Ok(()),
        Err(fault) => Err(Fail::new(format_args!("fault {}", fault.number()))),
    }
}

// A book in memory of which ZZ ACME is a depositor.
fn enrolled(rt: &HostRuntime, moment: Moment) -> Result<ReplayBook, Fail> {
    let who = Who::new(b"ZZ-WHSE1").ok_or("a warehouse")?;
    let mut book = ReplayBook::new(rt.alloc(), Warehouse::new(who));
    enrol(rt, &mut book, moment)?;
    Ok(book)
}

// Connects to an address, and writes a request.
fn asked(rt: &HostRuntime, listener: &TcpListener, request: &[u8]) -> Result<TcpStream, Fail> {
    let mut client = TcpStream::connect(rt, listener.local_addr()?)?;
    client.write_all(request)?;
    Ok(client)
}

// All that a client is answered.
fn heard(rt: &HostRuntime, client: &mut TcpStream) -> Result<Vec<u8>, Fail> {
    let mut whole = Vec::new(rt.alloc());
    client.read_to_end(&mut whole)?;
    Ok(whole)
}

// What comes of two requests.
#[derive(Clone, Copy)]
struct Two<'a> {
    // whether the moments are the clock's
    has_clock: bool,
    // the statuses that are printed
    printed: &'a [u8],
    // what each line begins with
    begins: &'a str,
    // what the line of each says
    says: (&'a str, &'a str),
}

// Whether a line begins so and says something.
fn says(line: Option<&str>, begins: &str, what: &str) -> bool {
    match line {
        Some(line) => line.starts_with(begins) && line.contains(what),
        None => false,
    }
}

// Whether this is what comes of the two, and no more.
fn is_told(told: &Told, two: &Two<'_>) -> bool {
    let mut lines = told.err.lines();
    told.out.as_slice() == two.printed
        && says(lines.next(), two.begins, two.says.0)
        && says(lines.next(), two.begins, two.says.1)
        && lines.next().is_none()
}

// Serves two clients. A failure, if something else comes of them.
fn serve_two<K: Keeper>(
    rt: &HostRuntime,
    listener: &TcpListener,
    book: &mut K,
    moment: Moment,
    two: &Two<'_>,
) -> Result<(), Fail> {
    let at = ServedAt {
        all: listener,
        clerks: None,
    };
    let told = served(rt, at, book, moment, two.has_clock, false)?;
    if is_told(&told, two) {
        Ok(())
    } else {
        Err(Fail::new(format_args!("told: {}", told.err)))
    }
}

// Serves two clients that wrote these requests before: what each is answered.
fn two_answered<K: Keeper>(
    rt: &HostRuntime,
    listener: &TcpListener,
    book: &mut K,
    moment: Moment,
    first: &[u8],
    second: &[u8],
    two: &Two<'_>,
) -> Result<(Vec<u8>, Vec<u8>), Fail> {
    let mut first = asked(rt, listener, first)?;
    let mut second = asked(rt, listener, second)?;
    serve_two(rt, listener, book, moment, two)?;
    Ok((heard(rt, &mut first)?, heard(rt, &mut second)?))
}

const STRANGER: &[u8] = b"GET /stock/ZZ-NONE HTTP/1.1\r\n\r\n";

const WITHOUT_LENGTH: &[u8] = b"POST /x12 HTTP/1.1\r\n\r\n";

const BY_THE_CLOCK: Two<'static> = Two {
    has_clock: true,
    printed: b"404\n411\n",
    begins: "",
    says: (" GET /stock/ZZ-NONE - 404 ", " POST /x12 - 411 "),
};

const POSTED: Two<'static> = Two {
    has_clock: false,
    printed: b"200\n409\n",
    begins: "2025-03-04T09:15 127.0.0.1:",
    says: (
        " POST /x12 ZZ-ACME 200 359 bytes ",
        " POST /x12 ZZ-ACME 409 254 bytes ",
    ),
};

// Whether the advice, and another under its control number, are answered and told.
fn are_posted<K: Keeper>(
    rt: &HostRuntime,
    listener: &TcpListener,
    book: &mut K,
    moment: Moment,
) -> Result<bool, Fail> {
    let advice = posted(rt, &advice(rt)?)?;
    let other = posted(rt, &text_of(rt, "inboxes/b.x12")?)?;
    let response = format!(in rt.alloc(); "{HEAD}{}", answer(rt)?.trim_end())?;
    let (answer, conflict) = two_answered(
        rt,
        listener,
        book,
        moment,
        advice.as_bytes(),
        other.as_bytes(),
        &POSTED,
    )?;
    let refused = response_of(rt.alloc(), &text_of(rt, "served/conflict.response")?)?;
    Ok(answer.as_slice() == response.as_bytes() && conflict.as_slice() == refused.as_bytes())
}

const NOT_ACCEPTED: &str =
    "2025-03-04T09:15 - - - - 44 0 bytes\n2025-03-04T09:15 - - - - 44 0 bytes\n";

// Whether two that couldn't be accepted are told as 44.
fn are_not_accepted<K: Keeper>(
    rt: &HostRuntime,
    listener: &TcpListener,
    book: &mut K,
    moment: Moment,
) -> Result<bool, Fail> {
    let service = service_at(listener, false)?;
    let told = told_of(rt, &mut Nobody, &service, book, moment, false)?;
    let printed = b"fault 44 Device\nfault 44 Device\n".as_slice();
    Ok(told.out.as_slice() == printed && told.err.as_str() == NOT_ACCEPTED)
}

// Clients that wrote before they are served, one after the other: two by the clock, and two at one
// moment. One that can't be accepted is told as 44, and counts as a connection.
fn each_connection_is_told(rt: &HostRuntime) -> Result<(), Fail> {
    let moment = Moment::new(2025, 3, 4, 9, 15).ok_or("a moment")?;
    let mut book = enrolled(rt, moment)?;
    let listener = TcpListener::bind(rt, "127.0.0.1:0")?;
    two_answered(
        rt,
        &listener,
        &mut book,
        moment,
        STRANGER,
        WITHOUT_LENGTH,
        &BY_THE_CLOCK,
    )?;
    hold(
        are_posted(rt, &listener, &mut book, moment)?,
        "two are posted",
    )?;
    hold(
        are_not_accepted(rt, &listener, &mut book, moment)?,
        "two are not accepted",
    )
}

// A recount of a depositor without goods, and a picking sheet.
const RECOUNT: &[u8] =
    b"POST /recount/ZZ-ACME/REC-1 HTTP/1.1\r\nContent-Length: 11\r\n\r\nBOLT,L1,90\n";

const PICKING: &[u8] = b"GET /orders/ZZ-NONE/ORD1 HTTP/1.1\r\n\r\n";

// Whether two clerks get these statuses, and the second this body: the second asks where clerks
// alone do, if there is such an address.
fn are_served<K: Keeper>(
    rt: &HostRuntime,
    at: ServedAt<'_, '_>,
    book: &mut K,
    moment: Moment,
    clerks: bool,
    (printed, body): (&[u8], &str),
) -> Result<bool, Fail> {
    let _first = asked(rt, at.all, RECOUNT)?;
    let mut second = asked(rt, at.clerks.unwrap_or(at.all), PICKING)?;
    let is_printed = served(rt, at, book, moment, false, clerks)?.out.as_slice() == printed;
    Ok(is_printed && heard(rt, &mut second)?.ends_with(body.as_bytes()))
}

// Only a server that is told to takes what clerks ask for; where they have an address of their own,
// there alone.
fn clerks_are_served_where_it_is_said(rt: &HostRuntime) -> Result<(), Fail> {
    let moment = Moment::new(2025, 3, 4, 9, 15).ok_or("a moment")?;
    let mut book = enrolled(rt, moment)?;
    let listener = TcpListener::bind(rt, "127.0.0.1:0")?;
    let own = TcpListener::bind(rt, "127.0.0.1:0")?;
    let at_one = ServedAt {
        all: &listener,
        clerks: None,
    };
    let at_two = ServedAt {
        all: &listener,
        clerks: Some(&own),
    };
    let without: (&[u8], &str) = (b"404\n404\n", "404 Not Found\n");
    let with: (&[u8], &str) = (b"422\n404\n", "20 UnknownDepositor\n");
    let apart: (&[u8], &str) = (b"404\n404\n", "20 UnknownDepositor\n");
    let is_closed = are_served(rt, at_one, &mut book, moment, false, without)?;
    hold(is_closed, "clerks are served by no other server")?;
    let is_apart = are_served(rt, at_two, &mut book, moment, false, apart)?;
    hold(is_apart, "clerks are served at their own address alone")?;
    let is_open = are_served(rt, at_one, &mut book, moment, true, with)?;
    hold(is_open, "clerks are served")
}

const IN_USE: Wanted<'static> = Wanted {
    printed: "",
    told: "fault 44 Device\n",
    status: 3,
};

// Nobody can listen where somebody listens.
fn an_address_in_use_is_a_fault(rt: &HostRuntime) -> Result<(), Fail> {
    let listener = TcpListener::bind(rt, "127.0.0.1:0")?;
    let at = listener.local_addr()?;
    let line = format!(in rt.alloc(); "serve --listen {at} --count 1")?;
    remove_book(rt, "served.book", "served.book-wal")?;
    do_lines(rt, "served.book", "init ZZ-WHSE1")?;
    run_lines(rt, "served.book", &line)?.compare("in use", &IN_USE)?;
    Ok(())
}

// Serves the book in a database to two clients, and lets it go.
fn serve_and_leave<S: Alter + Drop>(
    rt: &HostRuntime,
    conn: Connection<S>,
    listener: &TcpListener,
    moment: Moment,
) -> Result<(), Fail>
    requires { conn.in_transaction ≡ false }
{
    let mut book = open_book(rt, conn)?;
    let is_posted = are_posted(rt, listener, &mut book, moment)?;
    hold(is_posted, "two are posted to a book in a file")
}

const SERVED: Wanted<'static> = Wanted {
    printed: "     1 ANS -\nok 2\n",
    told: "",
    status: 0,
};

// What was answered is there where the server stopped.
fn what_a_server_answered_is_in_its_book(rt: &HostRuntime) -> Result<(), Fail> {
    remove_book(rt, "served.book", "served.book-wal")?;
    let lines = "init ZZ-WHSE1\nenrol ZZ-ACME --at 2025-03-04T09:15";
    do_lines(rt, "served.book", lines)?;
    let listener = TcpListener::bind(rt, "127.0.0.1:0")?;
    let moment = Moment::new(2025, 3, 4, 9, 15).ok_or("a moment")?;
    match Connection::open(rt, "served.book") {
        Ok(conn) => serve_and_leave(rt, conn, &listener, moment)?,
        Err(error) => return Err(Fail::from(error)),
    }
    run_lines(rt, "served.book", "outbox ZZ-ACME\nverify")?.compare("served", &SERVED)
}

// A book that is restored over, or removed, is another file.
fn a_book_that_is_replaced_is_noticed(rt: &HostRuntime) -> Result<(), Fail> {
    let file = ServedFile::look(rt, "served.book")?;
    hold(file.is_there(rt), "the book is there")?;
    fs::copy(rt, "served.book", "restored.book")?;
    fs::rename(rt, "restored.book", "served.book")?;
    hold(!file.is_there(rt), "another book is there")?;
    fs::remove_file(rt, "served.book")?;
    hold(!file.is_there(rt), "no book is there")
}

/// Plays them.
pub(crate) fn all(rt: &HostRuntime) -> Result<(), Fail> {
    tell(rt, "each connection is told", each_connection_is_told(rt))?;
    tell(
        rt,
        "clerks are served where it is said",
        clerks_are_served_where_it_is_said(rt),
    )?;
    tell(
        rt,
        "an address in use is a fault",
        an_address_in_use_is_a_fault(rt),
    )?;
    tell(
        rt,
        "what a server answered is in its book",
        what_a_server_answered_is_in_its_book(rt),
    )?;
    tell(
        rt,
        "a book that is replaced is noticed",
        a_book_that_is_replaced_is_noticed(rt),
    )
}
