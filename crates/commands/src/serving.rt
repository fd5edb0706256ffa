//! A book served over HTTP.
ghost use Rattle.std.specs.Prelude.{◌≡◌, ◌≤◌, ℕ, OnOk, OnErr, unwrap_or};
ghost use Rattle.store.specs.Standing.{GoesOn};
ghost use Rattle.intake.specs.Connections.{IsEnough, IsServed};
ghost use Rattle.commands.specs.Serving as meant;
ghost use Rattle.commands.specs.Serving.{AfterLook, NextMoment, Comes, HasServed, HasServedUpTo};

use crate::causes::{about_endpoint, about_replaced};
use crate::clock::now;
use crate::clock_told::tell_clock;
use crate::endpoints::{listen_for, remove_sockets, tell_endpoints};
use crate::served_files::ServedFile;
use crate::told::{CommandError, ExitStatus};
use crate::verbosity::Verbosity;
use command_line::Service;
use http::StatusCode;
use intake::{
    Access, Audience, Callers, Connection, Crowd, Doors, Listeners, Patience, RequestLine,
    serve_within, write_sender,
};
use std::io;
use std::time::Duration;
use store::{Fault, Keeper, Moment};

// How many seconds a request is waited for, and its response, where a line doesn't say it.
const PATIENCE: u16 = 30;

// How long a service waits for a request, and for its response.
fn patience_of<'a>(rt: &'a HostRuntime, service: &Service<'_>) -> Patience<'a, HostRuntime> {
    let seconds = match service.patience {
        Some(seconds) => seconds,
        None => PATIENCE,
    };
    Patience {
        timer: rt,
        limit: Duration::from_secs(u64::from(seconds)),
    }
}

// Whose requests a service takes.
fn audience_of(clerks: bool) -> Audience
    ensures { result ≡ meant.audience_of clerks }
{
    if clerks {
        Audience::Clerks
    } else {
        Audience::Testers
    }
}

// Whom a service answers where it listens for all.
fn access_of<'s>(service: &'s Service<'_>) -> Access<'s>
    ensures { meant.IsAccessOf service.now result }
{
    Access {
        audience: audience_of(service.clerks),
        doors: Some(Doors {
            names: &service.hosts,
        }),
        from: service.from,
        tells_health: true,
    }
}

// How many connections a service serves: more than any lives to serve, where nobody says.
fn count_of(count: Option<u16>) -> u64
    ensures { result ≡ meant.count_of count }
{
    match count {
        Some(count) => u64::from(count),
        None => u64::MAX,
    }
}

// Prints what became of a connection at once: the status that was answered, or the fault.
fn tell_outcome<W: io::Write>(out: &mut W, outcome: &Result<StatusCode, Fault>) -> io::Result<()> {
    match outcome {
        Ok(status) => {
            let number = status.as_u16();
            write!(out, "{number}\n")?;
        }
        Err(fault) => {
            let (number, name) = (fault.number(), fault.name());
            write!(out, "fault {number} {name}\n")?;
        }
    }
    out.flush()
}

// Says when a connection came, and from where.
fn tell_peer<E: io::Write>(err: &mut E, connection: &Connection) -> io::Result<()> {
    let at = connection.moment;
    let (year, month, day) = (at.year(), at.month(), at.day());
    let (hour, minute) = (at.hour(), at.minute());
    write!(err, "{year}-{month:02}-{day:02}T{hour:02}:{minute:02} ")?;
    match &connection.peer {
        Some(peer) => write!(err, "{peer} "),
        None => err.write_all(b"- "),
    }
}

// Says what was asked for on a connection: the method and the path of its head.
fn tell_asked<E: io::Write>(err: &mut E, line: &Option<RequestLine>) -> io::Result<()> {
    let Some(line) = line else {
        return err.write_all(b"- - ");
    };
    // A terminal could obey what stands in a path beyond ASCII.
    let path = line.path.as_bytes().escape_ascii();
    err.write_all(line.method.as_bytes())?;
    write!(err, " {path} ")
}

// Says what a connection came to: the status or the number of the fault, the bytes of the response,
// and the milliseconds.
fn tell_end<E: io::Write>(err: &mut E, connection: &Connection) -> io::Result<()> {
    let number = match &connection.served.outcome {
        Ok(status) => status.as_u16(),
        Err(fault) => u16::from(fault.number()),
    };
    let bytes = connection.served.bytes;
    write!(err, "{number} {bytes} bytes")?;
    match connection.millis {
        Some(millis) => write!(err, " {millis} ms\n"),
        None => err.write_all(b"\n"),
    }
}

// Tells of responses that left in part alone, if there are any. What can't be told is left out.
fn tell_lost<E: io::Write>(err: &mut E, lost: u32) {
    if lost > 0 {
        let _ = write!(
            err,
            "fault 44 Device: {lost} not taken whole by their peers\n"
        );
    }
}

// Tells of a connection on a line of its own: moment, peer, method, path, whose interchange was
// handed in, status or fault, bytes and milliseconds, with `-` for what isn't known.
fn tell_connection<E: io::Write>(err: &mut E, connection: &Connection) -> io::Result<()> {
    tell_peer(err, connection)?;
    tell_asked(err, &connection.served.line)?;
    write_sender(err, &connection.served.sender)?;
    err.write_all(b" ")?;
    tell_end(err, connection)
}

// The moment that was found; the last good one where none was.
fn moment_after(found: Option<Moment>, last: Moment) -> Moment
    ensures { result ≡ unwrap_or found last }
{
    match found {
        Some(moment) => moment,
        None => last,
    }
}

// Serves as `serve_on` does, to those who have access. The clock's moment is what `ask` gives,
// which is called once for each connection; None where the clock can't be used then.
fn serve_asking<
    L: Callers,
    K: Keeper,
    F: FnMut() -> Option<Moment>,
    A: FnMut() -> bool,
    W: io::Write,
    E: io::Write,
>(
    rt: &HostRuntime,
    callers: &mut L,
    service: &Service<'_>,
    access: Access<'_>,
    book: &mut K,
    first: Moment,
    has_clock: bool,
    mut ask: F,
    admits: A,
    verbosity: Verbosity,
    out: &mut W,
    err: &mut E,
) -> Result<ExitStatus, CommandError>
    requires asks { (f : F) → F.pre f }
    requires admits { A.IsAlwaysCallable admits }

    ensures served { OnOk result ((total : ℕ) × (n : ℕ)
        × IsEnough total n (meant.count_of service.now.count) × Comes F.step
        (λ old c new. IsServed access.entry (K.standing old) (K.standing new) c)
        has_clock ask first book.old book.new total n) }
    ensures ended { OnErr result ((total : ℕ) × (n : ℕ)
        × (n ≤ meant.count_of service.now.count) × Comes F.step
        (λ old c new. IsServed access.entry (K.standing old) (K.standing new) c)
        has_clock ask first book.old book.new total n) }
    ensures goes { GoesOn (K.standing book.old) (K.standing book.new) }
{
    let mut last = first;
    let mut is_told = true;
    let clock = move ||
        requires { (f : F) → F.pre f }

        ensures { NextMoment F.step has_clock (ask.entry, last.entry) result (ask.exit, last.exit) }
    {
        if has_clock {
            last = moment_after(ask(), last);
        }
        last
    };
    serve_within(
        rt.alloc(),
        callers,
        count_of(service.count),
        book,
        access,
        clock,
        |connection: Connection| {
            // Who looks whether it is well isn't counted, and isn't told either.
            if !connection.served.is_health
                && tell_outcome(out, &connection.served.outcome).is_err()
            {
                is_told = false;
            }
            tell_lost(err, connection.lost);
            if verbosity.explains {
                let _ = tell_connection(err, &connection);
            }
        },
        admits,
        &patience_of(rt, service),
    )?;
    if is_told {
        Ok(ExitStatus::Done)
    } else {
        Err(CommandError::Fault(Fault::Device))
    }
}

/// Serves so many connections as the service says, and prints what became of each.
/// The moment of each is `first`, or the clock's if `has_clock`; where the clock can't be used, the
/// last good one. Device (44) where an outcome couldn't be printed, which is told at the end;
/// Reopen (42) where the book has to be opened again. Where it is asked for, a line on standard
/// error tells of each connection; what can't be told there is left out. Device ends it at once
/// where `admits`, which is asked before anything of a connection is read, says no.
pub fn serve_on<L: Callers, K: Keeper, A: FnMut() -> bool, W: io::Write, E: io::Write>(
    rt: &HostRuntime,
    callers: &mut L,
    service: &Service<'_>,
    book: &mut K,
    first: Moment,
    has_clock: bool,
    admits: A,
    verbosity: Verbosity,
    out: &mut W,
    err: &mut E,
) -> Result<ExitStatus, CommandError>
    requires admits { A.IsAlwaysCallable admits }

    ensures served { OnOk result (HasServed K.standing (meant.access_of service.now)
        has_clock first book.old book.new (meant.count_of service.now.count)) }
    ensures ended { OnErr result (HasServedUpTo K.standing (meant.access_of service.now)
        has_clock first book.old book.new (meant.count_of service.now.count)) }
    ensures goes { GoesOn (K.standing book.old) (K.standing book.new) }
{
    serve_asking(
        rt,
        callers,
        service,
        access_of(service),
        book,
        first,
        has_clock,
        || now(rt),
        admits,
        verbosity,
        out,
        err,
    )
}

/// The connections of a service's listeners, as many at once as it says.
pub fn crowd_of<'r, 's>(
    rt: &'r HostRuntime,
    listeners: Listeners,
    service: &'s Service<'_>,
) -> io::Result<Crowd<'r, 's, HostRuntime>> {
    Crowd::open(
        rt,
        rt.alloc(),
        listeners,
        access_of(service),
        count_of(service.count),
        service.peers,
        &patience_of(rt, service),
    )
}

/// Serves the book of a file where a service says, and where it is asked for says where it
/// listens. A clock before the last entry, or a day or more after it, is told on standard error
/// first. Beyond the faults of `serve_on` it is Device (44) where it can't listen, and where the
/// file's name leads to another file, or to none, when a connection comes.
pub fn serve<K: Keeper, W: io::Write, E: io::Write>(
    rt: &HostRuntime,
    book: &mut K,
    file: &ServedFile<'_>,
    service: &Service<'_>,
    first: Moment,
    has_clock: bool,
    verbosity: Verbosity,
    out: &mut W,
    err: &mut E,
) -> Result<ExitStatus, CommandError>
    ensures served { OnOk result (AfterLook K.standing book.old
        (λ start. HasServed K.standing (meant.access_of service.now)
        has_clock first start book.new (meant.count_of service.now.count))) }
    ensures ended { OnErr result (AfterLook K.standing book.old
        (λ start. HasServedUpTo K.standing (meant.access_of service.now)
        has_clock first start book.new (meant.count_of service.now.count))) }
    ensures goes { GoesOn (K.standing book.old) (K.standing book.new) }
{
    tell_clock(book, has_clock, first, err);
    let listeners = listen_for(rt, service)?;
    if verbosity.explains {
        tell_endpoints(err, &listeners, service);
    }
    let mut crowd = match crowd_of(rt, listeners, service) {
        Ok(crowd) => crowd,
        Err(error) => return Err(about_endpoint(rt.alloc(), &service.endpoint, error)),
    };
    let is_there = || file.is_there(rt);
    let ended = serve_on(
        rt, &mut crowd, service, book, first, has_clock, is_there, verbosity, out, err,
    );
    tell_lost(err, crowd.finish());
    remove_sockets(rt, service);
    match ended {
        Err(CommandError::Fault(Fault::Device)) if !file.is_there(rt) => {
            Err(about_replaced(rt.alloc(), file.name()))
        }
        ended => ended,
    }
}
