//! The values of a line of words read, one by one.
ghost use Rattle.std.specs.Prelude.{◌≡◌, ◌≤◌, IfOk, IfErr, MatchBool, codes, length, map};
ghost use Rattle.clap.specs.Matches.{found_of};
ghost use Rattle.clap.specs.Walk.{rows_of};
ghost use Rattle.command_line.specs.Asked as meant;

use crate::moments::moment_of;
use crate::numbers::{count_of, number_of, wait_of};
use crate::words::{Endpoint, LineFault, MOST_HOSTS, Opening, Place, Service};
use clap::ArgMatches;
use segments::Moment;
use std::alloc::Global;
use std::net::SocketAddr;

/// A usage fault with a text.
pub(crate) fn usage(alloc: Global, text: &str) -> LineFault {
    match text.to_string(alloc) {
        Ok(text) => LineFault::Usage(text),
        Err(_) => LineFault::OutOfMemory,
    }
}

// The usage fault of an option whose value isn't what it wants.
fn wanting(alloc: Global, id: &str, wanted: &str) -> LineFault {
    match ["--", id, " wants ", wanted].concat(alloc) {
        Ok(text) => LineFault::Usage(text),
        Err(_) => LineFault::OutOfMemory,
    }
}

/// The moment that a line says, if it says one.
pub(crate) fn moment(alloc: Global, values: &ArgMatches<'_>) -> Result<Option<Moment>, LineFault>
    ensures { meant.Reads (meant.SaysMoment (rows_of (found_of values.now))) result }
{
    let Some(text) = values.get_str("at") else {
        return Ok(None);
    };
    match moment_of(text.as_bytes()) {
        Some(moment) => Ok(Some(moment)),
        None => Err(usage(
            alloc,
            "--at wants a moment as 2025-03-04T09:15, of the years 2000 to 2099\n",
        )),
    }
}

/// The number that a line says, if it says one.
pub(crate) fn number(alloc: Global, values: &ArgMatches<'_>) -> Result<Option<u32>, LineFault>
    ensures { meant.Reads (meant.SaysNumber (rows_of (found_of values.now))) result }
{
    let Some(text) = values.get_str("number") else {
        return Ok(None);
    };
    match number_of(text.as_bytes()) {
        Some(number) => Ok(Some(number)),
        None => Err(usage(alloc, "--number wants a number from 1 to 999999\n")),
    }
}

/// The value of a word that must be there.
pub(crate) fn given<'a>(
    alloc: Global,
    values: &ArgMatches<'a>,
    id: &str,
) -> Result<&'a str, LineFault>
    ensures ok { IfOk result (λ text. meant.Has (rows_of (found_of values.now)) id.now text.now) }
    ensures err { IfErr result
        (meant.LacksMemory (meant.IsThere (rows_of (found_of values.now)) id.now)) }
{
    match values.get_str(id) {
        Some(text) => Ok(text),
        None => Err(usage(alloc, "a word is missing\n")),
    }
}

// Where a server listens, as this option's text writes it; a fault where it writes nothing of the
// kind.
fn endpoint_in<'a>(alloc: Global, id: &str, text: &'a str) -> Result<Endpoint<'a>, LineFault>
    ensures { meant.Reads (meant.IsEndpointText text.now) result }
{
    if let Some(path) = text.strip_prefix("unix:") {
        return Ok(Endpoint::Unix(path));
    }
    match SocketAddr::parse_ascii(text.as_bytes()) {
        Ok(address) => Ok(Endpoint::Inet(address)),
        Err(_) => Err(wanting(
            alloc,
            id,
            "an IP address and a port, as 127.0.0.1:8080, or unix: and a path\n",
        )),
    }
}

// The number from 1 to 65535 that a line says as this option, if it says it; the fault where it is
// none.
fn few(
    alloc: Global,
    values: &ArgMatches<'_>,
    id: &str,
    fault: &str,
) -> Result<Option<u16>, LineFault>
    ensures { meant.Reads (meant.SaysFew (rows_of (found_of values.now)) id.now) result }
{
    let Some(text) = values.get_str(id) else {
        return Ok(None);
    };
    match count_of(text.as_bytes()) {
        Some(number) => Ok(Some(number)),
        None => Err(usage(alloc, fault)),
    }
}

// Whether this machine alone reaches it, or whoever the rights of a socket let.
fn is_near(endpoint: &Endpoint<'_>) -> bool
    ensures { MatchBool result (meant.IsNear endpoint.now) (meant.IsNear endpoint.now → ⊥) }
{
    match endpoint {
        Endpoint::Inet(address) => address.ip().is_loopback(),
        Endpoint::Unix(_) => true,
    }
}

// Where a line says by this option that a book is served, if it says it, and if that may be: other
// machines know a depositor by its ISA alone, and clerks by nothing, so an address that they reach
// wants a word more.
fn guarded_endpoint<'a>(
    alloc: Global,
    values: &ArgMatches<'a>,
    id: &str,
) -> Result<Option<Endpoint<'a>>, LineFault>
    ensures { meant.Reads (meant.SaysGuarded (rows_of (found_of values.now)) id.now) result }
{
    let Some(text) = values.get_str(id) else {
        return Ok(None);
    };
    let endpoint = endpoint_in(alloc, id, text)?;
    if is_near(&endpoint) || has_flag(values, "anyone") {
        return Ok(Some(endpoint));
    }
    Err(wanting(
        alloc,
        id,
        "127.0.0.1 or ::1, or --anyone beside an address that other machines reach\n",
    ))
}

// Where a line says that a book is served, if that may be.
fn endpoint<'a>(alloc: Global, values: &ArgMatches<'a>) -> Result<Endpoint<'a>, LineFault>
    ensures { meant.Reads (meant.IsGuarded (rows_of (found_of values.now)) (codes "listen")) result }
{
    match guarded_endpoint(alloc, values, "listen")? {
        Some(endpoint) => Ok(endpoint),
        None => Err(usage(alloc, "a word is missing\n")),
    }
}

/// What a line says as this option, if it has it.
pub(crate) fn text_of<'a>(values: &ArgMatches<'a>, id: &str) -> Option<&'a str>
    ensures { meant.SaysText (rows_of (found_of values.now)) id.now result }
{
    values.get_str(id)
}

// The fault of a line that says more names of hosts than it may.
fn has_few_hosts(alloc: Global, values: &ArgMatches<'_>) -> Result<(), LineFault>
    ensures { meant.Reads (λ nothing. meant.HasFewHosts (rows_of (found_of values.now))) result }
{
    let Some(names) = values.get_strs("host") else {
        return Ok(());
    };
    if names.len() > MOST_HOSTS {
        return Err(usage(alloc, "--host may be given eight times at most\n"));
    }
    Ok(())
}

// Eight texts: these, and the empty one for the rest.
fn filled<'a>(names: &[&'a str]) -> [&'a str; MOST_HOSTS]
    requires { length names.now ≤ meant.most_hosts }

    ensures { map (λ h. h.now) result ≡ meant.filled (map (λ n. n.now) names.now) }
{
    let mut hosts = [""; MOST_HOSTS];
    hosts[..names.len()].copy_from_slice(names);
    hosts
}

// The names of hosts that a line says.
fn hosts_of<'a>(values: &ArgMatches<'a>) -> [&'a str; MOST_HOSTS]
    requires { meant.HasFewHosts (rows_of (found_of values.now)) }

    ensures { meant.SaysHosts (rows_of (found_of values.now)) result }
{
    match values.get_strs("host") {
        Some(names) => filled(names),
        None => filled(&[]),
    }
}

/// Where a line says that a book is served, and for how long.
pub(crate) fn service_of<'a>(
    alloc: Global,
    values: &ArgMatches<'a>,
) -> Result<Service<'a>, LineFault>
    ensures { meant.Reads (meant.SaysService (rows_of (found_of values.now))) result }
{
    has_few_hosts(alloc, values)?;
    Ok(Service {
        endpoint: endpoint(alloc, values)?,
        clerks_at: guarded_endpoint(alloc, values, "clerks-at")?,
        count: few(
            alloc,
            values,
            "count",
            "--count wants a number from 1 to 65535\n",
        )?,
        patience: few(
            alloc,
            values,
            "patience",
            "--patience wants a number of seconds from 1 to 65535\n",
        )?,
        peers: few(
            alloc,
            values,
            "peers",
            "--peers wants a number of connections from 1 to 65535\n",
        )?,
        clerks: has_flag(values, "clerks"),
        hosts: hosts_of(values),
        from: text_of(values, "from"),
    })
}

/// Whether the line has an option without a value.
pub(crate) fn has_flag(values: &ArgMatches<'_>, id: &str) -> bool
    ensures { result ≡ meant.has_flag (rows_of (found_of values.now)) id.now }
{
    match values.get_str(id) {
        Some(text) => text == "true",
        None => false,
    }
}

/// Where the server listens that a line asks, if it asks one.
pub(crate) fn server<'a>(
    alloc: Global,
    values: &ArgMatches<'a>,
) -> Result<Option<Endpoint<'a>>, LineFault>
    ensures { meant.Reads (meant.SaysServer (rows_of (found_of values.now))) result }
{
    let Some(text) = values.get_str("server") else {
        return Ok(None);
    };
    let endpoint = endpoint_in(alloc, "server", text)?;
    Ok(Some(endpoint))
}

/// The file with a book that a line names. A line of the program that asks no server names one; a
/// script has a book of its own.
pub(crate) fn book_of<'a>(
    alloc: Global,
    place: Place,
    values: &ArgMatches<'a>,
) -> Result<Option<&'a str>, LineFault>
    ensures { meant.Reads (meant.NamesBook place (rows_of (found_of values.now))) result }
{
    let Some(book) = values.get_str("book") else {
        return match place {
            Place::Program => Err(usage(alloc, "--book or --server is missing\n")),
            Place::Script => Ok(None),
        };
    };
    Ok(Some(book))
}

// For how many seconds a line says that a book in use is waited for, if it says it.
fn wait(alloc: Global, values: &ArgMatches<'_>) -> Result<Option<u16>, LineFault>
    ensures { meant.Reads (meant.SaysWait (rows_of (found_of values.now))) result }
{
    let Some(text) = values.get_str("wait") else {
        return Ok(None);
    };
    match wait_of(text.as_bytes()) {
        Some(seconds) => Ok(Some(seconds)),
        None => Err(usage(alloc, "--wait wants a number of seconds from 0 to 65535\n")),
    }
}

/// How a line says that the file with its book is opened.
pub(crate) fn opening(alloc: Global, values: &ArgMatches<'_>) -> Result<Opening, LineFault>
    ensures { meant.Reads (meant.SaysOpening (rows_of (found_of values.now))) result }
{
    Ok(Opening {
        wait: wait(alloc, values)?,
        is_wary: has_flag(values, "wary"),
    })
}

/// The fault of a line that has a word which it is to lack.
pub(crate) fn without(
    alloc: Global,
    values: &ArgMatches<'_>,
    id: &str,
    fault: &str,
) -> Result<(), LineFault>
    ensures { meant.Reads (λ nothing. meant.Lacks (rows_of (found_of values.now)) id.now) result }
{
    match values.get_str(id) {
        None => Ok(()),
        Some(_) => Err(usage(alloc, fault)),
    }
}

/// The fault of a line that asks a server and says what is the server's to say.
pub(crate) fn leaves_to_server(alloc: Global, values: &ArgMatches<'_>) -> Result<(), LineFault>
    ensures { meant.Reads (λ nothing. meant.LeavesToServer (rows_of (found_of values.now))) result }
{
    without(
        alloc,
        values,
        "book",
        "--book and --server exclude each other\n",
    )?;
    without(alloc, values, "at", "--at is the server's to say\n")?;
    without(alloc, values, "wait", "--wait is for a book in a file\n")?;
    if has_flag(values, "wary") {
        return Err(usage(alloc, "--wary is for a book in a file\n"));
    }
    Ok(())
}
