//! What a fault or a refusal is about, for people. It is told where it is asked for, after the
//! fault or the refusal, and changes nothing.
ghost use Rattle.std.specs.Prelude.{◌≡◌, Some};
ghost use Rattle.std.specs.IoError.{error_kind};
ghost use Rattle.folders.specs.Folders.{fault_of_kind};
ghost use Rattle.commands.specs.Stops.{fault_in, HasDeviceFault};

use crate::files::{MOST_SHEET, read_within};
use crate::told::CommandError;
use command_line::{BookAct, ClerkWords, Endpoint, Show, Task};
use definitions::{MOST_NUMBER, MOST_TICKET};
use folders::{FileSystem, IntoStep, IntoStop, write_name};
use intake::FolderStop;
use itoa::Buffer;
use sheet_texts::first_bad;
use std::alloc::{AllocError, Global};
use std::io;
use store::{Fault, Ident, Refusal, SheetKind, Who};

// A name, and what is said of it.
fn named(alloc: Global, name: &str, said: &str) -> Result<String, AllocError> {
    [name, said].concat(alloc)
}

// A fault with its cause; without memory for the text it is the fault alone.
fn caused(fault: Fault, cause: Result<String, AllocError>) -> CommandError
    ensures { fault_in result ≡ Some fault }
{
    match cause {
        Ok(cause) => CommandError::Caused(fault, cause),
        Err(_) => CommandError::Fault(fault),
    }
}

// A fault with what is said of the thing with this name.
fn caused_of(alloc: Global, fault: Fault, name: &str, said: &str) -> CommandError
    ensures { fault_in result ≡ Some fault }
{
    caused(fault, named(alloc, name, said))
}

// What is wrong with a name where something was looked for, to stand after the name.
fn reason_of(kind: io::ErrorKind) -> &'static str {
    match kind {
        io::ErrorKind::NotFound => ": no such file",
        io::ErrorKind::PermissionDenied => ": no right to it",
        io::ErrorKind::IsADirectory => ": it is a folder",
        io::ErrorKind::NotADirectory => ": a part of its path is no folder",
        _ => ": it can't be read",
    }
}

/// The fault of a file that can't be read, with its name: Device (44), or want of memory.
pub fn about_file(alloc: Global, file: &str, error: &io::Error) -> CommandError
    ensures told { fault_in result ≡ Some (fault_of_kind (error_kind error.now)) }
    ensures device { HasDeviceFault result }
{
    match error.kind() {
        io::ErrorKind::OutOfMemory => CommandError::Fault(Fault::OutOfMemory),
        kind => caused_of(alloc, Fault::Device, file, reason_of(kind)),
    }
}

/// The fault of a book that isn't there, with the command that makes one.
pub fn about_missing(alloc: Global, book: &str, error: &io::Error) -> CommandError
    ensures told { fault_in result ≡ Some (fault_of_kind (error_kind error.now)) }
    ensures device { HasDeviceFault result }
{
    match error.kind() {
        io::ErrorKind::NotFound => caused(
            Fault::Device,
            [
                book,
                ": no such file; `whx12 init WHO --book ",
                book,
                "` makes a book",
            ]
            .concat(alloc),
        ),
        _ => about_file(alloc, book, error),
    }
}

/// The fault of a book that is in use after it was waited for.
pub fn about_use(alloc: Global, book: &str) -> CommandError
    ensures { fault_in result ≡ Some Fault.Device }
{
    caused_of(
        alloc,
        Fault::Device,
        book,
        " is in use: is a server running? Ask it by --server ADDR, or wait longer by --wait SECONDS",
    )
}

/// The fault of a book that was replaced while it was served.
pub fn about_replaced(alloc: Global, book: &str) -> CommandError
    ensures { fault_in result ≡ Some Fault.Device }
{
    caused_of(
        alloc,
        Fault::Device,
        book,
        " was removed or replaced while it was served: look for what was answered since, then serve it again",
    )
}

/// The fault of a file that can't be opened as a database.
pub fn about_opening(alloc: Global, book: &str, fault: Fault) -> CommandError
    ensures { fault_in result ≡ Some fault }
{
    if fault != Fault::Device {
        return CommandError::Fault(fault);
    }
    caused_of(
        alloc,
        fault,
        book,
        " can't be opened: look at its rights, those of its folder, and whether it has a second name (a hard link)",
    )
}

// What a fault says of a book, after its name, if it says something.
fn said_of_book(fault: Fault, is_made: bool) -> Option<&'static str> {
    match fault {
        Fault::NotThisBook if is_made => Some(" has a book already, or other tables"),
        Fault::NotThisBook => {
            Some(" is no book of this program, or is damaged: see docs/OPERATIONS.md on backups")
        }
        Fault::Store => {
            Some(": the database refused a statement; is it a book, and its disk full or failing?")
        }
        _ => None,
    }
}

/// What happened to a book in a file at a fault, as far as its number says it.
pub fn about_book(alloc: Global, book: &str, is_made: bool, stop: CommandError) -> CommandError
    ensures { fault_in result ≡ fault_in stop }
{
    let CommandError::Fault(fault) = stop else {
        return stop;
    };
    match said_of_book(fault, is_made) {
        Some(said) => caused_of(alloc, fault, book, said),
        None => CommandError::Fault(fault),
    }
}

/// The fault of an endpoint at which nobody can listen.
pub fn about_endpoint(alloc: Global, endpoint: &Endpoint<'_>, error: io::Error) -> CommandError
    ensures told { fault_in result ≡ Some (fault_of_kind (error_kind error)) }
    ensures device { HasDeviceFault result }
{
    let CommandError::Fault(fault) = CommandError::from(error) else {
        return CommandError::Fault(Fault::Device);
    };
    match endpoint.text(alloc) {
        Ok(endpoint) => caused_of(
            alloc,
            fault,
            &endpoint,
            " can't be listened at: is a server running there?",
        ),
        Err(_) => CommandError::Fault(fault),
    }
}

/// The fault of a server that doesn't serve what it is asked for, with where it listens and what is
/// said of it.
pub fn about_server(
    alloc: Global,
    server: &Endpoint<'_>,
    fault: Fault,
    said: &'static str,
) -> CommandError
    ensures { fault_in result ≡ Some fault }
{
    match server.text(alloc) {
        Ok(server) => caused_of(alloc, fault, &server, said),
        Err(_) => CommandError::Fault(fault),
    }
}

/// The fault of a document that couldn't be left in a folder.
pub fn about_document(alloc: Global, dir: &str, number: u32, error: &io::Error) -> CommandError
    ensures told { fault_in result ≡ Some (fault_of_kind (error_kind error.now)) }
    ensures device { HasDeviceFault result }
{
    let mut digits = Buffer::new();
    match [dir, "/", digits.format(number), ".x12"].concat(alloc) {
        Ok(path) => about_file(alloc, &path, error),
        Err(_) => about_file(alloc, dir, error),
    }
}

// What is said of the file at which the taking of a folder stopped, before the count of the files
// that were taken before it.
fn said_of_file(fault: Fault) -> &'static str {
    match fault {
        Fault::Device =>
            ": it can't be read, or its answer can't be written; files taken before it: ",
        _ => ": the taking stopped here; files taken before it: ",
    }
}

// What is said of a thing, and a count after it.
fn counted(alloc: Global, name: &str, said: &str, count: u64) -> Result<String, AllocError> {
    let mut number = Buffer::new();
    [name, said, number.format(count)].concat(alloc)
}

// The name of a file as it is told, so that none forges a line.
fn told_name(alloc: Global, name: &str) -> Result<String, AllocError> {
    let mut told = Vec::new(alloc);
    if write_name(&mut told, name).is_err() {
        return Err(AllocError);
    }
    match String::from_utf8(told) {
        Ok(told) => Ok(told),
        Err(_) => Err(AllocError),
    }
}

// What is said of a file in a folder, and the count of the files before it.
fn at_file(
    alloc: Global,
    dir: &str,
    name: &str,
    said: &str,
    taken: u64,
) -> Result<String, AllocError> {
    let name = told_name(alloc, name)?;
    let path = [dir, "/", name.as_str()].concat(alloc)?;
    counted(alloc, &path, said, taken)
}

/// The fault at which the taking of a folder stopped, with the file and how many were taken before
/// it; of a folder that can't be read, with its name.
pub fn about_stop(alloc: Global, dir: &str, stop: &FolderStop) -> CommandError
    ensures { fault_in result ≡ Some stop.now.fault }
{
    let fault = stop.fault;
    match &stop.at {
        Some(name) => {
            let said = said_of_file(fault);
            caused(fault, at_file(alloc, dir, name, said, stop.taken))
        }
        None if fault == Fault::Device => {
            caused_of(alloc, fault, dir, ": it is no folder that can be read")
        }
        None => CommandError::Fault(fault),
    }
}

/// The fault at which the taking of a folder into another stopped, with the folder or the file that
/// it is about.
pub fn about_into_stop(alloc: Global, dir: &str, done: &str, stop: &IntoStop) -> CommandError
    ensures { fault_in result ≡ Some stop.now.stop.fault }
{
    let fault = stop.stop.fault;
    match stop.step {
        IntoStep::Listing => about_stop(alloc, dir, &stop.stop),
        IntoStep::Taking => match [done, "/taking"].concat(alloc) {
            Ok(taking) => about_stop(alloc, &taking, &stop.stop),
            Err(_) => CommandError::Fault(fault),
        },
        _ if fault == Fault::Device => caused_of(
            alloc,
            fault,
            done,
            ": no folder can be made, renamed or brought down to the disk in it",
        ),
        _ => CommandError::Fault(fault),
    }
}

// What a name, a ticket and a number may be, to stand after one that isn't.
const PARTNER: &str =
    ": a name is a qualifier of two characters, a hyphen and an id of 2 to 15, as ZZ-ACME, of A to Z, 0 to 9, - and .";

const TICKET: &str = ": a ticket has 1 to 20 characters of A to Z, 0 to 9, - and .";

const NUMBER: &str = ": a number has 1 to 22 characters of A to Z, 0 to 9, - and .";

// A word that can't be read, and what it may be.
#[derive(Clone, Copy)]
struct BadWord<'a> {
    word: &'a str,
    wanted: &'static str,
}

// The word that should name a partner, if it doesn't.
fn bad_partner<'a>(word: &'a str) -> Option<BadWord<'a>> {
    match Who::new(word.as_bytes()) {
        Some(_) => None,
        None => Some(BadWord {
            word,
            wanted: PARTNER,
        }),
    }
}

// The word that should be an identifier of so many characters, if it isn't one.
fn bad_ident<'a>(word: &'a str, most: usize, wanted: &'static str) -> Option<BadWord<'a>> {
    match Ident::new(word.as_bytes(), most) {
        Some(_) => None,
        None => Some(BadWord { word, wanted }),
    }
}

// The first of a clerk's words that can't be read.
fn bad_clerk_word<'a>(words: &ClerkWords<'a>) -> Option<BadWord<'a>> {
    if let Some(bad) = bad_partner(words.who) {
        return Some(bad);
    }
    if let Some(bad) = bad_ident(words.ticket, MOST_TICKET, TICKET) {
        return Some(bad);
    }
    match words.kind {
        SheetKind::Recount => None,
        _ => bad_ident(words.number, MOST_NUMBER, NUMBER),
    }
}

// What a line would do to a book, done or tried.
fn act_in<'t, 'a>(task: &'t Task<'a>) -> Option<&'t BookAct<'a>> {
    match task {
        Task::Act { act, .. } | Task::Try { act, .. } => Some(act),
        _ => None,
    }
}

// The first word of a line that can't be read; files aren't looked at.
fn bad_word<'a>(task: &Task<'a>) -> Option<BadWord<'a>> {
    match task {
        Task::Init { who } | Task::HandOn { who, .. } => bad_partner(*who),
        Task::Act { act, .. } | Task::Try { act, .. } => match act {
            BookAct::Enrol { who } => bad_partner(*who),
            BookAct::Clerk(words) => bad_clerk_word(words),
            _ => None,
        },
        Task::Show(Show::Advice { who, number, .. } | Show::Order { who, number, .. }) =>
            bad_partner(*who).or(bad_ident(*number, MOST_NUMBER, NUMBER)),
        Task::Show(Show::Stock { who, .. } | Show::Open { who } | Show::Outbox { who, .. }) => {
            bad_partner(*who)
        }
        _ => None,
    }
}

/// What is wrong at a line of a file.
pub(crate) fn at_line(
    alloc: Global,
    file: &str,
    line: u64,
    why: &str,
) -> Result<String, AllocError> {
    let mut number = Buffer::new();
    [file, " line ", number.format(line), ": ", why].concat(alloc)
}

// Why the sheet in a file is refused.
fn about_sheet<R: FileSystem + AllocGlobal>(
    rt: &R,
    words: &ClerkWords<'_>,
    refusal: Refusal,
) -> Result<Option<String>, CommandError> {
    let (alloc, file) = (rt.alloc(), words.sheet);
    let Some(text) = read_within(rt, file, MOST_SHEET)? else {
        return Ok(Some(named(alloc, file, " has more than 1,048,576 bytes")?));
    };
    match first_bad(alloc, words.kind, &text, refusal)? {
        Some(bad) => Ok(Some(at_line(alloc, file, bad.line, &bad.why)?)),
        None => Ok(None),
    }
}

/// Why the words of a line, or its sheet, are refused (30 to 33), as a line without its end; None
/// where that isn't known.
pub fn about_line<R: FileSystem + AllocGlobal>(
    rt: &R,
    task: &Task<'_>,
    refusal: Refusal,
) -> Result<Option<String>, CommandError> {
    if let Some(bad) = bad_word(task) {
        return Ok(Some(named(rt.alloc(), bad.word, bad.wanted)?));
    }
    match act_in(task) {
        Some(BookAct::Clerk(words)) => about_sheet(rt, words, refusal),
        Some(BookAct::Roster { file }) => Ok(Some(named(
            rt.alloc(),
            *file,
            ": a list is TOML with the key `depositors`, an array of names as \"ZZ-ACME\"",
        )?)),
        _ => Ok(None),
    }
}
