//! What a line says, made ready before the book is opened (words are tested and files read), and
//! what is made ready, done over the book in a database.
ghost use Rattle.std.specs.Prelude.{◌≡◌, false, Some, IfErr, IfOk, option_map};
ghost use Rattle.seals.specs.Noted as meant;
ghost use Rattle.store.specs.Standing.{IsUnchanged};
ghost use Rattle.books.specs.Opening.{IsHandedBack, IsOpened};
ghost use Rattle.commands.specs.LineStops.{IfLineRefused};
ghost use Rattle.app.specs.Done.{IsBegun, IsJobDone, IsJobStopped, IsNotBegun, StaysAs};
ghost use Rattle.app.specs.Working.{IsJobFor, IsNoJobFor, IsWork};

use crate::book_files::{close, make};
use crate::missing_texts::tell_missing;
use books::{Book, Tables};
use command_line::{Service, Task};
use commands::{
    CommandError, ExitStatus, FileNames, LineStop, Look, Printer, Ready, ServedFile, TimeSource,
    Verbosity, about_missing, ask, hand_on, moment_for, perform, play_over, read_lines, ready_at,
    serve, show, tell_reason, tell_seal, try_ready, usage,
};
use folders::FileSystem;
use seals::{Beginning, Sealed, entries_in};
use sqlite::{Alter, Connection};
use std::alloc::Global;
use std::io;
use store::{Fault, Keeper, Moment, Refusal, Warehouse, Who};

/// What is to be done over a book, its words tested and its files read.
#[derive(Drop)]
pub enum Job<'a> {
    /// Make it.
    Make(Warehouse),
    /// Change the book.
    Change(Ready<'a>, Moment),
    /// Tell what a change would be answered, and leave the book as it is.
    Try(Ready<'a>, Moment),
    /// Show something of it.
    Look(Look<'a>),
    /// Do what the lines of a text ask for.
    Play(String),
    /// Serve it over HTTP, from a first moment on, and by the clock or not, while its name leads to
    /// this file.
    Listen(Service<'a>, Moment, bool, ServedFile<'a>),
    /// Tell its seal: of so many entries, the first ones, or of all.
    Seal(Option<u64>),
    /// Write each document that went out to a depositor to a file of this folder.
    HandOn(Who, &'a str),
    /// Compare every table with what the register gives, and its first entries with those of a
    /// beginning that was noted, if one is given.
    Check(Option<Beginning>),
}

// Does a job over a book; what is to be made is made by then.
fn work<K: Sealed, W: Printer, E: Printer>(
    rt: &HostRuntime,
    book: &mut K,
    job: &Job<'_>,
    verbosity: Verbosity,
    out: &mut W,
    err: &mut E,
) -> Result<ExitStatus, CommandError>
    ensures worked { IsWork K.Keeper.standing W.contents book.old out.old job.now
        book.new out.new result }
{
    match job {
        Job::Make(_) | Job::Check(_) => Ok(ExitStatus::Done),
        Job::Change(ready, moment) => perform(rt, book, ready, *moment, verbosity, out, err),
        Job::Try(ready, moment) => try_ready(rt.alloc(), book, ready, *moment, out, err),
        Job::Look(asked) => show(rt.alloc(), book, asked, out, err),
        Job::HandOn(who, dir) => hand_on(rt, book, *who, *dir, out, err),
        Job::Seal(first) => tell_seal(rt.alloc(), book, *first, out, err),
        Job::Play(text) => play_over(rt, book, text, verbosity, out, err),
        Job::Listen(service, first, has_clock, file) => serve(
            rt, book, file, service, *first, *has_clock, verbosity, out, err,
        ),
    }
}

/// Opens the book in a database, and says to somebody who watches how far a book of version 1 is
/// carried over. A fault hands its tables back, as `Book::open_from` does.
pub(crate) fn open_watched<S: Alter + Drop, E: io::Write>(
    alloc: Global,
    tables: Tables<S>,
    verbosity: Verbosity,
    err: &mut E,
) -> Result<Book<S>, (Fault, Tables<S>)>
    ensures ok { IfOk result (IsOpened S.Store tables) }
    ensures err { IfErr result (λ e. IsHandedBack S.Store tables e.0 e.1) }
{
    if !verbosity.watches {
        return Book::open_from(alloc, tables);
    }
    let mut is_told = false;
    let opened = Book::open_from_telling(alloc, tables, |done, all| {
        is_told = true;
        verbosity.tell_progress(err, done, all, "entries carried over");
    });
    if is_told && opened.is_err() {
        verbosity.end_progress(err);
    }
    opened
}

// Opens the book in a database, or makes it where that is the job. A fault hands the database back.
fn begin<S: Alter + Drop, E: io::Write>(
    alloc: Global,
    database: Connection<S>,
    job: &Job<'_>,
    verbosity: Verbosity,
    err: &mut E,
) -> Result<Book<S>, (Fault, Connection<S>)>
    requires { database.in_transaction ≡ false }

    ensures begun { IfOk result (IsBegun S.Store database job.now) }
    ensures none { IfErr result (λ e. IsNotBegun S.Store database e.1 job.now e.0) }
{
    match job {
        Job::Make(warehouse) => make(alloc, database, *warehouse),
        _ => match open_watched(alloc, Tables::new(database), verbosity, err) {
            Ok(book) => Ok(book),
            Err((fault, tables)) => Err((fault, tables.into_inner())),
        },
    }
}

// Tells why what a clerk did was refused, and that a text never went out, where that is asked for.
// What can't be told is left out: the refusal stands.
fn explain<K: Keeper, E: io::Write>(
    alloc: Global,
    book: &mut K,
    job: &Job<'_>,
    status: ExitStatus,
    verbosity: Verbosity,
    err: &mut E,
)
    ensures same { IsUnchanged (K.standing book.old) (K.standing book.new) }
    ensures stays { StaysAs job.now book.old book.new }
{
    if !verbosity.explains || status != ExitStatus::Refused {
        return;
    }
    match job {
        Job::Change(Ready::Clerk(slip), _) | Job::Try(Ready::Clerk(slip), _) => {
            let _ = tell_reason(alloc, book, slip, err);
        }
        Job::Look(Look::Outbox(who, Some(number))) => tell_missing(err, who.text(), *number),
        _ => {}
    }
}

/// Opens the book in a database, or makes it, does a job over it, and closes it. At a fault the
/// database is handed back as it is.
pub(crate) fn work_over<S: Alter + Drop, W: Printer, E: Printer>(
    rt: &HostRuntime,
    database: Connection<S>,
    job: &Job<'_>,
    verbosity: Verbosity,
    out: &mut W,
    err: &mut E,
) -> Result<(ExitStatus, Connection<S>), (CommandError, Connection<S>)>
    requires { database.in_transaction ≡ false }

    ensures done { IfOk result
        (λ r. IsJobDone S.Store W.contents database r.1 job.now out.old out.new r.0) }
    ensures stopped { IfErr result
        (λ e. IsJobStopped S.Store W.contents database e.1 job.now out.old out.new e.0) }
{
    let mut book = match begin(rt.alloc(), database, job, verbosity, err) {
        Ok(book) => book,
        Err((fault, database)) => return Err((CommandError::Fault(fault), database)),
    };
    match work(rt, &mut book, job, verbosity, out, err) {
        Ok(status) => {
            explain(rt.alloc(), &mut book, job, status, verbosity, err);
            Ok((status, close(book)))
        }
        Err(stop) => Err((stop, close(book))),
    }
}

// The file that is to be served. It is looked at before it is opened: so one that is replaced in
// between is noticed too.
fn found<'a, R: FileNames + AllocGlobal>(
    rt: &R,
    file: &'a str,
) -> Result<ServedFile<'a>, CommandError> {
    match ServedFile::look(rt, file) {
        Ok(served) => Ok(served),
        Err(error) => Err(about_missing(rt.alloc(), file, &error)),
    }
}

// Of how many entries a line wants the seal, if it says it.
fn first_of(alloc: Global, text: Option<&str>) -> Result<Option<u64>, CommandError>
    ensures { IfOk result (λ first. option_map (λ t. meant.entries_in t.now) text.entry
        ≡ option_map (λ n. Some n) first) }
{
    let Some(text) = text else {
        return Ok(None);
    };
    match entries_in(text.as_bytes()) {
        Some(count) => Ok(Some(count)),
        None => Err(usage(alloc, "--first wants a number from 0 to 999999999\n")),
    }
}

// The beginning of a register that a line notes, if it does.
fn noted_in(alloc: Global, text: Option<&str>) -> Result<Option<Beginning>, CommandError>
    ensures { IfOk result (λ noted. option_map (λ t. meant.beginning_in t.now) text.entry
        ≡ option_map (λ b. Some (meant.beginning b)) noted) }
{
    let Some(text) = text else {
        return Ok(None);
    };
    match Beginning::read(text.as_bytes()) {
        Some(noted) => Ok(Some(noted)),
        None => Err(usage(alloc, "--seal wants N:DIGITS, as `whx12 seal` prints it\n")),
    }
}

// What a line says is to be done over the book in a file, its words tested and its files read.
pub(crate) fn job_of<'a, R: FileSystem + FileNames + TimeSource + AllocGlobal>(
    rt: &R,
    file: &'a str,
    task: &Task<'a>,
) -> Result<Job<'a>, LineStop>
    ensures job { IfOk result (IsJobFor (R.reads rt.now) task.now) }
    ensures none { IfErr result (IfLineRefused (IsNoJobFor (R.reads rt.now) task.now)) }
{
    match task {
        Task::Init { who } => match Who::new(who.as_bytes()) {
            Some(who) => Ok(Job::Make(Warehouse::new(who))),
            None => Err(LineStop::Refused(Refusal::BadText)),
        },
        Task::Act { act, at } => {
            let made = ready_at(rt, act, *at)?;
            Ok(Job::Change(made.0, made.1))
        }
        Task::Try { act, at } => {
            let made = ready_at(rt, act, *at)?;
            Ok(Job::Try(made.0, made.1))
        }
        Task::Show(what) => match ask(what) {
            Ok(asked) => Ok(Job::Look(asked)),
            Err(refusal) => Err(LineStop::Refused(refusal)),
        },
        Task::Batch { file } => Ok(Job::Play(read_lines(rt, file)?)),
        Task::HandOn { who, dir } => match Who::new(who.as_bytes()) {
            Some(who) => Ok(Job::HandOn(who, *dir)),
            None => Err(LineStop::Refused(Refusal::BadText)),
        },
        Task::Verify { seal } => Ok(Job::Check(noted_in(rt.alloc(), *seal)?)),
        Task::Seal { first } => Ok(Job::Seal(first_of(rt.alloc(), *first)?)),
        Task::Serve { service, at } => {
            let first = moment_for(rt, *at)?;
            let served = found(rt, file)?;
            Ok(Job::Listen(*service, first, at.is_none(), served))
        }
    }
}
