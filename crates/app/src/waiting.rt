//! A line's job over the book in its files, which is waited for while somebody else has it open.
ghost use Rattle.std.specs.Prelude.{◌≡◌, ◌≤◌, true};
ghost use Rattle.sqlite.specs.WalFiles.{image_at};
ghost use Rattle.commands.specs.Stops.{fault_in};
ghost use Rattle.commands.specs.Files.{reads_any};
ghost use Rattle.app.specs.Ended.{IsBusy, IsJobEnded, IsToldAs};
ghost use Rattle.app.specs.Sessions as meant;
ghost use Rattle.app.specs.Sessions.{HasJobEnded, IsTaskEnded};
ghost use Rattle.app.specs.Working.{IsJobFor};

use crate::book_files::{fault, is_in_use};
use crate::from_file::{Ended, FilesLeft, run_from};
use crate::over_file::{Job, job_of};
use command_line::Task;
use commands::{
    CommandError, ExitStatus, LineStop, Printer, Verbosity, about_book, about_missing,
    about_opening, about_use, moment_for, tell_stop, tell_unready,
};
use sqlite::{FileFrom, Start};
use sqlite_disk::Disk;
use std::alloc::Global;
use std::time::Duration;
use std::{fs, thread};
use store::Fault;

/// How a line ended that didn't come to the files of a book.
pub(crate) fn ended_before<D: Disk + Drop>(ending: Result<ExitStatus, CommandError>) -> Ended<D>
    ensures { (result.ending ≡ ending) × (result.files ≡ FilesLeft.Untouched) }
{
    Ended {
        ending,
        files: FilesLeft::Untouched,
    }
}

// For how many seconds a book that is in use is waited for, where a line doesn't say it.
const WAIT: u16 = 5;

// How often a book that is in use is looked at, in a second.
const LOOKS_A_SECOND: u32 = 20;

// How often a book is looked at while it is in use, of a line that says for how many seconds that
// is.
fn looks_of(wait: Option<u16>) -> u32
    ensures { 1 ≤ result }
{
    let seconds = match wait {
        Some(seconds) => seconds,
        None => WAIT,
    };
    1 + u32::from(seconds) * LOOKS_A_SECOND
}

// Whether files weren't opened since somebody else has them open.
fn are_in_use<D: Disk + Drop>(files: &FilesLeft<D>) -> bool
    ensures { result ≡ true → IsBusy files.now }
{
    match files {
        FilesLeft::Unopened(error, _) => is_in_use(error),
        _ => false,
    }
}

// What stopped a job over the book in a file, with what it is about.
fn about_job<D: Disk + Drop>(
    alloc: Global,
    file: &str,
    job: &Job<'_>,
    stop: CommandError,
    files: &FilesLeft<D>,
) -> CommandError
    ensures { fault_in result ≡ fault_in stop }
{
    let is_made = matches!(job, Job::Make(_));
    if !matches!(files, FilesLeft::Unopened(_, _)) {
        return about_book(alloc, file, is_made, stop);
    }
    match stop {
        CommandError::Fault(fault) => {
            about_book(alloc, file, is_made, about_opening(alloc, file, fault))
        }
        stop => stop,
    }
}

// How a job ended, with what stopped it told for people.
fn told_of<D: Disk + Drop>(alloc: Global, file: &str, job: &Job<'_>, ended: Ended<D>) -> Ended<D>
    ensures { IsToldAs ended.ending result.ending × (result.files ≡ ended.files) }
{
    let Ended { ending, files } = ended;
    match ending {
        Ok(status) => Ended {
            ending: Ok(status),
            files,
        },
        Err(stop) => Ended {
            ending: Err(about_job(alloc, file, job, stop, &files)),
            files,
        },
    }
}

/// A line over the book in a file.
#[derive(Clone, Copy)]
pub(crate) struct FileLine<'a, 't> {
    /// The file's name.
    pub(crate) file: &'a str,
    /// For how many seconds the book is waited for while it is in use, if the line says it.
    pub(crate) wait: Option<u16>,
    /// What is asked for.
    pub(crate) task: &'t Task<'a>,
}

// Does a job over the book in a file, of which it is known whether it is there. While somebody else
// has the file open it is looked at again, so often; each look begins with a start of its own.
fn over<S: Start, F: FnMut() -> S, W: Printer, E: Printer>(
    rt: &HostRuntime,
    line: FileLine<'_, '_>,
    starts: &mut F,
    job: &Job<'_>,
    verbosity: Verbosity,
    out: &mut W,
    err: &mut E,
) -> Ended<FileFrom<S>>
    requires { F.IsAlwaysCallable starts.old }

    ensures ended { IsJobEnded W.contents (image_at S.Start) job.now out.old out.new result.ending
        result.files }
    ensures starts { F.IsAlwaysCallable starts.new }
{
    let file = line.file;
    for look in 0..looks_of(line.wait) {
        if look > 0 {
            thread::sleep(rt, Duration::from_millis(1_000 / u64::from(LOOKS_A_SECOND)));
        }
        let ended = run_from(rt, file, starts(), job, verbosity, out, err);
        if !are_in_use(&ended.files) {
            return told_of(rt.alloc(), file, job, ended);
        }
    }
    ended_before(Err(about_use(rt.alloc(), file)))
}

// Does a job over the book in a file. NotThisBook (43) where the file holds no database; Device
// (44) where it can't be made, read or written, is missing and isn't to be made, or is still in use
// after it was waited for.
fn over_found<S: Start, F: FnMut() -> S, W: Printer, E: Printer>(
    rt: &HostRuntime,
    line: FileLine<'_, '_>,
    starts: &mut F,
    job: &Job<'_>,
    verbosity: Verbosity,
    out: &mut W,
    err: &mut E,
) -> Ended<FileFrom<S>>
    requires { F.IsAlwaysCallable starts.old }

    ensures ended { IsJobEnded W.contents (image_at S.Start) job.now out.old out.new result.ending
        result.files }
    ensures starts { F.IsAlwaysCallable starts.new }
{
    if !matches!(job, Job::Make(_)) {
        // A database that is opened is made where its file is missing.
        if let Err(error) = fs::metadata(rt, line.file) {
            return ended_before(Err(about_missing(rt.alloc(), line.file, &error)));
        }
    }
    over(rt, line, starts, job, verbosity, out, err)
}

// How often a server opens its book again, with a second between: for more than a century.
const SESSIONS: u32 = u32::MAX;

// Whether a line serves until it is stopped.
fn serves_on(task: &Task<'_>) -> bool
    ensures { result ≡ meant.serves_on task.now }
{
    match task {
        Task::Serve { service, .. } => service.count.is_none(),
        _ => false,
    }
}

// Whether it stopped since its book has to be opened again.
fn has_to_reopen(ending: &Result<ExitStatus, CommandError>) -> bool {
    match ending {
        Err(CommandError::Fault(fault) | CommandError::Caused(fault, _)) => *fault == Fault::Reopen,
        _ => false,
    }
}

// Whether what stopped a server may mend: the disk had no room, or memory was wanting, and not that
// the book is damaged.
fn may_mend(stop: &CommandError) -> bool
    ensures { result ≡ meant.may_mend stop.now }
{
    match stop {
        CommandError::Usage(_) => false,
        CommandError::Fault(fault) | CommandError::Caused(fault, _) => {
            !matches!(fault, Fault::NotThisBook)
        }
    }
}

// The job of a server whose book is opened again, from the moment on that the clock shows now; the
// file that it serves stays the one that its name led to first.
fn job_again<'a>(rt: &HostRuntime, task: &Task<'a>, job: Job<'a>) -> Job<'a>
    ensures { IsJobFor reads_any task.now job.entry → IsJobFor reads_any task.now result }
{
    match (task, job) {
        (Task::Serve { at, .. }, Job::Listen(service, first, has_clock, file)) => {
            let now = moment_for(rt, *at).unwrap_or(first);
            Job::Listen(service, now, has_clock, file)
        }
        (_, job) => job,
    }
}

// Whether the file of a book that is served is still there.
fn is_served(rt: &HostRuntime, job: &Job<'_>) -> bool {
    match job {
        Job::Listen(_, _, _, file) => file.is_there(rt),
        _ => false,
    }
}

// Does the job of a line over the book in its file, once. But a server that goes on until it is
// stopped opens its book again where that is what it takes, as after a full disk, and goes on; what
// it stopped for is told.
fn do_job<'a, S: Start, F: FnMut() -> S, W: Printer, E: Printer>(
    rt: &HostRuntime,
    line: FileLine<'a, '_>,
    mut starts: F,
    first: Job<'a>,
    verbosity: Verbosity,
    out: &mut W,
    err: &mut E,
) -> Ended<FileFrom<S>>
    requires starts { F.IsAlwaysCallable starts }
    requires job { IsJobFor reads_any line.task.now first }

    ensures { HasJobEnded W.contents (image_at S.Start) line.entry.task.now out.old out.new
        result.ending result.files }
{
    let mut job = first;
    let mut ended = over_found(rt, line, &mut starts, &job, verbosity, out, err);
    if !serves_on(line.task) || !has_to_reopen(&ended.ending) {
        return ended;
    }
    for session in 0..SESSIONS {
        let Err(stop) = &ended.ending else {
            return ended;
        };
        if !may_mend(stop) || !is_served(rt, &job) {
            return ended;
        }
        tell_stop(err, stop, verbosity.explains);
        // Nobody opens them while they are open here.
        ended.files = FilesLeft::Untouched;
        thread::sleep(rt, Duration::from_secs(1));
        job = job_again(rt, line.task, job);
        ended = over_found(rt, line, &mut starts, &job, verbosity, out, err);
    }
    ended
}

/// Does over the book in a file what a line says; a book that is in use is waited for, 5 seconds
/// where the line doesn't say how long. A clock that can't be used is told before the book is
/// opened.
pub(crate) fn run_over_file<'a, S: Start, F: FnMut() -> S, W: Printer, E: Printer>(
    rt: &HostRuntime,
    line: FileLine<'a, '_>,
    starts: F,
    verbosity: Verbosity,
    out: &mut W,
    err: &mut E,
) -> Ended<FileFrom<S>>
    requires { F.IsAlwaysCallable starts }

    ensures { IsTaskEnded W.contents (image_at S.Start) line.entry.task.now out.old out.new
        result.ending result.files }
{
    match job_of(rt, line.file, line.task) {
        Ok(job) => do_job(rt, line, starts, job, verbosity, out, err),
        Err(LineStop::Refused(refusal)) => {
            ended_before(tell_unready(rt, line.task, refusal, verbosity, err))
        }
        Err(LineStop::Stopped(stop)) => ended_before(Err(stop)),
    }
}
