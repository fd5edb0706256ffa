//! A job over the book in files, whatever these hold: what is proved for every start of a disk
//! holds of the file that the program is given.
ghost use Rattle.std.specs.Prelude.{◌≡◌, IfErr, IfOk, IsTrue};
ghost use Rattle.sqlite.specs.Held.{state};
ghost use Rattle.sqlite.specs.Tree.{Trees};
ghost use Rattle.sqlite.specs.Files.{over_files};
ghost use Rattle.sqlite.specs.WalFiles.{image_at};
ghost use Rattle.app.specs.FileEnds.{IsChecked, IsClosing, IsJobEnd, IsRunEnd, IsWorkStop};
ghost use Rattle.app.specs.FromFile.{IsDoneFrom};

use crate::book_files::fault;
use crate::checking::check_over;
use crate::over_file::{Job, work_over};
use commands::{CommandError, ExitStatus, Printer, Verbosity};
use seals::Beginning;
use sqlite::{Alter, Connection, Error, FileFrom, FileStore, Files, Leftover, Start};
use sqlite_disk::Disk;
use std::io;

/// What is left of the files of a book.
#[derive(Drop)]
pub enum FilesLeft<D: Disk + Drop> {
    /// They weren't opened.
    Untouched,
    /// They couldn't be opened as a database, for this error. What is left of them is handed back,
    /// but where the system itself didn't open them.
    Unopened(Error, Option<Leftover<D>>),
    /// The database that was opened, as it was left.
    Open(Connection<FileStore<D>>),
    /// They were opened, and the book in them couldn't be checked or isn't whole.
    Unchecked,
    /// The log couldn't be copied into the file: it still holds what isn't copied, and the next
    /// opening finds it there.
    Unclosed(FileStore<D>),
    /// They were closed: what was committed is in the file, also without its log.
    Closed(Files<D>),
}

/// How a line ended, and what is left of the files of its book.
#[derive(Drop)]
pub struct Ended<D: Disk + Drop> {
    /// The status, or what stopped it.
    pub ending: Result<ExitStatus, CommandError>,
    /// What is left of the files.
    pub files: FilesLeft<D>,
}

// Does nothing when it runs: where a database is open, a crash leaves what was committed to it, and
// nothing else.
fn settle<S: Alter>(database: &Connection<S>)
    ensures { IsTrue (state S.Store database.now).is_open → (db : Trees)
        → (state S.Store database.now).may_leave db
        → db ≡ (state S.Store database.now).committed.trees }
{
    let _ = database;
}

/// Opens the files of a book and does a job over it. The database is handed back as the job left
/// it.
pub(crate) fn work_from<S: Start, W: Printer, E: Printer>(
    rt: &HostRuntime,
    file: &str,
    start: S,
    job: &Job<'_>,
    verbosity: Verbosity,
    out: &mut W,
    err: &mut E,
) -> Result<
    (ExitStatus, Connection<FileStore<FileFrom<S>>>),
    (CommandError, FilesLeft<FileFrom<S>>),
>
    ensures done { IfOk result (λ r. IsDoneFrom over_files W.contents (image_at S.Start) r.1 job.now
        out.old out.new r.0) }
    ensures stopped { IfErr result (λ e. IsWorkStop W.contents (image_at S.Start) job.now out.old
        out.new e.0 e.1) }
{
    match Connection::open_from(rt, file, false, start) {
        Ok(database) => {
            settle(&database);
            match work_over(rt, database, job, verbosity, out, err) {
                Ok(done) => Ok(done),
                Err((stop, left)) => Err((stop, FilesLeft::Open(left))),
            }
        }
        Err((error, left)) => Err((
            CommandError::Fault(fault(&error)),
            FilesLeft::Unopened(error, left),
        )),
    }
}

// Closes the files of a book over which a job was done: what was committed is then in the file,
// also without its log.
fn close_after<D: Disk + Drop>(status: ExitStatus, database: Connection<FileStore<D>>) -> Ended<D>
    ensures { IsClosing database status result.ending result.files }
{
    match database.close_files() {
        Ok(files) => Ended {
            ending: Ok(status),
            files: FilesLeft::Closed(files),
        },
        Err((error, store)) => Ended {
            ending: Err(CommandError::Fault(fault(&error))),
            files: FilesLeft::Unclosed(store),
        },
    }
}

// Opens the files of a book, does a job over it, and closes them.
fn do_from<S: Start, W: Printer, E: Printer>(
    rt: &HostRuntime,
    file: &str,
    start: S,
    job: &Job<'_>,
    verbosity: Verbosity,
    out: &mut W,
    err: &mut E,
) -> Ended<FileFrom<S>>
    ensures { IsJobEnd W.contents (image_at S.Start) job.now out.old out.new result.ending
        result.files }
{
    match work_from(rt, file, start, job, verbosity, out, err) {
        Ok((status, database)) => close_after(status, database),
        Err((stop, files)) => Ended {
            ending: Err(stop),
            files,
        },
    }
}

// Opens the files of a book, checks it whole, and closes them.
fn check_from<S: Start, W: io::Write, E: io::Write>(
    rt: &HostRuntime,
    file: &str,
    start: S,
    noted: &Option<Beginning>,
    verbosity: Verbosity,
    out: &mut W,
    err: &mut E,
) -> Ended<FileFrom<S>>
    ensures { IsChecked W.contents (image_at S.Start) noted.now out.old out.new result.ending
        result.files }
{
    match Connection::open_from(rt, file, false, start) {
        Ok(database) => match check_over(rt.alloc(), database, noted, verbosity, out, err) {
            Ok((status, database)) => close_after(status, database),
            Err(stop) => Ended {
                ending: Err(stop),
                files: FilesLeft::Unchecked,
            },
        },
        Err((error, left)) => Ended {
            ending: Err(CommandError::Fault(fault(&error))),
            files: FilesLeft::Unopened(error, left),
        },
    }
}

/// Opens the files of a book, does a job over it, and closes them: what was committed is then in
/// the file, also without its log. At a stop the files are let go of as they are: the log has all
/// that was answered, and nothing more is written to a disk that has just failed.
pub(crate) fn run_from<S: Start, W: Printer, E: Printer>(
    rt: &HostRuntime,
    file: &str,
    start: S,
    job: &Job<'_>,
    verbosity: Verbosity,
    out: &mut W,
    err: &mut E,
) -> Ended<FileFrom<S>>
    ensures { IsRunEnd W.contents (image_at S.Start) job.now out.old out.new result.ending
        result.files }
{
    match job {
        Job::Check(noted) => check_from(rt, file, start, noted, verbosity, out, err),
        _ => do_from(rt, file, start, job, verbosity, out, err),
    }
}
