//! A run of the program over the files of a book, stopped before it ended, and the next one.
ghost use Rattle.std.specs.Prelude.{◌≡◌, Err, IfOk, IfSome, OnOk};
ghost use Rattle.sqlite.specs.declared.FileStore.{FileStore};
ghost use Rattle.sqlite.specs.Held.{Held};
ghost use Rattle.sqlite.specs.Files.{over_files};
ghost use Rattle.sqlite.specs.WalFiles.{image_at};
ghost use Rattle.app.specs.Grown.{FindsKept, KeepsBook};
ghost use Rattle.app.specs.Rerun.{FindsAnswered, IsLetGo, LeavesBook, ResendIsStored};

use crate::from_file::{FilesLeft, work_from};
use crate::over_file::Job;
use commands::{CommandError, ExitStatus, Printer, Verbosity};
use sqlite::{Connection, FileFrom, FileStore, Start};
use sqlite_disk::Disk;

// Nothing is told but what has to be.
const QUIET: Verbosity = Verbosity {
    explains: false,
    watches: false,
};

/// A run that was stopped before its files were closed.
#[derive(Drop)]
pub struct StoppedRun<D: Disk + Drop> {
    /// How its job had ended.
    pub ended: Result<ExitStatus, CommandError>,
    /// The store of its book, as it was left.
    pub left: FileStore<D>,
}

// Lets go of a database as it is.
fn let_go<D: Disk + Drop>(database: Connection<FileStore<D>>) -> FileStore<D>
    ensures { IsLetGo database result }
{
    database.into_store()
}

// A run whose job was stopped over these files; None where there is no database of them.
fn stopped_with<D: Disk + Drop>(stop: CommandError, files: FilesLeft<D>) -> Option<StoppedRun<D>>
    ensures { IfSome result (λ run. (left : Held (FileStore D D.Disk))
        × (files ≡ FilesLeft.Open left) × (run.ended ≡ Err stop) × IsLetGo left run.left) }
{
    match files {
        FilesLeft::Open(database) => Some(StoppedRun {
            ended: Err(stop),
            left: let_go(database),
        }),
        _ => None,
    }
}

/// Opens the files of a book, does a job over it, and stops, as a process that is killed then. None
/// where there was no database in the files, or they couldn't be opened.
pub fn run_and_stop<S: Start, W: Printer, E: Printer>(
    rt: &HostRuntime,
    file: &str,
    start: S,
    job: &Job<'_>,
    out: &mut W,
    err: &mut E,
) -> Option<StoppedRun<FileFrom<S>>>
    ensures left { IfSome result
        (λ run. LeavesBook (image_at S.Start) job.now run.ended run.left) }
    ensures kept { IfSome result (λ run. KeepsBook W.contents (image_at S.Start) job.now out.old
        out.new run.ended run.left) }
{
    match work_from(rt, file, start, job, QUIET, out, err) {
        Ok((status, database)) => Some(StoppedRun {
            ended: Ok(status),
            left: let_go(database),
        }),
        Err((stop, files)) => stopped_with(stop, files),
    }
}

/// Two runs over the files of one book. The first does its job and is stopped, before its files are
/// closed; the second begins with what the files hold then. Whatever the jobs are (a command, a
/// list, a folder, a batch, a server), the second is done over the book with all that stood before
/// the first, and entries of commands that were accepted on it. Where the first was one command and
/// was done, that is the book with what it answered; and an interchange or an act that it accepted
/// is answered by the second, when it is given again, by the text that went out for it.
pub fn run_twice<S: Start, T: Start, W: Printer, E: Printer>(
    rt: &HostRuntime,
    file: &str,
    first: (S, &Job<'_>),
    next: (T, &Job<'_>),
    out: &mut W,
    again: &mut W,
    err: &mut E,
) -> (
    Option<StoppedRun<FileFrom<S>>>,
    Result<
        (ExitStatus, Connection<FileStore<FileFrom<T>>>),
        (CommandError, FilesLeft<FileFrom<T>>),
    >,
)
    ensures found { IfSome result.0 (λ run. OnOk run.ended (IfOk result.1
        (λ r. FindsAnswered over_files W.contents (image_at S.Start) (image_at T.Start) run.left r.1
        first.entry.1.now next.entry.1.now again.old again.new r.0))) }
    ensures kept { IfSome result.0 (λ run. IfOk result.1
        (λ r. FindsKept over_files W.contents (image_at S.Start) (image_at T.Start) run.left r.1
        first.entry.1.now next.entry.1.now again.old again.new r.0)) }
    ensures stored { IfSome result.0 (λ run. OnOk run.ended (IfOk result.1
        (λ r. ResendIsStored over_files W.contents (image_at S.Start) (image_at T.Start) run.left
        r.1 first.entry.1.now next.entry.1.now again.old again.new r.0))) }
{
    let stopped = run_and_stop(rt, file, first.0, first.1, out, err);
    let second = work_from(rt, file, next.0, next.1, QUIET, again, err);
    (stopped, second)
}
