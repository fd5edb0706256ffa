ghost use Rattle.std.specs.Prelude.{◌≡◌, IfErr, OnOk};
ghost use Rattle.std.specs.Io.KnownBytes.{Appends};
ghost use Rattle.commands.specs.Statuses.{IsCode};
ghost use Rattle.commands.specs.Stops.{IsDeviceStop};
ghost use Rattle.sqlite.specs.WalFiles.{image_at};
ghost use Rattle.app.specs.Ended.{says_wary};
ghost use Rattle.app.specs.Sessions.{IsWordsEnded};
ghost use Rattle.app.specs.Program.{AreUntouched, IsCommand, IsCommandRun, IsLineEnded, IsLineRun, IsWordsRun};

use crate::explaining::without_asking;
use crate::from_file::{Ended, FilesLeft};
use crate::over_server::run_over_server;
use crate::waiting::{FileLine, ended_before, run_over_file};
use command_line::{LineFault, Place, Words, line};
use commands::{CommandError, ExitStatus, Printer, Verbosity, run_script, tell_stop, usage};
use sqlite::{FileFrom, Start, Unknown, Wary};
use sqlite_disk::Disk;
use std::alloc::AllocError;
use std::io::{self, IsTerminal};

// The program's version, which is that of the rules by which it judges.
const VERSION: &str = "whx12 2.0\n";

// Does what one line of words asks for.
fn run_words<S: Start, F: FnMut() -> S, W: Printer, E: Printer>(
    rt: &HostRuntime,
    starts: F,
    words: &Words<'_>,
    verbosity: Verbosity,
    out: &mut W,
    err: &mut E,
) -> Ended<FileFrom<S>>
    requires { F.IsAlwaysCallable starts }

    ensures { IsWordsEnded W.contents (image_at S.Start) words.now out.old out.new result.ending
        result.files }
{
    match words {
        Words::Script { file } => ended_before(run_script(rt, file, verbosity, out, err)),
        Words::Over {
            book: Some(file),
            opening,
            task,
        } => {
            let line = FileLine {
                file: *file,
                wait: opening.wait,
                task,
            };
            run_over_file(rt, line, starts, verbosity, out, err)
        }
        // No line of the program comes to this: where it names no server, it names a book.
        Words::Over { book: None, .. } => {
            ended_before(Err(usage(rt.alloc(), "--book is missing\n")))
        }
        Words::Remote { server, task } => {
            ended_before(run_over_server(rt, server, task, verbosity, out, err))
        }
    }
}

// Whether what a line asks for is over a file of whose disk nothing is supposed.
fn says_wary(asked: &Words<'_>) -> bool
    ensures { result ≡ says_wary asked.now }
{
    match asked {
        Words::Over {
            book: Some(_),
            opening,
            ..
        } => opening.is_wary,
        _ => false,
    }
}

/// How the files of a line's book are looked at: what they held is said by what these give, anew at
/// each look.
#[derive(Drop)]
pub struct Starts<F, G> {
    /// Where a torn write is supposed to leave each byte old or new.
    pub supposed: F,
    /// Where nothing is supposed.
    pub wary: G,
}

/// What is left of the files of a line's book, by what was supposed of its disk.
#[derive(Drop)]
pub enum FilesBehind<D: Disk + Drop, E: Disk + Drop> {
    /// A torn write leaves each byte old or new.
    Supposed(FilesLeft<D>),
    /// Nothing was supposed.
    Wary(FilesLeft<E>),
}

// How a line ended, and what is left of the files of its book.
#[derive(Drop)]
struct LineEnd<D: Disk + Drop, E: Disk + Drop> {
    ending: Result<ExitStatus, CommandError>,
    files: FilesBehind<D, E>,
}

// A line that ended before anything was opened.
fn line_before<D: Disk + Drop, E: Disk + Drop>(
    ending: Result<ExitStatus, CommandError>,
) -> LineEnd<D, E>
    ensures ending { result.ending ≡ ending }
    ensures files { AreUntouched result.files }
{
    LineEnd {
        ending,
        files: FilesBehind::Supposed(FilesLeft::Untouched),
    }
}

// Does what one line of words asks for: by the start that supposes something of its book's disk, or
// where the line says `--wary`, by the one that doesn't.
fn run_asked<S: Start, F: FnMut() -> S, T: Start, G: FnMut() -> T, W: Printer, E: Printer>(
    rt: &HostRuntime,
    starts: Starts<F, G>,
    asked: &Words<'_>,
    verbosity: Verbosity,
    out: &mut W,
    err: &mut E,
) -> LineEnd<FileFrom<S>, FileFrom<T>>
    requires supposed { F.IsAlwaysCallable starts.supposed }
    requires wary { G.IsAlwaysCallable starts.wary }

    ensures { IsWordsRun W.contents (image_at S.Start) (image_at T.Start) asked.now out.old out.new
        result.ending result.files }
{
    let Starts { supposed, wary } = starts;
    if says_wary(asked) {
        let Ended { ending, files } = run_words(rt, wary, asked, verbosity, out, err);
        return LineEnd {
            ending,
            files: FilesBehind::Wary(files),
        };
    }
    let Ended { ending, files } = run_words(rt, supposed, asked, verbosity, out, err);
    LineEnd {
        ending,
        files: FilesBehind::Supposed(files),
    }
}

// Runs one line of words, or shows the help that it asks for.
fn run_line<S: Start, F: FnMut() -> S, T: Start, G: FnMut() -> T, W: Printer, E: Printer>(
    rt: &HostRuntime,
    starts: Starts<F, G>,
    words: &[&str],
    verbosity: Verbosity,
    out: &mut W,
    err: &mut E,
) -> LineEnd<FileFrom<S>, FileFrom<T>>
    requires supposed { F.IsAlwaysCallable starts.supposed }
    requires wary { G.IsAlwaysCallable starts.wary }

    ensures { IsLineEnded W.contents (image_at S.Start) (image_at T.Start) words.now out.old out.new
        result.ending result.files }
{
    match line(rt.alloc(), Place::Program, words) {
        Ok(asked) => run_asked(rt, starts, &asked, verbosity, out, err),
        Err(LineFault::Help(text)) => line_before(show(out, &text)),
        Err(fault) => line_before(Err(CommandError::from(fault))),
    }
}

// Shows the help that words ask for; they do nothing else.
fn show_help<W: io::Write>(
    rt: &HostRuntime,
    words: &[&str],
    out: &mut W,
) -> Result<ExitStatus, CommandError> {
    match line(rt.alloc(), Place::Program, words) {
        Ok(_) => Err(usage(rt.alloc(), "these words ask for no help\n")),
        Err(LineFault::Help(text)) => show(out, &text),
        Err(fault) => Err(CommandError::from(fault)),
    }
}

// Shows a text that is asked for.
fn show<W: io::Write>(out: &mut W, text: &str) -> Result<ExitStatus, CommandError>
    ensures shown { OnOk result (Appends (W.contents out.old) (W.contents out.new) text.now) }
    ensures halted { IfErr result IsDeviceStop }
{
    out.write_all(text.as_bytes())?;
    Ok(ExitStatus::Done)
}

// Runs one line of words: `help` is `--help`, `help count` is `count --help`, and `--version` shows
// the version.
fn run_any<S: Start, F: FnMut() -> S, T: Start, G: FnMut() -> T, W: Printer, E: Printer>(
    rt: &HostRuntime,
    starts: Starts<F, G>,
    words: &[&str],
    verbosity: Verbosity,
    out: &mut W,
    err: &mut E,
) -> LineEnd<FileFrom<S>, FileFrom<T>>
    requires supposed { F.IsAlwaysCallable starts.supposed }
    requires wary { G.IsAlwaysCallable starts.wary }

    ensures { IsLineEnded W.contents (image_at S.Start) (image_at T.Start) words.now out.old out.new
        result.ending result.files }
{
    match words {
        [word] if *word == "help" => line_before(show_help(rt, &["--help"], out)),
        [word] if *word == "--version" => line_before(show(out, VERSION)),
        [word, name] if *word == "help" => line_before(show_help(rt, &[*name, "--help"], out)),
        _ => run_line(rt, starts, words, verbosity, out, err),
    }
}

// Runs the words of a line, of which it is known whether they ask for explanations, and tells what
// stopped them.
fn run_told<S: Start, F: FnMut() -> S, T: Start, G: FnMut() -> T, W: Printer, E: Printer>(
    rt: &HostRuntime,
    starts: Starts<F, G>,
    words: &[&str],
    is_asked: bool,
    out: &mut W,
    err: &mut E,
) -> (u8, FilesBehind<FileFrom<S>, FileFrom<T>>)
    requires supposed { F.IsAlwaysCallable starts.supposed }
    requires wary { G.IsAlwaysCallable starts.wary }

    ensures run { IsLineRun W.contents (image_at S.Start) (image_at T.Start) words.now out.old
        out.new result.0 result.1 }
    ensures code { IsCode result.0 }
{
    let watches = rt.stderr().is_terminal();
    let explains = is_asked || watches;
    let verbosity = Verbosity { explains, watches };
    let LineEnd { ending, files } = run_any(rt, starts, words, verbosity, out, err);
    match ending {
        Ok(status) => (status.code(), files),
        Err(stop) => (tell_stop(err, &stop, explains).code(), files),
    }
}

// No memory for the words of a line: nothing was opened.
fn stopped_before<D: Disk + Drop, E: Disk + Drop, O: io::Write>(
    error: AllocError,
    err: &mut O,
) -> (u8, FilesBehind<D, E>)
    ensures says { result.0 ≡ 3 }
    ensures files { AreUntouched result.1 }
{
    let code = tell_stop(err, &CommandError::from(error), false).code();
    (code, FilesBehind::Supposed(FilesLeft::Untouched))
}

/// Runs one line of words, without the program's name, over files of which it is said by `S`, or by
/// `T` where the line says `--wary`, what they held and how a torn write is read. Where somebody
/// else has the files open, they are looked at again, each time with another start. The exit status
/// is that of `command`; beside it stands what is left of the files of the line's book.
pub fn command_from<S: Start, F: FnMut() -> S, T: Start, G: FnMut() -> T, W: Printer, E: Printer>(
    rt: &HostRuntime,
    starts: Starts<F, G>,
    words: &[&str],
    out: &mut W,
    err: &mut E,
) -> (u8, FilesBehind<FileFrom<S>, FileFrom<T>>)
    requires supposed { F.IsAlwaysCallable starts.supposed }
    requires wary { G.IsAlwaysCallable starts.wary }

    ensures run { IsCommandRun W.contents (image_at S.Start) (image_at T.Start) words.now out.old
        out.new result.0 result.1 }
    ensures code { IsCode result.0 }
{
    match without_asking(rt.alloc(), words) {
        Ok(Some(line)) => run_told(rt, starts, &line, true, out, err),
        Ok(None) => run_told(rt, starts, words, false, out, err),
        Err(error) => stopped_before(error, err),
    }
}

/// Runs one line of words as `command` does, and tells what is left of the files of its book beside
/// the exit status.
pub fn command_leaving<W: Printer, E: Printer>(
    rt: &HostRuntime,
    words: &[&str],
    out: &mut W,
    err: &mut E,
) -> (u8, FilesBehind<FileFrom<Unknown>, FileFrom<Wary>>)
    ensures run { IsCommandRun W.contents (image_at ⟦<Unknown as Start>⟧)
        (image_at ⟦<Wary as Start>⟧) words.now out.old out.new result.0 result.1 }
    ensures code { IsCode result.0 }
{
    let starts = Starts {
        supposed: || Unknown,
        wary: || Wary,
    };
    command_from(rt, starts, words, out, err)
}

/// Runs one line of words, without the program's name: its output goes to `out`, its refusals and
/// faults to `err`. Where one of the words is `--explain`, and on a terminal, what a fault or a
/// refused sheet is about is told after it. The exit status is 0 where all was done or help was
/// shown, 1 where something was refused, 2 where the words can't be read, 3 at a fault.
///
/// Of the book's file it is supposed that a torn write leaves each byte old or new (`Unknown`);
/// where the line says `--wary`, nothing is (`Wary`).
pub fn command<W: Printer, E: Printer>(
    rt: &HostRuntime,
    words: &[&str],
    out: &mut W,
    err: &mut E,
) -> u8
    ensures run { IsCommand ⟦<FileFrom<Unknown> as Disk>⟧ ⟦<FileFrom<Wary> as Disk>⟧ W.contents
        (image_at ⟦<Unknown as Start>⟧) (image_at ⟦<Wary as Start>⟧) words.now out.old out.new
        result }
    ensures code { IsCode result }
{
    command_leaving(rt, words, out, err).0
}
