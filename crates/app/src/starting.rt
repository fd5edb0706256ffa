//! The program's words, as the system hands them over.
ghost use Rattle.std.specs.Prelude.{◌≡◌, ℕ, List, OnErr, IfOk};
ghost use Rattle.std.specs.Borrow.{Bor};
ghost use Rattle.commands.specs.Statuses.{IsCode};
ghost use Rattle.app.specs.Program.{IsCommand, IsProgram};
ghost use Rattle.sqlite.specs.WalFiles.{image_at};

use crate::run::command;
use commands::{CommandError, Printer, tell_stop, usage};
use sqlite::{FileFrom, Start, Unknown, Wary};
use sqlite_disk::Disk;
use std::rt::Env;
use std::{env, io};

// The words after the program's name. One that isn't UTF-8 is a usage fault.
fn words_of<R: Env + AllocGlobal>(rt: &R) -> Result<Vec<String>, CommandError> {
    match env::args(rt) {
        Ok(all) => Ok(all.skip(1).collect(rt.alloc())?),
        Err(error) if error.kind() == io::ErrorKind::InvalidData => {
            Err(usage(rt.alloc(), "a word isn't UTF-8 text\n"))
        }
        Err(error) => Err(CommandError::from(error)),
    }
}

// Runs the line of words that the system hands over.
fn run<W: Printer, E: Printer>(
    rt: &HostRuntime,
    out: &mut W,
    err: &mut E,
) -> Result<u8, CommandError>
    ensures ran { IfOk result (λ code. (said : List (Bor (List ℕ))) × IsCommand
        ⟦<FileFrom<Unknown> as Disk>⟧ ⟦<FileFrom<Wary> as Disk>⟧ W.contents
        (image_at ⟦<Unknown as Start>⟧) (image_at ⟦<Wary as Start>⟧) said out.old out.new code) }
    ensures code { IfOk result IsCode }
    ensures silent { OnErr result (out.new ≡ out.old) }
{
    let owned = words_of(rt)?;
    let words: Vec<&str> = owned.iter().map(|word| word.as_str()).collect(rt.alloc())?;
    Ok(command(rt, &words, out, err))
}

/// Runs the line of words that the program was started with, as `command` does. A word that isn't
/// UTF-8 text is a usage fault; then, and where the words can't be had, nothing is opened.
pub fn program<W: Printer, E: Printer>(rt: &HostRuntime, out: &mut W, err: &mut E) -> u8
    ensures run { IsProgram ⟦<FileFrom<Unknown> as Disk>⟧ ⟦<FileFrom<Wary> as Disk>⟧ W.contents
        (image_at ⟦<Unknown as Start>⟧) (image_at ⟦<Wary as Start>⟧) out.old out.new result }
    ensures code { IsCode result }
{
    match run(rt, out, err) {
        Ok(status) => status,
        Err(stop) => tell_stop(err, &stop, false).code(),
    }
}
