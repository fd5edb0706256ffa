ghost use Rattle.std.specs.Prelude.{◌≡◌, IfErr, IfOk, OnErr, OnOk};
ghost use Rattle.std.specs.Io.KnownBytes.{Appends};
ghost use Rattle.commands.specs.Failures.{IsDeviceBy, WasRefused};
ghost use Rattle.commands.specs.Printing.{AppendsFront};
ghost use Rattle.commands.specs.Statuses as meant;
ghost use Rattle.commands.specs.Stops.{IsDeviceStop, IsUsageStop};
ghost use Rattle.commands.specs.Telling.{faulted_line, line_of, refused_line, stop_text};

use crate::printing::{Printer, print, print_pieces};
use command_line::LineFault;
use itoa::Buffer;
use std::alloc::{AllocError, Global};
use std::io;
use store::{Fault, Refusal};

/// How a command, or a whole script, ended.
#[derive(Clone, Copy, PartialEq, Eq)]
pub enum ExitStatus {
    /// All was done.
    Done,
    /// Something was refused.
    Refused,
    /// The words couldn't be read.
    Usage,
    /// A fault stopped it.
    Fault,
}

impl ExitStatus {
    /// The exit status.
    pub fn code(self) -> u8
        ensures { result ≡ meant.code_of self }
    {
        match self {
            ExitStatus::Done => 0,
            ExitStatus::Refused => 1,
            ExitStatus::Usage => 2,
            ExitStatus::Fault => 3,
        }
    }

    /// The status of what ended so, and then so.
    pub fn and(self, next: ExitStatus) -> ExitStatus
        ensures { result ≡ meant.and_then self next }
    {
        match next {
            ExitStatus::Done => self,
            _ => next,
        }
    }
}

/// What stops a command, and a script with it.
#[derive(Drop)]
pub enum CommandError {
    /// Words that can't be read, with the text to show.
    Usage(String),
    /// A fault.
    Fault(Fault),
    /// A fault, and what it is about, as a line without its end.
    Caused(Fault, String),
}

impl From<AllocError> for CommandError {
    ghost use Rattle.store.specs.Fault.TheVariants as faults;
    ghost use Rattle.commands.specs.declared.told.CommandError.TheVariants as stops;

    ghost from_gives = { λ _ stop. stop ≡ stops.Fault faults.OutOfMemory };

    fn from(_error: AllocError) -> CommandError {
        CommandError::Fault(Fault::OutOfMemory)
    }
}

impl From<Fault> for CommandError {
    ghost use Rattle.commands.specs.declared.told.CommandError.TheVariants as stops;

    ghost from_gives = { λ fault stop. stop ≡ stops.Fault fault };

    fn from(fault: Fault) -> CommandError {
        CommandError::Fault(fault)
    }
}

impl From<LineFault> for CommandError {
    ghost use Rattle.commands.specs.Stops.{line_stop};

    ghost from_gives = { λ fault stop. stop ≡ line_stop fault };

    fn from(fault: LineFault) -> CommandError {
        match fault {
            // A line of a script that asks for help stops it as one that can't be read does.
            LineFault::Usage(text) | LineFault::Help(text) => CommandError::Usage(text),
            LineFault::OutOfMemory => CommandError::Fault(Fault::OutOfMemory),
        }
    }
}

impl From<io::Error> for CommandError {
    ghost use Rattle.commands.specs.Stops.{IsErrorStop};

    ghost from_gives = { λ error stop. IsErrorStop error stop };

    fn from(error: io::Error) -> CommandError {
        match error.kind() {
            io::ErrorKind::OutOfMemory => CommandError::Fault(Fault::OutOfMemory),
            _ => CommandError::Fault(Fault::Device),
        }
    }
}

/// A usage fault with a text.
pub fn usage(alloc: Global, text: &str) -> CommandError
    ensures { IsUsageStop result }
{
    match text.to_string(alloc) {
        Ok(text) => CommandError::Usage(text),
        Err(error) => CommandError::from(error),
    }
}

/// Writes a text that goes out and LF, where there is one; at an error a beginning of them.
pub fn tell_text<W: Printer>(out: &mut W, text: &[u8]) -> Result<(), CommandError>
    ensures printed { OnOk result (Appends (W.contents out.old) (W.contents out.new)
        (line_of text.now)) }
    ensures front { OnErr result
        (AppendsFront (W.contents out.old) (W.contents out.new) (line_of text.now)) }
    ensures halted { IfErr result IsDeviceStop }
    ensures quiet { OnOk result (W.failures out.new ≡ W.failures out.old) }
    ensures caused { IfErr result (IsDeviceBy
        (WasRefused (W.failures out.old) (W.failures out.new))) }
{
    if !text.is_empty() {
        print(out, text)?;
        print(out, b"\n")?;
    }
    Ok(())
}

/// Tells a refusal on standard error, as `refused 35 AlreadyEnrolled` or `refused 2 Note(006)`.
pub fn tell_refusal<E: Printer>(
    alloc: Global,
    err: &mut E,
    refusal: Refusal,
) -> Result<ExitStatus, CommandError>
    ensures says { IfOk result (λ status. status ≡ ExitStatus.Refused) }
    ensures printed { OnOk result (Appends (E.contents err.old) (E.contents err.new)
        (refused_line refusal)) }
    ensures halted { IfErr result IsDeviceStop }
    ensures caused { IfErr result (IsDeviceBy
        (WasRefused (E.failures err.old) (E.failures err.new))) }
{
    let name = refusal.name(alloc)?;
    let mut number = Buffer::new();
    let digits = number.format(refusal.number());
    print_pieces(err, &[b"refused ", digits.as_bytes(), b" ", &name, b"\n"])?;
    Ok(ExitStatus::Refused)
}

// Tells a fault, as `fault 44 Device`.
fn tell_fault<E: io::Write>(err: &mut E, fault: Fault) -> io::Result<()>
    ensures { OnOk result (Appends (E.contents err.old) (E.contents err.new) (faulted_line fault)) }
{
    let (number, name) = (fault.number(), fault.name());
    write!(err, "fault {number} {name}\n")
}

// What of a stop can be told.
fn told<E: io::Write>(err: &mut E, stop: &CommandError, explains: bool) -> io::Result<()>
    ensures { OnOk result (Appends (E.contents err.old) (E.contents err.new)
        (stop_text explains stop.now)) }
{
    match stop {
        CommandError::Usage(text) => err.write_all(text.as_bytes()),
        CommandError::Fault(fault) => tell_fault(err, *fault),
        CommandError::Caused(fault, cause) => {
            tell_fault(err, *fault)?;
            if !explains {
                return Ok(());
            }
            err.write_all(cause.as_bytes())?;
            err.write_all(b"\n")
        }
    }
}

/// Tells what stopped a command on standard error: a fault as `fault 44 Device`, with what it is
/// about on the next line where that is asked for. Where standard error fails too, the status alone
/// tells it.
pub fn tell_stop<E: io::Write>(err: &mut E, stop: &CommandError, explains: bool) -> ExitStatus
    ensures { result ≡ meant.status_of_stop stop.now }
{
    let status = match stop {
        CommandError::Usage(_) => ExitStatus::Usage,
        CommandError::Fault(_) | CommandError::Caused(_, _) => ExitStatus::Fault,
    };
    match told(err, stop, explains) {
        Ok(()) => status,
        Err(_) => status,
    }
}
