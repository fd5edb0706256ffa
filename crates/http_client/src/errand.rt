//! What a server is asked for, made ready.
ghost use Rattle.std.specs.Prelude.{◌≡◌, ◌⊎◌, IfErr, IfOk};
ghost use Rattle.commands.specs.Stops.{HasDeviceFault, IsUsageStop};
ghost use Rattle.commands.specs.Files.{IsLonger, IsWithin};
ghost use Rattle.commands.specs.LineStops.{IfLineRefused, IfLineStopped};
ghost use Rattle.http_client.specs.Errands.{IsErrandFor, IsNoErrandFor};

use command_line::{BookAct, ClerkWords, Show, Task};
use commands::{LineStop, about_file, ask, sheet_text_of, usage};
use definitions::MOST_BYTES;
use folders::FileSystem;
use intake::read_interchange;
use store::Refusal;

/// What a server is asked for, its words tested and its files read, so that only the server can
/// keep it from being done.
#[derive(Drop)]
pub enum Errand<'a> {
    /// Take an interchange.
    Send(Vec<u8>),
    /// Take what a clerk did, with the text of the sheet.
    Deed(ClerkWords<'a>, Vec<u8>),
    /// Tell what an interchange would be answered now.
    TrySend(Vec<u8>),
    /// Tell what a clerk's deed would be answered now, with the text of its sheet.
    TryDeed(ClerkWords<'a>, Vec<u8>),
    /// Show something.
    Look(Show<'a>),
}

// The interchange in a file, as a server takes it; refused where it is too long: a server refuses
// it by its length, and may close before it is whole.
fn interchange_in<R: FileSystem + AllocGlobal>(rt: &R, file: &str) -> Result<Vec<u8>, LineStop>
    ensures read { IfOk result
        (λ bytes. IsWithin (R.reads rt.now) file.now MOST_BYTES bytes.items) }
    ensures longer { IfErr result (IfLineRefused (λ refusal. (refusal ≡ Refusal.Unreadable)
        × IsLonger (R.reads rt.now) file.now MOST_BYTES)) }
    ensures unread { IfErr result (IfLineStopped HasDeviceFault) }
{
    match read_interchange(rt, file) {
        Ok(bytes) if bytes.len() > MOST_BYTES => Err(LineStop::Refused(Refusal::Unreadable)),
        Ok(bytes) => Ok(bytes),
        Err(error) => Err(LineStop::Stopped(about_file(rt.alloc(), file, &error))),
    }
}

/// What a line asks of a server, made ready as it is over a book in a file: refused are 1, an
/// interchange of more than 1,048,576 bytes, 32, a word that can't be read or a sheet that is too
/// long, and what keeps a sheet from being one (30 to 33); a file that can't be read is Device
/// (44). A usage fault is a line that no server takes.
pub fn errand_of<'a, R: FileSystem + AllocGlobal>(
    rt: &R,
    task: &Task<'a>,
) -> Result<Errand<'a>, LineStop>
    ensures errand { IfOk result (IsErrandFor (R.reads rt.now) task.now) }
    ensures none { IfErr result (IfLineRefused (IsNoErrandFor (R.reads rt.now) task.now)) }
    ensures unread { IfErr result
        (IfLineStopped (λ stop. HasDeviceFault stop ⊎ IsUsageStop stop)) }
{
    match task {
        Task::Act {
            act: BookAct::Send { file },
            ..
        } => Ok(Errand::Send(interchange_in(rt, *file)?)),
        Task::Try {
            act: BookAct::Send { file },
            ..
        } => Ok(Errand::TrySend(interchange_in(rt, *file)?)),
        Task::Act {
            act: BookAct::Clerk(words),
            ..
        } => Ok(Errand::Deed(*words, sheet_text_of(rt, words)?)),
        Task::Try {
            act: BookAct::Clerk(words),
            ..
        } => Ok(Errand::TryDeed(*words, sheet_text_of(rt, words)?)),
        Task::Show(show) => match ask(show) {
            Ok(_) => Ok(Errand::Look(*show)),
            Err(refusal) => Err(LineStop::Refused(refusal)),
        },
        _ => Err(LineStop::Stopped(usage(rt.alloc(), "no server takes this command\n"))),
    }
}
