//! Files that a line names, read up to a limit, so that one without an end can't take all memory.
ghost use Rattle.std.specs.Prelude.{◌≡◌, IfErr, IfNone, IfOk, IfSome, IsUtf8, string_bytes};
ghost use Rattle.commands.specs.Files.{IsLonger, IsWithin};
ghost use Rattle.commands.specs.Scripts.{IsTextUnread};
ghost use Rattle.commands.specs.Stops.{HasDeviceFault, IsUsageStop};

use crate::causes::about_file;
use crate::told::{CommandError, usage};
use definitions::MOST_BYTES;
use folders::FileSystem;
use intake::read_first;
use std::alloc::Global;

/// The most bytes of a sheet, as of an interchange: its 999 lines need fewer than 65,536.
pub const MOST_SHEET: u32 = MOST_BYTES as u32;

/// The most bytes of a list of depositors, as of an interchange.
pub const MOST_ROSTER: u32 = MOST_BYTES as u32;

/// The most bytes of a script.
pub const MOST_SCRIPT: u32 = 16_777_216;

/// The bytes of a file; None where it has more than `most`, and then one more than these is read. A
/// file that can't be read is Device (44).
pub fn read_within<R: FileSystem + AllocGlobal>(
    rt: &R,
    file: &str,
    most: u32,
) -> Result<Option<Vec<u8>>, CommandError>
    ensures read { IfOk result
        (λ found. IfSome found (λ bytes. IsWithin (R.reads rt.now) file.now most bytes.items)) }
    ensures longer { IfOk result
        (λ found. IfNone found (IsLonger (R.reads rt.now) file.now most)) }
    ensures unread { IfErr result HasDeviceFault }
{
    let bytes = match read_first(rt, file, u64::from(most) + 1) {
        Ok(bytes) => bytes,
        Err(error) => return Err(about_file(rt.alloc(), file, &error)),
    };
    if bytes.len() as u64 > u64::from(most) {
        return Ok(None);
    }
    Ok(Some(bytes))
}

// The text of a script or a batch that has these bytes.
fn text_of(alloc: Global, bytes: Vec<u8>) -> Result<String, CommandError>
    ensures same { IfOk result (λ text. string_bytes text ≡ bytes.items) }
    ensures unread { IfErr result (λ stop. IsUsageStop stop × ¬ IsUtf8 bytes.items) }
{
    match String::from_utf8(bytes) {
        Ok(text) => Ok(text),
        Err(_) => Err(usage(alloc, "a script is UTF-8 text\n")),
    }
}

/// The text of a script or a batch in a file. One that is no UTF-8 text, or has more than
/// 16,777,216 bytes, is a usage fault, a file that can't be read Device (44).
pub fn read_lines<R: FileSystem + AllocGlobal>(rt: &R, file: &str) -> Result<String, CommandError>
    ensures read { IfOk result
        (λ text. IsWithin (R.reads rt.now) file.now MOST_SCRIPT (string_bytes text)) }
    ensures unread { IfErr result (IsTextUnread (R.reads rt.now) file.now) }
{
    match read_within(rt, file, MOST_SCRIPT)? {
        Some(bytes) => text_of(rt.alloc(), bytes),
        None => Err(usage(rt.alloc(), "a script has at most 16,777,216 bytes\n")),
    }
}
