//! Files that are read up to a limit, so that one without an end can't take all memory.
ghost use Rattle.std.specs.Prelude.{◌≡◌, ◌≢◌, ◌+◌, ℕ, List, true, false, not, IfOk, IfErr};
ghost use Rattle.std.specs.IoError.{error_kind};
ghost use Rattle.folders.specs.Entries.{IsFree, IsRead, IsStanding, is_there};

use crate::file_system::{EntryKind, FileSystem};
use definitions::MOST_BYTES;
use std::io;

// Whether it is nothing.
fn is_nothing(kind: EntryKind) -> bool
    ensures { result ≡ not (is_there kind) }
{
    matches!(kind, EntryKind::NoEntry)
}

/// The first bytes of a file, `most` of them where it has so many; no more than these are read.
pub fn read_first<R: FileSystem>(rt: &R, path: &str, most: u64) -> io::Result<Vec<u8>>
    ensures read { IfOk result (λ bytes. R.reads rt.now path.now most bytes.items) }
    ensures failed { IfErr result (λ error. R.fails rt.now path.now (error_kind error)) }
{
    rt.first_bytes(path, most)
}

/// The bytes of an interchange in a file. Of a file with more bytes than an interchange may have
/// (1,048,576) it is one byte more than those, which is unreadable too.
pub fn read_interchange<R: FileSystem>(rt: &R, path: &str) -> io::Result<Vec<u8>>
    ensures read { IfOk result (λ bytes. R.reads rt.now path.now (MOST_BYTES + 1) bytes.items) }
    ensures failed { IfErr result (λ error. R.fails rt.now path.now (error_kind error)) }
{
    read_first(rt, path, MOST_BYTES as u64 + 1)
}

// Whether nothing stands under a path.
pub(crate) fn is_free<R: FileSystem>(rt: &R, path: &str) -> io::Result<bool>
    ensures free { IfOk result (λ is. is ≡ true → IsFree (R.finds rt.now) path.now) }
    ensures stands { IfOk result (λ is. is ≡ false → IsStanding (R.finds rt.now) path.now) }
    ensures failed { IfErr result (λ error. R.fails rt.now path.now (error_kind error)) }
{
    Ok(is_nothing(rt.kind_of(path)?))
}

// Whether a file has just these bytes. One more than these is read, to see where it has others.
pub(crate) fn has_just<R: FileSystem>(rt: &R, path: &str, text: &[u8]) -> io::Result<bool>
    ensures same { IfOk result
        (λ is. is ≡ true → IsRead (R.reads rt.now) path.now text.now text.now) }
    ensures other { IfOk result
        (λ is. is ≡ false → (bytes : List ℕ) × IsRead (R.reads rt.now) path.now text.now bytes
        × (bytes ≢ text.now)) }
    ensures failed { IfErr result (λ error. R.fails rt.now path.now (error_kind error)) }
{
    let bytes = read_first(rt, path, text.len() as u64 + 1)?;
    Ok(bytes.as_slice() == text)
}
