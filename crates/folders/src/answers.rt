//! Answers beside the files that they answer.
ghost use Rattle.std.specs.Prelude.{◌≡◌, ◌++◌, true, false, IfOk, IfErr, OnOk, codes, string_bytes};
ghost use Rattle.std.specs.IoError.{error_kind};
ghost use Rattle.folders.specs.Answers.{IsFileBeside, IsFileMissing, IsFileThere};
ghost use Rattle.folders.specs.Folders.{IsErrorAt};
ghost use Rattle.folders.specs.Paths.{answer_path};

use crate::file_system::{EntryKind, FileSystem};
use crate::files::has_just;
use std::alloc::{AllocError, Global};
use std::io;

// The path of the answer to the interchange in a file.
fn answer_of(alloc: Global, path: &str) -> Result<String, AllocError>
    ensures { IfOk result (λ name. string_bytes name ≡ answer_path path.now) }
{
    [path, ".ans"].concat(alloc)
}

// The path under which it is written before it is whole.
fn new_of(alloc: Global, path: &str) -> Result<String, AllocError>
    ensures { IfOk result (λ name. string_bytes name ≡ path.now ++ codes ".new") }
{
    [path, ".new"].concat(alloc)
}

// Whether an answer is there already: a regular file with just its bytes. No link is followed.
// Where that can't be seen, it isn't there: so a failed look is no fault.
fn is_answer_there<R: FileSystem>(rt: &R, beside: &str, answer: &[u8]) -> bool
    ensures there { result ≡ true
        → IsFileThere (R.finds rt.now) (R.reads rt.now) beside.now answer.now }
    ensures missing { result ≡ false → IsFileMissing (R.finds rt.now) (R.reads rt.now)
        (R.fails rt.now) beside.now answer.now }
{
    matches!(rt.kind_of(beside), Ok(EntryKind::File))
        && matches!(has_just(rt, beside, answer), Ok(true))
}

/// Writes the answer to the interchange in a file to the file's name with `.ans` added, by the name
/// with `.new` added. A regular file that is there already with just these bytes is left alone.
pub fn write_answer<R: FileSystem + AllocGlobal>(
    rt: &R,
    path: &str,
    answer: &[u8],
) -> io::Result<()>
    ensures written { OnOk result (IsFileBeside (R.finds rt.now) (R.reads rt.now)
        (R.writes rt.now) (R.fails rt.now) (answer_path path.now) answer.now) }
    ensures failed { IfErr result
        (λ error. IsErrorAt (R.fails rt.now) (answer_path path.now) (error_kind error)) }
{
    let beside = answer_of(rt.alloc(), path)?;
    // Leaving it is safe. `FileSystem::replace` gives a file this name only once its bytes are on
    // the disk, so it is whole after a stop at any place. A new file would be no safer: its name
    // comes down to the disk only when the folder is synced, as that of the old one does.
    if is_answer_there(rt, &beside, answer) {
        return Ok(());
    }
    let made = new_of(rt.alloc(), path)?;
    rt.replace(made.as_str(), beside.as_str(), answer)
}

/// Removes what stands under the name of the answer to the interchange in a file, if anything does.
pub fn remove_answer<R: FileSystem + AllocGlobal>(rt: &R, path: &str) -> io::Result<()>
    ensures removed { OnOk result (R.lacks rt.now (answer_path path.now)) }
    ensures failed { IfErr result
        (λ error. IsErrorAt (R.fails rt.now) (answer_path path.now) (error_kind error)) }
{
    let beside = answer_of(rt.alloc(), path)?;
    rt.remove(beside.as_str())
}
