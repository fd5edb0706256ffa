//! Documents that are left in a folder, each once, for whoever sends them on.
ghost use Rattle.std.specs.Prelude.{◌≡◌, ◌++◌, true, false, codes, IfOk, IfErr, OnOk, string_bytes};
ghost use Rattle.std.specs.IoError.{error_kind};
ghost use Rattle.folders.specs.Entries.{IsFree, IsStanding};
ghost use Rattle.folders.specs.Folders.{IsErrorAt};
ghost use Rattle.folders.specs.Documents.{IsErrorAtEither, IsLeft, IsPut, document_path, sent_path};

use crate::file_system::FileSystem;
use crate::files::{has_just, is_free};
use itoa::Buffer;
use std::alloc::{AllocError, Global};
use std::io;

/// What became of a document that was to be left in a folder.
#[derive(Clone, Copy, PartialEq, Eq)]
pub enum DocumentLeft {
    /// It was sent before: its file has the name with `.sent` added. Nothing is written.
    Sent,
    /// It was written.
    Written,
    /// It was there before, with just these bytes. Nothing is written.
    There,
    /// A file of its name is there, which has other bytes or none. It is left as it is.
    Differs,
}

// The path of a file of this name without its ending.
fn path_of<'a>(alloc: Global, dir: &'a str, digits: &'a str) -> Result<String, AllocError>
    ensures { IfOk result
        (λ path. string_bytes path ≡ dir.now ++ codes "/" ++ digits.now ++ codes ".x12") }
{
    [dir, "/", digits, ".x12"].concat(alloc)
}

// The path of the document of this number in a folder.
fn path_of_document(alloc: Global, dir: &str, number: u32) -> Result<String, AllocError>
    ensures { IfOk result (λ path. string_bytes path ≡ document_path dir.now number) }
{
    let mut digits = Buffer::new();
    path_of(alloc, dir, digits.format(number))
}

// Whether the document that was left under a path is sent: whoever sends files adds `.sent` to
// their names.
fn is_path_sent<R: FileSystem + AllocGlobal>(rt: &R, path: &str) -> io::Result<bool>
    ensures sent { IfOk result
        (λ is. is ≡ true → IsStanding (R.finds rt.now) (sent_path path.now)) }
    ensures unsent { IfOk result
        (λ is. is ≡ false → IsFree (R.finds rt.now) (sent_path path.now)) }
    ensures failed { IfErr result
        (λ error. IsErrorAt (R.fails rt.now) (sent_path path.now) (error_kind error)) }
{
    let sent = [path, ".sent"].concat(rt.alloc())?;
    Ok(!is_free(rt, &sent)?)
}

// Writes a document under a path where nothing stood.
fn write_document<R: FileSystem + AllocGlobal>(rt: &R, path: &str, text: &[u8]) -> io::Result<()>
    requires { IsFree (R.finds rt.now) path.now }

    ensures written { OnOk result (R.writes rt.now path.now text.now) }
    ensures failed { IfErr result
        (λ error. IsErrorAt (R.fails rt.now) path.now (error_kind error)) }
{
    let made = [path, ".new"].concat(rt.alloc())?;
    rt.create(&made, path, text)
}

// Puts a document under a path, unless something stands there.
fn put_document<R: FileSystem + AllocGlobal>(
    rt: &R,
    path: &str,
    text: &[u8],
) -> io::Result<DocumentLeft>
    ensures put { IfOk result (λ left. IsPut (R.finds rt.now) (R.reads rt.now) (R.writes rt.now)
        path.now text.now left) }
    ensures failed { IfErr result
        (λ error. IsErrorAt (R.fails rt.now) path.now (error_kind error)) }
{
    if is_free(rt, path)? {
        write_document(rt, path, text)?;
        Ok(DocumentLeft::Written)
    } else if has_just(rt, path, text)? {
        Ok(DocumentLeft::There)
    } else {
        Ok(DocumentLeft::Differs)
    }
}

/// Whether the document of this number is sent that was left in a folder: `DIR/N.x12.sent` stands
/// there, for whoever sends files renames them so. Fails where that can't be looked at, and for
/// want of memory.
pub fn is_sent<R: FileSystem + AllocGlobal>(rt: &R, dir: &str, number: u32) -> io::Result<bool>
    ensures sent { IfOk result (λ is. is ≡ true
        → IsStanding (R.finds rt.now) (sent_path (document_path dir.now number))) }
    ensures unsent { IfOk result (λ is. is ≡ false
        → IsFree (R.finds rt.now) (sent_path (document_path dir.now number))) }
    ensures failed { IfErr result (λ error. IsErrorAt (R.fails rt.now)
        (sent_path (document_path dir.now number)) (error_kind error)) }
{
    let path = path_of_document(rt.alloc(), dir, number)?;
    is_path_sent(rt, &path)
}

/// Leaves the document of this number in a folder, as `DIR/N.x12`, unless it is sent or a file of
/// its name is there. It is written under the name with `.new` added first, down to the disk, and
/// then renamed, so that nobody finds a part of it. Nothing is ever written over. Fails where a
/// file can't be looked at, read or written, and for want of memory.
pub fn leave_document<R: FileSystem + AllocGlobal>(
    rt: &R,
    dir: &str,
    number: u32,
    text: &[u8],
) -> io::Result<DocumentLeft>
    ensures left { IfOk result (λ left. IsLeft (R.finds rt.now) (R.reads rt.now) (R.writes rt.now)
        (document_path dir.now number) text.now left) }
    ensures failed { IfErr result (λ error. IsErrorAtEither (R.fails rt.now)
        (document_path dir.now number) (error_kind error)) }
{
    let path = path_of_document(rt.alloc(), dir, number)?;
    if is_path_sent(rt, &path)? {
        return Ok(DocumentLeft::Sent);
    }
    put_document(rt, &path, text)
}
