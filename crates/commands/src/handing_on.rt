//! The documents that went out to a depositor, handed on: each is written to a file of a folder.
ghost use Rattle.std.specs.Prelude.{◌≡◌, IfErr, IfOk, OnOk};
ghost use Rattle.std.specs.Io.KnownBytes.{Appends};
ghost use Rattle.definitions.specs.Rows.{outbox_of};
ghost use Rattle.store.specs.Standing.{IsUnchanged, OfKept};
ghost use Rattle.commands.specs.HandingOn as meant;
ghost use Rattle.commands.specs.HandingOn.{AreLeft, IsLeftTold, LeavesAll};
ghost use Rattle.commands.specs.Stops.{HasDeviceFault};

use crate::causes::about_document;
use crate::printing::{Printer, print_pieces};
use crate::told::{CommandError, ExitStatus, tell_refusal};
use folders::{DocumentLeft, FileSystem, leave_document};
use itoa::Buffer;
use std::io;
use store::{Keeper, OutKind, OutRow, Refusal, Who};

// Prints that a document was written.
fn tell_written<W: Printer>(number: u32, out: &mut W) -> io::Result<()>
    ensures { OnOk result (Appends (W.contents out.old) (W.contents out.new)
        (meant.written_line number DocumentLeft.Written)) }
{
    let mut digits = Buffer::new();
    print_pieces(out, &[digits.format(number).as_bytes(), b".x12 written\n"])?;
    out.flush()
}

// Tells that a document's file has other bytes.
fn tell_differs<E: Printer>(dir: &str, number: u32, err: &mut E) -> io::Result<()>
    ensures { OnOk result (Appends (E.contents err.old) (E.contents err.new)
        (meant.differs_line dir.now number DocumentLeft.Differs)) }
{
    let mut digits = Buffer::new();
    print_pieces(
        err,
        &[
            dir.as_bytes(),
            b"/",
            digits.format(number).as_bytes(),
            b".x12 has other bytes, and stays as it is\n",
        ],
    )
}

// Prints that a document was written, and tells one whose file has other bytes. The status is that
// of the document. The error is the writers'.
fn tell_left<W: Printer, E: Printer>(
    dir: &str,
    number: u32,
    left: DocumentLeft,
    out: &mut W,
    err: &mut E,
) -> io::Result<ExitStatus>
    ensures printed { OnOk result (Appends (W.contents out.old) (W.contents out.new)
        (meant.written_line number left)) }
    ensures said { OnOk result (Appends (E.contents err.old) (E.contents err.new)
        (meant.differs_line dir.now number left)) }
    ensures status { IfOk result (λ status. status ≡ meant.status_of_left left) }
{
    match left {
        DocumentLeft::Written => {
            tell_written(number, out)?;
            Ok(ExitStatus::Done)
        }
        DocumentLeft::Sent | DocumentLeft::There => Ok(ExitStatus::Done),
        DocumentLeft::Differs => {
            tell_differs(dir, number, err)?;
            Ok(ExitStatus::Refused)
        }
    }
}

/// A document that went out.
#[derive(Clone, Copy)]
pub struct Document<'a> {
    /// Its number, 1 to 999,999.
    pub number: u32,
    /// The interchange's bytes.
    pub text: &'a [u8],
}

/// Leaves a document in a folder, and tells it. The status is that of the document. A fault is of
/// the folder (44), of the writers, or want of memory.
pub fn leave_telling<R: FileSystem + AllocGlobal, W: Printer, E: Printer>(
    rt: &R,
    dir: &str,
    document: Document<'_>,
    out: &mut W,
    err: &mut E,
) -> Result<ExitStatus, CommandError>
    ensures left { IfOk result (λ status. IsLeftTold (R.finds rt.now) (R.reads rt.now)
        (R.writes rt.now) dir.now document.entry.number document.entry.text.now
        (W.contents out.old, ExitStatus.Done) (W.contents out.new, status)) }
    ensures device { IfErr result HasDeviceFault }
{
    let number = document.number;
    match leave_document(rt, dir, number, document.text) {
        Ok(left) => match tell_left(dir, number, left, out, err) {
            Ok(status) => Ok(status),
            Err(error) => Err(CommandError::from(error)),
        },
        Err(error) => Err(about_document(rt.alloc(), dir, number, &error)),
    }
}

// Whether it is a document, and no answer.
fn is_document(row: &OutRow) -> bool
    ensures { result ≡ meant.is_document row.now }
{
    !matches!(row.kind, OutKind::Answer)
}

// Leaves the documents of an outbox in a folder, one after the other; its answers aren't documents.
fn leave_rows<R: FileSystem + AllocGlobal, W: Printer, E: Printer>(
    rt: &R,
    dir: &str,
    rows: &[OutRow],
    out: &mut W,
    err: &mut E,
) -> Result<ExitStatus, CommandError>
    ensures left { IfOk result (λ status. AreLeft (R.finds rt.now) (R.reads rt.now)
        (R.writes rt.now) dir.now rows.now (W.contents out.old, ExitStatus.Done)
        (W.contents out.new, status)) }
    ensures device { IfErr result HasDeviceFault }
{
    let mut status = ExitStatus::Done;
    for row in rows {
        if is_document(row) {
            let document = Document {
                number: row.n,
                text: &row.content,
            };
            status = status.and(leave_telling(rt, dir, document, out, err)?);
        }
    }
    Ok(status)
}

/// Writes each document that went out to a depositor to the file N.x12 of a folder, where it isn't
/// there yet, and prints which were written. One whose file has the name N.x12.sent was sent; one
/// whose file has other bytes is left as it is, and told on standard error, with status 1. Refused
/// is 20, an unknown depositor. The book is as before.
pub fn hand_on<R: FileSystem + AllocGlobal, K: Keeper, W: Printer, E: Printer>(
    rt: &R,
    book: &mut K,
    who: Who,
    dir: &str,
    out: &mut W,
    err: &mut E,
) -> Result<ExitStatus, CommandError>
    ensures left { OfKept (K.standing book.old) (K.standing book.new) (λ L. IfOk result
        (λ status. LeavesAll (R.finds rt.now) (R.reads rt.now) (R.writes rt.now) dir.now
        (outbox_of (K.standing book.old).warehouse L who) (W.contents out.old, ExitStatus.Done)
        (W.contents out.new, status))) }
    ensures same { IsUnchanged (K.standing book.old) (K.standing book.new) }
{
    match store::outbox(book, who)? {
        Some(rows) => leave_rows(rt, dir, &rows, out, err),
        None => tell_refusal(rt.alloc(), err, Refusal::UnknownDepositor),
    }
}
