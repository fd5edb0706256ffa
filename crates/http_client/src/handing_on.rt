//! The documents that went out to a depositor, handed on from a running server.
ghost use Rattle.std.specs.Prelude.{◌≡◌, true, IfErr, IfOk};
ghost use Rattle.folders.specs.Documents.{document_path, sent_path};
ghost use Rattle.folders.specs.Entries.{IsStanding};
ghost use Rattle.commands.specs.Stops.{HasDeviceFault};
ghost use Rattle.http_client.specs.Asked.{AsksOnly};
ghost use Rattle.http_client.specs.HandedOn.{AreHandedOn, IsHandedOn, IsOutboxHandedOn};

use crate::courier::Courier;
use crate::listed::documents_in;
use crate::running::{about_server_stop, get, get_text};
use crate::telling::tell_report;
use command_line::{Endpoint, Show};
use commands::{CommandError, Document, ExitStatus, Printer, about_document, leave_telling};
use folders::{FileSystem, is_sent};
use intake::Audience;
use store::Fault;

/// The depositor whose documents are handed on, from where, and to where.
#[derive(Clone, Copy)]
pub struct HandOn<'a> {
    /// Where the server listens.
    pub server: Endpoint<'a>,
    /// The depositor, as `QQ-ID`.
    pub who: &'a str,
    /// The folder's name.
    pub dir: &'a str,
}

// Whether a document was sent.
fn is_gone<R: FileSystem + AllocGlobal>(
    rt: &R,
    asked: HandOn<'_>,
    number: u32,
) -> Result<bool, CommandError>
    ensures sent { IfOk result (λ is. is ≡ true
        → IsStanding (R.finds rt.now) (sent_path (document_path asked.entry.dir.now number))) }
    ensures device { IfErr result HasDeviceFault }
{
    match is_sent(rt, asked.dir, number) {
        Ok(is) => Ok(is),
        Err(error) => Err(about_document(rt.alloc(), asked.dir, number, &error)),
    }
}

// Asks for a document, unless it was sent, and leaves it in the folder.
fn hand_on_one<R: FileSystem + AllocGlobal, C: Courier, W: Printer, E: Printer>(
    rt: &R,
    courier: &mut C,
    asked: HandOn<'_>,
    number: u32,
    out: &mut W,
    err: &mut E,
) -> Result<ExitStatus, CommandError>
    ensures asks { AsksOnly C.brings C.loses courier.old courier.new }
    ensures handed { IfOk result (λ status. IsHandedOn C.brings (R.finds rt.now) (R.reads rt.now)
        (R.writes rt.now) asked.entry (courier.old, (W.contents out.old, ExitStatus.Done)) number
        (courier.new, (W.contents out.new, status))) }
{
    if is_gone(rt, asked, number)? {
        return Ok(ExitStatus::Done);
    }
    let show = Show::Outbox {
        who: asked.who,
        number: Some(number),
    };
    let answer = get_text(rt.alloc(), courier, &asked.server, &show)?;
    if answer.status != 200 {
        return Err(about_server_stop(rt.alloc(), &asked.server, Fault::Device));
    }
    let document = Document {
        number,
        text: &answer.body,
    };
    leave_telling(rt, asked.dir, document, out, err)
}

// Hands on each document of a list of what went out.
fn hand_on_each<R: FileSystem + AllocGlobal, C: Courier, W: Printer, E: Printer>(
    rt: &R,
    courier: &mut C,
    asked: HandOn<'_>,
    list: &[u8],
    out: &mut W,
    err: &mut E,
) -> Result<ExitStatus, CommandError>
    ensures asks { AsksOnly C.brings C.loses courier.old courier.new }
    ensures handed { IfOk result (λ status. AreHandedOn C.brings (R.finds rt.now) (R.reads rt.now)
        (R.writes rt.now) asked.entry list.now (courier.old, (W.contents out.old, ExitStatus.Done))
        (courier.new, (W.contents out.new, status))) }
{
    let numbers = documents_in(rt.alloc(), list)?;
    let mut status = ExitStatus::Done;
    for number in &numbers {
        status = status.and(hand_on_one(rt, courier, asked, *number, out, err)?);
    }
    Ok(status)
}

/// Asks a running server for what went out to a depositor, and writes each document of it to the
/// file N.x12 of a folder, as `commands::hand_on` does over the book in its file. A server is only
/// asked, for the list and then for each document that wasn't sent: it does nothing.
pub fn hand_on_there<R: FileSystem + AllocGlobal, C: Courier, W: Printer, E: Printer>(
    rt: &R,
    courier: &mut C,
    asked: HandOn<'_>,
    out: &mut W,
    err: &mut E,
) -> Result<ExitStatus, CommandError>
    ensures asks { AsksOnly C.brings C.loses courier.old courier.new }
    ensures handed { IfOk result (IsOutboxHandedOn C.brings (R.finds rt.now) (R.reads rt.now)
        (R.writes rt.now) asked.entry courier.old (W.contents out.old) courier.new
        (W.contents out.new)) }
{
    let partners = Audience::Partners;
    let show = Show::Outbox {
        who: asked.who,
        number: None,
    };
    let answer = get(rt.alloc(), courier, &asked.server, partners, &show)?;
    if answer.status != 200 {
        return tell_report(rt.alloc(), partners, &answer, out, err);
    }
    hand_on_each(rt, courier, asked, &answer.body, out, err)
}
