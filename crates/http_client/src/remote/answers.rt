//! A response read: what a server answered.
ghost use Rattle.std.specs.Prelude.{IfOk};
ghost use Rattle.http_client.specs.Answers.{IsAnswer};

use crate::remote::heading::said_of;
use crate::remote::reading::{read_body, read_head};
use head_fields::{MOST_FIELDS, MOST_HEAD};
use httparse::spans::EMPTY_HEADER_SPAN;
use std::alloc::Global;
use std::io::Read;

/// What a server answered.
#[derive(Drop)]
pub struct ServerAnswer {
    /// The status, as 200 (RFC 9110, 15).
    pub status: u16,
    /// Whether the body's type is `application/EDI-X12` (RFC 1767).
    pub is_interchange: bool,
    /// The body, nothing where no length is stated.
    pub body: Vec<u8>,
}

/// Why there is no answer.
#[derive(Clone, Copy, PartialEq, Eq)]
pub enum Unanswered {
    /// Memory was refused.
    OutOfMemory,
    /// The connection failed, or what came is no whole response.
    Device,
}

/// Reads one response. Device where the reader fails, where there is no head within 8,192 bytes and
/// 32 fields, where the body is in chunks, is cut off, or states more than one length, one that
/// isn't digits, or one above 16,777,216; OutOfMemory where there is no memory for a body of its
/// length.
pub fn read_answer<R: Read>(alloc: Global, reader: &mut R) -> Result<ServerAnswer, Unanswered>
    ensures { IfOk result (IsAnswer (R.remaining reader.old)) }
{
    let mut buf = [0u8; MOST_HEAD];
    let mut fields = [EMPTY_HEADER_SPAN; MOST_FIELDS];
    let begun = read_head(reader, &mut buf, &mut fields)?;
    let got = &buf[..begun.filled];
    let said = said_of(got, &fields[..begun.spans.headers])?;
    let body = read_body(alloc, reader, &got[begun.spans.len..], said.size)?;
    Ok(ServerAnswer {
        status: begun.spans.code,
        is_interchange: said.is_interchange,
        body,
    })
}
