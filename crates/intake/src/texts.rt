ghost use Rattle.std.specs.Prelude.{◌≡◌, length, OnOk, OnErr, IfOk, IfErr};
ghost use Rattle.std.specs.Io.KnownBytes.{Appends};
ghost use Rattle.definitions.specs.Response.{response_bytes};
ghost use Rattle.counted_io.specs.Gauges.{Grew, AppendsBeginning, joined};
ghost use Rattle.intake.specs.Answers.{type_text, length_text, type_end, allow_text, seen, parts};

use crate::response::{Allow, MediaType, Response};
use counted_io::{Gauge, Unwritten, send_pieces};
use itoa::Buffer;
use std::alloc::{AllocError, Global};
use std::io::Write;

// The field of the type, and the name of the field of the length.
fn type_line(kind: Option<MediaType>) -> &'static [u8]
    ensures { result.now ≡ type_text kind }
{
    match kind {
        None => b"",
        Some(MediaType::Plain) => b"Content-Type: text/plain\r\nContent-Length: ",
        Some(MediaType::Interchange) => b"Content-Type: application/EDI-X12\r\nContent-Length: ",
        Some(MediaType::Page) => page::TYPE_LINE,
    }
}

// The value of the field of the length.
fn length_line(kind: Option<MediaType>, digits: &[u8]) -> &[u8]
    ensures { result.now ≡ length_text kind digits.now }
{
    match kind {
        None => b"",
        Some(_) => digits,
    }
}

// The end of the line of the length.
fn line_end(kind: Option<MediaType>) -> &'static [u8]
    ensures { result.now ≡ type_end kind }
{
    match kind {
        None => b"",
        Some(_) => b"\r\n",
    }
}

// The field of the method that is allowed.
fn allow_line(allow: Option<Allow>) -> &'static [u8]
    ensures { result.now ≡ allow_text allow }
{
    match allow {
        None => b"",
        Some(Allow::Get) => b"Allow: GET\r\n",
        Some(Allow::Post) => b"Allow: POST\r\n",
    }
}

// The pieces that a response is written by, given the digits of its status and of its length.
fn pieces<'a>(response: &'a Response, code: &'a [u8], digits: &'a [u8]) -> [&'a [u8]; 11]
    ensures { joined result ≡ parts response.now code.now digits.now }
{
    let start: &'a [u8] = b"HTTP/1.1 ";
    let blank: &'a [u8] = b" ";
    let phrase: &'a [u8] = response.status.phrase().as_bytes();
    let line_break: &'a [u8] = b"\r\n";
    let type_line: &'a [u8] = type_line(response.kind);
    let length_line: &'a [u8] = length_line(response.kind, digits);
    let line_end: &'a [u8] = line_end(response.kind);
    let allow_line: &'a [u8] = allow_line(response.allow);
    let close: &'a [u8] = b"Connection: close\r\n\r\n";
    let body: &'a [u8] = response.body.bytes();
    [
        start,
        code,
        blank,
        phrase,
        line_break,
        type_line,
        length_line,
        line_end,
        allow_line,
        close,
        body,
    ]
}

// The pieces one after the other, in one buffer. Its room is made once, so each byte is copied
// once. It takes as much memory as there are bytes.
fn join(alloc: Global, pieces: &[&[u8]]) -> Result<Vec<u8>, AllocError>
    ensures { IfOk result (λ whole. whole.items ≡ joined pieces.now) }
{
    let length = pieces
        .iter()
        .fold(0usize, |length, piece| length.saturating_add(piece.len()));
    let mut whole = Vec::with_capacity(alloc, length)?;
    for piece in pieces {
        whole.extend_from_slice(piece)?;
    }
    Ok(whole)
}

/// Writes a response, or a beginning of it where the writer fails. The result is how many bytes
/// were written. Head and body go out in one write, or in more where the writer takes less at once.
/// They are copied once for that, into memory of as many bytes, which is given back at the end.
/// Where that memory is wanting, they go out piece by piece. The bytes are the same.
pub(crate) fn write_response<W: Write>(
    alloc: Global,
    writer: &mut Gauge<W>,
    response: &Response,
) -> Result<u64, Unwritten>
    ensures whole { OnOk result
        (Appends (W.contents writer.old.inner) (W.contents writer.new.inner)
        (response_bytes (seen response.now))) }
    ensures counted { IfOk result (λ sent. sent ≡ length (response_bytes (seen response.now))) }
    ensures beginning { IfErr result (λ stop.
        AppendsBeginning (W.contents writer.old.inner) (W.contents writer.new.inner)
        (response_bytes (seen response.now)) stop.sent) }
    ensures count { OnErr result (Grew writer.old.errors writer.new.errors) }
    ensures quiet { OnOk result (writer.new.errors ≡ writer.old.errors) }
{
    let mut code_buffer = Buffer::new();
    let mut length_buffer = Buffer::new();
    let code = code_buffer
        .format(response.status.code().as_u16())
        .as_bytes();
    let digits = length_buffer.format(response.body.bytes().len()).as_bytes();
    let pieces = pieces(response, code, digits);
    match join(alloc, &pieces) {
        Ok(whole) => send_pieces(writer, &[whole.as_slice()]),
        Err(_) => send_pieces(writer, &pieces),
    }
}
