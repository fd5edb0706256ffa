//! The bytes of a response, read: its head, and its body.
ghost use Rattle.std.specs.Prelude.{◌≡◌, ℕ, ◌+◌, ◌<◌, ◌≤◌, ◌++◌, List, length, take, drop, OnOk, IfOk};
ghost use Rattle.std.specs.Io.KnownBytes.{Consumes};
ghost use Rattle.head_fields.specs.Fields.{most_head, most_fields};
ghost use Rattle.httparse.specs.Spans.{IsResponseWithin, IsResponseOf};
ghost use Rattle.counted_io.specs.Inputs.{IsInput, IsFront};

use crate::remote::answers::Unanswered;
use httparse::Status;
use httparse::spans::{HeaderSpan, ResponseSpans, parse_response};
use std::alloc::Global;
use std::io::{ErrorKind, Read};

// How often a read is begun that is interrupted, as it is where a command is stopped and goes on.
const TRIES: u8 = 100;

// One read, begun again where it is interrupted.
fn read_some<R: Read>(reader: &mut R, buf: &mut [u8]) -> Result<usize, Unanswered>
    ensures within { IfOk result (λ n. n ≤ length buf.new) }
    ensures bytes { IfOk result
        (λ n. Consumes (R.remaining reader.old) (R.remaining reader.new) (take n buf.new)) }
{
    for _ in 0..TRIES {
        match reader.read(buf) {
            Ok(n) => return Ok(n),
            Err(error) if error.kind() == ErrorKind::Interrupted => {}
            Err(_) => return Err(Unanswered::Device),
        }
    }
    Err(Unanswered::Device)
}

// One more read, after what is there.
fn read_more<R: Read>(reader: &mut R, buf: &mut [u8], filled: usize) -> Result<usize, Unanswered>
    requires { filled < length buf.old }

    ensures within { IfOk result (λ n. filled + n ≤ length buf.new) }
    ensures before { take filled buf.new ≡ take filled buf.old }
    ensures bytes { IfOk result
        (λ n. Consumes (R.remaining reader.old) (R.remaining reader.new)
        (take n (drop filled buf.new))) }
{
    read_some(reader, &mut buf[filled..])
}

/// What was read for a head.
#[derive(Clone, Copy)]
pub(crate) struct Beginning {
    /// How many bytes were read.
    pub filled: usize,
    /// Where the parts of the head are in them.
    pub spans: ResponseSpans,
}

/// Reads the head of a response, of at most `MOST_HEAD` bytes and `MOST_FIELDS` fields, with
/// perhaps some of what is after it. Device where the reader fails, or begins with no such head.
pub(crate) fn read_head<R: Read>(
    reader: &mut R,
    buf: &mut [u8],
    fields: &mut [HeaderSpan],
) -> Result<Beginning, Unanswered>
    requires room { length buf.old ≡ most_head }
    requires fields { length fields.old ≡ most_fields }

    ensures within { IfOk result (λ read. read.filled ≤ length buf.new) }
    ensures bytes { IfOk result
        (λ read. Consumes (R.remaining reader.old) (R.remaining reader.new)
        (take read.filled buf.new)) }
    ensures head { IfOk result
        (λ read. IsResponseOf (take read.filled buf.new) fields.new read.spans) }
    ensures spans { IfOk result
        (λ read. IsResponseWithin (take read.filled buf.new) fields.new read.spans) }
{
    let mut filled = 0;
    while filled < buf.len() {
        let n = read_more(reader, buf, filled)?;
        if n == 0 {
            return Err(Unanswered::Device);
        }
        filled += n;
        match parse_response(&buf[..filled], fields) {
            Ok(Status::Complete(spans)) => return Ok(Beginning { filled, spans }),
            Ok(Status::Partial) => {}
            Err(_) => return Err(Unanswered::Device),
        }
    }
    Err(Unanswered::Device)
}

// Fills the buffer with these bytes and then those of the reader.
fn fill_after<R: Read>(reader: &mut R, buf: &mut [u8], start: &[u8]) -> Result<(), Unanswered>
    ensures { OnOk result ((input : List ℕ) × IsInput (R.remaining reader.old) input
        × IsFront buf.new (length buf.new) (start.now ++ input)) }
{
    let had = start.len().min(buf.len());
    let (front, back) = buf.split_at_mut(had);
    front.copy_from_slice(&start[..had]);
    match reader.read_exact(back) {
        Ok(()) => Ok(()),
        Err(_) => Err(Unanswered::Device),
    }
}

/// Reads the rest of a body of so many bytes, which begins with those that are there. Device where
/// the reader fails, or is at its end before.
pub(crate) fn read_body<R: Read>(
    alloc: Global,
    reader: &mut R,
    start: &[u8],
    size: usize,
) -> Result<Vec<u8>, Unanswered>
    ensures { IfOk result (λ body. (input : List ℕ) × IsInput (R.remaining reader.old) input
        × IsFront body.items size (start.now ++ input)) }
{
    let Ok(mut body) = vec![in alloc; 0u8; size] else {
        return Err(Unanswered::OutOfMemory);
    };
    fill_after(reader, &mut body, start)?;
    Ok(body)
}
