ghost use Rattle.std.specs.Prelude.{◌≡◌, ℕ, ◌+◌, ◌<◌, ◌≤◌, ◌++◌, [], List, length, take, drop, OnErr, OnOk, IfOk, IfSome, IfNone, unwrap_or};
ghost use Rattle.std.specs.Io.KnownBytes.{Consumes, IsAtEnd};
ghost use Rattle.head_fields.specs.Fields.{most_head, most_fields};
ghost use Rattle.httparse.specs.Spans.{IsRequestWithin, IsRequestOf};
ghost use Rattle.counted_io.specs.Gauges.{Grew};
ghost use Rattle.counted_io.specs.Inputs.{IsInput};
ghost use Rattle.intake.specs.Requests.{HasNoHead, IsBody, FillsBuffer};

use counted_io::Gauge;
use httparse::Status;
use httparse::spans::{HeaderSpan, RequestSpans, parse_request};
use std::alloc::Global;
use std::io::Read;

/// The reader gave an error.
#[derive(Drop)]
pub(crate) struct Unread;

// One more read, after what is there.
fn read_more<R: Read>(reader: &mut Gauge<R>, buf: &mut [u8], filled: usize) -> Result<usize, Unread>
    requires { filled < length buf.old }

    ensures within { IfOk result (λ n. filled + n ≤ length buf.new) }
    ensures before { take filled buf.new ≡ take filled buf.old }
    ensures bytes { IfOk result
        (λ n. Consumes (R.remaining reader.old.inner) (R.remaining reader.new.inner)
        (take n (drop filled buf.new))) }
    ensures end { IfOk result (λ n. n ≡ 0 → IsAtEnd (R.remaining reader.new.inner)) }
    ensures count { OnErr result (Grew reader.old.errors reader.new.errors) }
    ensures quiet { OnOk result (reader.new.errors ≡ reader.old.errors) }
{
    match reader.read(&mut buf[filled..]) {
        Ok(n) => Ok(n),
        Err(_) => Err(Unread),
    }
}

// Reads until the buffer is full or the reader is at its end. The result is how many bytes were
// read.
fn fill<R: Read>(reader: &mut Gauge<R>, buf: &mut [u8]) -> Result<usize, Unread>
    ensures within { IfOk result (λ n. n ≤ length buf.new) }
    ensures bytes { IfOk result
        (λ n. Consumes (R.remaining reader.old.inner) (R.remaining reader.new.inner)
        (take n buf.new)) }
    ensures end { IfOk result (λ n. n < length buf.new → IsAtEnd (R.remaining reader.new.inner)) }
    ensures count { OnErr result (Grew reader.old.errors reader.new.errors) }
    ensures quiet { OnOk result (reader.new.errors ≡ reader.old.errors) }
{
    let mut filled = 0;
    while filled < buf.len() {
        let n = read_more(reader, buf, filled)?;
        if n == 0 {
            return Ok(filled);
        }
        filled += n;
    }
    Ok(filled)
}

/// What was read for a head.
#[derive(Drop)]
pub(crate) struct Beginning {
    /// How many bytes were read.
    pub filled: usize,
    /// Where the parts of the head are in them, if they begin with one.
    pub head: Option<RequestSpans>,
}

/// Reads the head of a request, of at most `MOST_HEAD` bytes and `MOST_FIELDS` fields, with perhaps
/// some of what is after it. There is none where the input begins with no such head.
pub(crate) fn read_head<R: Read>(
    reader: &mut Gauge<R>,
    buf: &mut [u8],
    fields: &mut [HeaderSpan],
) -> Result<Beginning, Unread>
    requires room { length buf.old ≡ most_head }
    requires fields { length fields.old ≡ most_fields }

    ensures within { IfOk result (λ read. read.filled ≤ length buf.new) }
    ensures bytes { IfOk result
        (λ read. Consumes (R.remaining reader.old.inner) (R.remaining reader.new.inner)
        (take read.filled buf.new)) }
    ensures head { IfOk result
        (λ read. IfSome read.head (IsRequestOf (take read.filled buf.new) fields.new)) }
    ensures spans { IfOk result
        (λ read. IfSome read.head (IsRequestWithin (take read.filled buf.new) fields.new)) }
    ensures none { IfOk result
        (λ read. IfNone read.head (HasNoHead (take read.filled buf.new
        ++ unwrap_or (R.remaining reader.new.inner) []))) }
    ensures count { OnErr result (Grew reader.old.errors reader.new.errors) }
    ensures quiet { OnOk result (reader.new.errors ≡ reader.old.errors) }
{
    let mut filled = 0;
    while filled < buf.len() {
        let n = read_more(reader, buf, filled)?;
        if n == 0 {
            return Ok(Beginning { filled, head: None });
        }
        filled += n;
        match parse_request(&buf[..filled], fields) {
            Ok(Status::Complete(spans)) => return Ok(Beginning {
                filled,
                head: Some(spans),
            }),
            Ok(Status::Partial) => {}
            Err(_) => return Ok(Beginning { filled, head: None }),
        }
    }
    Ok(Beginning { filled, head: None })
}

/// What came of a body.
#[derive(Drop)]
pub(crate) enum Content {
    /// All of it.
    Whole(Vec<u8>),
    /// The reader is at its end before it.
    CutOff,
    /// A growth was refused, and nothing was read.
    NoMemory,
}

// Fills the buffer with these bytes and then those of the reader, and says whether there were
// enough.
fn fill_after<R: Read>(reader: &mut Gauge<R>, buf: &mut [u8], start: &[u8]) -> Result<bool, Unread>
    ensures whole { IfOk result
        (λ is_full. (input : List ℕ) × IsInput (R.remaining reader.old.inner) input
        × FillsBuffer is_full buf.new (start.now ++ input)) }
    ensures count { OnErr result (Grew reader.old.errors reader.new.errors) }
    ensures quiet { OnOk result (reader.new.errors ≡ reader.old.errors) }
{
    let had = start.len().min(buf.len());
    let (front, back) = buf.split_at_mut(had);
    front.copy_from_slice(&start[..had]);
    let more = fill(reader, back)?;
    Ok(more >= back.len())
}

/// Reads the rest of a body of so many bytes, which begins with those that are there.
pub(crate) fn read_body<R: Read>(
    alloc: Global,
    reader: &mut Gauge<R>,
    start: &[u8],
    size: usize,
) -> Result<Content, Unread>
    ensures body { IfOk result
        (λ body. (input : List ℕ) × IsInput (R.remaining reader.old.inner) input
        × IsBody body size (start.now ++ input)) }
    ensures count { OnErr result (Grew reader.old.errors reader.new.errors) }
    ensures quiet { OnOk result (reader.new.errors ≡ reader.old.errors) }
{
    let Ok(mut body) = vec![in alloc; 0u8; size] else {
        return Ok(Content::NoMemory);
    };
    if fill_after(reader, &mut body, start)? {
        Ok(Content::Whole(body))
    } else {
        Ok(Content::CutOff)
    }
}
