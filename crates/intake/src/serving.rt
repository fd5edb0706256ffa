ghost use Rattle.std.specs.Prelude.{◌≡◌, ◌⊎◌, ℕ, Option, false, length, drop, OnErr, OnOk, IfOk, IfErr, IfSome, option_map, string_bytes};
ghost use Rattle.httparse.specs.Grammar.{RequestHead};
ghost use Rattle.httparse.specs.Spans.{IsRequestWithin, IsRequestAt};
ghost use Rattle.definitions.specs.Header.{Who as Partner};
ghost use Rattle.store.specs.Standing.{IsUnchanged, GoesOn};
ghost use Rattle.request_guard.specs.Doors.{status_of};
ghost use Rattle.intake.specs.Admitting.{asker_at, barred_at, of_partners};
ghost use Rattle.intake.specs.Answers.{number, seen};
ghost use Rattle.counted_io.specs.Gauges.{Grew};
ghost use Rattle.intake.specs.Lines.{IsLineAt, HasLine};
ghost use Rattle.intake.specs.Serving.{IsExchange, IsExchangeAfter, IsExchangeOf, IsResponseWritten, IsUnread, IsUnwritten};

use crate::audience::{Access, OF_PARTNERS};
use crate::heading::{length_of, read_method};
use crate::health::{answer_health, leads_to_health};
use crate::reaching::may_reach;
use crate::reading::{Content, Unread, read_body, read_head};
use crate::replies::of_fault;
use crate::response::{Status, bare_response};
use crate::senders::{Replied, answer_at, unsent};
use crate::served::{RequestLine, Served};
use crate::targets::{find_target, has_body};
use crate::texts::write_response;
use counted_io::Gauge;
use head_fields::{MOST_FIELDS, MOST_HEAD, is_among, values_of};
use http::StatusCode;
use httparse::spans::{EMPTY_HEADER_SPAN, HeaderSpan, RequestSpans};
use request_guard::{Barred, Doors, asker_of, judge_head};
use std::alloc::Global;
use std::io::{Read, Write};
use store::{Fault, Keeper, Moment};

// Answers a request whose head was read, by the first test that it fails, or by what it asks for.
fn answer<R: Read, K: Keeper>(
    alloc: Global,
    reader: &mut Gauge<R>,
    keeper: &mut K,
    access: Access<'_>,
    got: &[u8],
    fields: &[HeaderSpan],
    spans: &RequestSpans,
    moment: Moment,
) -> Result<Replied, Unread>
    requires { IsRequestWithin got.now fields.now spans.now }

    ensures answered { IfOk result
        (λ replied. (h : RequestHead) → IsRequestAt got.now fields.now spans.now h
        → IsExchangeAfter (asker_at access.entry h) access.entry.audience
        (K.standing keeper.old) (K.standing keeper.new) (R.remaining reader.old.inner)
        moment h (drop spans.now.len got.now) (seen replied.response) replied.sender) }
    ensures same { OnErr result (IsUnchanged (K.standing keeper.old) (K.standing keeper.new)) }
    ensures count { OnErr result (Grew reader.old.errors reader.new.errors) }
    ensures quiet { OnOk result (reader.new.errors ≡ reader.old.errors) }
    ensures goes { GoesOn (K.standing keeper.old) (K.standing keeper.new) }
{
    let named = &fields[..spans.headers];
    let Ok(target) = find_target(alloc, access.audience, spans.path.of(got)) else {
        return Ok(unsent(of_fault(Fault::OutOfMemory)));
    };
    let asker = asker_of(access.from, got, named);
    if !may_reach(&asker, &target) {
        return Ok(unsent(bare_response(Status::Forbidden)));
    }
    if is_among(got, named, b"Transfer-Encoding") {
        return Ok(unsent(bare_response(Status::NotImplemented)));
    }
    let method = read_method(spans.method.of(got));
    if !has_body(method, &target) {
        return Ok(answer_at(alloc, keeper, &asker, method, &target, &[], moment));
    }
    let size = match length_of(&values_of(got, named, b"Content-Length")) {
        Ok(size) => size,
        Err(status) => return Ok(unsent(bare_response(status))),
    };
    match read_body(alloc, reader, &got[spans.len..], size)? {
        Content::Whole(body) => Ok(answer_at(
            alloc,
            keeper,
            &asker,
            method,
            &target,
            body.as_slice(),
            moment,
        )),
        Content::CutOff => Ok(unsent(bare_response(Status::BadRequest))),
        Content::NoMemory => Ok(unsent(of_fault(Fault::OutOfMemory))),
    }
}

// A copy of these bytes, if they are text and there is memory for it.
fn copied(alloc: Global, bytes: &[u8]) -> Option<String>
    ensures { IfSome result (λ copy. string_bytes copy ≡ bytes.now) }
{
    let text = str::from_utf8(bytes).ok()?;
    String::from_str(alloc, text).ok()
}

// A copy of the method and the path of a head, if there is memory for it.
fn copied_line(
    alloc: Global,
    got: &[u8],
    fields: &[HeaderSpan],
    spans: &RequestSpans,
) -> Option<RequestLine>
    requires { IsRequestWithin got.now fields.now spans.now }

    ensures { IfSome result (IsLineAt got.now spans.now) }
{
    let method = copied(alloc, spans.method.of(got))?;
    let path = copied(alloc, spans.path.of(got))?;
    Some(RequestLine { method, path })
}

/// The status by which the doors turn a request away whose head was read, if they do.
pub(crate) fn barred(
    doors: Option<Doors<'_>>,
    got: &[u8],
    fields: &[HeaderSpan],
    spans: &RequestSpans,
) -> Option<Status>
    requires { IsRequestWithin got.now fields.now spans.now }

    ensures { (h : RequestHead) → IsRequestAt got.now fields.now spans.now h
        → option_map number result ≡ option_map status_of (barred_at doors.entry h) }
{
    let barred = judge_head(doors?, spans.method.of(got), got, &fields[..spans.headers])?;
    Some(match barred {
        Barred::BadRequest => Status::BadRequest,
        Barred::Misdirected => Status::MisdirectedRequest,
        Barred::Forbidden => Status::Forbidden,
    })
}

// What a request whose head was read is answered.
#[derive(Drop)]
struct Answered {
    replied: Replied,
    // Whether it asked for the health of the book, and was let in.
    is_health: bool,
}

// Answers a request whose head was read: turns it away by that, tells how far the book goes, or
// answers it by what it asks for.
fn answer_head<R: Read, K: Keeper>(
    alloc: Global,
    reader: &mut Gauge<R>,
    keeper: &mut K,
    access: Access<'_>,
    got: &[u8],
    fields: &[HeaderSpan],
    spans: &RequestSpans,
    moment: Moment,
) -> Result<Answered, Unread>
    requires { IsRequestWithin got.now fields.now spans.now }

    ensures answered { IfOk result
        (λ a. (h : RequestHead) → IsRequestAt got.now fields.now spans.now h
        → IsExchangeOf access.entry (K.standing keeper.old) (K.standing keeper.new)
        (R.remaining reader.old.inner) moment h (drop spans.now.len got.now)
        (seen a.replied.response) a.replied.sender a.is_health) }
    ensures same { OnErr result (IsUnchanged (K.standing keeper.old) (K.standing keeper.new)) }
    ensures count { OnErr result (Grew reader.old.errors reader.new.errors) }
    ensures quiet { OnOk result (reader.new.errors ≡ reader.old.errors) }
    ensures goes { GoesOn (K.standing keeper.old) (K.standing keeper.new) }
{
    if let Some(status) = barred(access.doors, got, fields, spans) {
        return Ok(Answered {
            replied: unsent(bare_response(status)),
            is_health: false,
        });
    }
    if leads_to_health(access, spans.path.of(got)) {
        let response = answer_health(alloc, keeper, got, fields, spans);
        return Ok(Answered {
            replied: unsent(response),
            is_health: true,
        });
    }
    let replied = answer(alloc, reader, keeper, access, got, fields, spans, moment)?;
    Ok(Answered {
        replied,
        is_health: false,
    })
}

// What was received.
#[derive(Drop)]
struct Received {
    // What it is answered.
    answered: Result<Answered, Unread>,
    // Its method and its path, where a head was read and there was memory for a copy.
    line: Option<RequestLine>,
}

// Reads one request, and answers it, or turns it away by its head. The copy of its line is made
// last, so that it takes no memory that the answer needs.
fn receive<R: Read, K: Keeper>(
    alloc: Global,
    reader: &mut Gauge<R>,
    keeper: &mut K,
    access: Access<'_>,
    moment: Moment,
) -> Received
    ensures answered { IfOk result.answered (λ a.
        IsExchange access.entry (K.standing keeper.old) (K.standing keeper.new)
        (R.remaining reader.old.inner) moment (seen a.replied.response) result.line
        a.replied.sender a.is_health) }
    ensures line { OnErr result.answered (IfSome result.line
        (HasLine (R.remaining reader.old.inner))) }
    ensures same { OnErr result.answered (IsUnchanged (K.standing keeper.old)
        (K.standing keeper.new)) }
    ensures count { OnErr result.answered (Grew reader.old.errors reader.new.errors) }
    ensures quiet { OnOk result.answered (reader.new.errors ≡ reader.old.errors) }
    ensures goes { GoesOn (K.standing keeper.old) (K.standing keeper.new) }
{
    let mut buf = [0u8; MOST_HEAD];
    let mut fields = [EMPTY_HEADER_SPAN; MOST_FIELDS];
    let begun = match read_head(reader, &mut buf, &mut fields) {
        Ok(begun) => begun,
        Err(unread) => return Received {
            answered: Err(unread),
            line: None,
        },
    };
    let spans = match &begun.head {
        Some(spans) => spans,
        None => return Received {
            answered: Ok(Answered {
                replied: unsent(bare_response(Status::BadRequest)),
                is_health: false,
            }),
            line: None,
        },
    };
    let got = &buf[..begun.filled];
    let answered = answer_head(alloc, reader, keeper, access, got, &fields, spans, moment);
    let line = copied_line(alloc, got, &fields, spans);
    Received { answered, line }
}

/// Reads one request, writes its response, and tells what became of them. The tests of a request
/// come in this order: a head that is refused, cut off or too large, over 8,192 bytes or 32 fields,
/// is 400; one that the doors turn away 400, 421 or 403 (`judge_head`), and nothing is asked of the
/// book; one that may not be asked for by its path 403 (`Access`); a Transfer-Encoding field 501;
/// no route 404; another method 405; for an interchange no Content-Length 411, more than one, an
/// empty one or not all digits 400, above 1,048,576 413, a body that is cut off 400, and one that
/// another depositor sent 403 (`Access`). Where clerks are served too, a deed with its sheet is
/// tested as an interchange, and then: a part of its path that can't be read is 404, a text that is
/// no sheet 422. Where the health of the book is told (`Access`), a request for it comes after the
/// doors: 501 and 405 as above, else how far the book goes, or the 503 of the fault of the look. A
/// growth that is refused gives the 503 of 40; where only the copy of the method and the path is,
/// these aren't told, and the answer is the same; where only the buffer of the response is, it goes
/// out piece by piece, and its bytes are the same. Of an interchange that is handed in, its sender
/// is told, also where it is refused.
///
/// The one fault is Device (44): the reader or the writer gave an error, or took 0 bytes. Where the
/// reader did, nothing was written and the book is as it was; where the writer did, a beginning of
/// the response was, and the book is as the request left it. No call is made again, an interrupted
/// one neither.
pub fn serve_telling<R: Read, W: Write, K: Keeper>(
    alloc: Global,
    reader: &mut Gauge<R>,
    writer: &mut Gauge<W>,
    keeper: &mut K,
    access: Access<'_>,
    moment: Moment,
) -> Served
    ensures written { IfOk result.outcome (λ status.
        IsResponseWritten access.entry (K.standing keeper.old) (K.standing keeper.new)
        (R.remaining reader.old.inner) moment
        (W.contents writer.old.inner) (W.contents writer.new.inner) status result.line result.sender
        result.bytes result.is_health) }
    ensures stopped { OnErr result.outcome (
        IsUnread (K.standing keeper.old) (K.standing keeper.new) (R.remaining reader.old.inner)
        (W.contents writer.old.inner) (W.contents writer.new.inner)
        reader.old.errors reader.new.errors result.line result.sender result.bytes
        result.is_health
        ⊎ IsUnwritten access.entry (K.standing keeper.old) (K.standing keeper.new)
        (R.remaining reader.old.inner) moment
        (W.contents writer.old.inner) (W.contents writer.new.inner)
        writer.old.errors writer.new.errors result.line result.sender result.bytes
        result.is_health) }
    ensures quiet { OnOk result.outcome ((reader.new.errors ≡ reader.old.errors)
        × (writer.new.errors ≡ writer.old.errors)) }
    ensures fault { IfErr result.outcome (λ fault. fault ≡ Fault.Device) }
    ensures goes { GoesOn (K.standing keeper.old) (K.standing keeper.new) }
{
    let Received { answered, line } = receive(alloc, reader, keeper, access, moment);
    let Ok(answered) = answered else {
        return Served {
            outcome: Err(Fault::Device),
            line,
            sender: None,
            bytes: 0,
            is_health: false,
        };
    };
    let Answered { replied, is_health } = answered;
    let Replied { response, sender } = replied;
    match write_response(alloc, writer, &response) {
        Ok(bytes) => Served {
            outcome: Ok(response.status.code()),
            line,
            sender,
            bytes,
            is_health,
        },
        Err(stop) => Served {
            outcome: Err(Fault::Device),
            line,
            sender,
            bytes: stop.sent,
            is_health,
        },
    }
}

/// The same for partners alone, where no more is told than the response's status, or Device (44).
pub fn serve_one<R: Read, W: Write, K: Keeper>(
    alloc: Global,
    reader: &mut Gauge<R>,
    writer: &mut Gauge<W>,
    keeper: &mut K,
    moment: Moment,
) -> Result<StatusCode, Fault>
    ensures written { IfOk result
        (λ status. (line : Option RequestLine) × (sender : Option Partner) × (bytes : ℕ)
        × IsResponseWritten of_partners (K.standing keeper.old) (K.standing keeper.new)
        (R.remaining reader.old.inner) moment
        (W.contents writer.old.inner) (W.contents writer.new.inner) status line sender bytes
        false) }
    ensures stopped { OnErr result ((line : Option RequestLine) × (sender : Option Partner)
        × (bytes : ℕ) × (
        IsUnread (K.standing keeper.old) (K.standing keeper.new) (R.remaining reader.old.inner)
        (W.contents writer.old.inner) (W.contents writer.new.inner)
        reader.old.errors reader.new.errors line sender bytes false
        ⊎ IsUnwritten of_partners (K.standing keeper.old) (K.standing keeper.new)
        (R.remaining reader.old.inner) moment
        (W.contents writer.old.inner) (W.contents writer.new.inner)
        writer.old.errors writer.new.errors line sender bytes false)) }
    ensures quiet { OnOk result ((reader.new.errors ≡ reader.old.errors)
        × (writer.new.errors ≡ writer.old.errors)) }
    ensures fault { IfErr result (λ fault. fault ≡ Fault.Device) }
    ensures goes { GoesOn (K.standing keeper.old) (K.standing keeper.new) }
{
    serve_telling(alloc, reader, writer, keeper, OF_PARTNERS, moment).outcome
}
