ghost use Rattle.std.specs.Prelude.{◌≡◌};
ghost use Rattle.definitions.specs.Response.{answer_response, refused_response, reply_response, fault_response, with_body};
ghost use Rattle.store.specs.Runs.{told};
ghost use Rattle.definitions.specs.declared.refusals.Refusal.TheVariants as meant;
ghost use Rattle.intake.specs.Answers.{number, type_name, seen};
ghost use Rattle.intake.specs.Calls.{line_response, deed_refused, deed_reply};

use crate::response::{Body, MediaType, Response, Status};
use store::{Fault, Refusal, Reply};

/// A response with a body of its own.
pub(crate) fn with_text(status: Status, kind: MediaType, text: Vec<u8>) -> Response
    ensures { seen result ≡ with_body (number status) (type_name kind) text.items }
{
    Response {
        status,
        kind: Some(kind),
        allow: None,
        body: Body::Owned(text),
    }
}

// A response with a text that takes no memory.
fn with_line(status: Status, line: &'static [u8]) -> Response
    ensures { seen result ≡ with_body (number status) (type_name MediaType.Plain) line.now }
{
    Response {
        status,
        kind: Some(MediaType::Plain),
        allow: None,
        body: Body::Fixed(line),
    }
}

// The answer to an interchange, or 204 where it is empty.
fn answered(text: Vec<u8>) -> Response
    ensures { seen result ≡ answer_response text.items }
{
    if text.is_empty() {
        return Response {
            status: Status::NoContent,
            kind: None,
            allow: None,
            body: Body::Fixed(b""),
        };
    }
    with_text(Status::Okay, MediaType::Interchange, text)
}

/// The response to a refused interchange, with the interchange that answers it; what else is
/// refused has no answer.
pub(crate) fn refused(refusal: Refusal, answer: Vec<u8>) -> Response
    ensures { seen result ≡ refused_response refusal answer.items }
{
    match refusal {
        Refusal::Duplicate => with_text(Status::Conflict, MediaType::Interchange, answer),
        Refusal::Note(_) => with_text(Status::UnprocessableEntity, MediaType::Interchange, answer),
        Refusal::Unreadable => with_line(Status::BadRequest, refusal.line()),
        _ => with_line(Status::UnprocessableEntity, refusal.line()),
    }
}

/// The response to an interchange that is answered so.
pub(crate) fn of_reply(reply: Reply) -> Response
    ensures { seen result ≡ reply_response (told reply) }
{
    match reply {
        Reply::Accepted(text) => answered(text),
        Reply::Stored(text) => answered(text),
        Reply::Refused { refusal, answer } => refused(refusal, answer),
    }
}

/// The response to a path of which a part can't be read.
pub(crate) fn bad_part() -> Response
    ensures { seen result ≡ line_response 404 meant.BadText }
{
    with_line(Status::NotFound, Refusal::BadText.line())
}

/// The response to a path that names a stranger.
pub(crate) fn stranger() -> Response
    ensures { seen result ≡ line_response 404 meant.UnknownDepositor }
{
    with_line(Status::NotFound, Refusal::UnknownDepositor.line())
}

// The response to another deed under a ticket that was used.
fn ticket_used() -> Response
    ensures { seen result ≡ line_response 409 meant.TicketUsed }
{
    with_line(Status::Conflict, Refusal::TicketUsed.line())
}

// The response to a refused deed.
fn deed_refusal(refusal: Refusal, answer: Vec<u8>) -> Response
    ensures { seen result ≡ deed_refused refusal answer.items }
{
    match refusal {
        Refusal::UnknownDepositor => stranger(),
        Refusal::TicketUsed => ticket_used(),
        _ => refused(refusal, answer),
    }
}

/// The response to a deed that is answered so.
pub(crate) fn of_deed(reply: Reply) -> Response
    ensures { seen result ≡ deed_reply (told reply) }
{
    match reply {
        Reply::Accepted(text) => with_text(Status::Okay, MediaType::Interchange, text),
        Reply::Stored(text) => with_text(Status::Okay, MediaType::Interchange, text),
        Reply::Refused { refusal, answer } => deed_refusal(refusal, answer),
    }
}

/// The response to a request at which a fault happened. It takes no memory.
pub(crate) fn of_fault(fault: Fault) -> Response
    ensures { seen result ≡ fault_response fault }
{
    with_line(Status::ServiceUnavailable, fault.line())
}
