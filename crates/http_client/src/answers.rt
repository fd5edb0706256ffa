//! What an answer of a server comes to.
ghost use Rattle.std.specs.Prelude.{◌≡◌};
ghost use Rattle.http_client.specs.Heard as meant;

use intake::Audience;
use segments::{all_digits, part, value_up_to};
use store::{Fault, Refusal};

/// What an answer of a server comes to.
#[derive(Clone, Copy, PartialEq, Eq)]
pub enum HeardAs {
    /// What was asked for is done.
    Done,
    /// It was refused.
    Refused(Refusal),
    /// It couldn't be done. Device (44) also stands for an answer that no such server gives.
    Stopped(Fault),
}

/// Greater than any status, and than the number of any refusal, note or fault.
const PAST_NUMBERS: u64 = 1_000;

// The value of digits, up to `PAST_NUMBERS`; 0 of any other text.
fn value_of(text: &[u8]) -> u64
    ensures { result ≡ meant.value_of text.now }
{
    if all_digits(text) {
        value_up_to(text, PAST_NUMBERS)
    } else {
        0
    }
}

// The number that a text begins with, before its first space.
fn number_in(text: &[u8]) -> u64
    ensures { result ≡ meant.number_in text.now }
{
    match part(text, b' ', 0) {
        Some(front) => value_of(front),
        None => 0,
    }
}

// The note code that three digits are, if they are one.
fn note_of(piece: &[u8]) -> Option<u8>
    ensures { result ≡ meant.note_of piece.now }
{
    if piece.len() < 3 {
        return None;
    }
    let code = value_up_to(&piece[..3], PAST_NUMBERS);
    if code > 255 {
        return None;
    }
    Some(code as u8)
}

// The code of the note in an interchange that refuses another (TA105), if it has one.
fn note_in(text: &[u8]) -> Option<u8>
    ensures { result ≡ meant.note_in text.now }
{
    if text.len() < 4 {
        return None;
    }
    match part(text, text[3], 21) {
        Some(piece) => note_of(piece),
        None => None,
    }
}

// The fault that a 503 tells. A server that can be heard tells no 44 of itself.
fn fault_in_body(body: &[u8]) -> Fault
    ensures { result ≡ meant.fault_in_body body.now }
{
    Fault::numbered(number_in(body)).unwrap_or(Fault::Device)
}

// Whether a server tells the refusal under this status.
fn stands_under(status: u16, refusal: Refusal) -> bool
    ensures { result ≡ meant.stands_under status refusal }
{
    match refusal {
        Refusal::Unreadable => status == 400,
        Refusal::UnknownDepositor => status == 404,
        Refusal::BadText => status == 404 || status == 422,
        Refusal::TicketUsed => status == 409,
        _ => status == 422,
    }
}

// What a refusal's line comes to.
fn heard_line(status: u16, line: &[u8]) -> HeardAs
    ensures { result ≡ meant.heard_line status line.now }
{
    match Refusal::numbered(number_in(line)) {
        Some(refusal) if stands_under(status, refusal) => HeardAs::Refused(refusal),
        _ => HeardAs::Stopped(Fault::Device),
    }
}

// What an interchange that refuses with a note comes to.
fn heard_note(text: &[u8]) -> HeardAs
    ensures { result ≡ meant.heard_note text.now }
{
    match note_in(text) {
        Some(code) => HeardAs::Refused(Refusal::Note(code)),
        None => HeardAs::Stopped(Fault::Device),
    }
}

/// What the answer to a command comes to, by its status, by whether its body is an interchange, and
/// by its body. An interchange that is too large (413) is refused as one that can't be read, as it
/// is over a book in a file.
pub fn heard(status: u16, is_interchange: bool, body: &[u8]) -> HeardAs
    ensures { result ≡ meant.heard status is_interchange body.now }
{
    match status {
        200 if is_interchange => HeardAs::Done,
        204 => HeardAs::Done,
        409 if is_interchange => HeardAs::Refused(Refusal::Duplicate),
        422 if is_interchange => heard_note(body),
        413 => HeardAs::Refused(Refusal::Unreadable),
        503 => HeardAs::Stopped(fault_in_body(body)),
        _ => heard_line(status, body),
    }
}

// Whether a 404 is of a depositor whom the server doesn't know.
fn is_nobody(shown: Audience, body: &[u8]) -> bool
    ensures { result ≡ meant.is_nobody shown body.now }
{
    match shown {
        Audience::Partners | Audience::Testers => number_in(body) == 404,
        Audience::Clerks => false,
    }
}

/// What the answer to a query of what these are shown comes to. A server says `404 Not Found` to
/// partners of a depositor whom it doesn't know. To clerks it says by number what it refuses a
/// query of theirs for; a 404 without a number is another server's.
pub fn heard_query(shown: Audience, status: u16, is_interchange: bool, body: &[u8]) -> HeardAs
    ensures { result ≡ meant.heard_query shown status is_interchange body.now }
{
    match status {
        200 if !is_interchange => HeardAs::Done,
        404 if is_nobody(shown, body) => HeardAs::Refused(Refusal::UnknownDepositor),
        503 => HeardAs::Stopped(fault_in_body(body)),
        _ => heard_line(status, body),
    }
}
