//! What the head of a response says of its body.
ghost use Rattle.std.specs.Prelude.{◌≡◌, ℕ, List, [], ◌∷◌, length, map, All, IfErr, IfOk};
ghost use Rattle.httparse.specs.Spans.{IsHeaderWithin, header_bytes};
ghost use Rattle.head_fields.specs.Fields.{IsValues};
ghost use Rattle.http_client.specs.Fields.{body_length, is_x12, SaysOfBody, SaysOfNoBody};

use crate::remote::answers::Unanswered;
use head_fields::{Values, values_of};
use httparse::spans::HeaderSpan;
use segments::{all_digits, value_up_to};

/// The largest body that is read, in bytes.
pub(crate) const MOST_BODY: u64 = 16_777_216;

// The length that a text states, if it is one that is read.
fn length_value(text: &[u8]) -> Option<usize>
    ensures { result ≡ body_length (text.now ∷ []) }
{
    if text.is_empty() || !all_digits(text) {
        return None;
    }
    let size = value_up_to(text, MOST_BODY + 1);
    if MOST_BODY < size {
        return None;
    }
    Some(size as usize)
}

// The length of a body that these values of Content-Length state, if it is one that is read.
fn length_of(values: &Values<'_>) -> Option<usize>
    ensures { (texts : List (List ℕ)) → IsValues values.now texts → result ≡ body_length texts }
{
    match values {
        Values::Absent => Some(0),
        Values::Single(text) => length_value(text),
        Values::Several => None,
    }
}

// Whether these values of Content-Type are the type of interchanges alone.
fn is_x12_type(values: &Values<'_>) -> bool
    ensures { (texts : List (List ℕ)) → IsValues values.now texts → result ≡ is_x12 texts }
{
    match values {
        Values::Single(text) => *text == b"application/EDI-X12".as_slice(),
        Values::Absent | Values::Several => false,
    }
}

/// What the fields of a head say of its body.
#[derive(Clone, Copy)]
pub(crate) struct Said {
    /// Whether its type is the one of interchanges.
    pub is_interchange: bool,
    /// How many bytes it has.
    pub size: usize,
}

/// What these fields say. Device where, and only where, the body is in chunks, or its length isn't
/// one that is read.
pub(crate) fn said_of(buf: &[u8], fields: &[HeaderSpan]) -> Result<Said, Unanswered>
    requires { All (IsHeaderWithin (length buf.now)) fields.now }

    ensures said { IfOk result (SaysOfBody (map (header_bytes buf.now) fields.now)) }
    ensures unsaid { IfErr result
        (λ _. SaysOfNoBody (map (header_bytes buf.now) fields.now)) }
    ensures fault { IfErr result (λ why. why ≡ Unanswered.Device) }
{
    let Values::Absent = values_of(buf, fields, b"Transfer-Encoding") else {
        return Err(Unanswered::Device);
    };
    match length_of(&values_of(buf, fields, b"Content-Length")) {
        Some(size) => Ok(Said {
            is_interchange: is_x12_type(&values_of(buf, fields, b"Content-Type")),
            size,
        }),
        None => Err(Unanswered::Device),
    }
}
