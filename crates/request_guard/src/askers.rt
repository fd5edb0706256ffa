//! For whom a request is asked, where a server stands behind one that says it.
ghost use Rattle.std.specs.Prelude.{◌≡◌, length, map, bytes_eq, All};
ghost use Rattle.httparse.specs.Spans.{IsHeaderWithin, header_bytes};
ghost use Rattle.definitions.specs.Header.{who_text};
ghost use Rattle.request_guard.specs.Askers as meant;

use head_fields::{Values, values_of};
use httparse::spans::HeaderSpan;
use segments::Who;

/// For whom a request is asked.
#[derive(Clone, Copy)]
pub enum Asker {
    /// Nobody is to say it: for whomever the request names.
    Unnamed,
    /// For this depositor alone, by the word of what stands in front.
    Depositor(Who),
    /// What stands in front is to say it, and doesn't, or not so that it can be read.
    Unknown,
}

/// For whom a request with these fields is asked, where `from` names the field that is to say it:
/// it is there once then, in letters of either case (RFC 9110, section 5.1), and its value is a
/// depositor as `ZZ-ACME`.
pub fn asker_of(from: Option<&str>, buf: &[u8], fields: &[HeaderSpan]) -> Asker
    requires { All (IsHeaderWithin (length buf.now)) fields.now }

    ensures { result ≡ meant.asker_of from.entry (map (header_bytes buf.now) fields.now) }
{
    let Some(name) = from else {
        return Asker::Unnamed;
    };
    let Values::Single(text) = values_of(buf, fields, name.as_bytes()) else {
        return Asker::Unknown;
    };
    match Who::new(text) {
        Some(who) => Asker::Depositor(who),
        None => Asker::Unknown,
    }
}

/// Whether a part of a path names this depositor.
pub fn is_named(who: &Who, part: &[u8]) -> bool
    ensures { result ≡ bytes_eq (who_text who.now) part.now }
{
    who.text() == part
}

/// Whether an interchange of this sender may be handed in; one that names none is refused for that.
pub fn may_send(asker: &Asker, sender: &Option<Who>) -> bool
    ensures { result ≡ meant.may_send asker.now sender.now }
{
    match (asker, sender) {
        (Asker::Depositor(who), Some(sender)) => who.is(sender),
        _ => true,
    }
}
