//! Whether a request is answered, as its head says.
ghost use Rattle.std.specs.Prelude.{◌≡◌, false, true, length, map, All, MatchResult, option_copied};
ghost use Rattle.std.specs.List.{list_any};
ghost use Rattle.httparse.specs.Spans.{IsHeaderWithin, header_bytes};
ghost use Rattle.request_guard.specs.Doors as meant;
ghost use Rattle.request_guard.specs.Reading.{IsRead};

use crate::barred::Barred;
use crate::forms::is_posted_form;
use crate::hosts::is_misdirected;
use crate::origins::{is_cross_site, is_of_another};
use head_fields::{Values, values_of};
use httparse::spans::HeaderSpan;

/// The doors of a server: the names by which it may be asked.
#[derive(Clone, Copy)]
pub struct Doors<'n> {
    /// The names that lead to it beside `localhost` and addresses in digits, if there are any: each
    /// text has one, or several with a comma between any two.
    pub names: &'n [&'n str],
}

// The values of the fields that decide, where none of them is there twice.
#[derive(Clone, Copy)]
struct DecidingValues<'b> {
    host: Option<&'b [u8]>,
    origin: Option<&'b [u8]>,
    site: Option<&'b [u8]>,
    mode: Option<&'b [u8]>,
    media: Option<&'b [u8]>,
}

// The value of a field, if it is there.
fn single_of<'b>(
    buf: &'b [u8],
    fields: &[HeaderSpan],
    name: &[u8],
) -> Result<Option<&'b [u8]>, Barred>
    requires { All (IsHeaderWithin (length buf.now)) fields.now }

    ensures { let named = map (header_bytes buf.now) fields.now in MatchResult result
        (λ value. (meant.is_repeated named name.now ≡ false)
        × (option_copied value ≡ meant.value_of name.now named))
        (λ why. (meant.is_repeated named name.now ≡ true) × (why ≡ Barred.BadRequest)) }
{
    match values_of(buf, fields, name) {
        Values::Absent => Ok(None),
        Values::Single(value) => Ok(Some(value)),
        Values::Several => Err(Barred::BadRequest),
    }
}

fn read_deciding<'b>(buf: &'b [u8], fields: &[HeaderSpan]) -> Result<DecidingValues<'b>, Barred>
    requires { All (IsHeaderWithin (length buf.now)) fields.now }

    ensures { let named = map (header_bytes buf.now) fields.now in MatchResult result
        (IsRead named)
        (λ why. (list_any (meant.is_repeated named) meant.deciding_names ≡ true)
        × (why ≡ Barred.BadRequest)) }
{
    let host = single_of(buf, fields, b"Host")?;
    let origin = single_of(buf, fields, b"Origin")?;
    let site = single_of(buf, fields, b"Sec-Fetch-Site")?;
    let mode = single_of(buf, fields, b"Sec-Fetch-Mode")?;
    let media = single_of(buf, fields, b"Content-Type")?;
    Ok(DecidingValues {
        host,
        origin,
        site,
        mode,
        media,
    })
}

// Whether the request is of another origin, or may be a form of one.
fn is_forbidden(method: &[u8], deciding: DecidingValues<'_>) -> bool
    ensures { (named : meant.Fields) → IsRead named deciding.entry
        → result ≡ meant.is_forbidden method.now named }
{
    is_of_another(deciding.host, deciding.origin)
        || is_cross_site(deciding.site)
        || is_posted_form(method, deciding.origin, deciding.mode, deciding.media)
}

/// Why a request isn't answered, if it isn't, by its method and the fields of its head as
/// `httparse` found them. The first of these that holds decides:
///
/// - One of Host, Origin, Sec-Fetch-Site, Sec-Fetch-Mode and Content-Type is there twice: 400.
/// - Its Host is neither an IPv4 address, nor an IPv6 address in brackets, nor `localhost`, nor one
///   of the names given, each alone or with a port: 421 (RFC 9110, 7.2 and 15.5.20). Where a page's
///   name was made to lead here, a browser still sends that name.
/// - Its Origin isn't `http://` or `https://` and its own Host: 403 (RFC 6454, 7).
/// - Sec-Fetch-Site is neither `same-origin` nor `none`: 403 (Fetch Metadata Request Headers).
/// - It is a POST of a browser, which sends Origin or Sec-Fetch-Mode, and its Content-Type is one
///   that a form may have, or a page without asking first (the Fetch standard, 2.2.2): 403.
///
/// A program that isn't a browser sends none of these fields but Host and Content-Type, and is
/// answered.
pub fn judge_head(
    doors: Doors<'_>,
    method: &[u8],
    buf: &[u8],
    fields: &[HeaderSpan],
) -> Option<Barred>
    requires { All (IsHeaderWithin (length buf.now)) fields.now }

    ensures { result ≡ meant.barred_of (meant.names_of doors.entry.names) method.now
        (map (header_bytes buf.now) fields.now) }
{
    let deciding = match read_deciding(buf, fields) {
        Ok(deciding) => deciding,
        Err(barred) => return Some(barred),
    };
    if is_misdirected(doors.names, deciding.host) {
        Some(Barred::Misdirected)
    } else if is_forbidden(method, deciding) {
        Some(Barred::Forbidden)
    } else {
        None
    }
}
