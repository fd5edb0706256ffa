//! The health of a book, as a probe asks for it.
ghost use Rattle.std.specs.Prelude.{◌≡◌, ◌++◌, None, true, IfOk, OnOk};
ghost use Rattle.httparse.specs.Grammar.{RequestHead};
ghost use Rattle.httparse.specs.Spans.{IsRequestWithin, IsRequestAt};
ghost use Rattle.definitions.specs.Moments.{Moment as Minute};
ghost use Rattle.definitions.specs.Response.{Get, plain_type, with_body};
ghost use Rattle.store.specs.Extent as extents;
ghost use Rattle.store.specs.Standing.{GoesOn, IsQuery, OfAnyKept};
ghost use Rattle.intake.specs.Answers.{seen};
ghost use Rattle.intake.specs.Asking.{IsShutResponse};
ghost use Rattle.intake.specs.Fields.{head_of, seen_method};
ghost use Rattle.intake.specs.Health as meant;
ghost use Rattle.intake.specs.Serving.{IsRequestServed};

use crate::audience::Access;
use crate::heading::{MethodKind, read_method};
use crate::replies::{of_fault, with_text};
use crate::response::{Allow, MediaType, Response, Status, bare_response, not_allowed_response};
use head_fields::is_among;
use httparse::spans::{HeaderSpan, RequestSpans};
use itoa::Buffer;
use std::alloc::{AllocError, Global};
use store::{Extent, Fault, Keeper, Moment};

/// Whether a path leads to the health of the book, at a server that tells it.
pub(crate) fn leads_to_health(access: Access<'_>, path: &[u8]) -> bool
    ensures { result ≡ meant.leads_to_health access.entry path.now }
{
    access.tells_health && path == b"/health".as_slice()
}

// Appends the moment of the last entry, or `-`.
fn append_last(out: &mut Vec<u8>, last: Option<Moment>) -> Result<(), AllocError>
    ensures { OnOk result (out.new.items ≡ out.old.items ++ meant.last_text last) }
{
    match last {
        Some(moment) => out.extend_from_slice(&moment.stamp())?,
        None => out.push(b'-')?,
    }
    Ok(())
}

// What is told of a register that goes so far.
fn health_text(alloc: Global, extent: &Extent) -> Result<Vec<u8>, AllocError>
    ensures { IfOk result (λ text. text.items ≡ meant.extent_text (extents.extent extent.now)) }
{
    let mut digits = Buffer::new();
    let mut text = Vec::new(alloc);
    text.extend_from_slice(b"ok\nversion 2.0\nentries ")?;
    text.extend_from_slice(digits.format(extent.entries).as_bytes())?;
    text.extend_from_slice(b"\nlast ")?;
    append_last(&mut text, extent.last)?;
    text.push(b'\n')?;
    Ok(text)
}

// How far the book goes, as it is told.
fn look_at<K: Keeper>(alloc: Global, keeper: &mut K) -> Result<Response, Fault>
    ensures response { OfAnyKept (K.standing keeper.old) (K.standing keeper.new)
        (λ L. IfOk result (λ r. seen r ≡ with_body 200 plain_type (meant.health_text L))) }
    ensures query { IsQuery (K.standing keeper.old) (K.standing keeper.new) result }
{
    let extent = keeper.extent()?;
    Ok(with_text(Status::Okay, MediaType::Plain, health_text(alloc, &extent)?))
}

// The response by GET. A fault of the look is answered 503.
fn look_told<K: Keeper>(alloc: Global, keeper: &mut K) -> Response
    ensures served { (t : Minute) → IsRequestServed (K.standing keeper.old) (K.standing keeper.new)
        t None (meant.health_by Get) true IsShutResponse (seen result) }
    ensures goes { GoesOn (K.standing keeper.old) (K.standing keeper.new) }
{
    match look_at(alloc, keeper) {
        Ok(response) => response,
        Err(fault) => of_fault(fault),
    }
}

// The response by a method.
fn health_by<K: Keeper>(alloc: Global, keeper: &mut K, method: MethodKind) -> Response
    ensures served { (t : Minute) → IsRequestServed (K.standing keeper.old) (K.standing keeper.new)
        t None (meant.health_by (seen_method method)) (meant.is_get (seen_method method))
        IsShutResponse (seen result) }
    ensures goes { GoesOn (K.standing keeper.old) (K.standing keeper.new) }
{
    match method {
        MethodKind::Get => look_told(alloc, keeper),
        MethodKind::Post | MethodKind::Other => not_allowed_response(Allow::Get),
    }
}

/// The response to a request for the health of the book: how many entries it has, and the moment of
/// the last. A fault of the look is answered 503. No more is read than the head.
pub(crate) fn answer_health<K: Keeper>(
    alloc: Global,
    keeper: &mut K,
    got: &[u8],
    fields: &[HeaderSpan],
    spans: &RequestSpans,
) -> Response
    requires { IsRequestWithin got.now fields.now spans.now }

    ensures served { (h : RequestHead) (t : Minute)
        → IsRequestAt got.now fields.now spans.now h
        → IsRequestServed (K.standing keeper.old) (K.standing keeper.new) t None
        (meant.health_response (head_of h)) (meant.health_asks (head_of h)) IsShutResponse
        (seen result) }
    ensures goes { GoesOn (K.standing keeper.old) (K.standing keeper.new) }
{
    if is_among(got, &fields[..spans.headers], b"Transfer-Encoding") {
        return bare_response(Status::NotImplemented);
    }
    health_by(alloc, keeper, read_method(spans.method.of(got)))
}
