//! What a set comes to over a page.
ghost use Rattle.std.specs.Prelude.{◌≡◌, ◌<◌, ◌+◌, ◌-◌, ◌^◌, List, None, Some, IfOk, IfErr, length};
ghost use Rattle.definitions.specs.Limits.{most_sets};
ghost use Rattle.definitions.specs.Cut.{segments_of, AreOf};
ghost use Rattle.definitions.specs.Bytes.{Delims as Delimiters};
ghost use Rattle.definitions.specs.Events.{Event};
ghost use Rattle.definitions.specs.History as meant;
ghost use Rattle.definitions.specs.Faults.{set_fault};
ghost use Rattle.definitions.specs.declared.set_kind.SetKind.TheVariants as kinds;
ghost use Rattle.definitions.specs.Words.{kind_words};
ghost use Rattle.stock.specs.Pages.{PageFacts};
ghost use Rattle.stock.specs.Parts.{Named, IsPart};
ghost use Rattle.stock.specs.Shows.{Shows};
ghost use Rattle.tables.specs.Judged.{EndsInSE};
ghost use Rattle.set_effects.specs.SetNames.{NamesSet};
ghost use Rattle.set_effects.specs.Judging.{IsStepOf, IsStopOf, FitsOn, IsVerdict, CanBePut, OnPages};

use definitions::Rules;
use segments::{Segment, SetFault};
use sets_in::{ack, advice, order};
use sets_out::Rejection;
use std::alloc::{AllocError, Global};
use stock::{Page, SetStop, Step, acknowledge, announce, reserve};
use tables::{Checked, SetKind, judge};

/// What a set came to.
#[derive(Drop)]
pub(crate) enum Verdict<'a> {
    /// It passed: what its event changes on the page.
    Passed(Step),
    /// It is rejected, and the page is as before.
    Rejected(Rejection<'a>),
}

// A rejection for a segment in error.
fn in_segment(fault: SetFault<'_>) -> Rejection<'_>
    ensures { result ≡ record { code = 5; segment = Some fault.entry } }
{
    Rejection {
        code: 5,
        segment: Some(fault),
    }
}

// The step of an advice.
fn advised(alloc: Global, page: &Page, set: &Checked<'_>) -> Result<Step, SetStop>
    requires kind { set.now.kind ≡ kinds.ShipmentAdvice }
    requires room { page.now.recent < most_sets }

    ensures ok { IfOk result (IsStepOf page.now set.now) }
    ensures err { IfErr result (IsStopOf page.now set.now) }
    ensures sound { IfOk result (FitsOn page.now) }
{
    let advice = advice(alloc, set)?;
    announce(alloc, page, &advice)
}

// The step of an order.
fn ordered(alloc: Global, page: &Page, set: &Checked<'_>) -> Result<Step, SetStop>
    requires kind { set.now.kind ≡ kinds.ShippingOrder }
    requires room { page.now.recent < most_sets }

    ensures ok { IfOk result (IsStepOf page.now set.now) }
    ensures err { IfErr result (IsStopOf page.now set.now) }
    ensures sound { IfOk result (FitsOn page.now) }
{
    let order = order(alloc, set)?;
    reserve(alloc, page, &order, set.rules())
}

// The step of an acknowledgment.
fn acknowledged(alloc: Global, page: &Page, set: &Checked<'_>) -> Result<Step, SetStop>
    requires kind { set.now.kind ≡ kinds.FunctionalAcknowledgment }
    requires room { page.now.recent < most_sets }

    ensures ok { IfOk result (IsStepOf page.now set.now) }
    ensures err { IfErr result (IsStopOf page.now set.now) }
    ensures sound { IfOk result (FitsOn page.now) }
{
    let ack = ack(alloc, set)?;
    Ok(acknowledge(alloc, page, &ack)?)
}

// The step of a set without a fault of its own, or its trade fault.
fn traded(alloc: Global, page: &Page, set: &Checked<'_>) -> Result<Step, SetStop>
    requires { page.now.recent < most_sets }

    ensures ok { IfOk result (IsStepOf page.now set.now) }
    ensures err { IfErr result (IsStopOf page.now set.now) }
    ensures sound { IfOk result (FitsOn page.now) }
{
    match set.kind() {
        SetKind::ShipmentAdvice => advised(alloc, page, set),
        SetKind::ShippingOrder => ordered(alloc, page, set),
        SetKind::FunctionalAcknowledgment => acknowledged(alloc, page, set),
    }
}

// What a set without a fault of its own came to.
fn settled<'a>(alloc: Global, page: &Page, set: &Checked<'a>) -> Result<Verdict<'a>, AllocError>
    requires { page.now.recent < most_sets }

    ensures value { IfOk result (λ v. OnPages page.now set.now
        (λ P es outcome. IsVerdict P es (meant.by_segment outcome) v)) }
    ensures fits { IfOk result (CanBePut page.now) }
{
    match traded(alloc, page, set) {
        Ok(step) => Ok(Verdict::Passed(step)),
        Err(SetStop::Fault(fault)) => Ok(Verdict::Rejected(in_segment(fault))),
        Err(SetStop::OutOfMemory) => Err(AllocError),
    }
}

/// What a set of a kind comes to by the rules over a page: it passes, or is rejected for its first
/// segment in error. Want of memory is the one error.
pub(crate) fn judged<'a>(
    alloc: Global,
    page: &Page,
    kind: SetKind,
    segments: &'a [Segment<'a>],
    rules: Rules,
) -> Result<Verdict<'a>, AllocError>
    requires few { length segments.now < 2 ^ 32 - 1 }
    requires closed { EndsInSE segments.now }
    requires room { page.now.recent < most_sets }

    ensures value { IfOk result (λ v. (d : Delimiters) → AreOf d segments.now
        → (n : Named) (P : PageFacts) (es : List Event) → IsPart n page.now P
        → (set_fault rules d (kind_words rules kind) (segments_of segments.now) ≡ None
        → NamesSet n kind (segments_of segments.now)) → Shows P es
        → IsVerdict P es (meant.by_segment (meant.judged rules d es (page.now.entries + 1) kind
        (segments_of segments.now))) v) }
    ensures fits { IfOk result (CanBePut page.now) }
{
    match judge(kind, segments, rules) {
        Ok(set) => settled(alloc, page, &set),
        Err(fault) => Ok(Verdict::Rejected(in_segment(fault))),
    }
}
