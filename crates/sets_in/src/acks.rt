ghost use Rattle.std.specs.Prelude.{◌≡◌, IfOk, codes};
ghost use Rattle.definitions.specs.Cut.{segments_of, segment_with, element};
ghost use Rattle.definitions.specs.Means as meant;
ghost use Rattle.definitions.specs.declared.set_kind.SetKind.TheVariants as kinds;
ghost use Rattle.sets_in.specs.Amounts.{IsAmount};
ghost use Rattle.sets_in.specs.SaidAck.{SaysAck};

use crate::reading::{copied, element_with};
use segments::{Segment, number};
use std::alloc::{AllocError, Global};
use std::marker::Model;
use tables::Checked;

/// What a functional acknowledgment (997) says of one of our documents.
#[derive(Drop)]
pub struct AckIn {
    /// The functional identifier of the document's group (AK101).
    pub function: Vec<u8>,
    /// The number of the document (AK102).
    pub document: u32,
    /// Whether it is accepted (AK901 is A).
    pub accepts: bool,
}

impl Model for AckIn {
    ghost Value = { meant.Acknowledgment };

    ghost view = { λ a. record {
      function = a.function.items;
      document = a.document;
      accepts = a.accepts;
    } };
}

// The segments of an acknowledgment, with what is known of the document's number.
fn acknowledged<'a>(set: &Checked<'a>) -> &'a [Segment<'a>]
    requires { set.now.kind ≡ kinds.FunctionalAcknowledgment }

    ensures same { result.now ≡ set.now.pieces }
    ensures document { IsAmount 9 (element (segment_with (codes "AK1") (segments_of result.now))
        2) }
    ensures says { SaysAck (segments_of result.now) (meant.acknowledgment_of
        (segments_of result.now)) }
{
    set.segments()
}

// What the segments of an acknowledgment say.
fn said(alloc: Global, segments: &[Segment<'_>]) -> Result<AckIn, AllocError>
    requires { IsAmount 9 (element (segment_with (codes "AK1") (segments_of segments.now)) 2) }

    ensures { IfOk result (λ a. a ≡ meant.acknowledgment_of (segments_of segments.now)) }
{
    let function = copied(alloc, element_with(segments, b"AK1", 1))?;
    let document = number(element_with(segments, b"AK1", 2));
    let accepts = element_with(segments, b"AK9", 1) == b"A".as_slice();
    Ok(AckIn {
        function,
        document,
        accepts,
    })
}

/// What an acknowledgment that was judged says. The one error is want of memory.
pub fn ack(alloc: Global, set: &Checked<'_>) -> Result<AckIn, AllocError>
    requires { set.now.kind ≡ kinds.FunctionalAcknowledgment }

    ensures value { IfOk result (λ a. a ≡ meant.acknowledgment_of (segments_of set.now.pieces)) }
    ensures says { IfOk result (λ a. SaysAck (segments_of set.now.pieces) a) }
{
    said(alloc, acknowledged(set))
}
