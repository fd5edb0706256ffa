ghost use Rattle.std.specs.Prelude.{◌≡◌, MatchResult, None, length, nat_lt};
ghost use Rattle.definitions.specs.Cut.{cut as meaning};
ghost use Rattle.definitions.specs.Halt.{structure_note};
ghost use Rattle.definitions.specs.Header.{delims_of};
ghost use Rattle.definitions.specs.Structure.{groups_of};
ghost use Rattle.envelope.specs.Conditions.{IsTold};

use crate::content::{are_groups_invalid, are_segments_invalid};
use crate::cutting::cut_all;
use crate::halt::Halt;
use crate::header::Isa;
use crate::making::interchange_of;
use crate::parts::Interchange;
use crate::trailer::trailer_note;
use std::alloc::Global;

// Whether the text has a rest.
fn is_some_left(rest: &[u8]) -> bool
    ensures { result ≡ nat_lt 0 (length rest.now) }
{
    !rest.is_empty()
}

/// The groups of a text that can be read, whose header is given. Note: the first condition on the
/// segments that holds; OutOfMemory: memory couldn't be had. The time is linear in the bytes of the
/// text.
pub fn structure<'a>(alloc: Global, text: &'a [u8], isa: &Isa<'a>) -> Result<Interchange<'a>, Halt>
    requires { isa.now ≡ text.now }

    ensures { MatchResult result
        (λ i. (structure_note text.now ≡ None)
        × (i ≡ record {
          delims = delims_of text.now;
          groups = groups_of (meaning (delims_of text.now) text.now).segments;
        }))
        (λ h. IsTold h text.now) }
{
    let delims = isa.delims();
    let (pieces, rest) = cut_all(alloc, text, delims)?;
    let segments = pieces.as_slice();
    if let Some(code) = trailer_note(&delims, segments, is_some_left(rest), isa.element(13)) {
        return Err(Halt::Note(code));
    }
    if are_segments_invalid(&delims, segments) {
        return Err(Halt::Note(24));
    }
    let interchange = interchange_of(alloc, delims, segments)?;
    if are_groups_invalid(interchange.groups()) {
        return Err(Halt::Note(24));
    }
    Ok(interchange)
}
