ghost use Rattle.std.specs.Prelude.{◌≡◌, filter, codes};
ghost use Rattle.std.specs.List.{list_all};
ghost use Rattle.definitions.specs.Cut as cuts;
ghost use Rattle.definitions.specs.Elements.{is_well_formed as well_formed};
ghost use Rattle.definitions.specs.Halt as meant;
ghost use Rattle.envelope.specs.Conditions as conditions;
ghost use Rattle.envelope.specs.Parts.{marked};

use crate::bytes::{has_value, same};
use crate::looking::{count, has, last_element};
use segments::{Delims, Segment, is_well_formed};

// Whether each IEA among the pieces is well formed.
fn are_trailers(delims: &Delims, segments: &[Segment<'_>]) -> bool
    ensures { result ≡ list_all
        (λ p. well_formed delims.now p.elements) (filter (marked (codes "IEA")) segments.now) }
{
    segments
        .iter()
        .filter(|s| s.has_id(b"IEA"))
        .all(|s| is_well_formed(delims, s))
}

// Whether each IEA is well formed.
fn are_trailers_well_formed(delims: &Delims, segments: &[Segment<'_>]) -> bool
    ensures { result ≡ list_all (well_formed delims.now)
        (filter (cuts.has_id (codes "IEA")) (cuts.segments_of segments.now)) }
{
    are_trailers(delims, segments)
}

fn ends_with_trailer(segments: &[Segment<'_>]) -> bool
    ensures { result ≡ cuts.has_id (codes "IEA") (cuts.last_segment
        (cuts.segments_of segments.now)) }
{
    same(last_element(segments, 0), b"IEA")
}

fn is_trailer_wrong(delims: &Delims, segments: &[Segment<'_>]) -> bool
    ensures { result ≡ meant.is_trailer_wrong delims.now (cuts.segments_of segments.now) }
{
    if !are_trailers_well_formed(delims, segments) {
        return true;
    }
    if count(segments, b"IEA") != 1 {
        return true;
    }
    !ends_with_trailer(segments)
}

/// The note of the first condition on the cut and the trailer that holds, before the content is
/// looked at: 23 the text has a rest or no IEA, 22 an IEA is malformed or the first isn't the last
/// segment, 1 IEA02 isn't ISA13, which is given, 21 IEA01 isn't the number of GS.
pub(crate) fn trailer_note(
    delims: &Delims,
    segments: &[Segment<'_>],
    has_rest: bool,
    number: &[u8],
) -> Option<u8>
    ensures { result ≡ conditions.trailer_note delims.now (cuts.segments_of segments.now) has_rest
        number.now }
{
    if has_rest || !has(segments, b"IEA") {
        return Some(23);
    }
    if is_trailer_wrong(delims, segments) {
        return Some(22);
    }
    if !same(last_element(segments, 2), number) {
        return Some(1);
    }
    if !has_value(last_element(segments, 1), count(segments, b"GS")) {
        return Some(21);
    }
    None
}
