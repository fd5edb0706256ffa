//! Looking segments and elements up.
ghost use Rattle.std.specs.Prelude.{◌≡◌, ◌<◌, ◌^◌, ◌-◌, IfOk, length};
ghost use Rattle.definitions.specs.Cut.{segments_of, segment_with, element, has_id};
ghost use Rattle.definitions.specs.Means.{segment_at, place_of};

use segments::Segment;
use std::alloc::{AllocError, Global};

/// A copy of the text.
pub(crate) fn copied(alloc: Global, text: &[u8]) -> Result<Vec<u8>, AllocError>
    ensures { IfOk result (λ v. v.items ≡ text.now) }
{
    let mut copy = Vec::new(alloc);
    copy.extend_from_slice(text)?;
    Ok(copy)
}

/// The element at a place of the first segment with the id, empty where there is none.
pub(crate) fn element_with<'a>(segments: &[Segment<'a>], id: &[u8], n: usize) -> &'a [u8]
    ensures { result.now ≡ element (segment_with id.now (segments_of segments.now)) n }
{
    for segment in segments {
        if segment.has_id(id) {
            return segment.element(n);
        }
    }
    &[]
}

/// The element at a place of the segment at a position, from 1; empty where there is none.
pub(crate) fn element_at<'a>(segments: &[Segment<'a>], position: usize, n: usize) -> &'a [u8]
    ensures { result.now ≡ element (segment_at (segments_of segments.now) position) n }
{
    match segments.get(position.saturating_sub(1)) {
        Some(segment) => segment.element(n),
        None => &[],
    }
}

/// Whether the segment at a position, from 1, has the id.
pub(crate) fn has_id_at(segments: &[Segment<'_>], position: usize, id: &[u8]) -> bool
    ensures { result ≡ has_id id.now (segment_at (segments_of segments.now) position) }
{
    element_at(segments, position, 0) == id
}

/// The position of the first segment with the id, from 1; 0 where there is none.
pub(crate) fn place_with(segments: &[Segment<'_>], id: &[u8]) -> u32
    requires { length segments.now < 2 ^ 32 - 1 }

    ensures { result ≡ place_of id.now (segments_of segments.now) }
{
    for (index, segment) in segments.iter().enumerate() {
        if segment.has_id(id) {
            return index as u32 + 1;
        }
    }
    0
}
