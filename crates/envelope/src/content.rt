ghost use Rattle.std.specs.Prelude.{◌≡◌, ◌<◌, ◌+◌, ◌^◌, ◌==◌, length, min, sum_by};
ghost use Rattle.std.specs.List.{list_all, list_any};
ghost use Rattle.definitions.specs.Cut as cuts;
ghost use Rattle.definitions.specs.Elements.{is_well_formed as well_formed};
ghost use Rattle.definitions.specs.Halt as meant;
ghost use Rattle.envelope.specs.Conditions as conditions;

use crate::looking::{count, has};
use crate::parts::Group;
use crate::places::are_in_place;
use definitions::{LEAST_SEGMENT, MOST_GROUPS, MOST_SEGMENT, MOST_SETS};
use segments::{Delims, Segment, all_alphanumeric, is_well_formed};

// More than there are of anything: sums are cut off here.
const CEILING: usize = 1_000_000_000_000_000_000;

// Whether each piece is well formed.
fn are_formed(delims: &Delims, segments: &[Segment<'_>]) -> bool
    ensures { result ≡ list_all (λ p. well_formed delims.now p.elements) segments.now }
{
    segments.iter().all(|s| is_well_formed(delims, s))
}

// Whether each segment is well formed.
fn are_well_formed(delims: &Delims, segments: &[Segment<'_>]) -> bool
    ensures { result ≡ list_all (well_formed delims.now) (cuts.segments_of segments.now) }
{
    are_formed(delims, segments)
}

// Whether the id is two or three of A to Z and 0 to 9.
fn is_segment_id(id: &[u8]) -> bool
    ensures { result ≡ meant.is_segment_id id.now }
{
    id.len() >= LEAST_SEGMENT && id.len() <= MOST_SEGMENT && all_alphanumeric(id)
}

// Whether each piece has an id of that shape.
fn are_named(segments: &[Segment<'_>]) -> bool
    ensures { result ≡ list_all (λ p. meant.is_segment_id (cuts.id_of p.elements)) segments.now }
{
    segments.iter().all(|s| is_segment_id(s.element(0)))
}

// Whether each segment has an id of that shape.
fn have_ids(segments: &[Segment<'_>]) -> bool
    ensures { result ≡ list_all (λ s. meant.is_segment_id (cuts.id_of s))
        (cuts.segments_of segments.now) }
{
    are_named(segments)
}

/// Whether the segments alone make the content invalid: a malformed GS, GE, ST or SE, an id of
/// another shape, a second ISA, a TA1, or a segment outside its place.
pub(crate) fn are_segments_invalid(delims: &Delims, segments: &[Segment<'_>]) -> bool
    ensures { result ≡ conditions.are_segments_invalid delims.now (cuts.segments_of segments.now) }
{
    if !are_well_formed(delims, segments) {
        return true;
    }
    if !have_ids(segments) {
        return true;
    }
    if count(segments, b"ISA") > 1 {
        return true;
    }
    if has(segments, b"TA1") {
        return true;
    }
    !are_in_place(segments)
}

// How many sets the groups have, as far as the ceiling.
fn sets_count(groups: &[Group<'_>]) -> usize
    ensures { result ≡ min (sum_by (λ g. length g.group.sets) groups.now) (10 ^ 18) }
{
    let mut total = 0;
    for group in groups {
        total = (total + group.sets().len().min(CEILING)).min(CEILING);
    }
    total
}

// Whether the group has no set.
fn is_empty(group: &Group<'_>) -> bool
    ensures { result ≡ (length group.now.group.sets == 0) }
{
    group.sets().is_empty()
}

fn has_empty(groups: &[Group<'_>]) -> bool
    ensures { result ≡ list_any (λ g. length g.group.sets == 0) groups.now }
{
    groups.iter().any(|g| is_empty(g))
}

/// Whether the groups make the content invalid: one has no set, or there are over 100 groups or
/// over 1,000 sets.
pub(crate) fn are_groups_invalid(groups: &[Group<'_>]) -> bool
    ensures { result ≡ conditions.are_held_invalid groups.now }
{
    if has_empty(groups) {
        return true;
    }
    if groups.len() > MOST_GROUPS {
        return true;
    }
    sets_count(groups) > MOST_SETS
}
