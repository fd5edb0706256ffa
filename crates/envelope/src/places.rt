ghost use Rattle.std.specs.Prelude.{◌≡◌, codes, []};
ghost use Rattle.std.specs.List.{after_first, list_all};
ghost use Rattle.definitions.specs.Lists.{parted};
ghost use Rattle.definitions.specs.Cut.{has_id, segments_of};
ghost use Rattle.definitions.specs.Structure as meant;

use crate::looking::{before, place_of, run_from};
use segments::Segment;

// Whether nothing stands in front of the first with the id, and nothing at all where none has it.
#[tactic(auto, using(crate::proofs::Bared::front_bare))]
fn has_no_front(segments: &[Segment<'_>], id: &[u8]) -> bool
    ensures { result ≡ meant.is_nothing (parted (has_id id.now) (segments_of segments.now)).front }
{
    place_of(segments, id) == 0
}

// Whether nothing stands after the first with the id.
#[tactic(auto, using(crate::proofs::Bared::length_after))]
fn has_no_rest(segments: &[Segment<'_>], id: &[u8]) -> bool
    ensures { result ≡ meant.is_nothing (after_first (has_id id.now) (segments_of segments.now)) }
{
    segments.len() - place_of(segments, id) <= 1
}

// Whether nothing stands after SE in each set's run.
#[tactic(auto, using(crate::proofs::Bared::tested_bare))]
fn are_sets_clean(segments: &[Segment<'_>]) -> bool
    ensures { result ≡ list_all meant.is_set_clean
        (parted (has_id (codes "ST")) (segments_of segments.now)).runs }
{
    let mut from = 0;
    while let Some((start, end)) = run_from(segments, from, b"ST") {
        if !has_no_rest(&segments[start + 1..end], b"SE") {
            return false;
        }
        from = end;
    }
    true
}

// Whether a group, of which these are the segments after GS, has nothing but sets.
fn is_group_clean(others: &[Segment<'_>]) -> bool
    ensures { result ≡ meant.is_group_clean ([], segments_of others.now) }
{
    let inner = before(others, b"GE");
    if !has_no_front(inner, b"ST") {
        return false;
    }
    if !has_no_rest(others, b"GE") {
        return false;
    }
    are_sets_clean(inner)
}

// Whether each group has nothing but sets.
#[tactic(auto, using(crate::proofs::Bared::tested_bare))]
fn are_groups_clean(segments: &[Segment<'_>]) -> bool
    ensures { result ≡ list_all meant.is_group_clean
        (parted (has_id (codes "GS")) (segments_of segments.now)).runs }
{
    let mut from = 0;
    while let Some((start, end)) = run_from(segments, from, b"GS") {
        if !is_group_clean(&segments[start + 1..end]) {
            return false;
        }
        from = end;
    }
    true
}

// Whether each segment after ISA stands in its place.
pub(crate) fn are_in_place(segments: &[Segment<'_>]) -> bool
    ensures { result ≡ meant.is_in_place (segments_of segments.now) }
{
    let Some((_, others)) = segments.split_first() else {
        return true;
    };
    let inner = before(others, b"IEA");
    if !has_no_front(inner, b"GS") {
        return false;
    }
    if !has_no_rest(others, b"IEA") {
        return false;
    }
    are_groups_clean(inner)
}
