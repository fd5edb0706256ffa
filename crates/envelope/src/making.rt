ghost use Rattle.std.specs.Prelude.{◌≡◌, ◌<◌, ◌≤◌, true, ◌∷◌, length, map, codes, IfOk, option_copied};
ghost use Rattle.definitions.specs.Limits.{most_bytes};
ghost use Rattle.definitions.specs.Lists.{parted};
ghost use Rattle.definitions.specs.Cut.{AreOf, has_id, segments_of};
ghost use Rattle.definitions.specs.Structure as meant;
ghost use Rattle.envelope.specs.Parts as held;

use crate::looking::{before, first_with, has, run_from, through};
use crate::parts::{Group, Interchange, Set};
use segments::{Delims, Segment};
use std::alloc::{AllocError, Global};

// These segments, in a list of their own: a segment is a slice, so no bytes are copied.
fn copied<'a>(
    alloc: Global,
    head: &Segment<'a>,
    others: &[Segment<'a>],
) -> Result<Vec<Segment<'a>>, AllocError>
    ensures { IfOk result (λ v. v.items ≡ head.now ∷ others.now) }
{
    let mut segments = Vec::new(alloc);
    segments.push(head.again())?;
    for segment in others {
        segments.push(segment.again())?;
    }
    Ok(segments)
}

// A set of ST and what follows it in its run.
fn make_set<'a>(
    alloc: Global,
    delims: Delims,
    head: &Segment<'a>,
    others: &[Segment<'a>],
) -> Result<Set<'a>, AllocError>
    requires same { AreOf delims (head.now ∷ others.now) }
    requires begins { has_id (codes "ST") head.now.elements ≡ true }
    requires few { length others.now < most_bytes }

    ensures { IfOk result
        (λ s. s ≡ held.set_under delims (meant.set_of (held.bare (head.now, others.now)))) }
{
    let segments = copied(alloc, head, through(others, b"SE"))?;
    Ok(Set::new(delims, segments, has(others, b"SE")))
}

// The sets of a group's segments.
fn make_sets<'a>(
    alloc: Global,
    delims: Delims,
    segments: &[Segment<'a>],
) -> Result<Vec<Set<'a>>, AllocError>
    requires same { AreOf delims segments.now }
    requires few { length segments.now ≤ most_bytes }

    ensures { IfOk result
        (λ v. v.items ≡ map (held.set_under delims)
        (map meant.set_of (parted (has_id (codes "ST")) (segments_of segments.now)).runs)) }
{
    let mut sets = Vec::new(alloc);
    let mut from = 0;
    while let Some((start, end)) = run_from(segments, from, b"ST") {
        let set = make_set(alloc, delims, &segments[start], &segments[start + 1..end])?;
        sets.push(set)?;
        from = end;
    }
    Ok(sets)
}

// The same segment, if there is one.
fn again_if<'a>(segment: Option<&Segment<'a>>) -> Option<Segment<'a>>
    ensures { result ≡ option_copied segment.entry }
{
    match segment {
        Some(segment) => Some(segment.again()),
        None => None,
    }
}

// A group of GS and what follows it in its run.
fn make_group<'a>(
    alloc: Global,
    delims: Delims,
    head: &Segment<'a>,
    others: &[Segment<'a>],
) -> Result<Group<'a>, AllocError>
    requires same { AreOf delims (head.now ∷ others.now) }
    requires few { length others.now ≤ most_bytes }

    ensures { IfOk result
        (λ g. g ≡ held.group_under delims (meant.group_of (held.bare (head.now, others.now)))) }
{
    let sets = make_sets(alloc, delims, before(others, b"GE"))?;
    let tail = again_if(first_with(others, b"GE"));
    Ok(Group::new(head.again(), sets, tail))
}

// The groups of the segments between ISA and IEA.
fn make_groups<'a>(
    alloc: Global,
    delims: Delims,
    segments: &[Segment<'a>],
) -> Result<Vec<Group<'a>>, AllocError>
    requires same { AreOf delims segments.now }
    requires few { length segments.now ≤ most_bytes }

    ensures { IfOk result
        (λ v. v.items ≡ map (held.group_under delims)
        (map meant.group_of (parted (has_id (codes "GS")) (segments_of segments.now)).runs)) }
{
    let mut groups = Vec::new(alloc);
    let mut from = 0;
    while let Some((start, end)) = run_from(segments, from, b"GS") {
        let group = make_group(alloc, delims, &segments[start], &segments[start + 1..end])?;
        groups.push(group)?;
        from = end;
    }
    Ok(groups)
}

// The groups of all segments.
fn groups_of<'a>(
    alloc: Global,
    delims: Delims,
    segments: &[Segment<'a>],
) -> Result<Vec<Group<'a>>, AllocError>
    requires same { AreOf delims segments.now }
    requires few { length segments.now ≤ most_bytes }

    ensures { IfOk result
        (λ v. v.items ≡ map (held.group_under delims) (meant.groups_of
        (segments_of segments.now))) }
{
    match segments.split_first() {
        Some((_, others)) => make_groups(alloc, delims, before(others, b"IEA")),
        None => Ok(Vec::new(alloc)),
    }
}

/// The groups between ISA and IEA, of the segments of a text.
#[tactic(auto, using(crate::proofs::Holding::groups_again))]
pub(crate) fn interchange_of<'a>(
    alloc: Global,
    delims: Delims,
    segments: &[Segment<'a>],
) -> Result<Interchange<'a>, AllocError>
    requires same { AreOf delims segments.now }
    requires few { length segments.now ≤ most_bytes }

    ensures { IfOk result
        (λ i. i ≡ record { delims = delims; groups = meant.groups_of (segments_of segments.now) }) }
{
    Ok(Interchange::new(delims, groups_of(alloc, delims, segments)?))
}
