ghost use Rattle.std.specs.Prelude.{◌≡◌, ◌<◌, ◌≤◌, ◌+◌, ◌-◌, ◌^◌, true, get_or, [], ◌∷◌, length, take, drop, count_by, MatchOption, position, find, option_copied};
ghost use Rattle.std.specs.List.{position_or_len, before_first, list_any};
ghost use Rattle.definitions.specs.Lists.{parted};
ghost use Rattle.definitions.specs.Cut as cuts;
ghost use Rattle.envelope.specs.Parts.{marked};

use segments::Segment;

// Where the id stands first.
fn found(segments: &[Segment<'_>], id: &[u8]) -> Option<usize>
    ensures { result ≡ position (marked id.now) segments.now }
{
    segments.iter().position(|s| s.has_id(id))
}

// Where the id stands first, or the end.
#[tactic(auto, using(crate::proofs::Runs::place_some, crate::proofs::Runs::place_none))]
pub(crate) fn place_of(segments: &[Segment<'_>], id: &[u8]) -> usize
    ensures value { result ≡ position_or_len (marked id.now) segments.now }
    ensures within { result ≤ length segments.now }
{
    match found(segments, id) {
        Some(place) => place,
        None => segments.len(),
    }
}

// The segments before the first with the id.
#[tactic(auto, using(crate::proofs::Bared::before_bare))]
pub(crate) fn before<'s, 'a>(segments: &'s [Segment<'a>], id: &[u8]) -> &'s [Segment<'a>]
    ensures pieces { result.now ≡ before_first (marked id.now) segments.now }
    ensures elements { cuts.segments_of result.now
        ≡ before_first (cuts.has_id id.now) (cuts.segments_of segments.now) }
{
    &segments[..place_of(segments, id)]
}

// The segments through the first with the id.
#[tactic(auto, using(crate::proofs::Runs::through_some, crate::proofs::Runs::through_none, crate::proofs::Runs::place_some))]
pub(crate) fn through<'s, 'a>(segments: &'s [Segment<'a>], id: &[u8]) -> &'s [Segment<'a>]
    ensures { result.now ≡ take (position_or_len (marked id.now) segments.now + 1) segments.now }
{
    match found(segments, id) {
        Some(place) => &segments[..place + 1],
        None => segments,
    }
}

// Whether one of the pieces has the id.
fn is_found(segments: &[Segment<'_>], id: &[u8]) -> bool
    ensures { result ≡ list_any (marked id.now) segments.now }
{
    segments.iter().any(|s| s.has_id(id))
}

// Whether one has the id.
pub(crate) fn has(segments: &[Segment<'_>], id: &[u8]) -> bool
    ensures { result ≡ list_any (cuts.has_id id.now) (cuts.segments_of segments.now) }
{
    is_found(segments, id)
}

// How many have the id.
#[tactic(auto, using(crate::proofs::Bared::count_bare))]
pub(crate) fn count(segments: &[Segment<'_>], id: &[u8]) -> usize
    ensures value { result ≡ count_by (cuts.has_id id.now) (cuts.segments_of segments.now) }
    ensures small { result < 10 ^ 18 }
{
    segments.iter().filter(|s| s.has_id(id)).count()
}

// The first with the id.
pub(crate) fn first_with<'s, 'a>(segments: &'s [Segment<'a>], id: &[u8]) -> Option<&'s Segment<'a>>
    ensures { option_copied result ≡ find (marked id.now) segments.now }
{
    segments.iter().find(|s| s.has_id(id))
}

/// An element of the last segment; nothing where there is none.
pub fn last_element<'a>(segments: &[Segment<'a>], n: usize) -> &'a [u8]
    ensures { result.now ≡ cuts.element (cuts.last_segment (cuts.segments_of segments.now)) n }
{
    match segments.last() {
        Some(last) => last.element(n),
        None => &[],
    }
}

// Where the id stands first at or after a place, or the end.
fn place_from(segments: &[Segment<'_>], from: usize, id: &[u8]) -> usize
    requires { from ≤ length segments.now }

    ensures value { result ≡ from + position_or_len (marked id.now) (drop from segments.now) }
    ensures within { result ≤ length segments.now }
{
    from + place_of(&segments[from..], id)
}

// Where the first run at or after a place begins, a segment with the id, and where it ends.
pub(crate) fn run_from(segments: &[Segment<'_>], from: usize, id: &[u8]) -> Option<(usize, usize)>
    requires { from ≤ length segments.now }

    ensures { MatchOption result ((parted (marked id.now) (drop from segments.now)).runs ≡ [])
        (λ r. (r.0 < r.1) × (r.1 ≤ length segments.now) × (from < r.1)
        × ((d : cuts.Piece) → marked id.now (get_or segments.now r.0 d) ≡ true)
        × ((d : cuts.Piece) → (parted (marked id.now) (drop from segments.now)).runs
        ≡ (get_or segments.now r.0 d, take (r.1 - (r.0 + 1)) (drop (r.0 + 1) segments.now))
        ∷ (parted (marked id.now) (drop r.1 segments.now)).runs)) }
{
    let start = place_from(segments, from, id);
    if start == segments.len() {
        return None;
    }
    let end = place_from(segments, start + 1, id);
    Some((start, end))
}
