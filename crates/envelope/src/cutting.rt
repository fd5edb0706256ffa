ghost use Rattle.std.specs.Prelude.{◌≡◌, ◌≤◌, length, IfOk};
ghost use Rattle.definitions.specs.Cut as cuts;

use segments::{Delims, Segment, cut};
use std::alloc::{AllocError, Global};

// All segments of a text, and its rest.
fn pieces<'a>(
    alloc: Global,
    text: &'a [u8],
    delims: Delims,
) -> Result<(Vec<Segment<'a>>, &'a [u8]), AllocError>
    ensures { IfOk result
        (λ p. (p.0.items ≡ cuts.pieces_left (record { delims = delims; text = text.now }))
        × (p.1.now ≡ (cuts.cut delims text.now).rest)) }
{
    let mut pieces = Vec::new(alloc);
    let mut left = cut(text, delims);
    while let Some(segment) = left.next() {
        pieces.push(segment)?;
    }
    Ok((pieces, left.rest()))
}

/// All segments of a text, no more than it has bytes, and its rest.
#[tactic(auto, using(crate::proofs::PieceLemmas::pieces_elements, crate::proofs::PieceLemmas::pieces_same, crate::proofs::PieceLemmas::pieces_few))]
pub(crate) fn cut_all<'a>(
    alloc: Global,
    text: &'a [u8],
    delims: Delims,
) -> Result<(Vec<Segment<'a>>, &'a [u8]), AllocError>
    ensures { IfOk result
        (λ p. (cuts.segments_of p.0.items ≡ (cuts.cut delims text.now).segments)
        × cuts.AreOf delims p.0.items
        × (length p.0.items ≤ length text.now) × (p.1.now ≡ (cuts.cut delims text.now).rest)) }
{
    let (pieces, rest) = pieces(alloc, text, delims)?;
    Ok((pieces, rest))
}
