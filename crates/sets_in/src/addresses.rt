ghost use Rattle.std.specs.Prelude.{◌≡◌, ◌||◌, IfOk, codes, map};
ghost use Rattle.std.specs.List.{take_while};
ghost use Rattle.definitions.specs.Cut.{segments_of, has_id};
ghost use Rattle.definitions.specs.Means as meant;
ghost use Rattle.sets_in.specs.Spaced.{spaced_with};

use crate::reading::{copied, element_with};
use crate::sets::Address;
use segments::Segment;
use std::alloc::{AllocError, Global};

// Whether it is the N1 of a ship-to.
fn is_ship_to(segment: &Segment<'_>) -> bool
    ensures { result ≡ meant.is_ship_to segment.now.elements }
{
    segment.has_id(b"N1") && segment.element(1) == b"ST".as_slice()
}

// Whether it is an N3 or N4, which belong to the N1 before them.
fn belongs(segment: &Segment<'_>) -> bool
    ensures { result ≡ (has_id (codes "N3") segment.now.elements || has_id (codes "N4")
        segment.now.elements) }
{
    segment.has_id(b"N3") || segment.has_id(b"N4")
}

// The segments in front that belong to the N1 before them.
fn belonging<'a, 's>(segments: &'s [Segment<'a>]) -> &'s [Segment<'a>]
    ensures { segments_of result.now ≡ take_while
        (λ s. has_id (codes "N3") s || has_id (codes "N4") s) (segments_of segments.now) }
{
    for (index, segment) in segments.iter().enumerate() {
        if !belongs(segment) {
            return &segments[..index];
        }
    }
    segments
}

// Appends the text, with a space before it where both aren't empty.
fn append_spaced(out: &mut Vec<u8>, text: &[u8]) -> Result<(), AllocError>
    ensures { IfOk result (λ _. out.new.items ≡ spaced_with out.old.items text.now) }
{
    if text.is_empty() {
        return Ok(());
    }
    if !out.is_empty() {
        out.push(b' ')?;
    }
    out.extend_from_slice(text)?;
    Ok(())
}

// The texts that aren't empty, with a space between each two.
fn spaced(alloc: Global, texts: &[&[u8]]) -> Result<Vec<u8>, AllocError>
    ensures { IfOk result (λ v. v.items ≡ meant.spaced (map (λ t. t.now) texts.now)) }
{
    let mut out = Vec::new(alloc);
    for text in texts {
        append_spaced(&mut out, text)?;
    }
    Ok(out)
}

// The address of an N1 and what belongs to it.
fn address_of(alloc: Global, n1: &Segment<'_>, after: &[Segment<'_>]) -> Result<Address, AllocError>
    ensures { IfOk result (λ a. a ≡ meant.address_of n1.now.elements (segments_of after.now)) }
{
    let name = copied(alloc, n1.element(2))?;
    let one = copied(alloc, element_with(after, b"N3", 1))?;
    let two = copied(alloc, element_with(after, b"N3", 2))?;
    let city = element_with(after, b"N4", 1);
    let state = element_with(after, b"N4", 2);
    let code = element_with(after, b"N4", 3);
    let place = spaced(alloc, &[city, state, code])?;
    Ok(Address {
        name,
        one,
        two,
        place,
    })
}

/// Where the set says that the goods go: the first N1 with code ST, with the N3 and N4 directly
/// after it.
pub(crate) fn ship_to(
    alloc: Global,
    segments: &[Segment<'_>],
) -> Result<Option<Address>, AllocError>
    ensures { IfOk result (λ a. a ≡ meant.ship_to (segments_of segments.now)) }
{
    for (index, segment) in segments.iter().enumerate() {
        if is_ship_to(segment) {
            let after = belonging(&segments[index + 1..]);
            return Ok(Some(address_of(alloc, segment, after)?));
        }
    }
    Ok(None)
}
