ghost use Rattle.std.specs.Prelude.{◌≡◌, ◌++◌, map, OnOk, OnErr, flat_map, ◌∷◌};
ghost use Rattle.definitions.specs.Cut as meaning;
ghost use Rattle.segments.specs.Extends.{Extends};

use crate::delims::Delims;
use std::alloc::AllocError;

// Appends the separator and the element, or a beginning of them.
#[tactic(auto, using(crate::proofs::ExtendsLemmas::extends_append))]
fn append_part(out: &mut Vec<u8>, separator: u8, element: &[u8]) -> Result<(), AllocError>
    ensures ok { OnOk result (out.new.items ≡ out.old.items ++ separator ∷ element.now) }
    ensures kept { Extends out.old.items out.new.items }
{
    out.push(separator)?;
    out.extend_from_slice(element)?;
    Ok(())
}

/// Appends each element after a separator. After an error a beginning of that may stand there.
#[tactic(auto, using(crate::proofs::ExtendsLemmas::extends_append))]
pub fn append_parts(out: &mut Vec<u8>, separator: u8, elements: &[&[u8]]) -> Result<(), AllocError>
    ensures ok { OnOk result (out.new.items ≡ out.old.items ++ flat_map
        (λ e. separator ∷ e.now) elements.now) }
    ensures kept { Extends out.old.items out.new.items }
{
    for element in elements {
        append_part(out, separator, element)?;
    }
    Ok(())
}

// Appends the elements with the separator between each two, or a beginning of that.
#[tactic(auto, using(crate::proofs::ExtendsLemmas::extends_append))]
fn append_elements(out: &mut Vec<u8>, separator: u8, elements: &[&[u8]]) -> Result<(), AllocError>
    ensures ok { OnOk result (out.new.items ≡ out.old.items
        ++ meaning.joined separator (map (λ e. e.now) elements.now)) }
    ensures kept { Extends out.old.items out.new.items }
{
    match elements.split_first() {
        Some((first, others)) => {
            out.extend_from_slice(first)?;
            append_parts(out, separator, others)
        }
        None => Ok(()),
    }
}

// Appends the segment, or a beginning of it.
#[tactic(auto, using(crate::proofs::ExtendsLemmas::extends_append))]
fn append(out: &mut Vec<u8>, delims: Delims, elements: &[&[u8]]) -> Result<(), AllocError>
    ensures ok { OnOk result (out.new.items ≡ out.old.items
        ++ meaning.spelled delims (map (λ e. e.now) elements.now)) }
    ensures kept { Extends out.old.items out.new.items }
{
    append_elements(out, delims.separator(), elements)?;
    out.push(delims.terminator())?;
    Ok(())
}

/// Appends a segment: its elements, and the terminator. After an error the vector holds what it
/// held.
pub fn write_segment(
    out: &mut Vec<u8>,
    delims: Delims,
    elements: &[&[u8]],
) -> Result<(), AllocError>
    ensures ok { OnOk result (out.new.items ≡ out.old.items
        ++ meaning.spelled delims (map (λ e. e.now) elements.now)) }
    ensures err { OnErr result (out.new.items ≡ out.old.items) }
{
    let start = out.len();
    match append(out, delims, elements) {
        Ok(()) => Ok(()),
        Err(e) => {
            out.truncate(start);
            Err(e)
        }
    }
}
