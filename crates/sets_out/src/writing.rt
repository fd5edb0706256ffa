ghost use Rattle.std.specs.Prelude.{◌∷◌, [], map, IfOk};
ghost use Rattle.segments.specs.Extends.{Extends};
ghost use Rattle.sets_out.specs.Appends.{Writes};

use segments::{Delims, write_segment};
use std::alloc::AllocError;

// Appends the segment, or nothing.
pub(crate) fn append_segment(
    out: &mut Vec<u8>,
    delims: Delims,
    elements: &[&[u8]],
) -> Result<usize, AllocError>
    ensures ok { IfOk result
        (λ n. Writes delims out.old.items out.new.items (map (λ e. e.now) elements.now ∷ []) n) }
    ensures kept { Extends out.old.items out.new.items }
{
    write_segment(out, delims, elements)?;
    Ok(1)
}
