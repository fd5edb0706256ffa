//! Columns of fixed widths.
ghost use Rattle.std.specs.Prelude.{◌≡◌, ◌++◌, OnOk, replicate};
ghost use Rattle.definitions.specs.Bytes.{padded, right_aligned};

use std::alloc::AllocError;

// Appends that many spaces.
fn append_spaces(out: &mut Vec<u8>, count: usize) -> Result<(), AllocError>
    ensures { OnOk result (out.new.items ≡ out.old.items ++ replicate count 32) }
{
    for _ in 0..count {
        out.push(b' ')?;
    }
    Ok(())
}

/// Appends the text, filled to the width with spaces on the right.
pub(crate) fn append_left(out: &mut Vec<u8>, text: &[u8], width: usize) -> Result<(), AllocError>
    ensures { OnOk result (out.new.items ≡ out.old.items ++ padded width text.now) }
{
    out.extend_from_slice(text)?;
    append_spaces(out, width.saturating_sub(text.len()))
}

/// Appends the text, filled to the width with spaces on the left.
pub(crate) fn append_right(out: &mut Vec<u8>, text: &[u8], width: usize) -> Result<(), AllocError>
    ensures { OnOk result (out.new.items ≡ out.old.items ++ right_aligned width text.now) }
{
    append_spaces(out, width.saturating_sub(text.len()))?;
    out.extend_from_slice(text)?;
    Ok(())
}
