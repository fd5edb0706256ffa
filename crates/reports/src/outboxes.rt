ghost use Rattle.std.specs.Prelude.{◌≡◌, ◌++◌, IfOk, OnOk};
ghost use Rattle.definitions.specs.Reports as meant;

use crate::columns::append_right;
use definitions::NUMBER_COLUMN;
use itoa::Buffer;
use std::alloc::{AllocError, Global};
use store::OutRow;

// Appends the line of a row.
fn append_row(out: &mut Vec<u8>, row: &OutRow) -> Result<(), AllocError>
    ensures { OnOk result (out.new.items ≡ out.old.items ++ meant.outbox_line row.now) }
{
    let mut number = Buffer::new();
    append_right(out, number.format(row.n).as_bytes(), NUMBER_COLUMN)?;
    out.push(b' ')?;
    out.extend_from_slice(row.kind.text())?;
    out.push(b' ')?;
    out.extend_from_slice(row.state.text())?;
    out.push(b'\n')?;
    Ok(())
}

/// The list of what went out: for each row, in the order given, the number right in 6, the kind and
/// the state, with a space between each two and LF after. The one error is want of memory.
pub fn outbox_list(alloc: Global, rows: &[OutRow]) -> Result<Vec<u8>, AllocError>
    ensures { IfOk result (λ text. text.items ≡ meant.outbox_list rows.now) }
{
    let mut text = Vec::new(alloc);
    for row in rows {
        append_row(&mut text, row)?;
    }
    Ok(text)
}
