//! Lines of CSV as a sheet of a clerk has them.
ghost use Rattle.std.specs.Prelude.{◌≡◌, ◌++◌, OnOk};
ghost use Rattle.definitions.specs.Register.{line_text};
ghost use Rattle.reports.specs.PairLines.{lines_text};

use itoa::Buffer;
use std::alloc::AllocError;
use store::Goods;

/// Appends the line `item,lot,quantity`. Nothing is quoted, since no identifier and no number needs
/// it.
pub(crate) fn append_pair(
    out: &mut Vec<u8>,
    item: &[u8],
    lot: &[u8],
    quantity: u32,
) -> Result<(), AllocError>
    ensures { OnOk result (out.new.items ≡ out.old.items
        ++ line_text (record { item = item.now; lot = lot.now; quantity = quantity })) }
{
    let mut buffer = Buffer::new();
    out.extend_from_slice(item)?;
    out.push(b',')?;
    out.extend_from_slice(lot)?;
    out.push(b',')?;
    out.extend_from_slice(buffer.format(quantity).as_bytes())?;
    out.push(b'\n')?;
    Ok(())
}

/// Appends such a line for each.
pub(crate) fn append_pairs(out: &mut Vec<u8>, lines: &[Goods]) -> Result<(), AllocError>
    ensures { OnOk result (out.new.items ≡ out.old.items ++ lines_text lines.now) }
{
    for line in lines {
        append_pair(out, &line.item, &line.lot, line.quantity)?;
    }
    Ok(())
}
