ghost use Rattle.std.specs.Prelude.{◌≡◌, ◌++◌, ◌∷◌, IfOk, OnOk, flat_map, map};
ghost use Rattle.definitions.specs.Rules.{Today};
ghost use Rattle.definitions.specs.Bytes.{right_aligned};
ghost use Rattle.definitions.specs.Reports as meant;

use crate::columns::{append_left, append_right};
use crate::dates::expiry_text;
use definitions::{AMOUNT_COLUMN, DATE_DIGITS, MOST_ITEM, MOST_LOT};
use itoa::Buffer;
use std::alloc::{AllocError, Global};
use store::StockRow;

// Appends the columns of an amount each, with a space before each.
fn append_amounts(out: &mut Vec<u8>, amounts: &[&[u8]]) -> Result<(), AllocError>
    ensures { OnOk result (out.new.items ≡ out.old.items ++ flat_map
        (λ a. 32 ∷ right_aligned 15 a.now) amounts.now) }
{
    for amount in amounts {
        out.push(b' ')?;
        append_right(out, amount, AMOUNT_COLUMN)?;
    }
    Ok(())
}

// Appends a line of the report.
fn append_line(
    out: &mut Vec<u8>,
    item: &[u8],
    lot: &[u8],
    expiry: &[u8],
    amounts: &[&[u8]; 4],
) -> Result<(), AllocError>
    ensures { OnOk result (out.new.items ≡ out.old.items
        ++ meant.stock_columns Today item.now lot.now expiry.now (map (λ a. a.now) amounts.now)) }
{
    append_left(out, item, MOST_ITEM)?;
    out.push(b' ')?;
    append_left(out, lot, MOST_LOT)?;
    out.push(b' ')?;
    append_left(out, expiry, DATE_DIGITS)?;
    append_amounts(out, amounts)?;
    out.push(b'\n')?;
    Ok(())
}

// Appends the line of a row.
fn append_row(out: &mut Vec<u8>, row: &StockRow) -> Result<(), AllocError>
    ensures { OnOk result (out.new.items ≡ out.old.items ++ meant.stock_line Today row.now) }
{
    let mut expected = Buffer::new();
    let mut on_hand = Buffer::new();
    let mut reserved = Buffer::new();
    let mut shipped = Buffer::new();
    append_line(
        out,
        &row.item,
        &row.lot,
        expiry_text(row),
        &[
            expected.format(row.expected).as_bytes(),
            on_hand.format(row.on_hand).as_bytes(),
            reserved.format(row.reserved).as_bytes(),
            shipped.format(row.shipped).as_bytes(),
        ],
    )
}

/// The stock report of these rows: a line of headings and a line for each row, in the order given,
/// each with the item left in 20, the lot left in 12, its expiry left in 8, blank where it has
/// none, and expected, on hand, reserved and shipped, in the unit EA, right in 15, with a space
/// between each two columns and LF at its end. What is longer than its column widens it. The one
/// error is want of memory.
pub fn stock_report(alloc: Global, rows: &[StockRow]) -> Result<Vec<u8>, AllocError>
    ensures { IfOk result (λ text. text.items ≡ meant.stock_report Today rows.now) }
{
    let mut text = Vec::new(alloc);
    append_line(
        &mut text,
        b"item",
        b"lot",
        b"expiry",
        &[b"expected", b"on hand", b"reserved", b"shipped"],
    )?;
    for row in rows {
        append_row(&mut text, row)?;
    }
    Ok(text)
}
