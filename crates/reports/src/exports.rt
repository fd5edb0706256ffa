ghost use Rattle.std.specs.Prelude.{◌≡◌, ◌++◌, [], List, ℕ, IfOk, OnOk};
ghost use Rattle.definitions.specs.Rules.{Today};
ghost use Rattle.definitions.specs.Reports as meant;
ghost use Rattle.reports.specs.Exports.{HoldsText, stock_text as meant_text};

use crate::balances::stock_report;
use crate::dates::expiry_text;
use csv::{Error, QuoteStyle, Writer, WriterBuilder};
use itoa::Buffer;
use std::alloc::{AllocError, Global};
use store::StockRow;

// Writes the record of a row.
fn write_row(writer: &mut Writer<Vec<u8>>, row: &StockRow) -> Result<(), Error>
    ensures { OnOk result ((text : List ℕ) → HoldsText writer.old text
        → HoldsText writer.new (text ++ meant.stock_record Today row.now)) }
{
    let mut expected = Buffer::new();
    let mut on_hand = Buffer::new();
    let mut reserved = Buffer::new();
    let mut shipped = Buffer::new();
    writer.write_fields(&[
        &row.item,
        &row.lot,
        expiry_text(row),
        expected.format(row.expected).as_bytes(),
        on_hand.format(row.on_hand).as_bytes(),
        reserved.format(row.reserved).as_bytes(),
        shipped.format(row.shipped).as_bytes(),
    ])?;
    Ok(())
}

// Writes the record of headings and those of the rows.
fn write_rows(writer: &mut Writer<Vec<u8>>, rows: &[StockRow]) -> Result<(), Error>
    requires { HoldsText writer.old [] }

    ensures { OnOk result (HoldsText writer.new (meant.stock_csv Today rows.now)) }
{
    writer.write_fields(&[
        b"item",
        b"lot",
        b"expiry",
        b"expected",
        b"on_hand",
        b"reserved",
        b"shipped",
    ])?;
    for row in rows {
        write_row(writer, row)?;
    }
    Ok(())
}

/// The stock export of these rows: CSV, the record
/// `item,lot,expiry,expected,on_hand,reserved,shipped` and then a record for each row, in the order
/// given, with amounts in the unit EA, and nothing for an expiry where a lot has none. Nothing is
/// quoted, since no identifier and no number needs it. The one error is want of memory, the only
/// one that a writer into a vector has.
pub fn stock_csv(alloc: Global, rows: &[StockRow]) -> Result<Vec<u8>, AllocError>
    ensures { IfOk result (λ text. text.items ≡ meant.stock_csv Today rows.now) }
{
    let mut writer = WriterBuilder::new()
        .quote_style(QuoteStyle::Never)
        .from_writer(Vec::new(alloc));
    if write_rows(&mut writer, rows).is_err() {
        return Err(AllocError);
    }
    writer.into_inner().map_err(|_| AllocError)
}

/// What a depositor has by these rows: the stock report, or its export as CSV. The one error is
/// want of memory.
pub fn stock_text(alloc: Global, rows: &[StockRow], is_csv: bool) -> Result<Vec<u8>, AllocError>
    ensures { IfOk result (λ text. text.items ≡ meant_text is_csv rows.now) }
{
    if is_csv {
        stock_csv(alloc, rows)
    } else {
        stock_report(alloc, rows)
    }
}
