//! The expiry of a lot, as reports show it.
ghost use Rattle.std.specs.Prelude.{◌≡◌};
ghost use Rattle.definitions.specs.Reports as meant;

use store::StockRow;

/// The date of a row, CCYYMMDD; nothing where it has none.
pub(crate) fn expiry_text<'a>(row: &'a StockRow) -> &'a [u8]
    ensures { result.now ≡ meant.expiry_text row.now }
{
    match &row.expiry {
        Some(date) => date.as_slice(),
        None => &[],
    }
}
