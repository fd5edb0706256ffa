ghost use Rattle.std.specs.Prelude.{◌≡◌, ◌+◌, IfOk, map, take};
ghost use Rattle.csv.specs.Records.{fields_of};
ghost use Rattle.definitions.specs.Limits.{most_lines};
ghost use Rattle.definitions.specs.Rules.{Today};
ghost use Rattle.sheet_texts.specs.Texts.{records_of};

use csv::{ByteRecord, ReaderBuilder};
use definitions::MOST_LINES_TWO;
use std::alloc::{AllocError, Global};

/// The first records of a text that has no header: all, or one more than a sheet may have. The one
/// error is want of memory.
pub(crate) fn first_records(alloc: Global, text: &[u8]) -> Result<Vec<ByteRecord>, AllocError>
    ensures { IfOk result
        (λ rows. map fields_of rows.items ≡ take (most_lines Today + 1) (records_of text.now)) }
{
    let reader = ReaderBuilder::new()
        .has_headers(false)
        .flexible(true)
        .from_reader(alloc, text);
    let mut rows = Vec::new(alloc);
    for row in reader.into_byte_records() {
        // A text in memory can be read, and records may have any number of fields: what is wanting
        // is memory.
        let Ok(row) = row else {
            return Err(AllocError);
        };
        rows.push(row)?;
        if rows.len() > usize::from(MOST_LINES_TWO) {
            return Ok(rows);
        }
    }
    Ok(rows)
}
