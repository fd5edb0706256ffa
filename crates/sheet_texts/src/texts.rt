ghost use Rattle.std.specs.Prelude.{◌≡◌, [], List, true, Ok, Err, IfOk, IfErr, IfSome, map, is_none};
ghost use Rattle.std.specs.List.{filter_map, list_any};
ghost use Rattle.csv.specs.Records.{fields_of, field_at};
ghost use Rattle.definitions.specs.Rules.{Today};
ghost use Rattle.definitions.specs.Clerk.{is_sheet, raw_line};
ghost use Rattle.sheet_texts.specs.Texts.{sheet_of_text, field_of};
ghost use Rattle.unready.specs.Refused.{IfRefused};

use crate::records::first_records;
use csv::ByteRecord;
use definitions::{MOST_LINES_TWO, Refusal, TODAY};
use sheets::{Line, Sheet, SheetKind};
use std::alloc::{AllocError, Global};
use unready::Unready;

/// The field of a record at a place, an empty one where there is none.
pub(crate) fn field(row: &ByteRecord, at: usize) -> &[u8]
    ensures { result.now ≡ field_of (fields_of row.now) at }
{
    row.get(at).unwrap_or(b"")
}

// The line of a record, if that has three fields.
fn line_of(alloc: Global, row: &ByteRecord) -> Result<Option<Line>, AllocError>
    ensures { IfOk result (λ line. line ≡ raw_line (fields_of row.now)) }
{
    if row.len() != 3 {
        return Ok(None);
    }
    Ok(Some(Line::new(
        field(row, 0).to_vec(alloc)?,
        field(row, 1).to_vec(alloc)?,
        field(row, 2).to_vec(alloc)?,
    )))
}

// The lines of records; None where one hasn't three fields.
fn lines_of(alloc: Global, rows: &[ByteRecord]) -> Result<Option<Vec<Line>>, AllocError>
    ensures lines { IfOk result
        (λ found. IfSome found (λ lines. lines.items ≡ filter_map raw_line
        (map fields_of rows.now))) }
    ensures uneven { IfOk result
        (λ found. is_none found ≡ list_any (λ fields. is_none (raw_line fields))
        (map fields_of rows.now)) }
{
    let mut lines = Vec::new(alloc);
    for row in rows {
        match line_of(alloc, row)? {
            Some(line) => lines.push(line)?,
            None => return Ok(None),
        }
    }
    Ok(Some(lines))
}

/// The sheet of a text of CSV (RFC 4180) without a header: records of three fields, item, lot and
/// quantity. The error is want of memory, or the first refusal that holds: 33 over 999 records; 32
/// a record that hasn't three fields, or a text in one that can't be read, or a pick of 0; 30 a
/// quantity over its limit; 31 a pair of item and lot twice.
pub fn sheet(alloc: Global, kind: SheetKind, text: &[u8]) -> Result<Sheet, Unready>
    ensures ok { IfOk result (λ sheet. sheet_of_text Today kind text.now ≡ Ok sheet) }
    ensures kind { IfOk result (λ sheet. is_sheet Today kind sheet ≡ true) }
    ensures err { IfErr result
        (IfRefused (λ refusal. sheet_of_text Today kind text.now ≡ Err refusal)) }
{
    let rows = first_records(alloc, text)?;
    if rows.len() > usize::from(MOST_LINES_TWO) {
        return Err(Unready::Refused(Refusal::TooManyLines));
    }
    let Some(lines) = lines_of(alloc, &rows)? else {
        return Err(Unready::Refused(Refusal::BadText));
    };
    Ok(Sheet::new(kind, lines, TODAY)?)
}
