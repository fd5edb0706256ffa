//! What the list of what went out to a depositor tells.
ghost use Rattle.std.specs.Prelude.{◌≡◌, IfOk};
ghost use Rattle.http_client.specs.Listed as meant;

use intake::plain_number;
use segments::part;
use std::alloc::{AllocError, Global};

// The number of what went out, unless it is an answer.
fn numbered_as(number: &[u8], kind: &[u8]) -> Option<u32>
    ensures { result ≡ meant.numbered_as number.now kind.now }
{
    if kind == b"ANS".as_slice() {
        return None;
    }
    plain_number(number)
}

// The number of the document that a line tells; None of an answer, or of another line.
fn document_in(line: &[u8]) -> Option<u32>
    ensures { result ≡ meant.document_in line.now }
{
    let columns = line.trim_ascii_start();
    let number = part(columns, b' ', 0)?;
    let kind = part(columns, b' ', 1)?;
    numbered_as(number, kind)
}

/// The numbers of the documents that a list tells, in its order. The one error is want of memory.
pub(crate) fn documents_in(alloc: Global, list: &[u8]) -> Result<Vec<u32>, AllocError>
    ensures { IfOk result (λ numbers. numbers.items ≡ meant.documents_in list.now) }
{
    list.split(|b| *b == b'\n')
        .filter_map(|line| document_in(line))
        .collect(alloc)
}
