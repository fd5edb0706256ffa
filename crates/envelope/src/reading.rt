ghost use Rattle.std.specs.Prelude.{◌≡◌, ◌≤◌, ◌<◌, ◌==◌, true, false, length, take, slice_index, codes, bytes_eq, MatchOption, MatchResult};
ghost use Rattle.std.specs.List.{list_all, range_with_len};
ghost use Rattle.definitions.specs.declared.widths.TheConstants.{ISA_BYTES};
ghost use Rattle.definitions.specs.Bytes.{is_data, is_line_end as ends_line};
ghost use Rattle.definitions.specs.Header as meant;
ghost use Rattle.envelope.specs.Legibility as parts;

use crate::bytes::same;
use crate::header::{Isa, Unreadable, element};
use definitions::{ISA_BYTES, ISA_SEPARATORS, MOST_BYTES};
use segments::{Delims, all_digits};

// Whether the text begins as a header does.
fn begins(text: &[u8]) -> bool
    requires { ISA_BYTES ≤ length text.now }

    ensures { result ≡ bytes_eq (take 3 text.now) (codes "ISA") }
{
    same(&text[..3], b"ISA")
}

// Whether each byte is data.
fn all_data(delims: &Delims, text: &[u8]) -> bool
    ensures { result ≡ list_all (is_data delims.now) text.now }
{
    text.iter().all(|b| delims.leaves(*b))
}

// The byte at an offset, 0 past the end.
fn byte_at(text: &[u8], offset: usize) -> u8
    ensures { result ≡ slice_index text.now offset }
{
    match text.get(offset) {
        Some(b) => *b,
        None => 0,
    }
}

// Whether each separator stands at its offset.
fn is_separated(delims: &Delims, text: &[u8]) -> bool
    ensures { result ≡ list_all
        (λ k. slice_index text.now k == delims.now.separator) meant.separator_offsets }
{
    let separator = delims.separator();
    ISA_SEPARATORS
        .iter()
        .all(|k| byte_at(text, *k) == separator)
}

// Whether ISA01 to ISA15 are data: ISA16 is a delimiter.
fn has_data(delims: &Delims, text: &[u8]) -> bool
    requires { ISA_BYTES ≤ length text.now }

    ensures { result ≡ list_all
        (λ n. list_all (is_data delims.now) (meant.isa text.now n)) (range_with_len 1 15) }
{
    (1..16).all(|n| all_data(delims, element(text, n)))
}

fn is_line_end(b: u8) -> bool
    ensures { result ≡ ends_line b }
{
    b == b'\n' || b == b'\r'
}

// Whether each byte after the header is data, a delimiter, or a CR or LF after a terminator.
fn is_legible(delims: &Delims, text: &[u8]) -> bool
    ensures { result ≡ meant.is_legible delims.now true text.now }
{
    let mut after = true;
    for b in text {
        let skipped = after && is_line_end(*b);
        let ends = *b == delims.terminator();
        let bounds = *b == delims.separator() || *b == delims.component() || ends;
        if !(delims.leaves(*b) || bounds || skipped) {
            return false;
        }
        after = skipped || ends;
    }
    true
}

// Whether the text has a length that it may have, and a header's beginning.
fn is_begun(text: &[u8]) -> bool
    ensures test { result ≡ parts.is_begun text.now }
    ensures long { result ≡ true → ISA_BYTES ≤ length text.now }
{
    text.len() <= MOST_BYTES && text.len() >= ISA_BYTES && begins(text)
}

// Whether all bytes are what they may be.
fn is_filled(delims: &Delims, text: &[u8]) -> bool
    requires { ISA_BYTES ≤ length text.now }

    ensures { result ≡ parts.is_filled delims.now text.now }
{
    if !is_separated(delims, text) {
        return false;
    }
    if !has_data(delims, text) {
        return false;
    }
    if !all_digits(element(text, 13)) {
        return false;
    }
    is_legible(delims, &text[ISA_BYTES..])
}

// The delimiters of a text that can be read.
fn read(text: &[u8]) -> Option<Delims>
    ensures { MatchOption result (meant.is_unreadable text.now ≡ true)
        (λ d. (ISA_BYTES ≤ length text.now) × (meant.is_unreadable text.now ≡ false)
        × (d ≡ meant.delims_of text.now)) }
{
    if !is_begun(text) {
        return None;
    }
    let delims = Delims::of(text)?;
    if is_filled(&delims, text) {
        Some(delims)
    } else {
        None
    }
}

/// The header of a text, which is read whole for it: Unreadable exactly where the text is no
/// interchange that can be read. It takes no memory.
pub fn isa(text: &[u8]) -> Result<Isa<'_>, Unreadable>
    ensures { MatchResult result
        (λ i. (meant.is_unreadable text.now ≡ false)
        × (i ≡ text.now)) (λ _. meant.is_unreadable text.now ≡ true) }
{
    match read(text) {
        Some(delims) => Ok(Isa { text, delims }),
        None => Err(Unreadable),
    }
}
