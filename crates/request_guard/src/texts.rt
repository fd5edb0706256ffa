//! Texts: letters of either case, the place of a byte, and blanks at the ends.
ghost use Rattle.std.specs.Prelude.{◌≡◌, ◌≤◌, length};
ghost use Rattle.request_guard.specs.Doors as meant;

/// Whether the texts are the same but for the case of letters.
pub(crate) fn same_letters(a: &[u8], b: &[u8]) -> bool
    ensures { result ≡ meant.same_letters a.now b.now }
{
    a.eq_ignore_ascii_case(b)
}

/// Where the first byte of this value is, or the length where there is none.
pub(crate) fn place_of(text: &[u8], mark: u8) -> usize
    ensures place { result ≡ meant.place_of mark text.now }
    ensures within { result ≤ length text.now }
{
    text.iter().position(|b| *b == mark).unwrap_or(text.len())
}

fn is_blank(b: u8) -> bool
    ensures { result ≡ meant.is_blank b }
{
    b == b' ' || b == b'\t'
}

fn trim_start(mut text: &[u8]) -> &[u8]
    ensures { result.now ≡ meant.trim_start text.now }
{
    while let Some((first, rest)) = text.split_first() {
        if !is_blank(*first) {
            return text;
        }
        text = rest;
    }
    text
}

fn trim_end(mut text: &[u8]) -> &[u8]
    ensures { result.now ≡ meant.trim_end text.now }
{
    while let Some((last, rest)) = text.split_last() {
        if !is_blank(*last) {
            return text;
        }
        text = rest;
    }
    text
}

/// The text without the spaces and tabs at its ends: other bytes that std takes for white stay.
pub(crate) fn trim(text: &[u8]) -> &[u8]
    ensures { result.now ≡ meant.trim_end (meant.trim_start text.now) }
{
    trim_end(trim_start(text))
}
