//! Moments as the words of a line write them.
ghost use Rattle.std.specs.Prelude.{◌≡◌, ◌≤◌, ◌+◌, length, true};
ghost use Rattle.definitions.specs.Bytes.{value};
ghost use Rattle.command_line.specs.Written as written;

use segments::{Moment, all_digits, number};

// Whether two digits stand at a place.
fn has_pair(text: &[u8], at: usize) -> bool
    requires { at + 2 ≤ length text.now }

    ensures { result ≡ written.has_pair at text.now }
{
    all_digits(&text[at..at + 2])
}

// Whether a mark stands at a place.
fn has_mark(text: &[u8], at: usize, mark: &[u8]) -> bool
    requires { at + 1 ≤ length text.now }

    ensures { result ≡ written.has_mark at mark.now text.now }
{
    &text[at..at + 1] == mark
}

// Whether the text has the form YYYY-MM-DDTHH:MM.
fn is_form(text: &[u8]) -> bool
    ensures { result ≡ written.is_form text.now }
{
    text.len() == 16
        && has_pair(text, 0)
        && has_pair(text, 2)
        && has_mark(text, 4, b"-")
        && has_pair(text, 5)
        && has_mark(text, 7, b"-")
        && has_pair(text, 8)
        && has_mark(text, 10, b"T")
        && has_pair(text, 11)
        && has_mark(text, 13, b":")
        && has_pair(text, 14)
}

// The value of the two digits that begin at a place.
fn pair_at(text: &[u8], at: usize) -> u8
    requires within { at + 2 ≤ length text.now }
    requires digits { written.has_pair at text.now ≡ true }

    ensures { result ≡ value (written.pair_at at text.now) }
{
    number(&text[at..at + 2]) as u8
}

/// The moment that is written as 2025-03-04T09:15; None where the text is another.
pub fn moment_of(text: &[u8]) -> Option<Moment>
    ensures { result ≡ written.moment_of text.now }
{
    if !is_form(text) {
        return None;
    }
    let year = u16::from(pair_at(text, 0)) * 100 + u16::from(pair_at(text, 2));
    Moment::new(
        year,
        pair_at(text, 5),
        pair_at(text, 8),
        pair_at(text, 11),
        pair_at(text, 14),
    )
}
