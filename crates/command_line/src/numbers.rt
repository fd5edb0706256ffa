//! Numbers as the words of a line write them.
ghost use Rattle.std.specs.Prelude.{◌≡◌, ◌≤◌, IfSome};
ghost use Rattle.definitions.specs.Limits.{most_entries};
ghost use Rattle.command_line.specs.Written as written;

use definitions::MOST_ENTRIES;
use segments::{all_digits, value_up_to};

// How far digits are read: no entry's number, no quantity and no count of connections reaches it.
const PAST_ENTRIES: u64 = MOST_ENTRIES as u64 + 1;

/// The most connections that a server may be told to serve, and the most seconds that something may
/// be told to wait.
pub(crate) const MOST_CONNECTIONS: u32 = 65_535;

// The number from 1 to a limit that the text writes: digits alone, with zeros in front or without;
// None where it is another text.
fn number_to(most: u32, text: &[u8]) -> Option<u32>
    requires { most ≤ most_entries }

    ensures number { result ≡ written.number_to most text.now }
    ensures within { IfSome result (λ number. number ≤ most) }
{
    let number = value_up_to(text, PAST_ENTRIES);
    if all_digits(text) && number >= 1 && number <= u64::from(most) {
        Some(number as u32)
    } else {
        None
    }
}

/// How many connections the text writes: digits alone, with zeros in front or without; None where
/// it is another text, 0, or over 65535.
pub fn count_of(text: &[u8]) -> Option<u16>
    ensures { result ≡ written.count_of text.now }
{
    match number_to(MOST_CONNECTIONS, text) {
        Some(number) => Some(number as u16),
        None => None,
    }
}

/// For how many seconds a book that is in use is waited for: digits alone, with zeros in front or
/// without, to 65535; None where it is another text.
pub fn wait_of(text: &[u8]) -> Option<u16>
    ensures { result ≡ written.wait_of text.now }
{
    let number = value_up_to(text, PAST_ENTRIES);
    if !text.is_empty() && all_digits(text) && number <= u64::from(MOST_CONNECTIONS) {
        Some(number as u16)
    } else {
        None
    }
}

/// The number of an entry that the text writes: digits alone, with zeros in front or without; None
/// where it is another text, or a number that no entry has.
pub fn number_of(text: &[u8]) -> Option<u32>
    ensures { result ≡ written.number_of text.now }
{
    number_to(MOST_ENTRIES, text)
}
