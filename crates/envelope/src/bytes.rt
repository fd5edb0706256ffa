ghost use Rattle.std.specs.Prelude.{◌≡◌, ◌≤◌, ◌<◌, ◌^◌, ◌==◌, bytes_eq, length};
ghost use Rattle.std.specs.List.{list_all};
ghost use Rattle.definitions.specs.Bytes as meant;
ghost use Rattle.definitions.specs.Limits.{most_partner};

use definitions::MOST_PARTNER;
use segments::value_up_to;

/// Whether the two are the same.
pub fn same(a: &[u8], b: &[u8]) -> bool
    ensures { result ≡ bytes_eq a.now b.now }
{
    a == b
}

// Whether each byte is a space.
pub(crate) fn all_spaces(text: &[u8]) -> bool
    ensures { result ≡ list_all meant.is_space text.now }
{
    text.iter().all(|b| *b == b' ')
}

/// Whether the digits are of this value, which has at most 18 of them.
pub fn has_value(text: &[u8], n: usize) -> bool
    requires { n < 10 ^ 18 }

    ensures { result ≡ (meant.value text.now == n) }
{
    value_up_to(text, n as u64 + 1) == n as u64
}

// The text without the spaces at its end.
#[tactic(auto, using(crate::proofs::Spaces::strip_more, crate::proofs::Spaces::strip_none, crate::proofs::Spaces::strip_done))]
pub(crate) fn stripped(text: &[u8]) -> &[u8]
    ensures { result.now ≡ meant.stripped text.now }
{
    let mut end = text.len();
    while end > 0 && text[end - 1] == b' ' {
        end -= 1;
    }
    &text[..end]
}

// The id, filled up with spaces as ISA06 and ISA08 are.
#[tactic(auto, using(crate::proofs::Spaces::filled))]
fn padded(id: &[u8]) -> [u8; MOST_PARTNER]
    requires { length id.now ≤ most_partner }

    ensures { result ≡ meant.padded most_partner id.now }
{
    let mut padded = [b' '; MOST_PARTNER];
    padded[..id.len()].copy_from_slice(id);
    padded
}

// Whether the field, of the width of a partner's id, is the id filled up with spaces.
#[tactic(auto, using(crate::proofs::Spaces::too_long))]
pub(crate) fn is_padded(field: &[u8], id: &[u8]) -> bool
    requires { length field.now ≡ most_partner }

    ensures { result ≡ bytes_eq field.now (meant.padded most_partner id.now) }
{
    if id.len() > MOST_PARTNER {
        return false;
    }
    same(field, &padded(id))
}
