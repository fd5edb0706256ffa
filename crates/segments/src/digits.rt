//! Numbers in digits.
ghost use Rattle.std.specs.Prelude.{◌≡◌, ◌≤◌, ◌^◌, length, min, true};
ghost use Rattle.std.specs.List.{list_all};
ghost use Rattle.definitions.specs.Bytes as bytes;

/// Whether each byte is a digit.
pub fn all_digits(text: &[u8]) -> bool
    ensures { result ≡ list_all bytes.is_digit text.now }
{
    text.iter().all(|b| matches!(*b, b'0'..=b'9'))
}

/// The value of digits, and `most` where that is less: so a text may have any length.
pub fn value_up_to(text: &[u8], most: u64) -> u64
    requires { most ≤ 10 ^ 18 }

    ensures { result ≡ min (bytes.value text.now) most }
{
    let mut value: u64 = 0;
    for b in text {
        value = (value * 10 + u64::from(b.saturating_sub(b'0'))).min(most);
    }
    value
}

/// The value of at most nine digits.
pub fn number(text: &[u8]) -> u32
    requires few { length text.now ≤ 9 }
    requires digits { list_all bytes.is_digit text.now ≡ true }

    ensures { result ≡ bytes.value text.now }
{
    value_up_to(text, 999_999_999) as u32
}
