ghost use Rattle.std.specs.Prelude.{◌≡◌};
ghost use Rattle.definitions.specs.Bytes as bytes;

/// The last N digits of a number, with zeros in front.
pub fn zero_filled<const N: usize>(n: u64) -> [u8; N]
    ensures { result ≡ bytes.zero_filled N n }
{
    let mut digits = [b'0'; N];
    let mut left = n;
    let mut at = N;
    while at > 0 {
        at -= 1;
        digits[at] = b'0' + (left % 10) as u8;
        left /= 10;
    }
    digits
}
