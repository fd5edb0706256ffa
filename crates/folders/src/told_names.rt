//! Names of files as they are told, on lines that no name can end or turn round.
ghost use Rattle.std.specs.Prelude.{◌≡◌, ◌<◌, OnOk};
ghost use Rattle.std.specs.Io.KnownBytes.{Appends};
ghost use Rattle.folders.specs.Lines as meant;

use std::io;

// A hex digit, in lower case.
fn hex_digit(n: u8) -> u8
    requires { n < 16 }

    ensures { result ≡ meant.hex_digit n }
{
    if n < 10 { b'0' + n } else { b'a' - 10 + n }
}

// How many bytes the control or the mark has that begins with these three bytes; 0 where none does.
fn control_length(a: u8, b: u8, c: u8) -> u8
    ensures { result ≡ meant.control_length a b c }
{
    if matches!(a, 0..=31 | 127) {
        1
    } else if matches!((a, b), (0xC2, 0x80..=0x9F) | (0xD8, 0x9C)) {
        2
    } else if matches!(
        (a, b, c),
        (0xE2, 0x80, 0x8E..=0x8F | 0xAA..=0xAE) | (0xE2, 0x81, 0xA6..=0xA9)
    ) {
        3
    } else {
        0
    }
}

// How many bytes of a control or a mark begin with this byte, before these others: so many as are
// left of one that began before it, and else the bytes of one that begins with it.
fn control_left(left: u8, first: u8, others: &[u8]) -> u8
    ensures { result ≡ meant.control_left left first others.now }
{
    if left == 0 {
        let second = others.first().copied().unwrap_or(0);
        let third = others.get(1).copied().unwrap_or(0);
        control_length(first, second, third)
    } else {
        left
    }
}

// Writes a byte as it stands, or by its number.
fn write_byte<W: io::Write>(out: &mut W, is_numbered: bool, byte: u8) -> io::Result<()>
    ensures { OnOk result
        (Appends (W.contents out.old) (W.contents out.new) (meant.told_byte is_numbered byte)) }
{
    if is_numbered {
        out.write_all(b"\\x")?;
        out.write_all(&[hex_digit(byte / 16), hex_digit(byte % 16)])
    } else {
        out.write_all(&[byte])
    }
}

/// Writes a name as it is told: each byte of a control, and of a mark that changes the direction of
/// text, as `\x` and two hex digits (a line feed as `\x0a`), and all others as they stand. So no
/// name ends a line or moves a terminal. The one error is the writer's.
pub fn write_name<W: io::Write>(out: &mut W, name: &str) -> io::Result<()>
    ensures { OnOk result
        (Appends (W.contents out.old) (W.contents out.new) (meant.told_name name.now)) }
{
    let mut rest = name.as_bytes();
    let mut left = 0;
    while let Some((first, others)) = rest.split_first() {
        let now = control_left(left, *first, others);
        write_byte(out, now > 0, *first)?;
        left = now.saturating_sub(1);
        rest = others;
    }
    Ok(())
}
