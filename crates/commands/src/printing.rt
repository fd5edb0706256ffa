//! Bytes that are printed: all of them, or a beginning where the writer fails.
ghost use Rattle.std.specs.Prelude.{◌≡◌, OnOk, OnErr};
ghost use Rattle.std.specs.Io.{WritesAtMost};
ghost use Rattle.std.specs.Io.KnownBytes.{Appends, WriteAppends};
ghost use Rattle.commands.specs.Failures.{CountsIf, WasRefused};
ghost use Rattle.commands.specs.Printing.{AppendsFront, joined};

use counted_io::Gauge;
use std::io::{self, Stderr, Stdout, Write};

/// Standard output, standard error, and what else a command prints to.
pub trait Printer: Write {
    ghost use Rattle.std.specs.Prelude.{ℕ, Option};
    ghost use Rattle.std.specs.Io.{WritesAtMost};
    ghost use Rattle.std.specs.Io.KnownBytes.{WriteAppends};
    ghost use Rattle.commands.specs.Failures.{CountsIf};

    // How many writes failed or took nothing, where that is counted.
    ghost failures: { Self → Option ℕ };

    /// Takes some of these bytes, from the first on, and tells how many. The error is the writer's.
    fn take_some(&mut self, bytes: &[u8]) -> io::Result<usize>
        ensures bound { WritesAtMost result bytes.now }
        ensures bytes { WriteAppends (Self.Write.contents self.old) (Self.Write.contents self.new)
            result bytes.now }
        ensures counted { CountsIf result (failures self.old) (failures self.new) };
}

impl<W: Write> Printer for Gauge<W> {
    ghost use Rattle.std.specs.Prelude.{Some};

    ghost failures = { λ gauge. Some gauge.errors };

    fn take_some(&mut self, bytes: &[u8]) -> io::Result<usize> {
        self.write(bytes)
    }
}

impl Printer for Vec<u8> {
    ghost use Rattle.std.specs.Prelude.{None};

    ghost failures = { λ _. None };

    fn take_some(&mut self, bytes: &[u8]) -> io::Result<usize> {
        self.write(bytes)
    }
}

impl Printer for Stdout {
    ghost use Rattle.std.specs.Prelude.{None};

    ghost failures = { λ _. None };

    fn take_some(&mut self, bytes: &[u8]) -> io::Result<usize> {
        self.write(bytes)
    }
}

impl Printer for Stderr {
    ghost use Rattle.std.specs.Prelude.{None};

    ghost failures = { λ _. None };

    fn take_some(&mut self, bytes: &[u8]) -> io::Result<usize> {
        self.write(bytes)
    }
}

/// Prints these bytes, or a beginning of them. The error is the writer's, or WriteZero where it
/// took nothing; no call is made again, an interrupted one neither.
pub fn print<W: Printer>(out: &mut W, bytes: &[u8]) -> io::Result<()>
    ensures whole { OnOk result
        (Appends (W.contents out.old) (W.contents out.new) bytes.now) }
    ensures front { OnErr result
        (AppendsFront (W.contents out.old) (W.contents out.new) bytes.now) }
    ensures quiet { OnOk result (W.failures out.new ≡ W.failures out.old) }
    ensures counted { OnErr result (WasRefused (W.failures out.old) (W.failures out.new)) }
{
    let mut sent = 0;
    while sent < bytes.len() {
        match out.take_some(&bytes[sent..]) {
            Ok(0) => return Err(io::Error::from(io::ErrorKind::WriteZero)),
            Ok(n) => sent += n,
            Err(error) => return Err(error),
        }
    }
    Ok(())
}

/// Prints these pieces one after the other, or a beginning of them.
pub fn print_pieces<W: Printer>(out: &mut W, pieces: &[&[u8]]) -> io::Result<()>
    ensures whole { OnOk result
        (Appends (W.contents out.old) (W.contents out.new) (joined pieces.now)) }
    ensures front { OnErr result
        (AppendsFront (W.contents out.old) (W.contents out.new) (joined pieces.now)) }
    ensures quiet { OnOk result (W.failures out.new ≡ W.failures out.old) }
    ensures counted { OnErr result (WasRefused (W.failures out.old) (W.failures out.new)) }
{
    for piece in pieces {
        print(out, piece)?;
    }
    Ok(())
}
