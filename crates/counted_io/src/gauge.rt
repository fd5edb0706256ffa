ghost use Rattle.std.specs.Prelude.{◌≡◌};
ghost use Rattle.std.specs.Io.{ReadsAtMost, WritesAtMost};
ghost use Rattle.std.specs.Io.KnownBytes.{Keeps, ReadConsumes, WriteAppends};
ghost use Rattle.counted_io.specs.Gauges.{CountsError, CountsWrite};

use std::io::{self, Read, Write};

/// A reader or a writer, with the count of its errors and of the writes that took 0 bytes. At its
/// greatest number the count stays there.
#[derive(Drop)]
pub struct Gauge<T> {
    inner: T,
    errors: u64,
}

impl<T> Gauge<T> {
    /// A device, with the count at 0.
    pub fn new(inner: T) -> Gauge<T>
        ensures inner { result.inner ≡ inner }
        ensures none { result.errors ≡ 0 }
    {
        Gauge { inner, errors: 0 }
    }

    /// The device, without its count.
    pub fn into_inner(self) -> T
        ensures { result ≡ self.inner }
    {
        let Gauge { inner, errors: _ } = self;
        inner
    }

    /// How many calls gave an error or wrote 0 bytes.
    pub fn errors(&self) -> u64
        ensures { result ≡ self.now.errors }
    {
        let Gauge { errors, .. } = self;
        *errors
    }
}

impl<R: Read> Read for Gauge<R> {
    ghost remaining = { λ gauge. R.remaining gauge.inner };

    fn read(&mut self, buf: &mut [u8]) -> io::Result<usize>
        ensures bound { ReadsAtMost result buf.new }
        ensures bytes { ReadConsumes (R.remaining self.old.inner) (R.remaining self.new.inner)
            result buf.new }
        ensures count { CountsError result self.old.errors self.new.errors }
    {
        let outcome = self.inner.read(buf);
        if outcome.is_err() {
            self.errors = self.errors.saturating_add(1);
        }
        outcome
    }
}

impl<W: Write> Write for Gauge<W> {
    ghost contents = { λ gauge. W.contents gauge.inner };

    fn write(&mut self, buf: &[u8]) -> io::Result<usize>
        ensures bound { WritesAtMost result buf.now }
        ensures bytes { WriteAppends (W.contents self.old.inner) (W.contents self.new.inner) result
            buf.now }
        ensures count { CountsWrite result self.old.errors self.new.errors }
    {
        let outcome = self.inner.write(buf);
        if !matches!(&outcome, Ok(1..)) {
            self.errors = self.errors.saturating_add(1);
        }
        outcome
    }

    fn flush(&mut self) -> io::Result<()>
        ensures bytes { Keeps (W.contents self.old.inner) (W.contents self.new.inner) }
        ensures count { CountsError result self.old.errors self.new.errors }
    {
        let outcome = self.inner.flush();
        if outcome.is_err() {
            self.errors = self.errors.saturating_add(1);
        }
        outcome
    }
}
