//! Connections that are not waited for without end.
ghost use Rattle.std.specs.Prelude.{◌≡◌, IfOk, IfSome, Some};
ghost use Rattle.std.specs.Io.{ReadsAtMost, WritesAtMost};
ghost use Rattle.std.specs.Io.KnownBytes.{Keeps, ReadConsumes, WriteAppends};

use std::io::{self, Read, Write};
use std::net::TcpStream;
use std::rt::Clock;
use std::time::{Duration, Instant};

/// How long a connection is waited for: for its request, and again for its response.
#[derive(Drop)]
pub struct Patience<'a, Q> {
    /// What tells how much time went by.
    pub timer: &'a Q,
    /// The longest time for the whole of the request, and for the whole of the response.
    pub limit: Duration,
}

/// A clock that stands still. Patience by it is for each call of a connection, and not for all of
/// them together.
#[derive(Drop)]
pub(crate) struct StoppedClock;

impl Clock for StoppedClock {
    fn monotonic(&self) -> io::Result<Duration> {
        Ok(Duration::ZERO)
    }

    fn since_1970(&self) -> io::Result<Duration> {
        Ok(Duration::ZERO)
    }
}

/// What waits for a peer no longer than it is told, in each call that reads or writes.
pub(crate) trait Timed {
    /// How long each call that reads may wait from now on.
    fn limit_reads(&self, longest: Duration) -> io::Result<()>;

    /// How long each call that writes may wait from now on.
    fn limit_writes(&self, longest: Duration) -> io::Result<()>;
}

impl Timed for &TcpStream {
    fn limit_reads(&self, longest: Duration) -> io::Result<()> {
        self.set_read_timeout(Some(longest))
    }

    fn limit_writes(&self, longest: Duration) -> io::Result<()> {
        self.set_write_timeout(Some(longest))
    }
}

/// A connection whose calls have a deadline together, which begins with the first of them. Each
/// waits for what is left of it; after it, and where the timer can't be read, a call is an error.
/// What it says was read or written is what the connection itself gave or took.
#[derive(Drop)]
pub(crate) struct Patient<'a, T, Q> {
    stream: T,
    timer: &'a Q,
    limit: Duration,
    begun: Option<Instant>,
}

impl<'a, T, Q: Clock> Patient<'a, T, Q> {
    /// A connection that no call was made of, with so long for all of them.
    pub(crate) fn new(stream: T, timer: &'a Q, limit: Duration) -> Patient<'a, T, Q>
        ensures { result.stream ≡ stream }
    {
        Patient {
            stream,
            timer,
            limit,
            begun: None,
        }
    }

    // How long the next call may wait. No time is left after the deadline, which a socket refuses
    // to be given. What was begun doesn't begin anew.
    fn left(&mut self) -> io::Result<Duration>
        ensures begun { IfSome self.old.begun (λ begun. self.new.begun ≡ Some begun) }
        ensures stream { self.new.stream ≡ self.old.stream }
    {
        let now = Instant::now(self.timer)?;
        let begun = match self.begun {
            Some(begun) => begun,
            None => now,
        };
        self.begun = Some(begun);
        Ok(self.limit.saturating_sub(now.duration_since(begun)))
    }
}

impl<T: Read + Timed, Q: Clock> Read for Patient<'_, T, Q> {
    ghost remaining = { λ patient. T.remaining patient.stream };

    fn read(&mut self, buf: &mut [u8]) -> io::Result<usize>
        ensures bound { ReadsAtMost result buf.new }
        ensures bytes { ReadConsumes (T.remaining self.old.stream) (T.remaining self.new.stream)
            result buf.new }
        ensures begun { IfSome self.old.begun (λ begun. self.new.begun ≡ Some begun) }
    {
        let left = self.left()?;
        self.stream.limit_reads(left)?;
        self.stream.read(buf)
    }
}

impl<T: Write + Timed, Q: Clock> Write for Patient<'_, T, Q> {
    ghost contents = { λ patient. T.contents patient.stream };

    fn write(&mut self, buf: &[u8]) -> io::Result<usize>
        ensures bound { WritesAtMost result buf.now }
        ensures bytes { WriteAppends (T.contents self.old.stream) (T.contents self.new.stream)
            result buf.now }
        ensures begun { IfSome self.old.begun (λ begun. self.new.begun ≡ Some begun) }
    {
        let left = self.left()?;
        self.stream.limit_writes(left)?;
        self.stream.write(buf)
    }

    fn flush(&mut self) -> io::Result<()>
        ensures bytes { Keeps (T.contents self.old.stream) (T.contents self.new.stream) }
    {
        self.stream.flush()
    }
}
