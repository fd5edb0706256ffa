ghost use Rattle.std.specs.Prelude.{◌≡◌, [], Some};
ghost use Rattle.std.specs.Io.{WritesAtMost};
ghost use Rattle.std.specs.Io.KnownBytes.{Keeps, WriteAppends, append_known};

use std::alloc::Global;
use std::io::{self, ErrorKind, Write};

/// A connection that a response is written to. What its peer doesn't take at once is kept, to be
/// sent later: so nobody waits for it.
#[derive(Drop)]
pub struct Sending<T> {
    stream: T,
    kept: Vec<u8>,
}

impl<T: Drop> Sending<T> {
    /// A connection to which nothing is kept.
    pub(crate) fn new(alloc: Global, stream: T) -> Sending<T>
        ensures stream { result.stream ≡ stream }
        ensures none { result.kept.items ≡ [] }
    {
        Sending {
            stream,
            kept: Vec::new(alloc),
        }
    }

    /// What is to be sent later.
    pub fn into_kept(self) -> Vec<u8>
        ensures { result ≡ self.kept }
    {
        let Sending { stream: _, kept } = self;
        kept
    }
}

impl<T: Write> Write for Sending<T> {
    // What was written is what the connection took, and then what is kept.
    ghost contents = { λ sending. append_known (T.contents sending.stream) sending.kept.items };

    fn write(&mut self, buf: &[u8]) -> io::Result<usize>
        ensures bound { WritesAtMost result buf.now }
        ensures bytes { WriteAppends
            (append_known (T.contents self.old.stream) self.old.kept.items)
            (append_known (T.contents self.new.stream) self.new.kept.items) result buf.now }
    {
        if self.kept.is_empty() {
            match self.stream.write(buf) {
                Err(error) if error.kind() == ErrorKind::WouldBlock => {}
                taken => return taken,
            }
        }
        self.kept.extend_from_slice(buf)?;
        Ok(buf.len())
    }

    fn flush(&mut self) -> io::Result<()>
        ensures bytes { Keeps
            (append_known (T.contents self.old.stream) self.old.kept.items)
            (append_known (T.contents self.new.stream) self.new.kept.items) }
    {
        Ok(())
    }
}
