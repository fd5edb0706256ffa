ghost use Rattle.std.specs.Prelude.{◌≡◌, Some};

use std::io::{self, ErrorKind, Read};

/// How that which came of a request ends.
#[derive(Clone, Copy, PartialEq, Eq)]
pub enum End {
    /// The request is whole; its peer may send more.
    Whole,
    /// The peer sends no more.
    Ended,
    /// The connection gave an error, its patience is over, it had to make room for another, or
    /// there was no memory for more.
    Broken,
}

/// What came of a request, as a reader. It is at its end where the peer sends no more; else it
/// gives an error after the last byte, since the next is not known.
#[derive(Drop)]
pub struct Gathered<'b> {
    rest: &'b [u8],
    end: End,
}

impl<'b> Gathered<'b> {
    /// A reader of these bytes, which end so.
    pub(crate) fn new(bytes: &'b [u8], end: End) -> Gathered<'b>
        ensures { result.rest.now ≡ bytes.now }
    {
        Gathered { rest: bytes, end }
    }
}

impl Read for Gathered<'_> {
    ghost remaining = { λ gathered. Some gathered.rest.now };

    fn read(&mut self, buf: &mut [u8]) -> io::Result<usize> {
        if self.rest.is_empty() && self.end != End::Ended {
            return Err(io::Error::from(ErrorKind::WouldBlock));
        }
        self.rest.read(buf)
    }
}
