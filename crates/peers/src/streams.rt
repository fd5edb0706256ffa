//! Streams over TCP and over Unix sockets, as one.
ghost use Rattle.std.specs.Io.{WritesAtMost};

use mio::net::{TcpStream, UnixStream};
use mio::{Interest, Poll, Token};
use std::io::{self, Read, Write};
use std::net::Shutdown;

/// A connection that is read and written without waiting.
pub(crate) trait Stream: Read + Write {
    /// Says that no more is written. The peer may still send.
    fn end_writing(&self) -> io::Result<()>;
}

/// A connection that was accepted.
#[derive(Drop)]
pub enum PeerStream {
    /// Over TCP.
    Tcp(TcpStream),
    /// Over a Unix socket.
    Unix(UnixStream),
}

impl PeerStream {
    /// Has the poll tell under this token when something can be read of it or written to it.
    pub(crate) fn register(&mut self, poll: &Poll, token: Token) -> io::Result<()> {
        let both = Interest::READABLE | Interest::WRITABLE;
        match self {
            PeerStream::Tcp(stream) => poll.registry().register(stream, token, both),
            PeerStream::Unix(stream) => poll.registry().register(stream, token, both),
        }
    }
}

impl Read for PeerStream {
    fn read(&mut self, buf: &mut [u8]) -> io::Result<usize> {
        match self {
            PeerStream::Tcp(stream) => stream.read(buf),
            PeerStream::Unix(stream) => stream.read(buf),
        }
    }
}

impl Write for PeerStream {
    fn write(&mut self, buf: &[u8]) -> io::Result<usize> {
        match self {
            PeerStream::Tcp(stream) => stream.write(buf),
            PeerStream::Unix(stream) => stream.write(buf),
        }
    }

    fn flush(&mut self) -> io::Result<()> {
        Ok(())
    }
}

// Writes once to a stream over TCP.
fn write_tcp(mut stream: &TcpStream, buf: &[u8]) -> io::Result<usize>
    ensures { WritesAtMost result buf.now }
{
    stream.write(buf)
}

// Writes once to a stream over a Unix socket.
fn write_unix(mut stream: &UnixStream, buf: &[u8]) -> io::Result<usize>
    ensures { WritesAtMost result buf.now }
{
    stream.write(buf)
}

// Writes once to a stream.
fn write_shared(stream: &PeerStream, buf: &[u8]) -> io::Result<usize>
    ensures { WritesAtMost result buf.now }
{
    match stream {
        PeerStream::Tcp(stream) => write_tcp(stream, buf),
        PeerStream::Unix(stream) => write_unix(stream, buf),
    }
}

impl Write for &PeerStream {
    fn write(&mut self, buf: &[u8]) -> io::Result<usize> {
        write_shared(self, buf)
    }

    fn flush(&mut self) -> io::Result<()> {
        Ok(())
    }
}

impl Stream for PeerStream {
    fn end_writing(&self) -> io::Result<()> {
        match self {
            PeerStream::Tcp(stream) => stream.shutdown(Shutdown::Write),
            PeerStream::Unix(stream) => stream.shutdown(Shutdown::Write),
        }
    }
}
