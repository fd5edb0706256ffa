//! Where connections come in, and where they come from.
use crate::streams::PeerStream;
use mio::net::{TcpListener, UnixListener};
use mio::{Interest, Poll, Token};
use std::net::SocketAddr;
use std::os::unix;
use std::{fmt, io, net};

/// A listening socket whose connections a room takes.
#[derive(Drop)]
pub enum Listener {
    /// Of TCP.
    Tcp(net::TcpListener),
    /// A Unix socket.
    Unix(unix::net::UnixListener),
}

/// Where a connection comes from.
#[derive(Clone, Copy, PartialEq, Eq)]
pub enum PeerAddress {
    /// The address of a peer over TCP.
    Inet(SocketAddr),
    /// A Unix socket, whose peers mostly have no name.
    Unix,
}

impl fmt::Display for PeerAddress {
    // The address with its port, or `unix`.
    fn fmt<W: fmt::Write>(&self, f: &mut fmt::Formatter<W>) -> fmt::Result {
        match self {
            PeerAddress::Inet(address) => address.fmt(f),
            PeerAddress::Unix => f.write_str("unix"),
        }
    }
}

/// A listening socket whose calls don't wait.
#[derive(Drop)]
pub(crate) enum Entrance {
    Tcp(TcpListener),
    Unix(UnixListener),
}

impl Entrance {
    /// That of a listener, whose calls no longer wait.
    pub(crate) fn open(listener: Listener) -> io::Result<Entrance> {
        match listener {
            Listener::Tcp(listener) => {
                listener.set_nonblocking(true)?;
                Ok(Entrance::Tcp(TcpListener::from_std(listener)))
            }
            Listener::Unix(listener) => {
                listener.set_nonblocking(true)?;
                Ok(Entrance::Unix(UnixListener::from_std(listener)))
            }
        }
    }

    /// Has the poll tell under this token when a connection can be accepted.
    pub(crate) fn register(&mut self, poll: &Poll, token: Token) -> io::Result<()> {
        match self {
            Entrance::Tcp(listener) => {
                poll.registry()
                    .register(listener, token, Interest::READABLE)
            }
            Entrance::Unix(listener) => {
                poll.registry()
                    .register(listener, token, Interest::READABLE)
            }
        }
    }

    /// Accepts a connection, with where it comes from; WouldBlock where there is none now.
    pub(crate) fn accept(&self) -> io::Result<(PeerStream, PeerAddress)> {
        match self {
            Entrance::Tcp(listener) => {
                let (stream, address) = listener.accept()?;
                Ok((PeerStream::Tcp(stream), PeerAddress::Inet(address)))
            }
            Entrance::Unix(listener) => {
                let (stream, _) = listener.accept()?;
                Ok((PeerStream::Unix(stream), PeerAddress::Unix))
            }
        }
    }
}
