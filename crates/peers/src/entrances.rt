//! The doors of a room: by which of them a connection comes in.
ghost use Rattle.std.specs.Prelude.{◌≡◌, ◌≢◌, IfOk, IfSome};

use crate::listener::{Entrance, Listener, PeerAddress};
use crate::streams::PeerStream;
use mio::{Poll, Token};
use std::io::{self, ErrorKind};

// The tokens of the listeners; the others are places.
const FIRST: usize = usize::MAX;

const SECOND: usize = usize::MAX - 1;

/// The listening sockets whose connections a room takes.
#[derive(Drop)]
pub struct Listeners {
    /// The first.
    pub first: Listener,
    /// A second one beside it.
    pub second: Option<Listener>,
}

/// By which of a room's listeners a connection came.
#[derive(Clone, Copy, PartialEq, Eq)]
pub enum Door {
    /// By the first.
    First,
    /// By the second.
    Second,
}

// The other door.
fn other_than(door: Door) -> Door
    ensures { result ≢ door }
{
    match door {
        Door::First => Door::Second,
        Door::Second => Door::First,
    }
}

/// A connection that was accepted.
#[derive(Drop)]
pub(crate) struct Accepted {
    /// Its stream.
    pub stream: PeerStream,
    /// Where it comes from.
    pub address: PeerAddress,
    /// By which door it came.
    pub door: Door,
}

// A listener, and whether it may have a connection now.
#[derive(Drop)]
struct Gate {
    entrance: Entrance,
    may_accept: bool,
}

impl Gate {
    // That of a listener, of which the poll tells under this token.
    fn open(listener: Listener, poll: &Poll, token: usize) -> io::Result<Gate> {
        let mut entrance = Entrance::open(listener)?;
        entrance.register(poll, Token(token))?;
        Ok(Gate {
            entrance,
            may_accept: true,
        })
    }

    // Accepts a connection by this door; None where there is none now.
    fn accept(&mut self, door: Door) -> io::Result<Option<Accepted>>
        ensures { IfOk result (λ found. IfSome found (λ accepted. accepted.door ≡ door)) }
    {
        if !self.may_accept {
            return Ok(None);
        }
        match self.entrance.accept() {
            Ok((stream, address)) => Ok(Some(Accepted {
                stream,
                address,
                door,
            })),
            Err(error) if error.kind() == ErrorKind::WouldBlock => {
                self.may_accept = false;
                Ok(None)
            }
            Err(error) => Err(error),
        }
    }
}

/// The listeners of a room, whose calls don't wait.
#[derive(Drop)]
pub(crate) struct Entrances {
    first: Gate,
    second: Option<Gate>,
    // By which door the next connection is accepted, if there is one.
    next: Door,
}

impl Entrances {
    /// Those of these listeners, whose calls no longer wait: the poll tells of each.
    pub(crate) fn open(listeners: Listeners, poll: &Poll) -> io::Result<Entrances> {
        let Listeners { first, second } = listeners;
        let first = Gate::open(first, poll, FIRST)?;
        let second = match second {
            Some(listener) => Some(Gate::open(listener, poll, SECOND)?),
            None => None,
        };
        Ok(Entrances {
            first,
            second,
            next: Door::First,
        })
    }

    /// Whether any of them may have a connection now.
    pub(crate) fn may_accept(&self) -> bool {
        self.first.may_accept || matches!(&self.second, Some(gate) if gate.may_accept)
    }

    /// The poll tells of this token: whether it is that of a listener, which then may have a
    /// connection.
    pub(crate) fn is_told_of(&mut self, token: usize) -> bool {
        match token {
            FIRST => self.first.may_accept = true,
            SECOND => {
                if let Some(gate) = &mut self.second {
                    gate.may_accept = true;
                }
            }
            _ => return false,
        }
        true
    }

    // Accepts a connection by this door, if it is there; the next comes by the other then.
    fn accept_by(&mut self, door: Door) -> io::Result<Option<Accepted>>
        ensures { IfOk result (λ found. IfSome found (λ accepted. accepted.door ≡ door)) }
    {
        let found = match (door, &mut self.second) {
            (Door::First, _) => self.first.accept(Door::First),
            (Door::Second, Some(gate)) => gate.accept(Door::Second),
            (Door::Second, None) => Ok(None),
        };
        if !matches!(found, Ok(None)) {
            self.next = other_than(door);
        }
        found
    }

    /// Accepts a connection by either door, in turn where both have one; None where there is none
    /// now. An error is of one door, and the other is asked next.
    pub(crate) fn accept(&mut self) -> io::Result<Option<Accepted>> {
        let door = self.next;
        match self.accept_by(door)? {
            Some(accepted) => Ok(Some(accepted)),
            None => self.accept_by(other_than(door)),
        }
    }
}
