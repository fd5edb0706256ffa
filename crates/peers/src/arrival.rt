//! A connection that is answered.
ghost use Rattle.std.specs.Prelude.{◌≡◌, []};

use crate::entrances::Door;
use crate::gathered::{End, Gathered};
use crate::listener::PeerAddress;
use crate::peer::Peer;
use crate::sending::Sending;
use crate::streams::PeerStream;
use std::alloc::Global;

/// A connection of which no more of its request is read, taken out of the room to be answered.
#[derive(Drop)]
pub struct Arrival {
    /// Its place in the room.
    pub(crate) place: usize,
    /// The connection.
    pub(crate) peer: Peer<PeerStream>,
    /// How that which came of its request ends.
    pub(crate) end: End,
}

impl Arrival {
    /// Where it comes from.
    pub fn address(&self) -> PeerAddress
        ensures { result ≡ self.now.peer.address }
    {
        self.peer.address
    }

    /// By which of the room's listeners it came.
    pub fn door(&self) -> Door
        ensures { result ≡ self.now.peer.door }
    {
        self.peer.door
    }

    /// What came of its request.
    pub fn reader(&self) -> Gathered<'_>
        ensures { result.rest.now ≡ self.now.peer.bytes.items }
    {
        self.peer.reader(self.end)
    }

    /// What its response is written to.
    pub fn writer(&self, alloc: Global) -> Sending<&PeerStream>
        ensures none { result.kept.items ≡ [] }
    {
        Sending::new(alloc, self.peer.stream())
    }
}
