//! One connection: what came of its request, and what has left of its response.
ghost use Rattle.std.specs.Prelude.{◌≡◌, ◌≢◌, ◌≤◌, [], length, drop, take, IfSome, IsTrue, None};
ghost use Rattle.std.specs.Io.KnownBytes.{Appends, Consumes, Keeps, append_known};
ghost use Rattle.peers.specs.Gains.{Gains};
ghost use Rattle.peers.specs.Turns.{Asks, Follows, Waits};

use crate::entrances::Door;
use crate::gathered::{End, Gathered};
use crate::listener::PeerAddress;
use crate::streams::Stream;
use std::io::{ErrorKind, Read, Write};
use std::time::Duration;

// How many bytes are read of a connection at once.
const CHUNK: usize = 16_384;

// For how many seconds what a peer still sends is read after its response, and how many bytes of
// it, 2 MiB. A connection that is closed with bytes unread is reset, and then the peer may lose the
// response (RFC 9112, 9.6).
const CLOSING_SECONDS: u64 = 1;

const MOST_REST: usize = 2_097_152;

/// How long a request is.
pub trait Framing {
    /// How many bytes the request has that begins with these, at most, where it came by this door;
    /// None where that can't be said yet. One that is refused by its head has no more than these.
    fn size_of(&self, door: Door, begun: &[u8]) -> Option<usize>;
}

/// How far a connection is.
#[derive(Clone, Copy, PartialEq, Eq)]
pub(crate) enum Phase {
    /// Its request comes.
    Arriving,
    /// No more of its request is read, and it waits for its turn.
    Waiting(End),
    /// Its response leaves.
    Leaving,
    /// Its response has left, and what the peer still sends is dropped.
    Closing,
    /// Its response couldn't leave.
    Lost,
    /// Nothing is left to do.
    Over,
}

/// A connection.
#[derive(Drop)]
pub(crate) struct Peer<T> {
    stream: T,
    /// Where it comes from.
    pub address: PeerAddress,
    /// By which of the room's listeners it came.
    pub door: Door,
    /// How far it is.
    pub phase: Phase,
    // What came of its request; later its response.
    bytes: Vec<u8>,
    // How many bytes its request has, where that can be said.
    size: Option<usize>,
    // How many bytes of its response have left, or how many were dropped after that.
    passed: usize,
    /// When it was accepted.
    pub accepted: Duration,
    /// When it came to where it is.
    pub since: Duration,
    /// Whether the system may have something for it to do now.
    pub stirs: bool,
}

// What one read gave.
#[derive(Clone, Copy, PartialEq, Eq)]
enum Came {
    // Some bytes.
    More,
    // Nothing now.
    Later,
    // The end of what the peer sends.
    Ended,
    // An error, or bytes for which there was no memory.
    Broken,
}

// Reads once. Where that isn't broken, what the bytes grow by is what the stream gave.
fn read_once<T: Read>(stream: &mut T, bytes: &mut Vec<u8>) -> Came
    ensures { result ≢ Came.Broken → Gains (T.remaining stream.old) (T.remaining stream.new)
        bytes.old.items bytes.new.items }
{
    let mut buf = [0u8; CHUNK];
    match stream.read(&mut buf) {
        Ok(0) => Came::Ended,
        Ok(n) => match bytes.extend_from_slice(&buf[..n]) {
            Ok(()) => Came::More,
            Err(_) => Came::Broken,
        },
        Err(error) if error.kind() == ErrorKind::WouldBlock => Came::Later,
        Err(_) => Came::Broken,
    }
}

// Writes once: how many bytes the stream took, 0 where it takes none now. None where it gave an
// error, or took 0 bytes.
fn write_once<T: Write>(stream: &mut T, bytes: &[u8]) -> Option<usize>
    ensures { IfSome result (λ n. (n ≤ length bytes.now)
        × Appends (T.contents stream.old) (T.contents stream.new) (take n bytes.now)) }
{
    match stream.write(bytes) {
        Ok(0) => None,
        Ok(n) => Some(n),
        Err(error) if error.kind() == ErrorKind::WouldBlock => Some(0),
        Err(_) => None,
    }
}

impl<T: Stream> Peer<T> {
    /// A connection that was accepted now by this door.
    pub(crate) fn new(
        stream: T,
        address: PeerAddress,
        door: Door,
        empty: Vec<u8>,
        now: Duration,
    ) -> Peer<T>
        ensures address { result.address ≡ address }
        ensures door { result.door ≡ door }
        ensures accepted { result.accepted ≡ now }
        ensures arriving { result.phase ≡ Phase.Arriving }
        ensures none { result.bytes ≡ empty }
    {
        Peer {
            stream,
            address,
            door,
            phase: Phase::Arriving,
            bytes: empty,
            size: None,
            passed: 0,
            accepted: now,
            since: now,
            stirs: true,
        }
    }

    /// Its stream.
    pub(crate) fn stream(&self) -> &T {
        &self.stream
    }

    /// What came of its request, as a reader.
    pub(crate) fn reader(&self, end: End) -> Gathered<'_>
        ensures { result.rest.now ≡ self.now.bytes.items }
    {
        Gathered::new(&self.bytes, end)
    }

    /// How many bytes of a request are held of it.
    pub(crate) fn asked(&self) -> usize {
        match self.phase {
            Phase::Arriving | Phase::Waiting(_) => self.bytes.len(),
            _ => 0,
        }
    }

    /// How many bytes of a response are kept for it.
    pub(crate) fn kept(&self) -> usize {
        match self.phase {
            Phase::Leaving => self.bytes.len(),
            _ => 0,
        }
    }

    /// Whether it may be read now: a short request may be always.
    pub(crate) fn may_be_read(&self, has_room: bool) -> bool {
        has_room || self.bytes.len() < CHUNK
    }

    /// Whether it only waits for its peer, and nothing came of it just now.
    pub(crate) fn is_idle(&self) -> bool
        ensures { IsTrue result → self.now.phase ≡ Phase.Arriving }
    {
        self.phase == Phase::Arriving && !self.stirs
    }

    /// How long it may stay where it is, if it may not stay there for good.
    pub(crate) fn limit(&self, patience: Duration) -> Option<Duration>
        ensures waits { Waits self.now → result ≡ None }
    {
        match self.phase {
            Phase::Arriving | Phase::Leaving => Some(patience),
            Phase::Closing => Some(Duration::from_secs(CLOSING_SECONDS)),
            Phase::Waiting(_) | Phase::Lost | Phase::Over => None,
        }
    }

    /// It comes to another phase, in which it is looked at at once.
    pub(crate) fn enter(&mut self, phase: Phase, now: Duration)
        ensures phase { self.new.phase ≡ phase }
        ensures address { self.new.address ≡ self.old.address }
        ensures door { self.new.door ≡ self.old.door }
        ensures accepted { self.new.accepted ≡ self.old.accepted }
        ensures stream { self.new.stream ≡ self.old.stream }
        ensures bytes { self.new.bytes ≡ self.old.bytes }
        ensures passed { self.new.passed ≡ self.old.passed }
    {
        self.phase = phase;
        self.since = now;
        self.stirs = true;
    }

    /// The system may have something for it to do.
    pub(crate) fn stir(&mut self)
        ensures stays { Asks self.old → Follows self.old self.new }
    {
        self.stirs = true;
    }

    /// Where it only waits for its peer, it is waited for no longer.
    pub(crate) fn make_way(&mut self, now: Duration)
        ensures stays { Asks self.old → Follows self.old self.new }
    {
        if self.is_idle() {
            self.enter(Phase::Waiting(End::Broken), now);
        }
    }

    /// Its response begins to leave: what was kept of it, where its stream didn't take all.
    pub(crate) fn let_leave(&mut self, kept: Vec<u8>, now: Duration)
        ensures stream { self.new.stream ≡ self.old.stream }
        ensures kept { drop self.new.passed self.new.bytes.items ≡ kept.items }
    {
        let is_over = kept.is_empty();
        self.passed = 0;
        self.bytes = kept;
        if is_over {
            self.close(now);
        } else {
            self.enter(Phase::Leaving, now);
        }
    }

    // All of its response has left.
    fn close(&mut self, now: Duration)
        ensures door { self.new.door ≡ self.old.door }
        ensures stream { self.new.stream ≡ self.old.stream }
        ensures none { self.new.bytes.items ≡ [] }
    {
        self.passed = 0;
        self.bytes.clear();
        match self.stream.end_writing() {
            Ok(()) => self.enter(Phase::Closing, now),
            Err(_) => self.phase = Phase::Over,
        }
    }

    // Its time is over.
    fn give_up(&mut self, now: Duration)
        ensures door { self.new.door ≡ self.old.door }
        ensures came { self.old.phase ≡ Phase.Arriving
            → self.new.phase ≡ Phase.Waiting End.Broken }
        ensures left { self.old.phase ≡ Phase.Leaving → self.new.phase ≡ Phase.Lost }
        ensures stays { self.old.phase ≡ Phase.Arriving → Follows self.old self.new }
    {
        match self.phase {
            Phase::Arriving => self.enter(Phase::Waiting(End::Broken), now),
            Phase::Leaving => self.phase = Phase::Lost,
            _ => self.phase = Phase::Over,
        }
    }

    // Whether its request is whole now.
    fn is_whole<F: Framing>(&mut self, framing: &F) -> bool
        ensures door { self.new.door ≡ self.old.door }
        ensures stream { self.new.stream ≡ self.old.stream }
        ensures bytes { self.new.bytes ≡ self.old.bytes }
        ensures others { self.new ≡ record self.old { size = self.new.size } }
    {
        if self.size.is_none() {
            self.size = framing.size_of(self.door, &self.bytes);
        }
        match self.size {
            Some(size) => size <= self.bytes.len(),
            None => false,
        }
    }

    // Reads what comes of its request: unless that breaks off, what it grows by is what its own
    // stream gave.
    fn take_in<F: Framing>(&mut self, framing: &F, now: Duration)
        ensures door { self.new.door ≡ self.old.door }
        ensures came { self.new.phase ≢ Phase.Waiting End.Broken
            → Gains (T.remaining self.old.stream) (T.remaining self.new.stream)
            self.old.bytes.items self.new.bytes.items }
        ensures stays { self.old.phase ≡ Phase.Arriving → Follows self.old self.new }
    {
        match read_once(&mut self.stream, &mut self.bytes) {
            Came::More => {
                if self.is_whole(framing) {
                    self.enter(Phase::Waiting(End::Whole), now);
                }
            }
            Came::Later => self.stirs = false,
            Came::Ended => self.enter(Phase::Waiting(End::Ended), now),
            Came::Broken => self.enter(Phase::Waiting(End::Broken), now),
        }
    }

    // Writes what is left of its response: unless that is lost, what its stream took and what is
    // still to leave is the same as before, one after the other.
    fn let_out(&mut self, now: Duration)
        ensures door { self.new.door ≡ self.old.door }
        ensures left { self.new.phase ≢ Phase.Lost → Keeps
            (append_known (T.contents self.old.stream) (drop self.old.passed self.old.bytes.items))
            (append_known (T.contents self.new.stream)
            (drop self.new.passed self.new.bytes.items)) }
    {
        let passed = self.passed.min(self.bytes.len());
        match write_once(&mut self.stream, &self.bytes[passed..]) {
            Some(0) => self.stirs = false,
            Some(n) => {
                self.passed = passed + n;
                if self.bytes.len() <= self.passed {
                    self.close(now);
                }
            }
            None => self.phase = Phase::Lost,
        }
    }

    // Drops what its peer still sends.
    fn drop_rest(&mut self)
        ensures door { self.new.door ≡ self.old.door }
    {
        let mut buf = [0u8; CHUNK];
        match self.stream.read(&mut buf) {
            Ok(1..) if self.passed < MOST_REST => self.passed = self.passed.saturating_add(CHUNK),
            Err(error) if error.kind() == ErrorKind::WouldBlock => self.stirs = false,
            _ => self.phase = Phase::Over,
        }
    }

    /// Does what it can do now without waiting, and stays one that came by its door. A long request
    /// isn't read on where there is no room for more of it. Unless it breaks off, what came of its
    /// request grows by what its own stream gave; unless it is lost, none of its response is left
    /// out and none leaves twice.
    #[tactic(auto, using(crate::proofs::Same::gains_nothing, crate::proofs::Same::keeps_same))]
    pub(crate) fn advance<F: Framing>(
        &mut self,
        framing: &F,
        has_room: bool,
        patience: Duration,
        now: Duration,
    )
        ensures door { self.new.door ≡ self.old.door }
        ensures stays { Asks self.old → Follows self.old self.new }
        ensures came { self.old.phase ≡ Phase.Arriving
            → self.new.phase ≢ Phase.Waiting End.Broken
            → Gains (T.remaining self.old.stream) (T.remaining self.new.stream)
            self.old.bytes.items self.new.bytes.items }
        ensures left { self.old.phase ≡ Phase.Leaving → self.new.phase ≢ Phase.Lost → Keeps
            (append_known (T.contents self.old.stream) (drop self.old.passed self.old.bytes.items))
            (append_known (T.contents self.new.stream)
            (drop self.new.passed self.new.bytes.items)) }
    {
        if let Some(limit) = self.limit(patience) {
            if limit <= now.saturating_sub(self.since) {
                return self.give_up(now);
            }
        }
        if !self.stirs {
            return;
        }
        match self.phase {
            Phase::Arriving if self.may_be_read(has_room) => self.take_in(framing, now),
            Phase::Leaving => self.let_out(now),
            Phase::Closing => self.drop_rest(),
            _ => {}
        }
    }
}
