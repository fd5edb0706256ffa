//! Many connections at once: none of them waits for the request of another, nor until another takes
//! its response.
ghost use Rattle.std.specs.Prelude.{◌≡◌, ◌≤◌, ◌+◌, ◌-◌, ◌^◌, min, IfOk};
ghost use Rattle.httparse.specs.Spans.{IsRequestWithin};

use crate::audience::{Access, Audience, access_by};
use crate::callers::{Caller, Callers};
use crate::heading::{MethodKind, length_of, read_method};
use crate::patience::Patience;
use crate::serving::barred;
use crate::targets::{find_target, has_body};
use head_fields::{MOST_FIELDS, MOST_HEAD, is_among, values_of};
use httparse::Status;
use httparse::spans::{EMPTY_HEADER_SPAN, HeaderSpan, RequestSpans, parse_request};
use peers::{Arrival, Door, Framing, Limits, Listeners, Next, Room};
use std::alloc::Global;
use std::io;
use std::net::Net;
use std::rt::Clock;

// How many connections are there at once, where nobody says otherwise.
const PEERS: u16 = 256;

// How many bytes of all requests are held at once, 64 MiB.
const MOST_HELD: usize = 67_108_864;

// Tells how long a request is to those who have access by its door.
#[derive(Clone, Copy)]
struct RequestFraming<'n> {
    alloc: Global,
    access: Access<'n>,
}

impl RequestFraming<'_> {
    // How long a request is whose head was read: only one that has a body, and isn't refused by its
    // head, goes on after that.
    fn size_after(
        &self,
        audience: Audience,
        method: MethodKind,
        got: &[u8],
        fields: &[HeaderSpan],
        spans: &RequestSpans,
    ) -> usize
        requires { IsRequestWithin got.now fields.now spans.now }
    {
        let has_body = match find_target(self.alloc, audience, spans.path.of(got)) {
            Ok(target) => has_body(method, &target),
            Err(_) => matches!(method, MethodKind::Post),
        };
        if !has_body {
            return spans.len;
        }
        match length_of(&values_of(got, &fields[..spans.headers], b"Content-Length")) {
            Ok(size) => spans.len.saturating_add(size),
            Err(_) => spans.len,
        }
    }
}

impl Framing for RequestFraming<'_> {
    fn size_of(&self, door: Door, begun: &[u8]) -> Option<usize> {
        let access = access_by(self.access, door);
        let got = &begun[..begun.len().min(MOST_HEAD)];
        let mut fields = [EMPTY_HEADER_SPAN; MOST_FIELDS];
        let spans = match parse_request(got, &mut fields) {
            Ok(Status::Complete(spans)) => spans,
            Ok(Status::Partial) if begun.len() < MOST_HEAD => return None,
            _ => return Some(0),
        };
        let is_refused = barred(access.doors, got, &fields, &spans).is_some()
            || is_among(got, &fields[..spans.headers], b"Transfer-Encoding");
        if is_refused {
            return Some(spans.len);
        }
        let method = read_method(spans.method.of(got));
        Some(self.size_after(access.audience, method, got, &fields, &spans))
    }
}

/// The connections of a server, many at once. Each request and each response has its own patience;
/// a request is answered when it is whole, and a response leaves as far as its peer takes it.
#[derive(Drop)]
pub struct Crowd<'q, 'n, Q> {
    room: Room<'q, Q>,
    framing: RequestFraming<'n>,
    lost: u32,
}

impl<'q, 'n, Q: Clock> Crowd<'q, 'n, Q> {
    /// That of these listeners, each of which is a door of the server, for so many connections in
    /// all, without those that ask for the health of the book; at once there are so many, 256 where
    /// that is None. The error is the system's, or want of memory.
    pub fn open<N: Net>(
        net: &N,
        alloc: Global,
        listeners: Listeners,
        access: Access<'n>,
        count: u64,
        peers: Option<u16>,
        patience: &Patience<'q, Q>,
    ) -> io::Result<Crowd<'q, 'n, Q>>
        ensures access { IfOk result (λ crowd. crowd.framing.access ≡ access.entry) }
        ensures lost { IfOk result (λ crowd. crowd.lost ≡ 0) }
    {
        let limits = Limits {
            count,
            peers: peers.unwrap_or(PEERS),
            held: MOST_HELD,
            patience: patience.limit,
        };
        Ok(Crowd {
            room: Room::open(net, alloc, listeners, patience.timer, limits)?,
            framing: RequestFraming { alloc, access },
            lost: 0,
        })
    }

    /// Waits until the responses have left. The result is how many didn't since they were told.
    pub fn finish(mut self) -> u32
        ensures lost { self.entry.lost ≤ result }
        ensures most { result ≤ self.entry.lost + (2 ^ 16 - 1) }
    {
        let framing = self.framing;
        for _ in 0..u16::MAX {
            if self.room.finish(&framing).is_none() {
                break;
            }
            self.lost = self.lost.saturating_add(1);
        }
        self.lost
    }
}

impl<Q: Clock> Callers for Crowd<'_, '_, Q> {
    fn next_caller(&mut self) -> Option<Caller>
        ensures lost { self.old.lost ≤ self.new.lost }
    {
        let framing = self.framing;
        for _ in 0..u64::MAX {
            match self.room.next(&framing) {
                Next::Arrival(arrival) => return Some(Caller::Gathered(arrival)),
                Next::Nobody => return None,
                Next::Lost(_) => self.lost = self.lost.saturating_add(1),
            }
        }
        None
    }

    fn let_leave(&mut self, arrival: Arrival, kept: Vec<u8>)
        ensures lost { self.new.lost ≡ self.old.lost }
    {
        self.room.let_leave(arrival, kept);
    }

    fn millis_of(&self, arrival: &Arrival) -> u64 {
        self.room.millis_of(arrival)
    }

    fn admit_one_more(&mut self)
        ensures count { self.new.room.limits.count
            ≡ min (self.old.room.limits.count + 1) (2 ^ 64 - 1) }
        ensures lost { self.new.lost ≡ self.old.lost }
    {
        self.room.admit_one_more();
    }

    fn take_lost(&mut self) -> u32
        ensures told { result ≡ self.old.lost }
        ensures taken { self.new.lost ≡ 0 }
    {
        let lost = self.lost;
        self.lost = 0;
        lost
    }
}
