//! The connections that are there at once, each at a place of its own.
ghost use Rattle.std.specs.Prelude.{◌≡◌, ◌+◌, ◌-◌, ◌^◌, min, IfNone, IfOk, IfSome};
ghost use Rattle.std.specs.Prelude.{None, Some, replicate, slice_get};
ghost use Rattle.peers.specs.Rooms.{CountsDown, IsNext, SomeTimeAfter, millis_between, with_next};
ghost use Rattle.peers.specs.Turns.{AllStay, IsTaken, WaitsLongest};

use crate::arrival::Arrival;
use crate::entrances::{Accepted, Entrances, Listeners};
use crate::gathered::End;
use crate::listener::PeerAddress;
use crate::peer::{Framing, Peer, Phase};
use crate::places::{
    advance_at, clear, empty_places, first_waiting, is_any_leaving, make_way_at, oldest_idle, stir,
    take_at,
};
use crate::streams::PeerStream;
use mio::{Events, Poll, Token};
use std::alloc::Global;
use std::io;
use std::net::Net;
use std::rt::Clock;
use std::time::Duration;

// How many events are had of the system at once.
const MOST_EVENTS: usize = 256;

// After how many milliseconds connections are looked at again that may not be read now.
const PAUSE_MILLIS: u64 = 20;

/// How much a room has room for.
#[derive(Clone, Copy)]
pub struct Limits {
    /// How many connections are accepted in all.
    pub count: u64,
    /// How many are there at once.
    pub peers: u16,
    /// How many bytes of all requests are held at once, from which on no long one is read on; and
    /// how many of all responses are kept, above which the oldest is lost.
    pub held: usize,
    /// How long a request may take to come, and how long its response to leave.
    pub patience: Duration,
}

/// What comes next.
#[derive(Drop)]
pub enum Next {
    /// A connection to be answered.
    Arrival(Arrival),
    /// One that couldn't be accepted, or that the system couldn't be asked for.
    Nobody,
    /// A response didn't leave: its peer ended the connection, or didn't take it in time.
    Lost(PeerAddress),
}

/// A room for connections.
#[derive(Drop)]
pub struct Room<'q, Q> {
    alloc: Global,
    timer: &'q Q,
    limits: Limits,
    poll: Poll,
    events: Events,
    entrances: Entrances,
    places: Vec<Option<Peer<PeerStream>>>,
}

// How many milliseconds lie between two times; 2^64 - 1 where they are more.
fn millis_between(from: Duration, to: Duration) -> u64
    ensures { result ≡ millis_between from to }
{
    u64::try_from(to.saturating_sub(from).as_millis()).unwrap_or(u64::MAX)
}

// The sooner of two.
fn sooner(first: Option<Duration>, other: Duration) -> Option<Duration> {
    match first {
        Some(first) if first <= other => Some(first),
        _ => Some(other),
    }
}

impl<'q, Q: Clock> Room<'q, Q> {
    /// A room for the connections of these listeners, whose calls no longer wait.
    pub fn open<N: Net>(
        net: &N,
        alloc: Global,
        listeners: Listeners,
        timer: &'q Q,
        limits: Limits,
    ) -> io::Result<Room<'q, Q>>
        ensures limits { IfOk result (λ room. room.limits ≡ limits) }
        ensures places { IfOk result (λ room. room.places.items ≡ replicate limits.peers None) }
    {
        let poll = Poll::new(net)?;
        let entrances = Entrances::open(listeners, &poll)?;
        Ok(Room {
            alloc,
            timer,
            limits,
            poll,
            events: Events::with_capacity(alloc, MOST_EVENTS)?,
            entrances,
            places: empty_places(alloc, limits.peers)?,
        })
    }

    // The time now; the end of time where the timer can't be read, so that nobody is waited for.
    fn now(&self) -> Duration {
        self.timer.monotonic().unwrap_or(Duration::MAX)
    }

    // Whether more bytes of long requests may be held.
    fn has_room(&self) -> bool {
        let mut held = 0usize;
        for place in &self.places {
            if let Some(peer) = place {
                held = held.saturating_add(peer.asked());
            }
        }
        held < self.limits.held
    }

    // The place of the one whose response leaves for longest, where more bytes than may be are kept
    // of all responses.
    fn oldest_kept(&self) -> Option<usize> {
        let mut kept = 0usize;
        let mut oldest: Option<(usize, Duration)> = None;
        for (place, peer) in self.places.iter().enumerate() {
            let Some(peer) = peer else {
                continue;
            };
            if peer.phase != Phase::Leaving {
                continue;
            }
            kept = kept.saturating_add(peer.kept());
            match oldest {
                Some((_, since)) if since <= peer.since => {}
                _ => oldest = Some((place, peer.since)),
            }
        }
        match oldest {
            Some((place, _)) if self.limits.held < kept => Some(place),
            _ => None,
        }
    }

    // Takes out the one that has waited longest for its turn, if any does.
    #[tactic(auto, using(crate::proofs::Staying::stay_set, crate::proofs::Staying::stay_same, crate::proofs::Staying::slice_get_read_back, crate::proofs::Staying::place_same))]
    fn take_waiting(&mut self) -> Option<Arrival>
        ensures taken { IfSome result (λ arrival. IsTaken arrival.place arrival.peer arrival.end
            self.old.places.items self.new.places.items) }
        ensures first { IfSome result (λ arrival.
            WaitsLongest self.old.places.items arrival.place) }
        ensures stay { IfNone result (AllStay self.old.places.items self.new.places.items) }
        ensures others { self.new ≡ record self.old { places = self.new.places } }
    {
        let place = first_waiting(&self.places)?;
        let at = self.places.get_mut(place)?;
        let (peer, end) = take_at(at)?;
        Some(Arrival { place, peer, end })
    }

    // Takes out one whose response didn't leave, if there is one, and those that are over.
    #[tactic(auto, using(crate::proofs::Staying::stay_set, crate::proofs::Staying::stay_trans, crate::proofs::Staying::stay_same))]
    fn take_lost(&mut self) -> Option<PeerAddress>
        ensures stays { AllStay self.old.places.items self.new.places.items }
        ensures others { self.new ≡ record self.old { places = self.new.places } }
    {
        for at in 0..self.places.len() {
            if let Some(place) = self.places.get_mut(at) {
                if let Some(address) = clear(place) {
                    return Some(address);
                }
            }
        }
        None
    }

    // How long the system may be waited for; None for as long as it takes.
    fn longest_wait(&self, now: Duration) -> Option<Duration> {
        if 0 < self.limits.count && self.entrances.may_accept() && self.free_place().is_some() {
            return Some(Duration::ZERO);
        }
        let has_room = self.has_room();
        let mut longest = None;
        for place in &self.places {
            let Some(peer) = place else {
                continue;
            };
            let Some(limit) = peer.limit(self.limits.patience) else {
                continue;
            };
            let left = limit.saturating_sub(now.saturating_sub(peer.since));
            let wait = if !peer.stirs {
                left
            } else if peer.phase != Phase::Arriving || peer.may_be_read(has_room) {
                Duration::ZERO
            } else {
                left.min(Duration::from_millis(PAUSE_MILLIS))
            };
            longest = sooner(longest, wait);
        }
        longest
    }

    // Asks the system what there is to do, and waits until there is something.
    fn look(&mut self, wait: Option<Duration>) -> io::Result<()>
        ensures limits { self.new.limits ≡ self.old.limits }
        ensures stays { AllStay self.old.places.items self.new.places.items }
    {
        self.poll.poll(&mut self.events, wait)?;
        stir(&self.events, &mut self.entrances, &mut self.places);
        Ok(())
    }

    // Does for each connection what can be done now.
    #[tactic(auto, using(crate::proofs::Staying::stay_set, crate::proofs::Staying::stay_trans, crate::proofs::Staying::stay_same))]
    fn advance<F: Framing>(&mut self, framing: &F, now: Duration)
        ensures stays { AllStay self.old.places.items self.new.places.items }
        ensures others { self.new ≡ record self.old { places = self.new.places } }
    {
        let has_room = self.has_room();
        let patience = self.limits.patience;
        for place in 0..self.places.len() {
            if let Some(at) = self.places.get_mut(place) {
                advance_at(at, framing, has_room, patience, now);
            }
        }
    }

    // The first place with nobody at it.
    fn free_place(&self) -> Option<usize>
        ensures { IfSome result (λ place. slice_get self.now.places.items place ≡ Some None) }
    {
        self.places.iter().position(|place| place.is_none())
    }

    // Where all places are taken, the one that has been idle for longest is waited for no longer.
    #[tactic(auto, using(crate::proofs::Staying::stay_set, crate::proofs::Staying::stay_same))]
    fn make_room(&mut self, now: Duration)
        ensures stays { AllStay self.old.places.items self.new.places.items }
        ensures others { self.new ≡ record self.old { places = self.new.places } }
    {
        let Some(place) = oldest_idle(&self.places) else {
            return;
        };
        if let Some(at) = self.places.get_mut(place) {
            make_way_at(at, now);
        }
    }

    // Accepts one connection at a place, by either door; false where there is none now.
    #[tactic(auto, using(crate::proofs::Staying::stay_free, crate::proofs::Staying::stay_same))]
    fn accept_at(&mut self, place: usize, now: Duration) -> io::Result<bool>
        ensures limits { self.new.limits ≡ self.old.limits }
        ensures stays { slice_get self.old.places.items place ≡ Some None
            → AllStay self.old.places.items self.new.places.items }
    {
        let Some(accepted) = self.entrances.accept()? else {
            return Ok(false);
        };
        let Accepted {
            mut stream,
            address,
            door,
        } = accepted;
        stream.register(&self.poll, Token(place))?;
        if let Some(free) = self.places.get_mut(place) {
            *free = Some(Peer::new(stream, address, door, Vec::new(self.alloc), now));
        }
        Ok(true)
    }

    // Accepts those that can be now, and makes room for the next where there is none.
    #[tactic(auto, using(crate::proofs::Staying::stay_trans, crate::proofs::Staying::stay_same))]
    fn accept(&mut self, now: Duration) -> io::Result<()>
        ensures limits { CountsDown self.old.limits self.new.limits }
        ensures stays { AllStay self.old.places.items self.new.places.items }
    {
        for _ in 0..self.limits.count {
            if !self.entrances.may_accept() {
                return Ok(());
            }
            let Some(place) = self.free_place() else {
                self.make_room(now);
                return Ok(());
            };
            let accepted = self.accept_at(place, now);
            if !matches!(accepted, Ok(false)) {
                self.limits.count = self.limits.count.saturating_sub(1);
            }
            if !accepted? {
                return Ok(());
            }
        }
        Ok(())
    }

    // Waits until something can be done, and does it.
    #[tactic(auto, using(crate::proofs::Staying::stay_trans, crate::proofs::Staying::stay_same))]
    fn turn<F: Framing>(&mut self, framing: &F) -> io::Result<()>
        ensures limits { CountsDown self.old.limits self.new.limits }
        ensures stays { AllStay self.old.places.items self.new.places.items }
    {
        let wait = self.longest_wait(self.now());
        self.look(wait)?;
        let now = self.now();
        self.advance(framing, now);
        self.accept(now)
    }

    /// What comes next: a connection of which no more of its request is read, in the order in which
    /// they came so far; or one that couldn't be accepted. Until then all others are served as far
    /// as they can be.
    #[tactic(auto, using(crate::proofs::Staying::stay_trans, crate::proofs::Staying::stay_same, crate::proofs::Staying::stay_taken, crate::proofs::Staying::free_taken))]
    pub fn next<F: Framing>(&mut self, framing: &F) -> Next
        ensures limits { CountsDown self.old.limits self.new.limits }
        ensures stays { AllStay self.old.places.items (with_next result self.new.places.items) }
        ensures taken { IsNext result self.new.places.items }
    {
        for _ in 0..u64::MAX {
            if let Some(address) = self.take_lost() {
                return Next::Lost(address);
            }
            if let Some(arrival) = self.take_waiting() {
                return Next::Arrival(arrival);
            }
            if self.turn(framing).is_err() {
                return Next::Nobody;
            }
        }
        Next::Nobody
    }

    /// Lets one connection more be accepted in all, for one that doesn't count.
    pub fn admit_one_more(&mut self)
        ensures { self.new.limits.count ≡ min (self.old.limits.count + 1) (2 ^ 64 - 1) }
    {
        self.limits.count = self.limits.count.saturating_add(1);
    }

    /// How many milliseconds ago a connection was accepted.
    pub fn millis_of(&self, arrival: &Arrival) -> u64
        ensures { SomeTimeAfter arrival.now.peer.accepted result }
    {
        millis_between(arrival.peer.accepted, self.now())
    }

    /// Takes back a connection that was answered: what its peer didn't take at once leaves later.
    /// Where too much is kept then, the response that leaves for longest is lost.
    pub fn let_leave(&mut self, arrival: Arrival, kept: Vec<u8>) {
        let Arrival {
            place,
            mut peer,
            ..
        } = arrival;
        let now = self.now();
        peer.let_leave(kept, now);
        if let Some(free) = self.places.get_mut(place) {
            *free = Some(peer);
        }
        let Some(oldest) = self.oldest_kept() else {
            return;
        };
        if let Some(Some(peer)) = self.places.get_mut(oldest) {
            peer.phase = Phase::Lost;
        }
    }

    /// Waits, with nobody more to be answered, until all responses have left. The result is the
    /// next peer whose response couldn't; None where there is no more of them.
    #[tactic(auto, using(crate::proofs::Staying::stay_trans, crate::proofs::Staying::stay_same))]
    pub fn finish<F: Framing>(&mut self, framing: &F) -> Option<PeerAddress>
        ensures closed { self.new.limits ≡ record self.old.limits { count = 0 } }
        ensures stays { AllStay self.old.places.items self.new.places.items }
    {
        self.limits.count = 0;
        for _ in 0..u64::MAX {
            if let Some(address) = self.take_lost() {
                return Some(address);
            }
            if !is_any_leaving(&self.places) || self.turn(framing).is_err() {
                return None;
            }
        }
        None
    }
}
