//! The places of a room, and who is at each.
ghost use Rattle.std.specs.Prelude.{◌≡◌, IfOk, IfNone, IfSome, None, Some, replicate};
ghost use Rattle.peers.specs.Turns.{AllStay, PlaceStays, WaitsLongest, first_of};

use crate::entrances::Entrances;
use crate::gathered::End;
use crate::listener::PeerAddress;
use crate::peer::{Framing, Peer, Phase};
use crate::streams::PeerStream;
use mio::{Events, Token};
use std::alloc::Global;
use std::io;
use std::time::Duration;

/// So many places, with nobody at them.
pub(crate) fn empty_places(alloc: Global, count: u16) -> io::Result<Vec<Option<Peer<PeerStream>>>>
    ensures { IfOk result (λ places. places.items ≡ replicate count None) }
{
    let mut places = Vec::with_capacity(alloc, usize::from(count))?;
    for _ in 0..count {
        places.push(None)?;
    }
    Ok(places)
}

/// The system may have something to do for the one at this place.
#[tactic(auto, using(crate::proofs::Staying::place_follows, crate::proofs::Staying::place_same))]
pub(crate) fn stir_at(at: &mut Option<Peer<PeerStream>>)
    ensures { PlaceStays at.old at.new }
{
    if let Some(peer) = at {
        peer.stir();
    }
}

/// The one at this place makes way for another, where it is idle.
#[tactic(auto, using(crate::proofs::Staying::place_follows, crate::proofs::Staying::place_same))]
pub(crate) fn make_way_at(at: &mut Option<Peer<PeerStream>>, now: Duration)
    ensures { PlaceStays at.old at.new }
{
    if let Some(peer) = at {
        peer.make_way(now);
    }
}

/// Does for the one at this place what can be done now.
#[tactic(auto, using(crate::proofs::Staying::place_follows, crate::proofs::Staying::place_same))]
pub(crate) fn advance_at<F: Framing>(
    at: &mut Option<Peer<PeerStream>>,
    framing: &F,
    has_room: bool,
    patience: Duration,
    now: Duration,
)
    ensures { PlaceStays at.old at.new }
{
    if let Some(peer) = at {
        peer.advance(framing, has_room, patience, now);
    }
}

/// Takes out the one at this place where it waits for its turn.
#[tactic(auto, using(crate::proofs::Staying::place_same))]
pub(crate) fn take_at(at: &mut Option<Peer<PeerStream>>) -> Option<(Peer<PeerStream>, End)>
    ensures taken { IfSome result (λ (peer, end). (at.old ≡ Some peer) × (at.new ≡ None)
        × (peer.phase ≡ Phase.Waiting end)) }
    ensures same { IfNone result (at.new ≡ at.old) }
{
    let Some(peer) = at else {
        return None;
    };
    let Phase::Waiting(end) = peer.phase else {
        return None;
    };
    let peer = at.take()?;
    Some((peer, end))
}

/// What the system told of: those connections and listeners may have something to do.
#[tactic(auto, using(crate::proofs::Staying::stay_set, crate::proofs::Staying::stay_trans, crate::proofs::Staying::stay_same))]
pub(crate) fn stir(
    events: &Events,
    entrances: &mut Entrances,
    places: &mut Vec<Option<Peer<PeerStream>>>,
)
    ensures { AllStay places.old.items places.new.items }
{
    for event in events.iter() {
        let Token(place) = event.token();
        if entrances.is_told_of(place) {
            continue;
        }
        if let Some(at) = places.get_mut(place) {
            stir_at(at);
        }
    }
}

/// Takes out the one at this place where it is over or lost: its address where it is lost.
#[tactic(auto, using(crate::proofs::Staying::place_gone, crate::proofs::Staying::place_same))]
pub(crate) fn clear(at: &mut Option<Peer<PeerStream>>) -> Option<PeerAddress>
    ensures { PlaceStays at.old at.new }
{
    let (address, phase) = match at {
        Some(peer) => (peer.address, peer.phase),
        None => return None,
    };
    match phase {
        Phase::Lost => {
            *at = None;
            Some(address)
        }
        Phase::Over => {
            *at = None;
            None
        }
        _ => None,
    }
}

// The first of those that wait: the first so far, or the one at this place.
fn first_of(
    first: Option<(usize, Duration)>,
    place: usize,
    at: &Option<Peer<PeerStream>>,
) -> Option<(usize, Duration)>
    ensures { result ≡ first_of first place at.now }
{
    let Some(peer) = at else {
        return first;
    };
    if !matches!(peer.phase, Phase::Waiting(_)) {
        return first;
    }
    match first {
        Some((_, since)) if since.as_nanos() <= peer.since.as_nanos() => first,
        _ => Some((place, peer.since)),
    }
}

/// The place of the one that has waited longest for its turn.
#[tactic(auto, using(crate::proofs::Firsts::first_init))]
pub(crate) fn first_waiting(places: &[Option<Peer<PeerStream>>]) -> Option<usize>
    ensures { IfSome result (λ place. WaitsLongest places.now place) }
{
    let mut first: Option<(usize, Duration)> = None;
    for (place, peer) in places.iter().enumerate() {
        first = first_of(first, place, peer);
    }
    match first {
        Some((place, _)) => Some(place),
        None => None,
    }
}

/// The place of the one that has been idle for longest.
pub(crate) fn oldest_idle(places: &[Option<Peer<PeerStream>>]) -> Option<usize> {
    let mut oldest: Option<(usize, Duration)> = None;
    for (place, peer) in places.iter().enumerate() {
        let Some(peer) = peer else {
            continue;
        };
        if !peer.is_idle() {
            continue;
        }
        match oldest {
            Some((_, since)) if since <= peer.since => {}
            _ => oldest = Some((place, peer.since)),
        }
    }
    oldest.map(|(place, _)| place)
}

/// Whether a response leaves, or what comes after it is dropped.
pub(crate) fn is_any_leaving(places: &[Option<Peer<PeerStream>>]) -> bool {
    places.iter().any(|place| match place {
        Some(peer) => matches!(peer.phase, Phase::Leaving | Phase::Closing),
        None => false,
    })
}
