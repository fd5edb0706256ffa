ghost use Rattle.std.specs.Prelude.{◌≡◌, ◌⊎◌, ℕ, ◌+◌, ◌-◌, ◌^◌, ◌<◌, ◌≤◌, if◌then◌else◌, Some, None, true, false, OnOk, OnErr, IfErr, IfSome, IsErrOf};
ghost use Rattle.store.specs.Standing.{GoesOn};
ghost use Rattle.intake.specs.Admitting.{access_by as meant_by, of_partners};
ghost use Rattle.peers.specs.declared.entrances.Door.TheVariants.{First};
ghost use Rattle.peers.specs.declared.listener.PeerAddress.TheVariants.{Inet};
ghost use Rattle.intake.specs.Connections.{HasTold, HasCounted, IsEnough, address_of, door_of, IsConnection, IsNotAccepted, IsConnectionOutcome, IsServed, IsServedOn, IsServedOf};

use crate::audience::{Access, OF_PARTNERS, access_by};
use crate::callers::{Caller, Callers, OneByOne};
use crate::patience::{Patience, Patient, StoppedClock};
use crate::served::{Connection, Served};
use crate::serving::serve_telling;
use counted_io::Gauge;
use peers::{Arrival, Door, PeerAddress};
use std::alloc::Global;
use std::io::Read;
use std::net::{Shutdown, SocketAddr, TcpListener, TcpStream};
use std::rt::Clock;
use std::time::{Duration, Instant};
use store::{Fault, Keeper, Moment};

// How many seconds a peer is waited for in a call, where nobody says otherwise.
const CALL_SECONDS: u64 = 30;

// How many seconds what a peer still sends after its response is read for, and how often: some 2
// MiB.
const REST_SECONDS: u64 = 1;

const REST_READS: u32 = 128;

// Reads what a peer still sends after its response. A connection that is closed with bytes unread
// is reset, and then the peer may lose the response (RFC 9112, 9.6). What can't be read is left.
fn read_the_rest<Q: Clock>(stream: &TcpStream, timer: &Q) {
    if stream.shutdown(Shutdown::Write).is_err() {
        return;
    }
    let mut rest = Patient::new(stream, timer, Duration::from_secs(REST_SECONDS));
    let mut buf = [0u8; 16384];
    for _ in 0..REST_READS {
        if !matches!(rest.read(&mut buf), Ok(1..)) {
            break;
        }
    }
}

// The milliseconds since then, if the timer can be read.
fn millis_since<Q: Clock>(timer: &Q, begun: Option<Instant>) -> Option<u64> {
    let took = begun?.elapsed(timer).ok()?;
    Some(u64::try_from(took.as_millis()).unwrap_or(u64::MAX))
}

// Serves the request of a connection, which came by the first door. What its peer still sends after
// the response is no part of the time that it took.
fn serve_on<K: Keeper, Q: Clock>(
    alloc: Global,
    stream: &TcpStream,
    peer: SocketAddr,
    keeper: &mut K,
    access: Access<'_>,
    moment: Moment,
    patience: &Patience<'_, Q>,
) -> Connection
    ensures moment { result.moment ≡ moment }
    ensures peer { result.peer ≡ Some (Inet peer) }
    ensures door { result.door ≡ First }
    ensures outcome { IsConnectionOutcome result }
    ensures served { IsServedOn (meant_by access.entry result.door) (K.standing keeper.old)
        (K.standing keeper.new) result }
    ensures goes { GoesOn (K.standing keeper.old) (K.standing keeper.new) }
{
    let begun = Instant::now(patience.timer).ok();
    let mut reader = Gauge::new(Patient::new(stream, patience.timer, patience.limit));
    let mut writer = Gauge::new(Patient::new(stream, patience.timer, patience.limit));
    let served = serve_telling(alloc, &mut reader, &mut writer, keeper, access, moment);
    let millis = millis_since(patience.timer, begun);
    if served.outcome.is_ok() {
        read_the_rest(stream, patience.timer);
    }
    Connection {
        moment,
        peer: Some(PeerAddress::Inet(peer)),
        door: Door::First,
        served,
        millis,
        lost: 0,
    }
}

// Answers a connection whose request was gathered: by what its own peer sent, and by nothing else,
// and as those are answered who come by its door.
fn answer_gathered<K: Keeper, L: Callers>(
    alloc: Global,
    callers: &mut L,
    arrival: Arrival,
    keeper: &mut K,
    access: Access<'_>,
    moment: Moment,
) -> Connection
    ensures moment { result.moment ≡ moment }
    ensures peer { result.peer ≡ Some arrival.peer.address }
    ensures door { result.door ≡ arrival.peer.door }
    ensures outcome { IsConnectionOutcome result }
    ensures served { IsServedOf (meant_by access.entry result.door) (K.standing keeper.old)
        (K.standing keeper.new) arrival.peer.bytes.items result }
    ensures goes { GoesOn (K.standing keeper.old) (K.standing keeper.new) }
{
    let peer = arrival.address();
    let door = arrival.door();
    let access = access_by(access, door);
    let mut reader = Gauge::new(arrival.reader());
    let mut writer = Gauge::new(arrival.writer(alloc));
    let served = serve_telling(alloc, &mut reader, &mut writer, keeper, access, moment);
    let kept = writer.into_inner().into_kept();
    let millis = Some(callers.millis_of(&arrival));
    if served.outcome.is_ok() {
        callers.let_leave(arrival, kept);
    }
    Connection {
        moment,
        peer: Some(peer),
        door,
        served,
        millis,
        lost: callers.take_lost(),
    }
}

// A connection that couldn't be accepted.
fn not_accepted(moment: Moment) -> Connection
    ensures moment { result.moment ≡ moment }
    ensures peer { result.peer ≡ None }
    ensures outcome { IsConnectionOutcome result }
    ensures served { IsNotAccepted result }
{
    Connection {
        moment,
        peer: None,
        door: Door::First,
        served: Served {
            outcome: Err(Fault::Device),
            line: None,
            sender: None,
            bytes: 0,
            is_health: false,
        },
        millis: None,
        lost: 0,
    }
}

// Serves a connection, if it was accepted.
#[tactic(auto, using(crate::proofs::Told::accepted, crate::proofs::Told::not_accepted, store::proofs::Changes::unchanged_refl,))]
fn serve_next<K: Keeper, L: Callers, Q: Clock>(
    alloc: Global,
    callers: &mut L,
    accepted: Option<Caller>,
    keeper: &mut K,
    access: Access<'_>,
    moment: Moment,
    patience: &Patience<'_, Q>,
) -> Connection
    ensures moment { result.moment ≡ moment }
    ensures peer { IfSome accepted (λ caller. result.peer ≡ Some (address_of caller)) }
    ensures door { IfSome accepted (λ caller. result.door ≡ door_of caller) }
    ensures nobody { accepted ≡ None → result.peer ≡ None }
    ensures outcome { IsConnectionOutcome result }
    ensures served { IsConnection (meant_by access.entry result.door) (K.standing keeper.old)
        (K.standing keeper.new) result }
    ensures goes { GoesOn (K.standing keeper.old) (K.standing keeper.new) }
{
    match accepted {
        Some(Caller::Direct(stream, peer)) => {
            serve_on(alloc, &stream, peer, keeper, access, moment, patience)
        }
        Some(Caller::Gathered(arrival)) => {
            answer_gathered(alloc, callers, arrival, keeper, access, moment)
        }
        None => not_accepted(moment),
    }
}

// Counts a connection, unless it asked for the health of the book: then one more may come.
fn count_next<L: Callers>(callers: &mut L, connection: &Connection, counted: u64) -> u64
    requires { counted < 2 ^ 64 - 1 }

    ensures { result ≡ if connection.now.served.is_health then counted else counted + 1 }
{
    if connection.served.is_health {
        callers.admit_one_more();
        return counted;
    }
    counted + 1
}

/// Serves that many connections to those who have access, one after the other, each at the moment
/// that `clock` gives once it is its turn, and hands each to `told` with what became of it: the
/// status that was answered, or Device (44). A request or a response that takes longer than the
/// patience is Device too. An accept that fails is Device at the moment that `clock` gives then,
/// and counts as a connection. One that asks for the health of the book is served and told, and
/// doesn't count; after 2^64 - 1 in all, more than any server lives to tell, no more are served.
///
/// A fault ends it, and no more connections are served then. It is Device (44) where `admits`,
/// which is asked before anything of a connection is read, says no; that connection is closed
/// without an answer, and isn't told. It is Reopen (42) where the book has to be opened again. Else
/// `told` is handed exactly that many that count.
///
/// So the book goes from connection to connection, of the very ones that are told, in their order:
/// each is as `IsServed` says of its book before, which needn't be opened again, and after, and is
/// answered as those are who have access by its door.
/// Whatever ends it, the book is as the last of them left it.
pub fn serve_within<
    L: Callers,
    K: Keeper,
    C: FnMut() -> Moment,
    T: FnMut(Connection),
    A: FnMut() -> bool,
    Q: Clock,
>(
    alloc: Global,
    callers: &mut L,
    count: u64,
    keeper: &mut K,
    access: Access<'_>,
    mut clock: C,
    mut told: T,
    mut admits: A,
    patience: &Patience<'_, Q>,
) -> Result<(), Fault>
    requires clock { C.IsAlwaysCallable clock }
    requires told { T.IsAlwaysCallable told }
    requires admits { A.IsAlwaysCallable admits }

    ensures goes { GoesOn (K.standing keeper.old) (K.standing keeper.new) }
    ensures fault { IfErr result (λ fault. (fault ≡ Fault.Reopen) ⊎ (fault ≡ Fault.Device)) }
    ensures device { IsErrOf result Fault.Device → (x : A) × (y : A) × A.step x false y }
    ensures opened { OnOk result ((K.standing keeper.new).shut ≡ false) }
    ensures shut { IsErrOf result Fault.Reopen → (K.standing keeper.new).shut ≡ true }
    ensures served { OnOk result ((total : ℕ) × (n : ℕ) × IsEnough total n count
        × ((after : C) × (last : T) × HasCounted
        (λ book c left. IsServed access.entry (K.standing book) (K.standing left) c)
        C.step (λ p x q. T.step p x tt q) keeper.old keeper.new clock after told last total n)) }
    ensures ended { OnErr result ((total : ℕ) × (n : ℕ) × (n ≤ count)
        × ((after : C) × (last : T) × HasCounted
        (λ book c left. IsServed access.entry (K.standing book) (K.standing left) c)
        C.step (λ p x q. T.step p x tt q) keeper.old keeper.new clock after told last total n)) }
{
    let mut counted = 0u64;
    for _ in 0..u64::MAX {
        if keeper.must_reopen() {
            return Err(Fault::Reopen);
        }
        if counted == count {
            return Ok(());
        }
        let accepted = callers.next_caller();
        if !admits() {
            return Err(Fault::Device);
        }
        let moment = clock();
        let connection = serve_next(alloc, callers, accepted, keeper, access, moment, patience);
        counted = count_next(callers, &connection, counted);
        told(connection);
    }
    if keeper.must_reopen() {
        return Err(Fault::Reopen);
    }
    Ok(())
}

/// The same for partners alone, where each connection is admitted, and nobody measures its time:
/// each of its reads and writes waits 30 seconds, and 0 milliseconds are told.
pub fn serve_count<K: Keeper, C: FnMut() -> Moment, T: FnMut(Connection)>(
    alloc: Global,
    listener: &TcpListener,
    count: u16,
    keeper: &mut K,
    clock: C,
    told: T,
) -> Result<(), Fault>
    requires clock { C.IsAlwaysCallable clock }
    requires told { T.IsAlwaysCallable told }

    ensures goes { GoesOn (K.standing keeper.old) (K.standing keeper.new) }
    ensures fault { IfErr result (λ fault. fault ≡ Fault.Reopen) }
    ensures opened { OnOk result ((K.standing keeper.new).shut ≡ false) }
    ensures shut { OnErr result ((K.standing keeper.new).shut ≡ true) }
    ensures served { OnOk result ((after : C) × (last : T)
        × HasTold (λ book c left. IsServed of_partners (K.standing book) (K.standing left) c)
        C.step (λ p x q. T.step p x tt q) keeper.old keeper.new clock after told last count) }
    ensures ended { OnErr result ((n : ℕ) × (n ≤ count) × ((after : C) × (last : T)
        × HasTold (λ book c left. IsServed of_partners (K.standing book) (K.standing left) c)
        C.step (λ p x q. T.step p x tt q) keeper.old keeper.new clock after told last n)) }
{
    let patience = Patience {
        timer: &StoppedClock,
        limit: Duration::from_secs(CALL_SECONDS),
    };
    serve_within(
        alloc,
        &mut OneByOne { listener },
        count as u64,
        keeper,
        OF_PARTNERS,
        clock,
        told,
        || true,
        &patience,
    )
}
