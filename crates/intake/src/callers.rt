//! Who calls a server: one connection after the other, or many at once.
use peers::Arrival;
use std::net::{SocketAddr, TcpListener, TcpStream};

/// A connection that is to be served.
#[derive(Drop)]
pub enum Caller {
    /// One that is read and written while its request is served.
    Direct(TcpStream, SocketAddr),
    /// One whose request was gathered before.
    Gathered(Arrival),
}

/// Where the connections of a server come from.
pub trait Callers {
    /// The next connection to be served; None where one couldn't be accepted.
    fn next_caller(&mut self) -> Option<Caller>;

    /// Takes back a connection that was answered: what is kept of its response leaves later.
    fn let_leave(&mut self, arrival: Arrival, kept: Vec<u8>);

    /// How many milliseconds ago a connection was accepted.
    fn millis_of(&self, arrival: &Arrival) -> u64;

    /// Lets one connection more be accepted in all, for one that doesn't count.
    fn admit_one_more(&mut self);

    /// How many responses didn't leave whole since this was asked last.
    fn take_lost(&mut self) -> u32;
}

/// One connection after the other: each is waited for until it is served.
#[derive(Drop)]
pub(crate) struct OneByOne<'l> {
    pub listener: &'l TcpListener,
}

impl Callers for OneByOne<'_> {
    fn next_caller(&mut self) -> Option<Caller> {
        match self.listener.accept() {
            Ok((stream, peer)) => Some(Caller::Direct(stream, peer)),
            Err(_) => None,
        }
    }

    // Nothing was gathered of these.
    fn let_leave(&mut self, _arrival: Arrival, _kept: Vec<u8>) {}

    fn millis_of(&self, _arrival: &Arrival) -> u64 {
        0
    }

    // As many are accepted as are asked for.
    fn admit_one_more(&mut self) {}

    fn take_lost(&mut self) -> u32 {
        0
    }
}
