//! Two connections served, and what is told of them.
use command_line::{Endpoint, MOST_HOSTS};
use commands::{Service, Verbosity, crowd_of, serve_on};
use intake::{Caller, Callers, Listener, Listeners};
use peers::Arrival;
use std::io;
use std::net::TcpListener;
use std::test::Fail;
use store::{Keeper, Moment};

// What was printed of two connections, and what was told of them on standard error.
#[derive(Drop)]
pub(crate) struct Told {
    pub(crate) out: Vec<u8>,
    pub(crate) err: String,
}

// Serves two of these callers, and has each of them told.
pub(crate) fn told_of<L: Callers, K: Keeper>(
    rt: &HostRuntime,
    callers: &mut L,
    service: &Service<'_>,
    book: &mut K,
    moment: Moment,
    has_clock: bool,
) -> Result<Told, Fail> {
    let (mut out, mut err) = (Vec::new(rt.alloc()), Vec::new(rt.alloc()));
    let loud = Verbosity {
        explains: true,
        watches: false,
    };
    let status = serve_on(
        rt,
        callers,
        service,
        book,
        moment,
        has_clock,
        || true,
        loud,
        &mut out,
        &mut err,
    );
    match status {
        Ok(_) => Ok(Told {
            out,
            err: String::from_utf8(err)?,
        }),
        Err(_) => Err("a fault".into()),
    }
}

// A service at a listener's address, of two connections.
pub(crate) fn service_at(listener: &TcpListener, clerks: bool) -> io::Result<Service<'static>> {
    Ok(Service {
        endpoint: Endpoint::Inet(listener.local_addr()?),
        count: Some(2),
        patience: None,
        peers: None,
        clerks,
        hosts: [""; MOST_HOSTS],
        from: None,
        clerks_at: None,
    })
}

// Where a server listens: for everybody, and for clerks alone.
#[derive(Clone, Copy)]
pub(crate) struct ServedAt<'a, 'b> {
    pub(crate) all: &'a TcpListener,
    pub(crate) clerks: Option<&'b TcpListener>,
}

impl ServedAt<'_, '_> {
    // These listeners, for a crowd.
    fn listeners(&self) -> io::Result<Listeners> {
        let second = match self.clerks {
            Some(listener) => Some(Listener::Tcp(listener.try_clone()?)),
            None => None,
        };
        Ok(Listeners {
            first: Listener::Tcp(self.all.try_clone()?),
            second,
        })
    }
}

// Serves two connections, and has each of them told.
pub(crate) fn served<K: Keeper>(
    rt: &HostRuntime,
    at: ServedAt<'_, '_>,
    book: &mut K,
    moment: Moment,
    has_clock: bool,
    clerks: bool,
) -> Result<Told, Fail> {
    let service = service_at(at.all, clerks)?;
    let mut crowd = crowd_of(rt, at.listeners()?, &service)?;
    let told = told_of(rt, &mut crowd, &service, book, moment, has_clock)?;
    if crowd.finish() == 0 {
        Ok(told)
    } else {
        Err("a response is lost".into())
    }
}

// Nobody can be accepted.
#[derive(Drop)]
pub(crate) struct Nobody;

impl Callers for Nobody {
    fn next_caller(&mut self) -> Option<Caller> {
        None
    }

    fn let_leave(&mut self, _arrival: Arrival, _kept: Vec<u8>) {}

    fn millis_of(&self, _arrival: &Arrival) -> u64 {
        0
    }

    fn admit_one_more(&mut self) {}

    fn take_lost(&mut self) -> u32 {
        0
    }
}
