//! Where a server listens.
use crate::causes::about_endpoint;
use crate::told::CommandError;
use command_line::{Endpoint, Service};
use intake::{Listener, Listeners};
use std::fs::{self, Permissions};
use std::io::{self, Read, Write};
use std::net::TcpListener;
use std::os::unix::fs::{FileTypeExt, PermissionsExt};
use std::os::unix::net::{UnixListener, UnixStream};
use std::time::Duration;

// Its owner and its group may call, and nobody else. The group is the one that its folder gives.
const SOCKET_MODE: u32 = 0o660;

// For how many seconds an answer of another server is waited for.
const PATIENCE: u64 = 1;

// More than the answer has.
const ANSWER_BYTES: usize = 512;

// Asks a server whether it is well, which it neither counts nor tells, and hears its answer. One
// who only called would be counted.
fn greet(mut stream: UnixStream) -> io::Result<()> {
    stream.set_read_timeout(Some(Duration::from_secs(PATIENCE)))?;
    stream.write_all(b"GET /health HTTP/1.1\r\n\r\n")?;
    let mut answer = [0; ANSWER_BYTES];
    for _ in 0..ANSWER_BYTES {
        if stream.read(&mut answer)? == 0 {
            break;
        }
    }
    Ok(())
}

// Whether a socket lies at a path at which nobody listens any more.
fn is_left(rt: &HostRuntime, path: &str) -> io::Result<bool> {
    match fs::symlink_metadata(rt, path) {
        Ok(found) if found.file_type().is_socket() => match UnixStream::connect(rt, path) {
            // Whoever listens there listens, whatever is answered.
            Ok(stream) => {
                let _ = greet(stream);
                Ok(false)
            }
            Err(error) => Ok(error.kind() == io::ErrorKind::ConnectionRefused),
        },
        Ok(_) => Ok(false),
        Err(error) if error.kind() == io::ErrorKind::NotFound => Ok(false),
        Err(error) => Err(error),
    }
}

// A socket of the file system. One that an earlier server left, as where it was killed, is removed;
// where anything else lies at the path, or another server listens there, the error says so.
fn listen_at(rt: &HostRuntime, path: &str) -> io::Result<UnixListener> {
    if is_left(rt, path)? {
        fs::remove_file(rt, path)?;
    }
    let listener = UnixListener::bind(rt, path)?;
    fs::set_permissions(rt, path, Permissions::from_mode(SOCKET_MODE))?;
    Ok(listener)
}

// Listens at an endpoint. A socket in the file system gets the mode 0660. The error is the
// system's, also where something lies at the path that no earlier server left.
fn listen(rt: &HostRuntime, endpoint: &Endpoint<'_>) -> io::Result<Listener> {
    match endpoint {
        Endpoint::Inet(address) => Ok(Listener::Tcp(TcpListener::bind(rt, *address)?)),
        Endpoint::Unix(path) => Ok(Listener::Unix(listen_at(rt, *path)?)),
    }
}

// Removes the socket of an endpoint that is listened at no more. What can't be removed is left: the
// next server removes it.
fn remove_socket(rt: &HostRuntime, endpoint: &Endpoint<'_>) {
    if let Endpoint::Unix(path) = endpoint {
        let _ = fs::remove_file(rt, *path);
    }
}

/// Listens where a service says. Where it can't listen at one of its endpoints, the fault is about
/// that one, and it listens at none.
pub(crate) fn listen_for(
    rt: &HostRuntime,
    service: &Service<'_>,
) -> Result<Listeners, CommandError> {
    let first = match listen(rt, &service.endpoint) {
        Ok(listener) => listener,
        Err(error) => return Err(about_endpoint(rt.alloc(), &service.endpoint, error)),
    };
    let Some(clerks_at) = &service.clerks_at else {
        return Ok(Listeners {
            first,
            second: None,
        });
    };
    match listen(rt, clerks_at) {
        Ok(listener) => Ok(Listeners {
            first,
            second: Some(listener),
        }),
        Err(error) => {
            remove_socket(rt, &service.endpoint);
            Err(about_endpoint(rt.alloc(), clerks_at, error))
        }
    }
}

/// Removes the sockets of a service that listens no more.
pub(crate) fn remove_sockets(rt: &HostRuntime, service: &Service<'_>) {
    remove_socket(rt, &service.endpoint);
    if let Some(clerks_at) = &service.clerks_at {
        remove_socket(rt, clerks_at);
    }
}

// Says who is heard at an endpoint, also where the line left the port to the system. What can't be
// said is left out: it is no part of what is served.
fn tell_endpoint<E: io::Write>(
    err: &mut E,
    who: &str,
    listener: &Listener,
    endpoint: &Endpoint<'_>,
) {
    let _ = match (listener, endpoint) {
        (Listener::Tcp(listener), _) => match listener.local_addr() {
            Ok(address) => write!(err, "{who} at {address}\n"),
            Err(error) => Err(error),
        },
        (Listener::Unix(_), Endpoint::Unix(path)) => write!(err, "{who} at unix:{path}\n"),
        (Listener::Unix(_), Endpoint::Inet(_)) => Ok(()),
    };
}

/// Says where a service listens, and where clerks do.
pub(crate) fn tell_endpoints<E: io::Write>(
    err: &mut E,
    listeners: &Listeners,
    service: &Service<'_>,
) {
    tell_endpoint(err, "listening", &listeners.first, &service.endpoint);
    let Some(listener) = &listeners.second else {
        return;
    };
    if let Some(clerks_at) = &service.clerks_at {
        tell_endpoint(err, "clerks", listener, clerks_at);
    }
}
