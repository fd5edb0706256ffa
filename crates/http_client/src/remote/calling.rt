ghost use Rattle.std.specs.Prelude.{IfOk, None};
ghost use Rattle.http_client.specs.Answers.{IsAnswer};

use crate::remote::answers::{ServerAnswer, Unanswered, read_answer};
use crate::remote::requests::{Request, write_request};
use command_line::Endpoint;
use std::alloc::Global;
use std::io::{self, Read, Write};
use std::net::{Net, OpenStream, SocketAddr, TcpStream};
use std::os::unix::net::UnixStream;
use std::time::Duration;

// A connection to the server, each call of which waits so long at most. What is written goes out at
// once, so that no piece of a request waits for the server to acknowledge the one before it.
fn connect<N: Net>(net: &N, server: &SocketAddr, patience: Duration) -> io::Result<N::Stream> {
    let stream = TcpStream::connect_timeout(net, server, patience)?;
    stream.set_read_timeout(Some(patience))?;
    stream.set_write_timeout(Some(patience))?;
    stream.set_nodelay(true)?;
    Ok(stream)
}

// The same by a socket in the file system.
fn connect_at<N: Net>(net: &N, path: &str, patience: Duration) -> io::Result<UnixStream> {
    let stream = UnixStream::connect(net, path)?;
    stream.set_read_timeout(Some(patience))?;
    stream.set_write_timeout(Some(patience))?;
    Ok(stream)
}

// The name by which a server is called whose socket is in the file system.
const HERE: &str = "localhost";

// Writes a request to the host of that name, and reads what it answers.
fn exchange<T: Read + Write>(
    alloc: Global,
    stream: &mut T,
    host: &str,
    request: &Request<'_>,
) -> Result<ServerAnswer, Unanswered>
    ensures { IfOk result (IsAnswer None) }
{
    if write_request(stream, host, request).is_err() {
        return Err(Unanswered::Device);
    }
    read_answer(alloc, stream)
}

/// Asks a server, over a connection of its own, and reads what it answers. Device where no
/// connection can be made, where the connection, a write or a read takes longer than the patience
/// or fails, and where what came is no whole response. The server may have done what was asked for
/// even then.
pub fn call<N: Net + AllocGlobal>(
    rt: &N,
    server: &Endpoint<'_>,
    request: &Request<'_>,
    patience: Duration,
) -> Result<ServerAnswer, Unanswered>
    ensures { IfOk result (IsAnswer None) }
{
    let alloc = rt.alloc();
    let address = match server {
        Endpoint::Inet(address) => address,
        Endpoint::Unix(path) => {
            let Ok(mut stream) = connect_at(rt, *path, patience) else {
                return Err(Unanswered::Device);
            };
            return exchange(alloc, &mut stream, HERE, request);
        }
    };
    let Ok(host) = format!(in alloc; "{address}") else {
        return Err(Unanswered::OutOfMemory);
    };
    let Ok(mut stream) = connect(rt, address, patience) else {
        return Err(Unanswered::Device);
    };
    exchange(alloc, &mut stream, host.as_str(), request)
}
