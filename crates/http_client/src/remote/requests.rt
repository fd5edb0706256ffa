ghost use Rattle.std.specs.Prelude.{◌≡◌, ◌++◌, length, decimal, codes, OnOk};
ghost use Rattle.std.specs.Io.KnownBytes.{Appends};
ghost use Rattle.counted_io.specs.Gauges.{joined};
ghost use Rattle.http_client.specs.Requests.{opening, length_field, closing, request_bytes};

use itoa::Buffer;
use std::io::{self, Write};

/// The method of a request (RFC 9110, 9.3).
#[derive(Clone, Copy, PartialEq, Eq)]
pub enum Verb {
    /// Asks for what is at the path.
    Get,
    /// Hands in the body.
    Post,
}

/// A request.
#[derive(Clone, Copy)]
pub struct Request<'a> {
    /// Its method.
    pub verb: Verb,
    /// What it is about, from `/` on, in visible bytes: `path_of` makes one.
    pub path: &'a str,
    /// What a POST hands in. A GET has none, and leaves it out.
    pub body: &'a [u8],
}

// The pieces that a GET is written by.
fn get_pieces<'a>(path: &'a str, host: &'a str) -> [&'a [u8]; 5]
    ensures { joined result ≡ opening (codes "GET") path.now host.now ++ closing }
{
    let method: &'a [u8] = b"GET ";
    let path: &'a [u8] = path.as_bytes();
    let version: &'a [u8] = b" HTTP/1.1\r\nHost: ";
    let host: &'a [u8] = host.as_bytes();
    let end: &'a [u8] = b"\r\nConnection: close\r\n\r\n";
    [method, path, version, host, end]
}

// The pieces that a POST is written by, given the digits of its body's length.
fn post_pieces<'a>(path: &'a str, host: &'a str, digits: &'a [u8], body: &'a [u8]) -> [&'a [u8]; 8]
    ensures { joined result ≡ opening (codes "POST") path.now host.now ++ length_field digits.now
        ++ closing ++ body.now }
{
    let method: &'a [u8] = b"POST ";
    let path: &'a [u8] = path.as_bytes();
    let version: &'a [u8] = b" HTTP/1.1\r\nHost: ";
    let host: &'a [u8] = host.as_bytes();
    let length: &'a [u8] = b"\r\nContent-Length: ";
    let end: &'a [u8] = b"\r\nConnection: close\r\n\r\n";
    [method, path, version, host, length, digits, end, body]
}

// Writes these pieces one after the other.
fn write_pieces<W: Write>(writer: &mut W, pieces: &[&[u8]]) -> io::Result<()>
    ensures { OnOk result (Appends (W.contents writer.old) (W.contents writer.new)
        (joined pieces.now)) }
{
    for piece in pieces {
        writer.write_all(piece)?;
    }
    Ok(())
}

/// Writes a request to the host of that name. A server reads it as it is meant where the path and
/// the host have visible bytes alone (`laws::a_server_reads_what_is_asked`). The error is the
/// writer's; a beginning of the request may have been written then.
pub fn write_request<W: Write>(writer: &mut W, host: &str, request: &Request<'_>) -> io::Result<()>
    ensures { OnOk result (Appends (W.contents writer.old) (W.contents writer.new)
        (request_bytes request.now.verb request.now.path.now host.now request.now.body.now)) }
{
    match request.verb {
        Verb::Get => write_pieces(writer, &get_pieces(request.path, host)),
        Verb::Post => {
            let mut buffer = Buffer::new();
            let digits = buffer.format(request.body.len()).as_bytes();
            write_pieces(
                writer,
                &post_pieces(request.path, host, digits, request.body),
            )
        }
    }
}
