//! What a server tells of the connections that it had.
ghost use Rattle.std.specs.Prelude.{OnOk};
ghost use Rattle.std.specs.Io.KnownBytes.{Appends};
ghost use Rattle.definitions.specs.Header.{who_text};
ghost use Rattle.intake.specs.Lines.{sender_text};

use http::StatusCode;
use peers::{Door, PeerAddress};
use std::io;
use store::{Fault, Moment, Who};

/// The method and the path of a request, as they stand in its head.
#[derive(Drop)]
pub struct RequestLine {
    /// The method (RFC 9110, 9.1).
    pub method: String,
    /// The path: the whole target of the request (RFC 9112, 3.2), its query too where it has one.
    pub path: String,
}

/// What became of a request.
#[derive(Drop)]
pub struct Served {
    /// The status that was answered; Device (44) where nothing was, or not all of it.
    pub outcome: Result<StatusCode, Fault>,
    /// Its method and its path. None where no head was read, and where there was no memory for a
    /// copy.
    pub line: Option<RequestLine>,
    /// The depositor of the interchange that was handed in: the sender that its ISA05 and ISA06
    /// name, enrolled or not. None of any other request, where the interchange can't be read or
    /// these two can be no partner, and where there was no memory to read it.
    pub sender: Option<Who>,
    /// How many bytes of the response were written, its head among them.
    pub bytes: u64,
    /// Whether it asked for the health of the book, and was let in (`Access`).
    pub is_health: bool,
}

/// Writes who sent an interchange, as a line tells it: `QQ-ID`, or `-` where nobody is told. An
/// error is the writer's, which then may have a beginning of it.
pub fn write_sender<W: io::Write>(out: &mut W, sender: &Option<Who>) -> io::Result<()>
    ensures { OnOk result (Appends (W.contents out.old) (W.contents out.new)
        (sender_text sender.now)) }
{
    match sender {
        Some(who) => out.write_all(who.text()),
        None => out.write_all(b"-"),
    }
}

/// A connection that was accepted, or couldn't be.
#[derive(Drop)]
pub struct Connection {
    /// The moment at which its request was handed in.
    pub moment: Moment,
    /// Where its peer is. None where it couldn't be accepted.
    pub peer: Option<PeerAddress>,
    /// By which of the server's doors it came: the first where there is one alone, and where it
    /// couldn't be accepted.
    pub door: Door,
    /// What became of its request.
    pub served: Served,
    /// The milliseconds from its acceptance to the end of its response. None where it couldn't be
    /// accepted, and where the timer couldn't be read.
    pub millis: Option<u64>,
    /// How many responses of connections before this one weren't taken whole by their peers, since
    /// the last connection was told.
    pub lost: u32,
}
