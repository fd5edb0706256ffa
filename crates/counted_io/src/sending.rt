ghost use Rattle.std.specs.Prelude.{◌≡◌, ◌<◌, ◌^◌, length, OnOk, OnErr, IfOk, IfErr};
ghost use Rattle.std.specs.Io.KnownBytes.{Appends};
ghost use Rattle.counted_io.specs.Gauges.{Grew, AppendsBeginning, joined};

use crate::gauge::Gauge;
use std::io::Write;

/// The writer gave an error, or took 0 bytes.
#[derive(Drop)]
pub struct Unwritten {
    /// How many bytes it had taken before.
    pub sent: u64,
}

// Writes all of the bytes, or a beginning of them. No call is made again, an interrupted one
// neither.
fn send<W: Write>(writer: &mut Gauge<W>, bytes: &[u8]) -> Result<(), Unwritten>
    ensures whole { OnOk result
        (Appends (W.contents writer.old.inner) (W.contents writer.new.inner) bytes.now) }
    ensures beginning { IfErr result (λ stop.
        AppendsBeginning (W.contents writer.old.inner) (W.contents writer.new.inner) bytes.now
        stop.sent) }
    ensures count { OnErr result (Grew writer.old.errors writer.new.errors) }
    ensures quiet { OnOk result (writer.new.errors ≡ writer.old.errors) }
{
    let mut sent = 0;
    while sent < bytes.len() {
        match writer.write(&bytes[sent..]) {
            Ok(0) => return Err(Unwritten { sent: sent as u64 }),
            Ok(n) => sent += n,
            Err(_) => return Err(Unwritten { sent: sent as u64 }),
        }
    }
    Ok(())
}

/// Writes these pieces one after the other, or a beginning of them. The result is how many bytes
/// were written. No call is made again, an interrupted one neither.
pub fn send_pieces<W: Write>(writer: &mut Gauge<W>, pieces: &[&[u8]]) -> Result<u64, Unwritten>
    requires { length (joined pieces.now) < 2 ^ 64 }

    ensures whole { OnOk result
        (Appends (W.contents writer.old.inner) (W.contents writer.new.inner) (joined pieces.now)) }
    ensures counted { IfOk result (λ sent. sent ≡ length (joined pieces.now)) }
    ensures beginning { IfErr result (λ stop.
        AppendsBeginning (W.contents writer.old.inner) (W.contents writer.new.inner)
        (joined pieces.now) stop.sent) }
    ensures count { OnErr result (Grew writer.old.errors writer.new.errors) }
    ensures quiet { OnOk result (writer.new.errors ≡ writer.old.errors) }
{
    let mut sent = 0u64;
    for piece in pieces {
        match send(writer, piece) {
            Ok(()) => sent += piece.len() as u64,
            Err(stop) => return Err(Unwritten {
                sent: sent + stop.sent,
            }),
        }
    }
    Ok(sent)
}
