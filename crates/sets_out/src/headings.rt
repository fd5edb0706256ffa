ghost use Rattle.std.specs.Prelude.{IfOk, OnOk, OnErr, ◌≡◌, ◌++◌, ◌∷◌, []};
ghost use Rattle.definitions.specs.Cut.{spelled};
ghost use Rattle.segments.specs.Extends.{Extends};
ghost use Rattle.sets_out.specs.Appends.{Writes};
ghost use Rattle.sets_out.specs.Headings.{Heading as Meant, ta1_of};

use crate::writing::append_segment;
use definitions::{NOTE_DIGITS, zero_filled};
use segments::{Delims, write_segment};
use std::alloc::AllocError;
use std::marker::Model;

/// What an answer repeats of the ISA of the interchange that it answers.
#[derive(Drop)]
pub struct Heading<'a> {
    /// ISA05, the sender's qualifier.
    pub qualifier: &'a [u8],
    /// ISA06, the sender's id as it was received, with the spaces that fill it.
    pub id: &'a [u8],
    /// ISA09.
    pub date: &'a [u8],
    /// ISA10.
    pub time: &'a [u8],
    /// ISA13, the control number.
    pub control: &'a [u8],
    /// Whether a TA1 is asked for: ISA14 is 1.
    pub asks: bool,
}

impl<'a> Model for Heading<'a> {
    ghost Value = { Meant };

    ghost view = { λ h. record {
      qualifier = h.qualifier.now;
      id = h.id.now;
      date = h.date.now;
      time = h.time.now;
      control = h.control.now;
      asks = h.asks;
    } };
}

// Appends TA1, or nothing.
pub(crate) fn append_ta1(
    out: &mut Vec<u8>,
    delims: Delims,
    heading: &Heading<'_>,
    note: Option<u16>,
) -> Result<usize, AllocError>
    ensures ok { IfOk result
        (λ n. Writes delims out.old.items out.new.items (ta1_of heading.now note ∷ []) n) }
    ensures kept { Extends out.old.items out.new.items }
{
    let (control, date, time) = (heading.control, heading.date, heading.time);
    match note {
        None => append_segment(out, delims, &[b"TA1", control, date, time, b"A", b"000"]),
        Some(note) => {
            let note = zero_filled::<NOTE_DIGITS>(u64::from(note));
            append_segment(out, delims, &[b"TA1", control, date, time, b"R", &note])
        }
    }
}

/// Appends TA1 Interchange Acknowledgment of a received interchange: accepted, or rejected with a
/// note code (TA105), which is written in three digits. After an error, AllocError, the vector
/// holds what it held.
pub fn write_ta1(
    out: &mut Vec<u8>,
    delims: Delims,
    heading: &Heading<'_>,
    note: Option<u16>,
) -> Result<(), AllocError>
    ensures ok { OnOk result (out.new.items ≡ out.old.items ++ spelled delims
        (ta1_of heading.now note)) }
    ensures err { OnErr result (out.new.items ≡ out.old.items) }
{
    let start = out.len();
    match append_ta1(out, delims, heading, note) {
        Ok(_) => Ok(()),
        Err(e) => {
            out.truncate(start);
            Err(e)
        }
    }
}
