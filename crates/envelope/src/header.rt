ghost use Rattle.std.specs.Prelude.{◌≡◌, ◌+◌, ℕ, ◌<◌, ◌≤◌, List, length, slice_get, unwrap_or, if◌then◌else◌, Some, None, false};
ghost use Rattle.definitions.specs.declared.widths.TheConstants.{ISA_BYTES};
ghost use Rattle.definitions.specs.Halt.{is_addressed_to as names};
ghost use Rattle.definitions.specs.Header as meant;
ghost use Rattle.envelope.specs.Legibility.{width};

use crate::bytes::{is_padded, same, stripped};
use definitions::ISA_PLACES;
use segments::{Delims, Who};
use std::marker::Model;

/// The text is no interchange that can be read: it has under 106 or over 1,048,576 bytes, doesn't
/// begin with ISA, names delimiters that it may not, or has a byte where that byte may not stand.
#[derive(Drop)]
pub struct Unreadable;

/// The header of a text that can be read: ISA, of 106 bytes, whose elements stand at fixed offsets.
#[derive(Drop)]
pub struct Isa<'a> {
    pub(crate) text: &'a [u8],
    pub(crate) delims: Delims,
}

impl<'a> Model for Isa<'a> {
    ghost Value = { List ℕ };

    ghost view = { λ i. i.text.now };

    ghost invariant = { λ i. (ISA_BYTES ≤ length i.text.now)
        × (meant.is_unreadable i.text.now ≡ false)
        × (i.delims ≡ meant.delims_of i.text.now) };
}

// Where an element of ISA begins, and how wide it is.
fn place(n: usize) -> (usize, usize)
    requires { n < 17 }

    ensures value { result ≡ unwrap_or (slice_get meant.places n) (0, 0) }
    ensures within { result.0 + result.1 ≤ 105 }
{
    ISA_PLACES[n]
}

// The element of ISA at a place; 0 is the id.
pub(crate) fn element(text: &[u8], n: usize) -> &[u8]
    requires long { ISA_BYTES ≤ length text.now }
    requires there { n < 17 }

    ensures value { result.now ≡ meant.isa text.now n }
    ensures wide { length result.now ≡ width n }
{
    let (start, width) = place(n);
    &text[start..start + width]
}

impl<'a> Isa<'a> {
    /// The element at a place, as received, of ISA01 to ISA16; 0 is the id. ISA05 and ISA06 are the
    /// sender's qualifier and id, ISA13 is the control number.
    pub fn element(&self, n: usize) -> &'a [u8]
        requires { n < 17 }

        ensures value { result.now ≡ meant.isa self.now n }
        ensures wide { length result.now ≡ width n }
    {
        element(self.text, n)
    }

    /// The delimiters that the text uses.
    pub fn delims(&self) -> Delims
        ensures value { result ≡ meant.delims_of self.now }
        ensures readable { meant.is_unreadable self.now ≡ false }
    {
        self.delims
    }

    /// The sender, by ISA05 and by ISA06 without the spaces at its end; None where they can't name
    /// a partner.
    pub fn sender(&self) -> Option<Who>
        ensures { result ≡ (if meant.is_partner (meant.sender self.now) then Some
            (meant.sender self.now) else None) }
    {
        Who::of(self.element(5), stripped(self.element(6)))
    }

    /// Whether ISA07 and ISA08 are the partner's, byte for byte.
    pub fn is_addressed_to(&self, who: &Who) -> bool
        ensures { result ≡ names who.now self.now }
    {
        same(self.element(7), who.qualifier()) && is_padded(self.element(8), who.id())
    }
}
