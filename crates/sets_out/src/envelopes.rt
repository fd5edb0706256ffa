ghost use Rattle.std.specs.Prelude.{◌≡◌, ◌+◌, ◌-◌, ◌++◌, ◌∷◌, [], codes, decimal, replicate, flat_map, length, OnOk, IfOk};
ghost use Rattle.definitions.specs.Bytes.{padded, zero_filled};
ghost use Rattle.definitions.specs.declared.widths.TheConstants as widths;
ghost use Rattle.definitions.specs.Limits.{most_partner};
ghost use Rattle.definitions.specs.Cut.{joined};
ghost use Rattle.definitions.specs.Moments.{date6, date8, time4};
ghost use Rattle.definitions.specs.Texts.{Receiver, receiver_of, isa_segment};
ghost use Rattle.segments.specs.Extends.{Extends};
ghost use Rattle.sets_out.specs.Appends.{Writes};

use crate::writing::append_segment;
use definitions::{BLANK_BYTES, CONTROL_DIGITS, LEAST_SET_CONTROL, MOST_PARTNER, zero_filled};
use itoa::Buffer;
use segments::{Delims, Moment, Who, append_parts, write_segment};
use std::alloc::AllocError;
use std::marker::Model;

/// What stands in the envelopes of an entry's text.
#[derive(Clone, Copy)]
pub struct Envelope {
    /// Who sends: the warehouse.
    pub warehouse: Who,
    /// Who receives: the depositor.
    pub depositor: Who,
    /// The entry's moment.
    pub moment: Moment,
    /// The entry's number, 1 to 999,999: the control number of the interchange and of its group.
    pub number: u32,
}

// As many spaces as an id of a partner may have bytes.
const SPACES: &[u8] = b"               ";

// One side of an interchange, as two elements of ISA name it: the id with the spaces that fill it.
#[derive(Drop)]
pub(crate) struct Side<'a> {
    pub(crate) qualifier: &'a [u8],
    pub(crate) id: &'a [u8],
    pub(crate) fill: &'static [u8],
}

impl<'a> Model for Side<'a> {
    ghost Value = { Receiver };

    ghost view = { λ p. record { qualifier = p.qualifier.now; id = p.id.now ++ p.fill.now } };
}

// The spaces that an id of this length lacks of its width in ISA.
fn fill(length: usize) -> &'static [u8]
    ensures { result.now ≡ replicate (most_partner - length) 32 }
{
    &SPACES[length.min(MOST_PARTNER)..]
}

// A partner, with its id filled to that width.
pub(crate) fn filled(who: &Who) -> Side<'_>
    ensures { result ≡ receiver_of who.now }
{
    Side {
        qualifier: who.qualifier(),
        id: who.id(),
        fill: fill(who.id().len()),
    }
}

// Appends the two elements of a side, or a beginning of them.
fn append_party(out: &mut Vec<u8>, separator: u8, party: &Side<'_>) -> Result<(), AllocError>
    ensures ok { OnOk result (out.new.items ≡ out.old.items ++ flat_map
        (λ e. separator ∷ e) (party.now.qualifier ∷ party.now.id ∷ [])) }
    ensures kept { Extends out.old.items out.new.items }
{
    append_parts(out, separator, &[party.qualifier, party.id])?;
    out.extend_from_slice(party.fill)?;
    Ok(())
}

// Appends ISA and its elements before the sides, or a beginning of that.
fn append_opening(out: &mut Vec<u8>, separator: u8) -> Result<(), AllocError>
    ensures ok { OnOk result (out.new.items ≡ out.old.items ++ joined separator
        (codes "ISA" ∷ codes "00" ∷ padded 10 [] ∷ codes "00" ∷ padded 10 [] ∷ [])) }
    ensures kept { Extends out.old.items out.new.items }
{
    let ten = &SPACES[..BLANK_BYTES];
    out.extend_from_slice(b"ISA")?;
    append_parts(out, separator, &[b"00", ten, b"00", ten])?;
    Ok(())
}

// Appends the elements after the sides and the terminator of ISA, or nothing: a segment whose first
// element is empty, since the segment goes on after the sides.
fn append_closing(
    out: &mut Vec<u8>,
    delims: Delims,
    moment: &Moment,
    number: u32,
) -> Result<(), AllocError>
    ensures ok { OnOk result (out.new.items ≡ out.old.items ++ (flat_map
        (λ e. delims.separator ∷ e) (date6 moment.now ∷ time4 moment.now ∷ codes "U" ∷ codes "00401"
        ∷ zero_filled widths.CONTROL_DIGITS number ∷ codes "0" ∷ codes "P" ∷ (delims.component ∷ []) ∷ [])
        ++ delims.terminator ∷ [])) }
    ensures kept { Extends out.old.items out.new.items }
{
    let date = moment.date();
    let time = moment.time();
    let control = zero_filled::<CONTROL_DIGITS>(u64::from(number));
    let component = [delims.component()];
    write_segment(
        out,
        delims,
        &[
            b"",
            &date[2..],
            &time,
            b"U",
            b"00401",
            &control,
            b"0",
            b"P",
            &component,
        ],
    )
}

// Appends ISA, or a beginning of it.
pub(crate) fn append_isa(
    out: &mut Vec<u8>,
    delims: Delims,
    warehouse: &Who,
    to: &Side<'_>,
    moment: &Moment,
    number: u32,
) -> Result<usize, AllocError>
    ensures ok { IfOk result (λ n. Writes delims out.old.items out.new.items (isa_segment delims
        warehouse.now to.now moment.now number ∷ []) n) }
    ensures kept { Extends out.old.items out.new.items }
{
    append_opening(out, delims.separator())?;
    append_party(out, delims.separator(), &filled(warehouse))?;
    append_party(out, delims.separator(), to)?;
    append_closing(out, delims, moment, number)?;
    Ok(1)
}

// Appends ISA to the depositor of an envelope, or a beginning of it.
pub(crate) fn append_isa_to(
    out: &mut Vec<u8>,
    delims: Delims,
    envelope: &Envelope,
) -> Result<usize, AllocError>
    ensures ok { IfOk result (λ n. Writes delims out.old.items out.new.items (isa_segment delims
        envelope.now.warehouse (receiver_of envelope.now.depositor) envelope.now.moment
        envelope.now.number ∷ []) n) }
    ensures kept { Extends out.old.items out.new.items }
{
    append_isa(
        out,
        delims,
        &envelope.warehouse,
        &filled(&envelope.depositor),
        &envelope.moment,
        envelope.number,
    )
}

// Appends IEA, or nothing.
pub(crate) fn append_iea(
    out: &mut Vec<u8>,
    delims: Delims,
    groups: u8,
    number: u32,
) -> Result<usize, AllocError>
    ensures ok { IfOk result (λ n. Writes delims out.old.items out.new.items
        ((codes "IEA" ∷ decimal groups ∷ zero_filled widths.CONTROL_DIGITS number ∷ []) ∷ []) n) }
    ensures kept { Extends out.old.items out.new.items }
{
    let mut buffer = Buffer::new();
    let groups = buffer.format(groups).as_bytes();
    let control = zero_filled::<CONTROL_DIGITS>(u64::from(number));
    append_segment(out, delims, &[b"IEA", groups, &control])
}

// Appends GS with the functional identifier, or nothing.
pub(crate) fn append_gs(
    out: &mut Vec<u8>,
    delims: Delims,
    envelope: &Envelope,
    function: &[u8],
) -> Result<usize, AllocError>
    ensures ok { IfOk result (λ n. Writes delims out.old.items out.new.items
        ((codes "GS" ∷ function.now ∷ envelope.now.warehouse.id ∷ envelope.now.depositor.id ∷ date8
        envelope.now.moment ∷ time4 envelope.now.moment
        ∷ decimal envelope.now.number ∷ codes "X" ∷ codes "004010" ∷ []) ∷ []) n) }
    ensures kept { Extends out.old.items out.new.items }
{
    let date = envelope.moment.date();
    let time = envelope.moment.time();
    let mut buffer = Buffer::new();
    let number = buffer.format(envelope.number).as_bytes();
    let (from, to) = (envelope.warehouse.id(), envelope.depositor.id());
    append_segment(
        out,
        delims,
        &[
            b"GS", function, from, to, &date, &time, number, b"X", b"004010",
        ],
    )
}

// Appends GE with the number of sets, or nothing.
pub(crate) fn append_ge(
    out: &mut Vec<u8>,
    delims: Delims,
    sets: usize,
    number: u32,
) -> Result<usize, AllocError>
    ensures ok { IfOk result (λ n. Writes delims out.old.items out.new.items
        ((codes "GE" ∷ decimal sets ∷ decimal number ∷ []) ∷ []) n) }
    ensures kept { Extends out.old.items out.new.items }
{
    let mut buffer = Buffer::new();
    let sets = buffer.format(sets).as_bytes();
    let mut buffer = Buffer::new();
    let number = buffer.format(number).as_bytes();
    append_segment(out, delims, &[b"GE", sets, number])
}

// Appends ST with the set's place in its group, or nothing.
pub(crate) fn append_st(
    out: &mut Vec<u8>,
    delims: Delims,
    number: &[u8],
    place: u64,
) -> Result<usize, AllocError>
    ensures ok { IfOk result (λ n. Writes delims out.old.items out.new.items
        ((codes "ST" ∷ number.now ∷ zero_filled widths.LEAST_SET_CONTROL place ∷ []) ∷ []) n) }
    ensures kept { Extends out.old.items out.new.items }
{
    let control = zero_filled::<LEAST_SET_CONTROL>(place);
    append_segment(out, delims, &[b"ST", number, &control])
}

// Appends SE with the number of segments, ST and SE among them, or nothing.
pub(crate) fn append_se(
    out: &mut Vec<u8>,
    delims: Delims,
    segments: usize,
    place: u64,
) -> Result<usize, AllocError>
    ensures ok { IfOk result (λ n. Writes delims out.old.items out.new.items
        ((codes "SE" ∷ decimal segments ∷ zero_filled widths.LEAST_SET_CONTROL place ∷ [])
        ∷ []) n) }
    ensures kept { Extends out.old.items out.new.items }
{
    let mut buffer = Buffer::new();
    let segments = buffer.format(segments).as_bytes();
    let control = zero_filled::<LEAST_SET_CONTROL>(place);
    append_segment(out, delims, &[b"SE", segments, &control])
}
