//! The texts that answer an interchange.
ghost use Rattle.std.specs.Prelude.{◌≡◌, IfOk};
ghost use Rattle.definitions.specs.Header.{delims_of};
ghost use Rattle.definitions.specs.Texts.{refusal_interchange};
ghost use Rattle.sets_out.specs.Headings.{heading_of};
ghost use Rattle.sets_out.specs.Interchanges.{answer_of};

use envelope::Isa;
use segments::{Moment, Who};
use sets_out::{Answer, Envelope, Heading, NoteAnswer, Outgoing, ToldGroup, write_interchange};
use std::alloc::{AllocError, Global};

// What an answer repeats of a header.
fn heading<'a>(header: &Isa<'a>) -> Heading<'a>
    ensures { result ≡ heading_of header.now }
{
    Heading {
        qualifier: header.element(5),
        id: header.element(6),
        date: header.element(9),
        time: header.element(10),
        control: header.element(13),
        asks: header.element(14) == b"1".as_slice(),
    }
}

/// The answer to an interchange that is accepted, with what its groups are told. Want of memory is
/// the one error.
pub fn answer(
    alloc: Global,
    envelope: Envelope,
    header: &Isa<'_>,
    groups: &[ToldGroup<'_>],
) -> Result<Vec<u8>, AllocError>
    ensures { IfOk result
        (λ text. text.items ≡ answer_of (delims_of header.now) envelope.warehouse envelope.depositor
        envelope.moment envelope.number (heading_of header.now) groups.now) }
{
    let heading = heading(header);
    let answer = Answer {
        delims: header.delims(),
        envelope,
        heading: &heading,
        told: groups,
    };
    let interchange = Outgoing::Answered(&answer);
    let mut text = Vec::new(alloc);
    write_interchange(&mut text, &interchange)?;
    Ok(text)
}

/// The interchange that refuses one with a note code (TA105). Want of memory is the one error.
pub(crate) fn refusal(
    alloc: Global,
    warehouse: Who,
    header: &Isa<'_>,
    moment: Moment,
    note: u8,
) -> Result<Vec<u8>, AllocError>
    ensures { IfOk result
        (λ text. text.items ≡ refusal_interchange warehouse header.now moment note) }
{
    let heading = heading(header);
    let refusal = NoteAnswer {
        delims: header.delims(),
        warehouse,
        moment,
        heading: &heading,
        note: u16::from(note),
    };
    let interchange = Outgoing::Refused(&refusal);
    let mut text = Vec::new(alloc);
    write_interchange(&mut text, &interchange)?;
    Ok(text)
}
