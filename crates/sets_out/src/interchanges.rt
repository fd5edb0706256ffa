ghost use Rattle.std.specs.Prelude.{◌≡◌, ◌++◌, codes, map, OnOk, OnErr, IfOk, Some};
ghost use Rattle.definitions.specs.Texts.{body_997, interchange, sets_of_segments};
ghost use Rattle.segments.specs.Extends.{Extends};
ghost use Rattle.sets_out.specs.Appends.{Writes};
ghost use Rattle.sets_out.specs.Interchanges.{acknowledged, answers_group, between, groups_for, is_silence, whole_answer, answer_text, refusal_text, interchange_text};

use crate::acknowledgment::append_997;
use crate::documents::append_document;
use crate::envelopes::{
    Envelope, Side, append_ge, append_gs, append_iea, append_isa, append_isa_to,
};
use crate::headings::{Heading, append_ta1};
use crate::sheets::Document;
use crate::told::ToldGroup;
use segments::{Delims, Moment, Who};
use std::alloc::AllocError;

/// The answer to an interchange.
#[derive(Drop)]
pub struct Answer<'a> {
    /// The delimiters that were received.
    pub delims: Delims,
    /// What stands in the envelopes.
    pub envelope: Envelope,
    /// What is repeated of the received ISA; a TA1 stands in the answer where it asks for one.
    pub heading: &'a Heading<'a>,
    /// What each group is told that isn't one of acknowledgments, in the order received: a 997 for
    /// each, in one group.
    pub told: &'a [ToldGroup<'a>],
}

/// The interchange that refuses one: a TA1 with a note code, under control number 000000000, to
/// ISA05 and ISA06 as they were received.
#[derive(Drop)]
pub struct NoteAnswer<'a> {
    /// The delimiters that were received.
    pub delims: Delims,
    /// Who refuses.
    pub warehouse: Who,
    /// When.
    pub moment: Moment,
    /// What is repeated of the received ISA.
    pub heading: &'a Heading<'a>,
    /// The note code, TA105.
    pub note: u16,
}

/// An interchange that goes out.
#[derive(Clone, Copy)]
pub enum Outgoing<'a> {
    /// An answer; it is empty where no TA1 is asked for and no group is told anything.
    Answered(&'a Answer<'a>),
    /// A refusal.
    Refused(&'a NoteAnswer<'a>),
    /// A document, with what stands in its envelopes.
    Documented(&'a Envelope, &'a Document<'a>),
}

// Appends a 997 for each, from place 1 on, or a beginning of them.
fn append_997s(
    out: &mut Vec<u8>,
    delims: Delims,
    told: &[ToldGroup<'_>],
) -> Result<usize, AllocError>
    ensures ok { IfOk result
        (λ n. Writes delims out.old.items out.new.items
        (sets_of_segments (codes "997") (map body_997 told.now)) n) }
    ensures kept { Extends out.old.items out.new.items }
{
    let mut count = 0;
    for (index, group) in told.iter().enumerate() {
        count += append_997(out, delims, index as u64 + 1, group)?;
    }
    Ok(count)
}

// Appends TA1 where it is asked for, or nothing.
fn append_requested(
    out: &mut Vec<u8>,
    delims: Delims,
    heading: &Heading<'_>,
) -> Result<usize, AllocError>
    ensures ok { IfOk result
        (λ n. Writes delims out.old.items out.new.items (acknowledged heading.now) n) }
    ensures kept { Extends out.old.items out.new.items }
{
    if heading.asks {
        append_ta1(out, delims, heading, None)
    } else {
        Ok(0)
    }
}

// Appends the group of acknowledgments, if there are any, or a beginning of it.
fn append_group(out: &mut Vec<u8>, answer: &Answer<'_>) -> Result<usize, AllocError>
    ensures ok { IfOk result (λ n. Writes answer.now.delims out.old.items out.new.items
        (answers_group answer.now.envelope.warehouse answer.now.envelope.depositor
        answer.now.envelope.moment answer.now.envelope.number answer.now.told.now) n) }
    ensures kept { Extends out.old.items out.new.items }
{
    if answer.told.is_empty() {
        return Ok(0);
    }
    let first = append_gs(out, answer.delims, &answer.envelope, b"FA")?;
    let sets = append_997s(out, answer.delims, answer.told)?;
    let last = append_ge(
        out,
        answer.delims,
        answer.told.len(),
        answer.envelope.number,
    )?;
    Ok(first + sets + last)
}

// Appends what stands between ISA and IEA, or a beginning of that.
fn append_between(out: &mut Vec<u8>, answer: &Answer<'_>) -> Result<usize, AllocError>
    ensures ok { IfOk result (λ n. Writes answer.now.delims out.old.items out.new.items
        (between answer.now.envelope.warehouse answer.now.envelope.depositor
        answer.now.envelope.moment answer.now.envelope.number answer.now.heading.now
        answer.now.told.now) n) }
    ensures kept { Extends out.old.items out.new.items }
{
    let acknowledged = append_requested(out, answer.delims, answer.heading)?;
    let group = append_group(out, answer)?;
    Ok(acknowledged + group)
}

// Whether an answer is empty.
fn is_silent(answer: &Answer<'_>) -> bool
    ensures { result ≡ is_silence answer.now }
{
    let heading = answer.heading;
    !heading.asks && answer.told.is_empty()
}

// How many groups acknowledge.
fn groups(told: &[ToldGroup<'_>]) -> u8
    ensures { result ≡ groups_for told.now }
{
    if told.is_empty() { 0 } else { 1 }
}

// Appends an answer that isn't empty, or a beginning of it.
fn append_whole(out: &mut Vec<u8>, answer: &Answer<'_>) -> Result<(), AllocError>
    ensures ok { OnOk result (out.new.items ≡ out.old.items ++ whole_answer answer.now) }
    ensures kept { Extends out.old.items out.new.items }
{
    let (delims, envelope) = (answer.delims, &answer.envelope);
    append_isa_to(out, delims, envelope)?;
    append_between(out, answer)?;
    append_iea(out, delims, groups(answer.told), envelope.number)?;
    Ok(())
}

// Appends an answer, or a beginning of it.
fn append_answer(out: &mut Vec<u8>, answer: &Answer<'_>) -> Result<(), AllocError>
    ensures ok { OnOk result (out.new.items ≡ out.old.items ++ answer_text answer.now) }
    ensures kept { Extends out.old.items out.new.items }
{
    if is_silent(answer) {
        Ok(())
    } else {
        append_whole(out, answer)
    }
}

// The sender of an interchange as its ISA names it.
fn sender<'a>(heading: &Heading<'a>) -> Side<'a>
    ensures { result ≡ record { qualifier = heading.now.qualifier; id = heading.now.id } }
{
    Side {
        qualifier: heading.qualifier,
        id: heading.id,
        fill: b"",
    }
}

// Appends a refusal, or a beginning of it.
fn append_refusal(out: &mut Vec<u8>, refusal: &NoteAnswer<'_>) -> Result<(), AllocError>
    ensures ok { OnOk result (out.new.items ≡ out.old.items ++ refusal_text refusal.now) }
    ensures kept { Extends out.old.items out.new.items }
{
    append_isa(
        out,
        refusal.delims,
        &refusal.warehouse,
        &sender(refusal.heading),
        &refusal.moment,
        0,
    )?;
    append_ta1(out, refusal.delims, refusal.heading, Some(refusal.note))?;
    append_iea(out, refusal.delims, 0, 0)?;
    Ok(())
}

fn append_interchange(out: &mut Vec<u8>, interchange: &Outgoing<'_>) -> Result<(), AllocError>
    ensures ok { OnOk result (out.new.items ≡ out.old.items ++ interchange_text interchange.now) }
    ensures kept { Extends out.old.items out.new.items }
{
    match *interchange {
        Outgoing::Answered(answer) => append_answer(out, answer),
        Outgoing::Refused(refusal) => append_refusal(out, refusal),
        Outgoing::Documented(envelope, document) => append_document(out, envelope, document),
    }
}

/// Appends an interchange, from ISA to IEA. After an error, AllocError, the vector holds what it
/// held.
pub fn write_interchange(out: &mut Vec<u8>, interchange: &Outgoing<'_>) -> Result<(), AllocError>
    ensures ok { OnOk result (out.new.items ≡ out.old.items ++ interchange_text interchange.now) }
    ensures err { OnErr result (out.new.items ≡ out.old.items) }
{
    let start = out.len();
    match append_interchange(out, interchange) {
        Ok(()) => Ok(()),
        Err(e) => {
            out.truncate(start);
            Err(e)
        }
    }
}
