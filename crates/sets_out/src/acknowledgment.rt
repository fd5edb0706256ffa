ghost use Rattle.std.specs.Prelude.{◌≡◌, ◌==◌, ◌++◌, ◌∷◌, [], codes, decimal, flat_map, count_by, is_none, option_map, option_to_list, IfOk, OnOk, OnErr, ◌+◌};
ghost use Rattle.definitions.specs.Lists.{first_of};
ghost use Rattle.definitions.specs.Texts.{ak3_segments, ak4_segments, ak5_segments, ak901, accepted_sets, told_segments, body_997, set_of_segments, text_of};
ghost use Rattle.segments.specs.Extends.{Extends};
ghost use Rattle.sets_out.specs.Appends.{Writes};

use crate::envelopes::{append_se, append_st};
use crate::told::{Rejection, ToldGroup, ToldSet};
use crate::writing::append_segment;
use itoa::Buffer;
use segments::{Delims, ElementFault, SetFault};
use std::alloc::AllocError;

// AK4 of an element in error, if there is one.
fn append_element(
    out: &mut Vec<u8>,
    delims: Delims,
    element: &Option<ElementFault>,
) -> Result<usize, AllocError>
    ensures ok { IfOk result
        (λ n. Writes delims out.old.items out.new.items (ak4_segments element.now) n) }
    ensures kept { Extends out.old.items out.new.items }
{
    match element {
        None => Ok(0),
        Some(element) => {
            let mut place = Buffer::new();
            let place = place.format(element.place).as_bytes();
            let mut code = Buffer::new();
            let code = code.format(element.code).as_bytes();
            append_segment(out, delims, &[b"AK4", place, b"", code])
        }
    }
}

// AK3 of the segment in error, if there is one, and AK4.
fn append_fault(
    out: &mut Vec<u8>,
    delims: Delims,
    fault: &Option<SetFault<'_>>,
) -> Result<usize, AllocError>
    ensures ok { IfOk result
        (λ n. Writes delims out.old.items out.new.items (ak3_segments fault.now) n) }
    ensures kept { Extends out.old.items out.new.items }
{
    match fault {
        None => Ok(0),
        Some(fault) => {
            let mut position = Buffer::new();
            let position = position.format(fault.position).as_bytes();
            let mut code = Buffer::new();
            let code = code.format(fault.code).as_bytes();
            let first = append_segment(out, delims, &[b"AK3", fault.id, position, b"", code])?;
            let others = append_element(out, delims, &fault.element)?;
            Ok(first + others)
        }
    }
}

// AK5, after the segment in error where there is one.
fn append_verdict(
    out: &mut Vec<u8>,
    delims: Delims,
    rejection: &Option<Rejection<'_>>,
) -> Result<usize, AllocError>
    ensures ok { IfOk result
        (λ n. Writes delims out.old.items out.new.items (ak5_segments rejection.now) n) }
    ensures kept { Extends out.old.items out.new.items }
{
    match rejection {
        None => append_segment(out, delims, &[b"AK5", b"A"]),
        Some(rejection) => {
            let mut code = Buffer::new();
            let code = code.format(rejection.code).as_bytes();
            let fault = append_fault(out, delims, &rejection.segment)?;
            let last = append_segment(out, delims, &[b"AK5", b"R", code])?;
            Ok(fault + last)
        }
    }
}

// AK2 to AK5 of a set.
fn append_set(out: &mut Vec<u8>, delims: Delims, set: &ToldSet<'_>) -> Result<usize, AllocError>
    ensures ok { IfOk result
        (λ n. Writes delims out.old.items out.new.items (told_segments set.now) n) }
    ensures kept { Extends out.old.items out.new.items }
{
    let first = append_segment(out, delims, &[b"AK2", set.number, set.control])?;
    let others = append_verdict(out, delims, &set.rejection)?;
    Ok(first + others)
}

// AK2 to AK5 of each set.
fn append_sets(out: &mut Vec<u8>, delims: Delims, sets: &[ToldSet<'_>]) -> Result<usize, AllocError>
    ensures ok { IfOk result
        (λ n. Writes delims out.old.items out.new.items (flat_map told_segments sets.now) n) }
    ensures kept { Extends out.old.items out.new.items }
{
    let mut count = 0;
    for set in sets {
        count += append_set(out, delims, set)?;
    }
    Ok(count)
}

// How many of the sets passed.
fn accepted(sets: &[ToldSet<'_>]) -> usize
    ensures { result ≡ count_by (λ s. is_none s.rejection) sets.now }
{
    sets.iter().filter(|set| set.rejection.is_none()).count()
}

// AK901: A where all sets passed, P where some did, else R.
fn code_of(accepted: usize, received: usize) -> &'static [u8]
    ensures { result.now
        ≡ first_of (codes "P") ((accepted == 0, codes "R") ∷ (accepted == received, codes "A")
        ∷ []) }
{
    if accepted == 0 {
        b"R"
    } else if accepted == received {
        b"A"
    } else {
        b"P"
    }
}

// AK9.
fn append_last(out: &mut Vec<u8>, delims: Delims, told: &ToldGroup<'_>) -> Result<usize, AllocError>
    ensures ok { IfOk result
        (λ n. Writes delims out.old.items out.new.items ((codes "AK9" ∷ ak901 told.now
        ∷ decimal told.now.stated ∷ decimal told.now.received ∷ decimal (accepted_sets told.now)
        ∷ option_to_list (option_map decimal told.now.fault)) ∷ []) n) }
    ensures kept { Extends out.old.items out.new.items }
{
    let passed = accepted(&told.sets);
    let code = code_of(passed, told.received);
    let mut stated = Buffer::new();
    let stated = stated.format(told.stated).as_bytes();
    let mut received = Buffer::new();
    let received = received.format(told.received).as_bytes();
    let mut accepted = Buffer::new();
    let accepted = accepted.format(passed).as_bytes();
    match told.fault {
        None => append_segment(out, delims, &[b"AK9", code, stated, received, accepted]),
        Some(fault) => {
            let mut buffer = Buffer::new();
            let fault = buffer.format(fault).as_bytes();
            append_segment(
                out,
                delims,
                &[b"AK9", code, stated, received, accepted, fault],
            )
        }
    }
}

// AK1 to AK9.
fn append_body(out: &mut Vec<u8>, delims: Delims, told: &ToldGroup<'_>) -> Result<usize, AllocError>
    ensures ok { IfOk result
        (λ n. Writes delims out.old.items out.new.items (body_997 told.now) n) }
    ensures kept { Extends out.old.items out.new.items }
{
    let first = append_segment(out, delims, &[b"AK1", told.function, told.number])?;
    let sets = append_sets(out, delims, &told.sets)?;
    let last = append_last(out, delims, told)?;
    Ok(first + sets + last)
}

// The 997 at a place in its group, or a beginning of it.
pub(crate) fn append_997(
    out: &mut Vec<u8>,
    delims: Delims,
    place: u64,
    told: &ToldGroup<'_>,
) -> Result<usize, AllocError>
    ensures ok { IfOk result
        (λ n. Writes delims out.old.items out.new.items
        (set_of_segments (codes "997") place (body_997 told.now)) n) }
    ensures kept { Extends out.old.items out.new.items }
{
    append_st(out, delims, b"997", place)?;
    let body = append_body(out, delims, told)?;
    append_se(out, delims, body + 2, place)?;
    Ok(body + 2)
}

/// Appends 997 Functional Acknowledgment of a group, from ST to SE; `place` is its place in its own
/// group, from 1, which ST02 and SE02 have in four digits. After an error, AllocError, the vector
/// holds what it held.
pub fn write_997(
    out: &mut Vec<u8>,
    delims: Delims,
    place: u64,
    told: &ToldGroup<'_>,
) -> Result<(), AllocError>
    ensures ok { OnOk result (out.new.items ≡ out.old.items
        ++ text_of delims (set_of_segments (codes "997") place (body_997 told.now))) }
    ensures err { OnErr result (out.new.items ≡ out.old.items) }
{
    let start = out.len();
    match append_997(out, delims, place, told) {
        Ok(_) => Ok(()),
        Err(e) => {
            out.truncate(start);
            Err(e)
        }
    }
}
