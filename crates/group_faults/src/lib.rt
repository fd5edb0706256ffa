//! What is wrong with a functional group, and with the envelopes of its sets: control numbers and
//! counts that don't agree, ends that are missing.
#![tactic(auto)]

ghost use Rattle.std.specs.Prelude.{◌≡◌, ℕ, List, ◌<◌, ◌&&◌, not, codes, bytes_eq, is_none, find, option_to_list, IfOk};
ghost use Rattle.std.specs.List.{list_any};
ghost use Rattle.definitions.specs.Bytes.{is_one_of};
ghost use Rattle.definitions.specs.Cut as cuts;
ghost use Rattle.definitions.specs.Structure as meant;
ghost use Rattle.definitions.specs.Words.{set_kinds, kind_function, kind_number};

use envelope::{Group, Set, has_value, last_element, same};
use segments::Segment;
use std::alloc::{AllocError, Global};

// Whether groups of the functional identifier GS01 are read.
fn is_read(function: &[u8]) -> bool
    ensures { result ≡ not (is_none (find (λ k. bytes_eq (kind_function k) function.now)
        set_kinds)) }
{
    matches!(function, b"OW" | b"AR" | b"FA")
}

// Whether the set number ST01 belongs to the functional identifier GS01.
fn belongs(function: &[u8], number: &[u8]) -> bool
    ensures { result ≡ list_any
        (λ k. bytes_eq (kind_number k) number.now) (option_to_list (find
        (λ k. bytes_eq (kind_function k) function.now) set_kinds)) }
{
    match function {
        b"OW" => same(b"940", number),
        b"AR" => same(b"943", number),
        b"FA" => same(b"997", number),
        _ => false,
    }
}

// Whether GS names the version that is read.
fn has_version(head: &Segment<'_>) -> bool
    ensures { result ≡ (bytes_eq (cuts.element head.now.elements 7) (codes "X") && bytes_eq
        (cuts.element head.now.elements 8) (codes "004010")) }
{
    same(head.element(7), b"X") && same(head.element(8), b"004010")
}

// Whether one of the sets has the control number.
fn stands_in(sets: &[Set<'_>], number: &[u8]) -> bool
    ensures { result ≡ list_any (λ s. bytes_eq number.now (meant.control_of s.set)) sets.now }
{
    sets.iter().any(|s| same(number, s.head_element(2)))
}

/// The code of a group's fault (AK905), the first that holds of: 1 GS01 isn't OW, AR or FA; 2 GS07
/// isn't X or GS08 isn't 004010; 3 it has no GE; 4 GE02 isn't GS06; 5 GE01 isn't the number of its
/// sets.
pub fn group_fault(group: &Group<'_>) -> Option<u8>
    ensures { result ≡ meant.group_fault group.now.group }
{
    let head = group.head();
    if !is_read(head.element(1)) {
        return Some(1);
    }
    if !has_version(head) {
        return Some(2);
    }
    let Some(tail) = group.tail() else {
        return Some(3);
    };
    if !same(tail.element(2), head.element(6)) {
        return Some(4);
    }
    if !has_value(tail.element(1), group.sets().len()) {
        return Some(5);
    }
    None
}

// The code of the fault of a set's envelope in a group; it is told whether the set's number stood
// before.
fn set_fault(group: &Group<'_>, set: &Set<'_>, is_repeated: bool) -> Option<u8>
    ensures { (earlier : List (List ℕ))
        → is_repeated ≡ is_one_of earlier (meant.control_of set.now.set)
        → result ≡ meant.envelope_fault (meant.kind_of group.now.group) earlier set.now.set }
{
    let segments = set.segments();
    if !set.is_closed() {
        return Some(2);
    }
    if !belongs(group.head().element(1), set.head_element(1)) {
        return Some(1);
    }
    if is_repeated {
        return Some(7);
    }
    if !same(last_element(segments, 2), set.head_element(2)) {
        return Some(3);
    }
    if !has_value(last_element(segments, 1), segments.len()) {
        return Some(4);
    }
    None
}

/// The codes of the faults of the envelopes of a group's sets (AK502), in the sets' order, each the
/// first that holds of: 2 the set has no SE; 1 ST01 isn't the set that belongs to GS01; 7 ST02
/// stood before in this group; 3 SE02 isn't ST02; 4 SE01 isn't the number of its segments. The
/// error is want of memory. `structure` doesn't give them, since a halted interchange needs none.
pub fn set_faults(alloc: Global, group: &Group<'_>) -> Result<Vec<Option<u8>>, AllocError>
    ensures { IfOk result (λ v. v.items ≡ meant.envelope_faults group.now.group) }
{
    let sets = group.sets();
    let mut faults = Vec::new(alloc);
    for (index, set) in sets.iter().enumerate() {
        let is_repeated = stands_in(&sets[..index], set.head_element(2));
        faults.push(set_fault(group, set, is_repeated))?;
    }
    Ok(faults)
}
