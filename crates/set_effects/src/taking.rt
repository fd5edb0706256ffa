//! What the sets of a group, and the groups of an interchange, come to one after another, by the
//! rules of their entry.
ghost use Rattle.std.specs.Prelude.{◌≡◌, ◌≤◌, ◌<◌, ◌+◌, ◌++◌, [], ◌∷◌, true, Some, None, IfOk, OnOk, length, sum_by};
ghost use Rattle.std.specs.List.{AllByRecursion};
ghost use Rattle.definitions.specs.Limits.{most_sets};
ghost use Rattle.definitions.specs.Cut.{element};
ghost use Rattle.definitions.specs.Structure as meant;
ghost use Rattle.definitions.specs.Texts.{stated_sets};
ghost use Rattle.stock.specs.Pages.{IsSound};
ghost use Rattle.stock.specs.Puts.{put};
ghost use Rattle.set_effects.specs.Judging.{AreTaken, IsGroupTaken, AreGroupsTaken, IsSmall, is_answered, told_with, told_if};

use crate::judging::{Verdict, judged};
use definitions::Rules;
use envelope::{Group, Interchange, Set};
use group_faults::{group_fault, set_faults};
use segments::number;
use sets_out::{Rejection, ToldGroup, ToldSet};
use std::alloc::{AllocError, Global};
use stock::{Change, Page, Step};
use tables::SetKind;

/// A set that was taken: the page after it, the rows that changed, and what is told of it.
#[derive(Drop)]
struct TakenSet<'a> {
    page: Page,
    changes: Vec<Change>,
    told: ToldSet<'a>,
}

/// Sets that were taken, one after another.
#[derive(Drop)]
struct TakenSets<'a> {
    page: Page,
    changes: Vec<Change>,
    told: Vec<ToldSet<'a>>,
}

// What is told of a set.
fn told<'a>(set: &Set<'a>, rejection: Option<Rejection<'a>>) -> ToldSet<'a>
    ensures { result ≡ record {
      number = element (meant.head_of set.now.set) 1;
      control = meant.control_of set.now.set;
      rejection = rejection.entry;
    } }
{
    ToldSet {
        number: set.head_element(1),
        control: set.head_element(2),
        rejection,
    }
}

// A set that is rejected, over the page as it is.
fn rejected<'a>(alloc: Global, page: Page, set: &Set<'a>, rejection: Rejection<'a>) -> TakenSet<'a>
    ensures page { result.page ≡ page }
    ensures changes { result.changes.items ≡ [] }
    ensures told { result.told ≡ record {
      number = element (meant.head_of set.now.set) 1;
      control = meant.control_of set.now.set;
      rejection = Some rejection.entry;
    } }
{
    TakenSet {
        page,
        changes: Vec::new(alloc),
        told: told(set, Some(rejection)),
    }
}

// A set that passed, with what its event changes put into the page.
fn passed<'a>(page: Page, set: &Set<'a>, step: Step) -> Result<TakenSet<'a>, AllocError>
    requires { IsSound (put step.changes.items page) }

    ensures { IfOk result
        (λ t. (t.page ≡ put step.changes.items page) × (t.changes.items ≡ step.changes.items)
        × (t.told ≡ record {
          number = element (meant.head_of set.now.set) 1;
          control = meant.control_of set.now.set;
          rejection = None;
        })) }
{
    Ok(TakenSet {
        page: page.with(&step)?,
        changes: step.changes,
        told: told(set, None),
    })
}

// One set more, with the fault of its envelope if it has one.
fn take_set<'a>(
    alloc: Global,
    page: Page,
    kind: SetKind,
    set: &'a Set<'a>,
    fault: Option<u8>,
    rules: Rules,
) -> Result<TakenSet<'a>, AllocError>
    requires room { page.recent < most_sets }
    requires closed { fault ≡ None → set.now.set.is_closed ≡ true }

    ensures { IfOk result
        (λ t. AreTaken rules set.now.delims (Some kind) ((set.now.set, fault)
        ∷ []) page t.page t.changes.items (t.told ∷ [])) }
{
    if let Some(code) = fault {
        let rejection = Rejection {
            code,
            segment: None,
        };
        return Ok(rejected(alloc, page, set, rejection));
    }
    match judged(alloc, &page, kind, set.segments(), rules)? {
        Verdict::Passed(step) => passed(page, set, step),
        Verdict::Rejected(rejection) => Ok(rejected(alloc, page, set, rejection)),
    }
}

// The sets of a group without a fault, in turn: one that passes acts before the next is judged.
fn take_sets<'a>(
    alloc: Global,
    start: Page,
    kind: SetKind,
    group: &'a Group<'a>,
    rules: Rules,
) -> Result<TakenSets<'a>, AllocError>
    requires { start.recent + length group.now.group.sets ≤ most_sets }

    ensures { IfOk result
        (λ t. AreTaken rules group.now.delims (Some kind) (meant.examined group.now.group)
        start t.page t.changes.items t.told.items) }
{
    let faults = set_faults(alloc, group)?;
    let mut page = start;
    let mut changes = Vec::new(alloc);
    let mut told = Vec::new(alloc);
    for (i, set) in group.sets().iter().enumerate() {
        let mut taken = take_set(alloc, page, kind, set, faults[i], rules)?;
        page = taken.page;
        changes.append(&mut taken.changes)?;
        told.push(taken.told)?;
    }
    Ok(TakenSets {
        page,
        changes,
        told,
    })
}

// The functional identifier of a group, GS01.
fn function<'a>(group: &Group<'a>) -> &'a [u8]
    ensures { result.now ≡ element group.now.group.head 1 }
{
    group.head().element(1)
}

// The sets of a group; none is taken where the group has a fault.
fn take_group<'a>(
    alloc: Global,
    start: Page,
    group: &'a Group<'a>,
    rules: Rules,
) -> Result<TakenSets<'a>, AllocError>
    requires { start.recent + length group.now.group.sets ≤ most_sets }

    ensures { IfOk result
        (λ t. IsGroupTaken rules group.now.delims group.now.group start t.page t.changes.items
        t.told.items) }
{
    let kind = SetKind::of_function(function(group));
    match (group_fault(group), kind) {
        (None, Some(kind)) => take_sets(alloc, start, kind, group, rules),
        _ => Ok(TakenSets {
            page: start,
            changes: Vec::new(alloc),
            told: Vec::new(alloc),
        }),
    }
}

// The number of sets that a group states.
fn stated(group: &Group<'_>) -> u32
    requires small { IsSmall group.now.group }
    requires few { length group.now.group.sets ≤ most_sets }

    ensures { result ≡ stated_sets group.now.group }
{
    match group.tail() {
        None => group.sets().len() as u32,
        Some(tail) => number(tail.element(1)),
    }
}

// What a group is told, with these sets.
fn group_told<'a>(group: &Group<'a>, sets: Vec<ToldSet<'a>>) -> ToldGroup<'a>
    requires small { IsSmall group.now.group }
    requires few { length group.now.group.sets ≤ most_sets }

    ensures { result ≡ told_with group.now.group sets.entry.items }
{
    ToldGroup {
        function: function(group),
        number: group.head().element(6),
        stated: stated(group),
        received: group.sets().len(),
        fault: group_fault(group),
        sets,
    }
}

// Whether a group is answered: acknowledgments are not.
fn is_answered(group: &Group<'_>) -> bool
    ensures { result ≡ is_answered group.now.group }
{
    function(group) != b"FA".as_slice()
}

// Adds what a group is told, if it is answered.
fn tell<'a>(
    told: &mut Vec<ToldGroup<'a>>,
    group: &Group<'a>,
    sets: Vec<ToldSet<'a>>,
) -> Result<(), AllocError>
    requires small { IsSmall group.now.group }
    requires few { length group.now.group.sets ≤ most_sets }

    ensures { OnOk result (told.new.items ≡ told.old.items ++ told_if group.now.group
        sets.entry.items) }
{
    if is_answered(group) {
        told.push(group_told(group, sets))?;
    }
    Ok(())
}

/// Groups that were taken, one after another: the page after them, the rows that changed, and what
/// is told of each that is answered.
#[derive(Drop)]
pub struct TakenGroups<'a> {
    /// The page.
    pub page: Page,
    /// The rows that changed.
    pub changes: Vec<Change>,
    /// What is told.
    pub told: Vec<ToldGroup<'a>>,
}

/// The groups of an interchange, in turn, by the rules. Want of memory is the one error.
pub fn take_groups<'a>(
    alloc: Global,
    start: Page,
    interchange: &'a Interchange<'a>,
    rules: Rules,
) -> Result<TakenGroups<'a>, AllocError>
    requires room { start.recent + sum_by (λ g. length g.sets) interchange.now.groups ≤ most_sets }
    requires small { AllByRecursion IsSmall interchange.now.groups }

    ensures { IfOk result
        (λ t. AreGroupsTaken rules interchange.now.delims interchange.now.groups start t.page
        t.changes.items t.told.items) }
{
    let mut page = start;
    let mut changes = Vec::new(alloc);
    let mut told = Vec::new(alloc);
    for group in interchange.groups() {
        let mut taken = take_group(alloc, page, group, rules)?;
        page = taken.page;
        changes.append(&mut taken.changes)?;
        tell(&mut told, group, taken.told)?;
    }
    Ok(TakenGroups {
        page,
        changes,
        told,
    })
}
