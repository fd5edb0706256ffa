ghost use Rattle.std.specs.Prelude.{◌≡◌, ℕ, List, MatchResult, Some, None, map, option_map};
ghost use Rattle.definitions.specs.Cut.{id_of};
ghost use Rattle.definitions.specs.Elements as elements_meant;
ghost use Rattle.definitions.specs.declared.rules.Rules.{Rules};
ghost use Rattle.definitions.specs.Words.{words_after, kind_words};
ghost use Rattle.definitions.specs.Faults as meant;
ghost use Rattle.segments.specs.Rows.{row_of};
ghost use Rattle.tables.specs.Ids.{text_of};
ghost use Rattle.tables.specs.Rows.{is_goods, after_goods, is_advised, after_advised};
ghost use Rattle.tables.specs.Stages.{rest_of};

use crate::ids::Id;
use crate::rows::{After, rows_of};
use crate::stages::{Stage, misplaced};
use definitions::{Rules, SetKind};
use segments::{Delims, ElementRow, Segment, SetFault, faulty_element};

/// How far a set has come.
#[derive(Clone, Copy)]
pub(crate) struct Progress {
    pub(crate) stage: Stage,
    // the segment before
    pub(crate) after: After,
}

// The fault of a segment that stands where it may.
fn inner_fault<'a>(
    delims: &Delims,
    id: Id,
    after: After,
    rules: Rules,
    position: usize,
    segment: &Segment<'a>,
) -> Option<SetFault<'a>>
    requires { id_of segment.now.elements ≡ text_of id }

    ensures { (previous : List ℕ) → after_goods after ≡ is_goods previous
        → after_advised after ≡ is_advised previous
        → result
        ≡ meant.inner_fault rules delims.now previous position segment.now.elements }
{
    let rows = rows_of(id, after, rules)?;
    let element = faulty_element(delims, rows, segment)?;
    Some(SetFault {
        id: segment.element(0),
        position,
        code: 8,
        element: Some(element),
    })
}

// The fault of a segment with this id where it may not stand.
fn place_fault<'a>(
    kind: SetKind,
    stage: Stage,
    id: Id,
    position: usize,
    segment: &Segment<'a>,
) -> SetFault<'a>
    requires { id_of segment.now.elements ≡ text_of id }

    ensures { (r : Rules)
        → result ≡ meant.place_fault r (kind_words r kind) (rest_of r stage) position
        (id_of segment.now.elements) }
{
    let wanted = match id {
        Id::Se => stage.wanted(),
        _ => segment.element(0),
    };
    SetFault {
        id: wanted,
        position,
        code: misplaced(kind, id),
        element: None,
    }
}

// The fault of a segment with an id that is in no set.
fn unknown_fault<'a>(position: usize, segment: &Segment<'a>) -> SetFault<'a>
    ensures { result ≡ record {
      id = id_of segment.now.elements;
      position = position;
      code = 1;
      element = None;
    } }
{
    SetFault {
        id: segment.element(0),
        position,
        code: 1,
        element: None,
    }
}

/// One segment more, at a position: how far the set has come with it, or its fault.
pub(crate) fn step<'a>(
    delims: &Delims,
    kind: SetKind,
    rules: Rules,
    progress: Progress,
    position: usize,
    segment: &Segment<'a>,
) -> Result<Progress, SetFault<'a>>
    ensures { (previous : List ℕ) → after_goods progress.after ≡ is_goods previous
        → after_advised progress.after ≡ is_advised previous
        → MatchResult result
        (λ p. (meant.fault_at rules delims.now (kind_words rules kind)
        (rest_of rules progress.stage) previous position segment.now.elements ≡ None)
        × (words_after (id_of segment.now.elements) (rest_of rules progress.stage) ≡ rest_of rules
        p.stage)
        × (after_goods p.after ≡ is_goods (id_of segment.now.elements))
        × (after_advised p.after ≡ is_advised (id_of segment.now.elements)))
        (λ f. meant.fault_at rules delims.now (kind_words rules kind)
        (rest_of rules progress.stage) previous position segment.now.elements ≡ Some f) }
{
    let Some(id) = Id::read(segment.element(0)) else {
        return Err(unknown_fault(position, segment));
    };
    let Some(stage) = progress.stage.next(id, rules) else {
        return Err(place_fault(kind, progress.stage, id, position, segment));
    };
    match inner_fault(delims, id, progress.after, rules, position, segment) {
        Some(fault) => Err(fault),
        None => Ok(Progress {
            stage,
            after: After::of(id),
        }),
    }
}
