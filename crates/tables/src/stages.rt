ghost use Rattle.std.specs.Prelude.{◌≡◌, option_map};
ghost use Rattle.definitions.specs.declared.rules.Rules.{Rules};
ghost use Rattle.definitions.specs.Words.{words_after, kind_words, mentions};
ghost use Rattle.definitions.specs.Faults.{wanted_id, place_code};
ghost use Rattle.tables.specs.Ids.{text_of};
ghost use Rattle.tables.specs.Languages.{found};
ghost use Rattle.tables.specs.Stages.{rest_of};

use crate::ids::Id;
use crate::{acknowledgment, advice, order};
use definitions::{Rules, SetKind};

/// How far a set of one of the kinds has come.
#[derive(Clone, Copy)]
pub(crate) enum Stage {
    Advice(advice::Stage),
    Order(order::Stage),
    Acknowledgment(acknowledgment::Stage),
}

impl Stage {
    /// The stage before any segment.
    pub(crate) fn begin(kind: SetKind) -> Stage
        ensures { (r : Rules) → rest_of r result ≡ kind_words r kind }
    {
        match kind {
            SetKind::ShippingOrder => Stage::Order(order::Stage::Begin),
            SetKind::ShipmentAdvice => Stage::Advice(advice::Stage::Begin),
            SetKind::FunctionalAcknowledgment => {
                Stage::Acknowledgment(acknowledgment::Stage::Begin)
            }
        }
    }

    /// The stage after one more segment; None where that may not stand there.
    pub(crate) fn next(self, id: Id, rules: Rules) -> Option<Stage>
        ensures { option_map (rest_of rules) result
            ≡ found (words_after (text_of id) (rest_of rules self)) }
    {
        match self {
            Stage::Advice(stage) => stage.next(id, rules).map(Stage::Advice),
            Stage::Order(stage) => stage.next(id, rules).map(Stage::Order),
            Stage::Acknowledgment(stage) => stage.next(id).map(Stage::Acknowledgment),
        }
    }

    /// The id that the set wants first, on the shortest way to its end; empty at the end.
    pub(crate) fn wanted(self) -> &'static [u8]
        ensures { (r : Rules) → result.now ≡ wanted_id (rest_of r self) }
    {
        match self {
            Stage::Advice(stage) => stage.wanted(),
            Stage::Order(stage) => stage.wanted(),
            Stage::Acknowledgment(stage) => stage.wanted(),
        }
    }
}

// Whether sets of the kind have segments with the id.
fn has(kind: SetKind, id: Id) -> bool
    ensures { (r : Rules) → result ≡ mentions (text_of id) (kind_words r kind) }
{
    match kind {
        SetKind::ShippingOrder => matches!(
            id,
            Id::St
                | Id::W05
                | Id::N1
                | Id::N3
                | Id::N4
                | Id::N9
                | Id::G62
                | Id::Lx
                | Id::W01
                | Id::W76
                | Id::Se
        ),
        SetKind::ShipmentAdvice => matches!(
            id,
            Id::St | Id::W06 | Id::N1 | Id::N9 | Id::G62 | Id::W04 | Id::W03 | Id::Se
        ),
        SetKind::FunctionalAcknowledgment => matches!(
            id,
            Id::St | Id::Ak1 | Id::Ak2 | Id::Ak3 | Id::Ak4 | Id::Ak5 | Id::Ak9 | Id::Se
        ),
    }
}

/// The code of a segment out of place (AK304): 3 where it is SE, 6 where only sets of other kinds
/// have it, else 2.
pub(crate) fn misplaced(kind: SetKind, id: Id) -> u8
    ensures { (r : Rules) → result ≡ place_code r (kind_words r kind) (text_of id) }
{
    match id {
        Id::Se => 3,
        _ if has(kind, id) => 2,
        _ => 6,
    }
}
