ghost use Rattle.std.specs.Prelude.{◌≡◌, option_map};
ghost use Rattle.definitions.specs.declared.rules.Rules.{Rules};
ghost use Rattle.definitions.specs.Words.{words_after};
ghost use Rattle.definitions.specs.Faults.{wanted_id};
ghost use Rattle.tables.specs.Ids.{text_of};
ghost use Rattle.tables.specs.Languages.{found};
ghost use Rattle.tables.specs.Advice.{lines, rest_of};

use crate::ids::Id;
use definitions::{MOST_DATES, MOST_LINES, MOST_LINES_TWO, MOST_PARTIES, MOST_REFERENCES, Rules};

/// How far a 943 has come.
#[derive(Clone, Copy)]
pub(crate) enum Stage {
    Begin,
    Head,
    // with how many more N1, N9, G62 or lines may come
    Parties(u8),
    References(u8),
    Dates(u8),
    // after W04
    Goods(u16),
    // after a line's N9
    Lot(u16),
    Total,
    End,
}

impl Stage {
    /// The stage after one more segment; None where that may not stand there.
    pub(crate) fn next(self, id: Id, rules: Rules) -> Option<Stage>
        ensures { option_map (rest_of rules) result
            ≡ found (words_after (text_of id) (rest_of rules self)) }
    {
        match self {
            Stage::Begin => after_begin(id),
            Stage::Head => after_head(id),
            Stage::Parties(left) => after_party(left, id, rules),
            Stage::References(left) => after_reference(left, id, rules),
            Stage::Dates(left) => after_date(left, id, rules),
            Stage::Goods(left) => after_goods(left, id),
            Stage::Lot(left) => after_lot(left, id),
            Stage::Total => after_total(id),
            Stage::End => None,
        }
    }

    /// The id that the set wants first, on the shortest way to its end; empty at the end.
    pub(crate) fn wanted(self) -> &'static [u8]
        ensures { (r : Rules) → result.now ≡ wanted_id (rest_of r self) }
    {
        match self {
            Stage::Begin => b"ST",
            Stage::Head => b"W06",
            Stage::Parties(_) | Stage::References(_) | Stage::Dates(_) => b"W04",
            Stage::Goods(_) => b"N9",
            Stage::Lot(_) => b"W03",
            Stage::Total => b"SE",
            Stage::End => b"",
        }
    }
}

fn after_begin(id: Id) -> Option<Stage>
    ensures { (r : Rules)
        → option_map (rest_of r) result ≡ found (words_after (text_of id) (rest_of r Stage.Begin)) }
{
    match id {
        Id::St => Some(Stage::Head),
        _ => None,
    }
}

fn after_head(id: Id) -> Option<Stage>
    ensures { (r : Rules)
        → option_map (rest_of r) result ≡ found (words_after (text_of id) (rest_of r Stage.Head)) }
{
    match id {
        Id::W06 => Some(Stage::Parties(MOST_PARTIES)),
        _ => None,
    }
}

// A party, or what may stand where the references begin.
fn after_party(left: u8, id: Id, rules: Rules) -> Option<Stage>
    ensures { option_map (rest_of rules) result
        ≡ found (words_after (text_of id) (rest_of rules (Stage.Parties left))) }
{
    match id {
        Id::N1 if left > 0 => Some(Stage::Parties(left - 1)),
        _ => after_reference(MOST_REFERENCES, id, rules),
    }
}

// A reference, or what may stand where the dates begin.
fn after_reference(left: u8, id: Id, rules: Rules) -> Option<Stage>
    ensures { option_map (rest_of rules) result
        ≡ found (words_after (text_of id) (rest_of rules (Stage.References left))) }
{
    match id {
        Id::N9 if left > 0 => Some(Stage::References(left - 1)),
        _ => after_date(MOST_DATES, id, rules),
    }
}

// A date, or the first line.
fn after_date(left: u8, id: Id, rules: Rules) -> Option<Stage>
    ensures { option_map (rest_of rules) result
        ≡ found (words_after (text_of id) (rest_of rules (Stage.Dates left))) }
{
    match id {
        Id::G62 if left > 0 => Some(Stage::Dates(left - 1)),
        _ => first_line(id, rules),
    }
}

// The first line, with how many more the rules allow.
fn first_line(id: Id, rules: Rules) -> Option<Stage>
    ensures { option_map (rest_of rules) result ≡ found (words_after (text_of id) (lines rules)) }
{
    match (id, rules) {
        (Id::W04, Rules::One) => Some(Stage::Goods(MOST_LINES - 1)),
        (Id::W04, Rules::Two) => Some(Stage::Goods(MOST_LINES_TWO - 1)),
        _ => None,
    }
}

fn after_goods(left: u16, id: Id) -> Option<Stage>
    ensures { (r : Rules)
        → option_map (rest_of r) result ≡ found (words_after (text_of id)
        (rest_of r (Stage.Goods left))) }
{
    match id {
        Id::N9 => Some(Stage::Lot(left)),
        _ => None,
    }
}

fn after_lot(left: u16, id: Id) -> Option<Stage>
    ensures { (r : Rules)
        → option_map (rest_of r) result ≡ found (words_after (text_of id)
        (rest_of r (Stage.Lot left))) }
{
    match id {
        Id::W04 if left > 0 => Some(Stage::Goods(left - 1)),
        Id::W03 => Some(Stage::Total),
        _ => None,
    }
}

fn after_total(id: Id) -> Option<Stage>
    ensures { (r : Rules)
        → option_map (rest_of r) result ≡ found (words_after (text_of id) (rest_of r Stage.Total)) }
{
    match id {
        Id::Se => Some(Stage::End),
        _ => None,
    }
}
