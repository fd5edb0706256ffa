ghost use Rattle.std.specs.Prelude.{◌≡◌, option_map};
ghost use Rattle.definitions.specs.declared.rules.Rules.{Rules};
ghost use Rattle.definitions.specs.Words.{words_after};
ghost use Rattle.definitions.specs.Faults.{wanted_id};
ghost use Rattle.tables.specs.Ids.{text_of};
ghost use Rattle.tables.specs.Languages.{found};
ghost use Rattle.tables.specs.Order.{lines, rest_of};

use crate::ids::Id;
use definitions::{MOST_DATES, MOST_LINES, MOST_LINES_TWO, MOST_PARTIES, MOST_REFERENCES, Rules};

/// How far a 940 has come.
#[derive(Clone, Copy)]
pub(crate) enum Stage {
    Begin,
    Head,
    // with how many more parties, N9, G62 or lines may come
    Parties(u8),
    // after N1, and after its N3
    Named(u8),
    Streeted(u8),
    References(u8),
    Dates(u8),
    // after LX, after its W01, and after the N9 of that
    Numbered(u16),
    Goods(u16),
    Pinned(u16),
    Total,
    End,
}

impl Stage {
    /// The stage after one more segment; None where that may not stand there.
    pub(crate) fn next(self, id: Id, rules: Rules) -> Option<Stage>
        ensures { option_map (rest_of rules) result
            ≡ found (words_after (text_of id) (rest_of rules self)) }
    {
        match self {
            Stage::Begin => after_begin(id),
            Stage::Head => after_head(id),
            Stage::Parties(left) => after_party(left, id, rules),
            Stage::Named(left) => after_name(left, id, rules),
            Stage::Streeted(left) => after_street(left, id, rules),
            Stage::References(left) => after_reference(left, id, rules),
            Stage::Dates(left) => after_date(left, id, rules),
            Stage::Numbered(left) => after_number(left, id),
            Stage::Goods(left) => after_goods(left, id),
            Stage::Pinned(left) => after_pin(left, id),
            Stage::Total => after_total(id),
            Stage::End => None,
        }
    }

    /// The id that the set wants first, on the shortest way to its end; empty at the end.
    pub(crate) fn wanted(self) -> &'static [u8]
        ensures { (r : Rules) → result.now ≡ wanted_id (rest_of r self) }
    {
        match self {
            Stage::Begin => b"ST",
            Stage::Head => b"W05",
            Stage::Parties(_)
            | Stage::Named(_)
            | Stage::Streeted(_)
            | Stage::References(_)
            | Stage::Dates(_) => b"LX",
            Stage::Numbered(_) => b"W01",
            Stage::Goods(_) | Stage::Pinned(_) => b"W76",
            Stage::Total => b"SE",
            Stage::End => b"",
        }
    }
}

fn after_begin(id: Id) -> Option<Stage>
    ensures { (r : Rules)
        → option_map (rest_of r) result ≡ found (words_after (text_of id) (rest_of r Stage.Begin)) }
{
    match id {
        Id::St => Some(Stage::Head),
        _ => None,
    }
}

fn after_head(id: Id) -> Option<Stage>
    ensures { (r : Rules)
        → option_map (rest_of r) result ≡ found (words_after (text_of id) (rest_of r Stage.Head)) }
{
    match id {
        Id::W05 => Some(Stage::Parties(MOST_PARTIES)),
        _ => None,
    }
}

// A party, or what may stand where the references begin.
fn after_party(left: u8, id: Id, rules: Rules) -> Option<Stage>
    ensures { option_map (rest_of rules) result
        ≡ found (words_after (text_of id) (rest_of rules (Stage.Parties left))) }
{
    match id {
        Id::N1 if left > 0 => Some(Stage::Named(left - 1)),
        _ => after_reference(MOST_REFERENCES, id, rules),
    }
}

fn after_name(left: u8, id: Id, rules: Rules) -> Option<Stage>
    ensures { option_map (rest_of rules) result
        ≡ found (words_after (text_of id) (rest_of rules (Stage.Named left))) }
{
    match id {
        Id::N3 => Some(Stage::Streeted(left)),
        _ => after_street(left, id, rules),
    }
}

fn after_street(left: u8, id: Id, rules: Rules) -> Option<Stage>
    ensures { option_map (rest_of rules) result
        ≡ found (words_after (text_of id) (rest_of rules (Stage.Streeted left))) }
{
    match id {
        Id::N4 => Some(Stage::Parties(left)),
        _ => after_party(left, id, rules),
    }
}

// A reference, or what may stand where the dates begin.
fn after_reference(left: u8, id: Id, rules: Rules) -> Option<Stage>
    ensures { option_map (rest_of rules) result
        ≡ found (words_after (text_of id) (rest_of rules (Stage.References left))) }
{
    match id {
        Id::N9 if left > 0 => Some(Stage::References(left - 1)),
        _ => after_date(MOST_DATES, id, rules),
    }
}

// A date, or the first line.
fn after_date(left: u8, id: Id, rules: Rules) -> Option<Stage>
    ensures { option_map (rest_of rules) result
        ≡ found (words_after (text_of id) (rest_of rules (Stage.Dates left))) }
{
    match id {
        Id::G62 if left > 0 => Some(Stage::Dates(left - 1)),
        _ => first_line(id, rules),
    }
}

// The first line, with how many more the rules allow.
fn first_line(id: Id, rules: Rules) -> Option<Stage>
    ensures { option_map (rest_of rules) result ≡ found (words_after (text_of id) (lines rules)) }
{
    match (id, rules) {
        (Id::Lx, Rules::One) => Some(Stage::Numbered(MOST_LINES - 1)),
        (Id::Lx, Rules::Two) => Some(Stage::Numbered(MOST_LINES_TWO - 1)),
        _ => None,
    }
}

fn after_number(left: u16, id: Id) -> Option<Stage>
    ensures { (r : Rules)
        → option_map (rest_of r) result
        ≡ found (words_after (text_of id) (rest_of r (Stage.Numbered left))) }
{
    match id {
        Id::W01 => Some(Stage::Goods(left)),
        _ => None,
    }
}

fn after_goods(left: u16, id: Id) -> Option<Stage>
    ensures { (r : Rules)
        → option_map (rest_of r) result ≡ found (words_after (text_of id)
        (rest_of r (Stage.Goods left))) }
{
    match id {
        Id::N9 => Some(Stage::Pinned(left)),
        _ => after_pin(left, id),
    }
}

fn after_pin(left: u16, id: Id) -> Option<Stage>
    ensures { (r : Rules)
        → option_map (rest_of r) result ≡ found (words_after (text_of id)
        (rest_of r (Stage.Pinned left))) }
{
    match id {
        Id::Lx if left > 0 => Some(Stage::Numbered(left - 1)),
        Id::W76 => Some(Stage::Total),
        _ => None,
    }
}

fn after_total(id: Id) -> Option<Stage>
    ensures { (r : Rules)
        → option_map (rest_of r) result ≡ found (words_after (text_of id) (rest_of r Stage.Total)) }
{
    match id {
        Id::Se => Some(Stage::End),
        _ => None,
    }
}
