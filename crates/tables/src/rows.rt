ghost use Rattle.std.specs.Prelude.{◌≡◌, ◌∷◌, [], ℕ, List, Some, codes, map, option_map, IfSome};
ghost use Rattle.definitions.specs.Elements as meant;
ghost use Rattle.definitions.specs.Faults.{rows_after};
ghost use Rattle.segments.specs.Rows.{row_of};
ghost use Rattle.tables.specs.Ids.{text_of};
ghost use Rattle.tables.specs.Rows.{is_goods, after_goods, is_advised, after_advised};

use crate::ids::Id;
use definitions::{
    ADVICE_TOTAL_DIGITS, ADVICE_TOTAL_DIGITS_TWO, CONTROL_DIGITS, DATE_DIGITS,
    DATE_QUALIFIER_BYTES, ELEMENT_DIGITS, FUNCTION_BYTES, LEAST_CITY, LEAST_CODE, LEAST_COUNTRY,
    LEAST_POSTAL, LEAST_QUALIFIER, LEAST_SEGMENT, LEAST_SET_CONTROL, LINE_DIGITS, MOST_CASE,
    MOST_CITY, MOST_CODE, MOST_CODE_QUALIFIER, MOST_COPY, MOST_COUNTRY, MOST_DESCRIPTION,
    MOST_ERROR, MOST_ITEM, MOST_LOOP, MOST_LOT, MOST_NAME, MOST_NUMBER, MOST_PLACE, MOST_POSTAL,
    MOST_QUALIFIER, MOST_REFERENCE, MOST_SEGMENT, MOST_SET_CONTROL, MOST_STREET,
    ORDER_TOTAL_DIGITS, ORDER_TOTAL_DIGITS_TWO, POSITION_DIGITS, QUANTITY_DIGITS,
    QUANTITY_DIGITS_TWO, Rules, SET_BYTES, SETS_DIGITS, STATE_BYTES,
};
use segments::{ElementRow, Kind, must};

// The row of an element that may be missing.
macro_rules! may {
    ($kind:expr, $least:expr, $most:expr) => {
        ElementRow {
            is_mandatory: false,
            kind: $kind,
            least: $least,
            most: $most,
        }
    };
}

const W06: &[ElementRow] = &[
    must!(Kind::Coded(&[b"F"]), 1, 1),
    must!(Kind::Identifier, 1, MOST_NUMBER),
    must!(Kind::Date, DATE_DIGITS, DATE_DIGITS),
    must!(Kind::Identifier, 1, MOST_NUMBER),
];

// W04 and W01: a quantity, its unit, an element without use, and an item with its qualifier.
macro_rules! goods_rows {
    ($digits:expr) => {
        &[
            must!(Kind::Quantity, 1, $digits),
            must!(Kind::Coded(&[b"EA"]), 2, 2),
            may!(Kind::Data, 1, MOST_CASE),
            must!(Kind::Coded(&[b"SK"]), 2, 2),
            must!(Kind::Identifier, 1, MOST_ITEM),
        ]
    };
}

const GOODS: &[ElementRow] = goods_rows!(QUANTITY_DIGITS);

const GOODS_TWO: &[ElementRow] = goods_rows!(QUANTITY_DIGITS_TWO);

// N9 directly after W04 or W01: the lot of the line.
const LOT: &[ElementRow] = &[
    must!(Kind::Coded(&[b"LT"]), 2, 2),
    must!(Kind::Identifier, 1, MOST_LOT),
    may!(Kind::Data, 1, MOST_DESCRIPTION),
];

// N9 directly after W04 by rules 2: the lot of the line, with its expiry.
const DATED_LOT: &[ElementRow] = &[
    must!(Kind::Coded(&[b"LT"]), 2, 2),
    must!(Kind::Identifier, 1, MOST_LOT),
    may!(Kind::Data, 1, MOST_DESCRIPTION),
    may!(Kind::Date, DATE_DIGITS, DATE_DIGITS),
];

const N9: &[ElementRow] = &[
    must!(Kind::Alphanumeric, LEAST_QUALIFIER, MOST_QUALIFIER),
    must!(Kind::Data, 1, MOST_REFERENCE),
    may!(Kind::Data, 1, MOST_DESCRIPTION),
];

// The sum of an advice's quantities.
const W03: &[ElementRow] = &[must!(Kind::Quantity, 1, ADVICE_TOTAL_DIGITS)];

const W03_TWO: &[ElementRow] = &[must!(Kind::Quantity, 1, ADVICE_TOTAL_DIGITS_TWO)];

// The sum of an order's quantities.
const W76: &[ElementRow] = &[must!(Kind::Quantity, 1, ORDER_TOTAL_DIGITS)];

const W76_TWO: &[ElementRow] = &[must!(Kind::Quantity, 1, ORDER_TOTAL_DIGITS_TWO)];

const W05: &[ElementRow] = &[
    must!(Kind::Coded(&[b"N"]), 1, 1),
    must!(Kind::Identifier, 1, MOST_NUMBER),
    may!(Kind::Data, 1, MOST_NUMBER),
];

const LX: &[ElementRow] = &[must!(Kind::Quantity, 1, LINE_DIGITS)];

const N1: &[ElementRow] = &[
    must!(Kind::Alphanumeric, LEAST_QUALIFIER, MOST_QUALIFIER),
    may!(Kind::Data, 1, MOST_NAME),
    may!(Kind::Data, 1, MOST_CODE_QUALIFIER),
    may!(Kind::Data, LEAST_CODE, MOST_CODE),
];

const N3: &[ElementRow] = &[
    must!(Kind::Data, 1, MOST_STREET),
    may!(Kind::Data, 1, MOST_STREET),
];

const N4: &[ElementRow] = &[
    may!(Kind::Data, LEAST_CITY, MOST_CITY),
    may!(Kind::Data, STATE_BYTES, STATE_BYTES),
    may!(Kind::Data, LEAST_POSTAL, MOST_POSTAL),
    may!(Kind::Data, LEAST_COUNTRY, MOST_COUNTRY),
];

const G62: &[ElementRow] = &[
    must!(
        Kind::Alphanumeric,
        DATE_QUALIFIER_BYTES,
        DATE_QUALIFIER_BYTES
    ),
    must!(Kind::Date, DATE_DIGITS, DATE_DIGITS),
];

const AK1: &[ElementRow] = &[
    must!(Kind::Alphanumeric, FUNCTION_BYTES, FUNCTION_BYTES),
    must!(Kind::Digits, 1, CONTROL_DIGITS),
];

const AK2: &[ElementRow] = &[
    must!(Kind::Alphanumeric, SET_BYTES, SET_BYTES),
    must!(Kind::Alphanumeric, LEAST_SET_CONTROL, MOST_SET_CONTROL),
];

const AK3: &[ElementRow] = &[
    must!(Kind::Alphanumeric, LEAST_SEGMENT, MOST_SEGMENT),
    must!(Kind::Digits, 1, POSITION_DIGITS),
    may!(Kind::Data, 1, MOST_LOOP),
    may!(Kind::Data, 1, MOST_ERROR),
];

const AK4: &[ElementRow] = &[
    must!(Kind::Parts, 1, MOST_PLACE),
    may!(Kind::Digits, 1, ELEMENT_DIGITS),
    must!(Kind::Data, 1, MOST_ERROR),
    may!(Kind::Data, 1, MOST_COPY),
];

const AK5: &[ElementRow] = &[
    must!(Kind::Coded(&[b"A", b"R"]), 1, 1),
    may!(Kind::Data, 1, MOST_ERROR),
    may!(Kind::Data, 1, MOST_ERROR),
    may!(Kind::Data, 1, MOST_ERROR),
    may!(Kind::Data, 1, MOST_ERROR),
    may!(Kind::Data, 1, MOST_ERROR),
];

const AK9: &[ElementRow] = &[
    must!(Kind::Coded(&[b"A", b"P", b"R"]), 1, 1),
    must!(Kind::Digits, 1, SETS_DIGITS),
    must!(Kind::Digits, 1, SETS_DIGITS),
    must!(Kind::Digits, 1, SETS_DIGITS),
    may!(Kind::Data, 1, MOST_ERROR),
    may!(Kind::Data, 1, MOST_ERROR),
    may!(Kind::Data, 1, MOST_ERROR),
    may!(Kind::Data, 1, MOST_ERROR),
    may!(Kind::Data, 1, MOST_ERROR),
];

/// What a segment stands directly after, as far as it decides which rows an N9 has.
#[derive(Clone, Copy)]
pub(crate) enum After {
    // W04, with the quantity and the item of an advice's line: an N9 is the line's lot, which may
    // have an expiry
    Advised,
    // W01, with those of an order's line: an N9 is the lot that the line is pinned to
    Ordered,
    // another segment, or none: an N9 is a reference
    Else,
}

impl After {
    /// What stands after a segment with the id.
    pub(crate) fn of(id: Id) -> After
        ensures goods { after_goods result ≡ is_goods (text_of id) }
        ensures advised { after_advised result ≡ is_advised (text_of id) }
    {
        match id {
            Id::W04 => After::Advised,
            Id::W01 => After::Ordered,
            _ => After::Else,
        }
    }
}

// The rows of W04 and W01.
fn rows_of_goods(rules: Rules) -> &'static [ElementRow]
    ensures { map row_of result.now ≡ meant.goods_rows rules }
{
    match rules {
        Rules::One => GOODS,
        Rules::Two => GOODS_TWO,
    }
}

// The rows of an N9 after a W04.
fn advised_lot(rules: Rules) -> &'static [ElementRow]
    ensures { map row_of result.now ≡ meant.lot_rows rules (codes "W04") }
{
    match rules {
        Rules::One => LOT,
        Rules::Two => DATED_LOT,
    }
}

// The rows of W03.
fn advice_total(rules: Rules) -> &'static [ElementRow]
    ensures { map row_of result.now
        ≡ meant.must meant.Quantity 1 (meant.advice_total_digits rules) ∷ [] }
{
    match rules {
        Rules::One => W03,
        Rules::Two => W03_TWO,
    }
}

// The rows of W76.
fn order_total(rules: Rules) -> &'static [ElementRow]
    ensures { map row_of result.now
        ≡ meant.must meant.Quantity 1 (meant.order_total_digits rules) ∷ [] }
{
    match rules {
        Rules::One => W76,
        Rules::Two => W76_TWO,
    }
}

// The rows of an N9, by what it stands after.
fn reference(after: After, rules: Rules) -> &'static [ElementRow]
    ensures { (previous : List ℕ) → after_goods after ≡ is_goods previous
        → after_advised after ≡ is_advised previous
        → Some (map row_of result.now) ≡ rows_after rules previous (codes "N9") }
{
    match after {
        After::Advised => advised_lot(rules),
        After::Ordered => LOT,
        After::Else => N9,
    }
}

/// The rows of a segment with the id, by what it stands after; None for ST and SE.
pub(crate) fn rows_of(id: Id, after: After, rules: Rules) -> Option<&'static [ElementRow]>
    ensures { (previous : List ℕ) → after_goods after ≡ is_goods previous
        → after_advised after ≡ is_advised previous
        → option_map (λ r. map row_of r.now) result ≡ rows_after rules previous (text_of id) }
{
    match id {
        Id::St | Id::Se => None,
        Id::W06 => Some(W06),
        Id::W04 | Id::W01 => Some(rows_of_goods(rules)),
        Id::N9 => Some(reference(after, rules)),
        Id::W03 => Some(advice_total(rules)),
        Id::W76 => Some(order_total(rules)),
        Id::W05 => Some(W05),
        Id::Lx => Some(LX),
        Id::N1 => Some(N1),
        Id::N3 => Some(N3),
        Id::N4 => Some(N4),
        Id::G62 => Some(G62),
        Id::Ak1 => Some(AK1),
        Id::Ak2 => Some(AK2),
        Id::Ak3 => Some(AK3),
        Id::Ak4 => Some(AK4),
        Id::Ak5 => Some(AK5),
        Id::Ak9 => Some(AK9),
    }
}
