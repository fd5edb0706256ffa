ghost use Rattle.std.specs.Prelude.{◌≡◌, ◌+◌, ◌<◌, map, option_map, Some, None};
ghost use Rattle.definitions.specs.Elements as meant;
ghost use Rattle.segments.specs.Rows.{row_of};
ghost use Rattle.definitions.specs.Faults as faults_meant;

use crate::cutting::Segment;
use crate::delims::Delims;
use crate::kinds::{ElementRow, Kind, element_fault};
use crate::must;
use definitions::{
    CONTROL_DIGITS, DATE_DIGITS, FUNCTION_BYTES, GROUPS_DIGITS, LEAST_SET_CONTROL, LEAST_SIDE,
    LEAST_TIME, MOST_AGENCY, MOST_SET_CONTROL, MOST_SIDE, MOST_TIME, MOST_VERSION, SEGMENTS_DIGITS,
    SET_BYTES, SETS_DIGITS,
};
use std::marker::Model;

/// The element in error of a segment, as AK4 tells it.
#[derive(Clone, Copy)]
pub struct ElementFault {
    /// Its place in the segment, from 1: AK401.
    pub place: usize,
    /// What is wrong with it: AK403.
    pub code: u8,
}

impl Model for ElementFault {
    ghost Value = { meant.ElementFault };

    ghost view = { λ f. record { place = f.place; code = f.code } };

    ghost inverse = { λ f. record { place = f.place; code = f.code } };
}

/// The segment in error of a set, as AK3 and AK4 tell it.
#[derive(Drop)]
pub struct SetFault<'a> {
    /// Its id, AK301; where SE comes too early, the id of the segment that the set wants in its
    /// place.
    pub id: &'a [u8],
    /// Its position in the set, in which ST has 1: AK302.
    pub position: usize,
    /// What is wrong with it, AK304: 1 its id is in no set that is read, 2 it may not stand here,
    /// 3 the set is not complete, 6 its id is only in sets of other kinds, 8 an element is faulty.
    pub code: u8,
    /// Its element in error, where the code is 8.
    pub element: Option<ElementFault>,
}

impl<'a> Model for SetFault<'a> {
    ghost Value = { faults_meant.SetFault };

    ghost view = { λ f. record {
      id = f.id.now;
      position = f.position;
      code = f.code;
      element = f.element;
    } };
}

const GS: &[ElementRow] = &[
    must!(Kind::Alphanumeric, FUNCTION_BYTES, FUNCTION_BYTES),
    must!(Kind::Data, LEAST_SIDE, MOST_SIDE),
    must!(Kind::Data, LEAST_SIDE, MOST_SIDE),
    must!(Kind::Date, DATE_DIGITS, DATE_DIGITS),
    must!(Kind::Time, LEAST_TIME, MOST_TIME),
    must!(Kind::Digits, 1, CONTROL_DIGITS),
    must!(Kind::Data, 1, MOST_AGENCY),
    must!(Kind::Data, 1, MOST_VERSION),
];

const GE: &[ElementRow] = &[
    must!(Kind::Digits, 1, SETS_DIGITS),
    must!(Kind::Digits, 1, CONTROL_DIGITS),
];

const ST: &[ElementRow] = &[
    must!(Kind::Alphanumeric, SET_BYTES, SET_BYTES),
    must!(Kind::Alphanumeric, LEAST_SET_CONTROL, MOST_SET_CONTROL),
];

const SE: &[ElementRow] = &[
    must!(Kind::Digits, 1, SEGMENTS_DIGITS),
    must!(Kind::Alphanumeric, LEAST_SET_CONTROL, MOST_SET_CONTROL),
];

const IEA: &[ElementRow] = &[
    must!(Kind::Digits, 1, GROUPS_DIGITS),
    must!(Kind::Digits, CONTROL_DIGITS, CONTROL_DIGITS),
];

/// The least faulty element of a segment by its rows. An element beyond the last row, empty or
/// not, has code 3; None where no element is faulty.
pub fn faulty_element(
    delims: &Delims,
    rows: &[ElementRow],
    segment: &Segment<'_>,
) -> Option<ElementFault>
    ensures { result
        ≡ meant.faulty_element delims.now (map row_of rows.now) segment.now.elements }
{
    for (index, row) in rows.iter().enumerate() {
        if let Some(code) = element_fault(delims, row, segment.element(index + 1)) {
            return Some(ElementFault {
                place: index + 1,
                code,
            });
        }
    }
    if segment.reaches(rows.len() + 1) {
        Some(ElementFault {
            place: rows.len() + 1,
            code: 3,
        })
    } else {
        None
    }
}

// The rows of a control segment.
fn control_rows(id: &[u8]) -> Option<&'static [ElementRow]>
    ensures { option_map (λ r. map row_of r.now) result ≡ meant.rows_in meant.control_rows id.now }
{
    match id {
        b"GS" => Some(GS),
        b"GE" => Some(GE),
        b"ST" => Some(ST),
        b"SE" => Some(SE),
        b"IEA" => Some(IEA),
        _ => None,
    }
}

/// Whether the segment is well formed where it is one of GS, GE, ST, SE and IEA: it has exactly the
/// elements of its rows, all mandatory. Any other segment is.
pub fn is_well_formed(delims: &Delims, segment: &Segment<'_>) -> bool
    ensures { result ≡ meant.is_well_formed delims.now segment.now.elements }
{
    match control_rows(segment.element(0)) {
        Some(rows) => faulty_element(delims, rows, segment).is_none(),
        None => true,
    }
}
