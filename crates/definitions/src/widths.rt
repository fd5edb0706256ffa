//! Widths, in bytes, of what stands in texts. Where an element of X12 is meant, its data element
//! number stands after it.

use crate::limits::MOST_PARTNER;

/// The bytes of ISA with its terminator.
pub const ISA_BYTES: usize = 106;

/// Where ISA's id and its sixteen elements begin, and how wide they are.
pub const ISA_PLACES: [(usize, usize); 17] = [
    (0, 3),
    (4, QUALIFIER_BYTES),
    (7, BLANK_BYTES),
    (18, QUALIFIER_BYTES),
    (21, BLANK_BYTES),
    (32, QUALIFIER_BYTES),
    (35, MOST_PARTNER),
    (51, QUALIFIER_BYTES),
    (54, MOST_PARTNER),
    (70, 6),
    (77, LEAST_TIME),
    (82, 1),
    (84, 5),
    (90, CONTROL_DIGITS),
    (100, 1),
    (102, 1),
    (COMPONENT_AT, 1),
];

/// The offsets of the element separator in ISA.
pub const ISA_SEPARATORS: [usize; 16] = [
    SEPARATOR_AT,
    6,
    17,
    20,
    31,
    34,
    50,
    53,
    69,
    76,
    81,
    83,
    89,
    99,
    101,
    103,
];

/// The offset at which ISA shows the element separator.
pub const SEPARATOR_AT: usize = 3;

/// The offset at which ISA shows the component separator: ISA16.
pub const COMPONENT_AT: usize = 104;

/// The offset at which ISA shows the segment terminator.
pub const TERMINATOR_AT: usize = 105;

/// What ISA02, ISA04, ISA06 and ISA08 are: ISA01, ISA03, ISA05, ISA07 (I01, I03, I05).
pub const QUALIFIER_BYTES: usize = 2;

/// ISA02 and ISA04, which are blank (I02, I04).
pub const BLANK_BYTES: usize = 10;

/// Control numbers of interchanges and groups (I12, 28).
pub const CONTROL_DIGITS: usize = 9;

/// A note in a TA1 (I18).
pub const NOTE_DIGITS: usize = 3;

/// A functional identifier: GS01, AK101 (479).
pub const FUNCTION_BYTES: usize = 2;

/// The sides of a group, the least: GS02, GS03 (142, 124).
pub const LEAST_SIDE: usize = 2;

/// The sides of a group, the most.
pub const MOST_SIDE: usize = 15;

/// A date CCYYMMDD (373).
pub const DATE_DIGITS: usize = 8;

/// A time, the least: HHMM (337).
pub const LEAST_TIME: usize = 4;

/// A time, the most: HHMMSSDD.
pub const MOST_TIME: usize = 8;

/// GS07 (455).
pub const MOST_AGENCY: usize = 2;

/// GS08 (480).
pub const MOST_VERSION: usize = 12;

/// The number of groups in IEA01 (I16).
pub const GROUPS_DIGITS: usize = 5;

/// The number of sets in GE01, AK902, AK903 and AK904 (97).
pub const SETS_DIGITS: usize = 6;

/// The number of segments in SE01 (96).
pub const SEGMENTS_DIGITS: usize = 10;

/// A set's identifier in ST01, AK201 (143).
pub const SET_BYTES: usize = 3;

/// A set's control number in ST02, SE02, AK202, the least, as it is written (329).
pub const LEAST_SET_CONTROL: usize = 4;

/// A set's control number, the most.
pub const MOST_SET_CONTROL: usize = 9;

/// A segment's id, the least (721).
pub const LEAST_SEGMENT: usize = 2;

/// A segment's id, the most.
pub const MOST_SEGMENT: usize = 3;

/// The position of a segment in its set: AK302 (719).
pub const POSITION_DIGITS: usize = 6;

/// AK303 (447).
pub const MOST_LOOP: usize = 4;

/// A syntax error's code: AK304, AK403, AK502 to AK506, AK905 to AK909 (720, 723, 718, 716).
pub const MOST_ERROR: usize = 3;

/// An element's position in its segment, with its parts: AK401 (C030).
pub const MOST_PLACE: usize = 10;

/// AK402 (725).
pub const ELEMENT_DIGITS: usize = 4;

/// The copy of a bad element: AK404 (724).
pub const MOST_COPY: usize = 99;

/// The quantity of a line, under rules 1: W0401, W0101 (382, 330).
pub const QUANTITY_DIGITS: usize = 5;

/// The quantity of a line, under rules 2.
pub const QUANTITY_DIGITS_TWO: usize = 6;

/// The sum of an advice's quantities, under rules 1: W0301 (382).
pub const ADVICE_TOTAL_DIGITS: usize = 7;

/// The sum of an advice's quantities, under rules 2.
pub const ADVICE_TOTAL_DIGITS_TWO: usize = 9;

/// The sum of an order's quantities, under rules 1: W7601 (330).
pub const ORDER_TOTAL_DIGITS: usize = 7;

/// The sum of an order's quantities, under rules 2.
pub const ORDER_TOTAL_DIGITS_TWO: usize = 9;

/// The number of a line: LX01 (554).
pub const LINE_DIGITS: usize = 6;

/// W0403 and W0103, which aren't used (438).
pub const MOST_CASE: usize = 12;

/// What a reference or a party is, the least: N101, N901 (98, 128).
pub const LEAST_QUALIFIER: usize = 2;

/// What a reference or a party is, the most.
pub const MOST_QUALIFIER: usize = 3;

/// A reference: N902 (127).
pub const MOST_REFERENCE: usize = 30;

/// A description: N903 (369).
pub const MOST_DESCRIPTION: usize = 45;

/// What a date is: G6201 (432).
pub const DATE_QUALIFIER_BYTES: usize = 2;

/// A party's name: N102 (93).
pub const MOST_NAME: usize = 60;

/// What a party's code is: N103 (66).
pub const MOST_CODE_QUALIFIER: usize = 2;

/// A party's code, the least: N104 (67).
pub const LEAST_CODE: usize = 2;

/// A party's code, the most.
pub const MOST_CODE: usize = 80;

/// A line of an address: N301, N302 (166).
pub const MOST_STREET: usize = 55;

/// A city, the least: N401 (19).
pub const LEAST_CITY: usize = 2;

/// A city, the most.
pub const MOST_CITY: usize = 30;

/// A state: N402 (156).
pub const STATE_BYTES: usize = 2;

/// A postal code, the least: N403 (116).
pub const LEAST_POSTAL: usize = 3;

/// A postal code, the most.
pub const MOST_POSTAL: usize = 15;

/// A country, the least: N404 (26).
pub const LEAST_COUNTRY: usize = 2;

/// A country, the most.
pub const MOST_COUNTRY: usize = 3;

/// The digits of a quantity in a sheet: a longer one is over every limit.
pub const SHEET_DIGITS: usize = 9;

/// A report's column of an amount.
pub const AMOUNT_COLUMN: usize = 15;

/// A report's column of an entry's number.
pub const NUMBER_COLUMN: usize = 6;

/// A picking sheet's column of a quantity.
pub const QUANTITY_COLUMN: usize = 6;
