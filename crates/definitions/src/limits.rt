//! The numbers of the profile, which the definitions and the program share.

/// The most bytes of an interchange.
pub const MOST_BYTES: usize = 1_048_576;

/// The most functional groups of an interchange.
pub const MOST_GROUPS: usize = 100;

/// The most sets of an interchange.
pub const MOST_SETS: usize = 1_000;

/// The most lines of a set or a sheet, under rules 1.
pub const MOST_LINES: u16 = 99;

/// The most lines of a set or a sheet, under rules 2.
pub const MOST_LINES_TWO: u16 = 999;

/// The greatest quantity of a line, under rules 1.
pub const MOST_QUANTITY: u32 = 99_999;

/// The greatest quantity of a line, under rules 2.
pub const MOST_QUANTITY_TWO: u32 = 999_999;

/// The greatest amount that a recount may set.
pub const MOST_RECOUNTED: u32 = 999_999_999;

/// The most numbered entries of a depositor.
pub const MOST_ENTRIES: u32 = 999_999;

/// The most bytes of an item.
pub const MOST_ITEM: usize = 20;

/// The most bytes of a lot.
pub const MOST_LOT: usize = 12;

/// The most bytes of an order, advice or shipment number.
pub const MOST_NUMBER: usize = 22;

/// The most bytes of a clerk's ticket.
pub const MOST_TICKET: usize = 20;

/// The least bytes of a partner's id.
pub const LEAST_PARTNER: usize = 2;

/// The most bytes of a partner's id: the width of ISA06 and ISA08, which spaces fill.
pub const MOST_PARTNER: usize = 15;

/// The most parties of a set: N1, each with its N3 and N4.
pub const MOST_PARTIES: u8 = 5;

/// The most references of a set: N9 before its lines.
pub const MOST_REFERENCES: u8 = 5;

/// The most dates of a set: G62.
pub const MOST_DATES: u8 = 2;

/// The most sets that an acknowledgment tells: AK2.
pub const MOST_TOLD_SETS: u16 = 999;

/// The most segments that are told of a set: AK3.
pub const MOST_TOLD_SEGMENTS: u8 = 99;

/// The most elements that are told of a segment: AK4.
pub const MOST_TOLD_ELEMENTS: u8 = 99;
