//! Books of version 1, as statements that lay them down. The program that made such books isn't
//! here any more; what it made stands in bench/version1. The statements are in `data/version1`:
//!
//! - `tables.sql` has the nine tables, and `beside.sql` a table of the house's own after those.
//! - `counted.sql` has the rows of a book of ZZ WHSE1 after three entries of ZZ ACME: its
//!   enrolment, an advice of 100 BOLT, and its count, which found 90. `ordered.sql` has what an
//!   order of 120 BOLT changes then, which finds those 90.
//! - `dated.sql` has the rows of a book in which an advice with a date was refused: an N9 of a line
//!   had no fourth element in version 1.
//! - `order_head.x12` and `order_tail.x12` are what stands before and after the first 99 lines of
//!   an order, and `order_refused.sql` is how version 1 refused it, as a row: the hundredth LX is
//!   the 201st segment of the set.
//!
//! Each statement stands after `@` in a line. What stands below that line, if anything does, are
//! the bytes that it has in place of its `?1`.

use std::alloc::{AllocError, Global};

/// An order of 100 lines, of which the last is of goods that are there: what stands before its
/// other lines, these, and what stands after them. A line break after a segment is no part of it.
/// The error is want of memory.
pub(crate) fn hundred_lines(alloc: Global, head: &str, tail: &str) -> Result<String, AllocError> {
    let mut text = String::new(alloc);
    text.push_str(head)?;
    for n in 0..99 {
        let line = format!(in alloc; "LX*1~W01*1*EA**SK*ITEM-{n}~\n")?;
        text.push_str(&line)?;
    }
    text.push_str(tail)?;
    Ok(text)
}

// The entry of that order, whose bytes come after it.
const ENTRY: &str = "@INSERT INTO entry VALUES (4, 'ZZ-ACME', 'X000000002', 3, '202503040915', ?1)";

/// The rows of the book of three entries after that order, which was refused. The error is want of
/// memory.
pub(crate) fn with_lines(
    alloc: Global,
    counted: &str,
    order: &str,
    refused: &str,
) -> Result<String, AllocError> {
    format!(in alloc; "{counted}{ENTRY}\n{order}{refused}")
}
