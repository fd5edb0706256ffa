ghost use Rattle.std.specs.Prelude.{◌≡◌, ◌<◌, ◌^◌, ℕ, List, Option, Some, IfOk, map, option_map, true, length, IfSome, MatchOption, ◌≤◌};
ghost use Rattle.std.specs.List.{list_all};
ghost use Rattle.definitions.specs.Rules.{Today};
ghost use Rattle.definitions.specs.Means.{Address as Told};
ghost use Rattle.definitions.specs.Tables.{address_cells, text_or_null};
ghost use Rattle.definitions.specs.Page.{PageLine, PageOrder, page_of};
ghost use Rattle.definitions.specs.Register as register;
ghost use Rattle.rules.specs.Pages.{order_at};
ghost use Rattle.rules.specs.Fitting.{is_fitting_ordered};
ghost use Rattle.sqlite.specs.Order.{column};
ghost use Rattle.book_statements.specs.Held.{value_of};
ghost use Rattle.book_statements.specs.Asking.{Asked, OfStanding};
ghost use Rattle.book_tables.specs.Looking.{bare_order, lines_ordered, lines_reserved};
ghost use Rattle.book_tables.specs.Showing.{AreAt, lent_text, to_cells, order_shown, order_line_shown};

use crate::connected::Tables;
use crate::line_rows::lines_in;
use crate::reading::{flag_at, small_at, text_at, text_or_null_at};
use rules::{Address, Goods, KnownLine, KnownOrder, Who};
use sqlite::{Alter, Row};
use std::alloc::{AllocError, Global};
use store::Fault;

// The address that a name, which may be NULL, and three texts tell; None where they tell none:
// without a name the others are empty.
fn address_of(
    alloc: Global,
    name: Option<&[u8]>,
    one: &[u8],
    two: &[u8],
    place: &[u8],
) -> Result<Option<Option<Address>>, AllocError>
    ensures { IfOk result (λ told. MatchOption told ((a : Option Told)
        → address_cells a ≡ to_cells (lent_text name.entry) one.now two.now place.now → ⊥)
        (λ a. address_cells a ≡ to_cells (lent_text name.entry) one.now two.now place.now)) }
{
    let Some(name) = name else {
        if one.is_empty() && two.is_empty() && place.is_empty() {
            return Ok(Some(None));
        }
        return Ok(None);
    };
    Ok(Some(Some(Address {
        name: Vec::from_slice(alloc, name)?,
        one: Vec::from_slice(alloc, one)?,
        two: Vec::from_slice(alloc, two)?,
        place: Vec::from_slice(alloc, place)?,
    })))
}

// The address in the last four columns of a row of an order, if it has one; None where these show
// neither an address nor that there is none.
fn address_in(alloc: Global, row: &Row) -> Result<Option<Option<Address>>, AllocError>
    ensures shows { (o : PageOrder) → row.now ≡ order_shown o
        → IfOk result (λ shown. shown ≡ Some o.address) }
    ensures only { IfOk result (λ shown. MatchOption shown ((a : Option Told)
        → AreAt row.now 2 (address_cells a) → ⊥) (λ a. AreAt row.now 2 (address_cells a))) }
{
    let Some(name) = text_or_null_at(row, 2) else {
        return Ok(None);
    };
    let Some(one) = text_at(row, 3) else {
        return Ok(None);
    };
    let Some(two) = text_at(row, 4) else {
        return Ok(None);
    };
    let Some(place) = text_at(row, 5) else {
        return Ok(None);
    };
    address_of(alloc, name, one, two, place)
}

// The order that a row of ord, is_open and the address shows, but for its lines and what is
// reserved; None where it shows none.
fn order_in(alloc: Global, row: &Row) -> Result<Option<KnownOrder>, AllocError>
    ensures { (o : PageOrder) → row.now ≡ order_shown o
        → IfOk result (λ shown. shown ≡ Some (bare_order o)) }
{
    let Some(number) = text_at(row, 0) else {
        return Ok(None);
    };
    let Some(is_open) = flag_at(row, 1) else {
        return Ok(None);
    };
    let Some(address) = address_in(alloc, row)? else {
        return Ok(None);
    };
    Ok(Some(KnownOrder {
        number: Vec::from_slice(alloc, number)?,
        address,
        lines: Vec::new(alloc),
        reserved: Vec::new(alloc),
        is_open,
    }))
}

// The lot that a line's row pins it to, if it does; None where the column has another value than a
// text or NULL.
fn pin_in(alloc: Global, row: &Row) -> Result<Option<Option<Vec<u8>>>, AllocError>
    ensures shows { (l : PageLine) → row.now ≡ order_line_shown l → IfOk result
        (λ shown. option_map (λ pin. option_map (λ v. v.items) pin) shown ≡ Some l.pin) }
    ensures only { IfOk result (λ shown. MatchOption shown ((pin : Option (List ℕ))
        → 1 < length row.now → column row.now 1 ≡ value_of (text_or_null pin) → ⊥)
        (λ pin. column row.now 1 ≡ value_of (text_or_null (option_map (λ v. v.items) pin)))) }
{
    let Some(lot) = text_or_null_at(row, 1) else {
        return Ok(None);
    };
    match lot {
        Some(lot) => Ok(Some(Some(Vec::from_slice(alloc, lot)?))),
        None => Ok(Some(None)),
    }
}

// The line that a row of item, lot and quantity shows; None where it shows none.
fn order_line_in(alloc: Global, row: &Row) -> Result<Option<KnownLine>, AllocError>
    ensures { (l : PageLine) → l.quantity < 2 ^ 32 → row.now ≡ order_line_shown l
        → IfOk result (λ shown. shown ≡ Some l) }
{
    let Some(item) = text_at(row, 0) else {
        return Ok(None);
    };
    let Some(quantity) = small_at(row, 2) else {
        return Ok(None);
    };
    let Some(pin) = pin_in(alloc, row)? else {
        return Ok(None);
    };
    Ok(Some(KnownLine {
        item: Vec::from_slice(alloc, item)?,
        pin,
        quantity,
    }))
}

// The lines that rows of item, lot and quantity show; None where one of them shows none.
fn order_lines_in(alloc: Global, rows: &[Row]) -> Result<Option<Vec<KnownLine>>, AllocError>
    ensures shows { (ls : List PageLine) → list_all (is_fitting_ordered Today) ls ≡ true
        → rows.now ≡ map order_line_shown ls → IfOk result
        (λ shown. option_map (λ v. v.items) shown ≡ Some ls) }
    ensures all { IfOk result (λ shown. IfSome shown (λ v. length rows.now ≤ length v.items)) }
{
    let mut shown = Vec::new(alloc);
    for row in rows {
        let Some(line) = order_line_in(alloc, row)? else {
            return Ok(None);
        };
        shown.push(line)?;
    }
    Ok(Some(shown))
}

impl<S: Alter + Drop> Tables<S> {
    // A depositor's order under a number, but for its lines and what is reserved for it; None where
    // there is none. 43 where its row shows none.
    fn bare_order(
        &mut self,
        alloc: Global,
        who: Who,
        number: &[u8],
    ) -> Result<Option<KnownOrder>, Fault>
        ensures order { OfStanding S.Store self.old self.new
            (λ W L. IfOk result (λ order. order ≡ option_map bare_order
            (order_at number.now (page_of (register.own L who)).orders))) }
        ensures asked { Asked S.Store self.old self.new result }
    {
        let rows = self.under_text(
            "SELECT ord, is_open, to_name, to_one, to_two, to_place FROM orders WHERE who = ?1 AND ord = ?2",
            who,
            number,
        )?;
        let Some(row) = rows.first() else {
            return Ok(None);
        };
        match order_in(alloc, row)? {
            Some(order) => Ok(Some(order)),
            None => Err(Fault::NotThisBook),
        }
    }

    // The lines of a depositor's order under a number; nothing where there is none. 43 where a row
    // shows no line.
    fn order_lines(
        &mut self,
        alloc: Global,
        who: Who,
        number: &[u8],
    ) -> Result<Vec<KnownLine>, Fault>
        ensures lines { OfStanding S.Store self.old self.new
            (λ W L. IfOk result (λ lines. lines.items ≡ lines_ordered
            (order_at number.now (page_of (register.own L who)).orders))) }
        ensures asked { Asked S.Store self.old self.new result }
    {
        let rows = self.under_text(
            "SELECT item, lot, quantity FROM order_line WHERE who = ?1 AND ord = ?2 ORDER BY line",
            who,
            number,
        )?;
        match order_lines_in(alloc, &rows)? {
            Some(lines) => Ok(lines),
            None => Err(Fault::NotThisBook),
        }
    }

    // What is reserved for a depositor's order under a number; nothing where there is none. 43
    // where a row shows no line.
    fn reserved_lines(
        &mut self,
        alloc: Global,
        who: Who,
        number: &[u8],
    ) -> Result<Vec<Goods>, Fault>
        ensures lines { OfStanding S.Store self.old self.new
            (λ W L. IfOk result (λ lines. lines.items ≡ lines_reserved
            (order_at number.now (page_of (register.own L who)).orders))) }
        ensures asked { Asked S.Store self.old self.new result }
    {
        let rows = self.under_text(
            "SELECT item, lot, quantity FROM reservation WHERE who = ?1 AND ord = ?2 ORDER BY item, lot",
            who,
            number,
        )?;
        match lines_in(alloc, &rows)? {
            Some(lines) => Ok(lines),
            None => Err(Fault::NotThisBook),
        }
    }

    // What belongs to a depositor's order under a number: its lines, and what is reserved for it.
    fn order_parts(
        &mut self,
        alloc: Global,
        who: Who,
        number: &[u8],
    ) -> Result<(Vec<KnownLine>, Vec<Goods>), Fault>
        ensures parts { OfStanding S.Store self.old self.new
            (λ W L. IfOk result (λ parts. (parts.0.items ≡ lines_ordered
            (order_at number.now (page_of (register.own L who)).orders))
            × (parts.1.items ≡ lines_reserved (order_at number.now
            (page_of (register.own L who)).orders)))) }
        ensures asked { Asked S.Store self.old self.new result }
    {
        let lines = self.order_lines(alloc, who, number)?;
        match self.reserved_lines(alloc, who, number) {
            Ok(reserved) => Ok((lines, reserved)),
            Err(fault) => Err(fault),
        }
    }

    /// A depositor's order under a number; None where there is none. 43 where a row shows none.
    pub(crate) fn order_under(
        &mut self,
        alloc: Global,
        who: Who,
        number: &[u8],
    ) -> Result<Option<KnownOrder>, Fault>
        ensures order { OfStanding S.Store self.old self.new
            (λ W L. IfOk result (λ order. order ≡ order_at number.now
            (page_of (register.own L who)).orders)) }
        ensures asked { Asked S.Store self.old self.new result }
    {
        let Some(mut order) = self.bare_order(alloc, who, number)? else {
            return Ok(None);
        };
        match self.order_parts(alloc, who, number) {
            Ok((lines, reserved)) => {
                order.lines = lines;
                order.reserved = reserved;
                Ok(Some(order))
            }
            Err(fault) => Err(fault),
        }
    }
}
