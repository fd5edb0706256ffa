ghost use Rattle.std.specs.Prelude.{◌≡◌, ◌<◌, [], Some, IfErr, IfOk, length, option_map};
ghost use Rattle.definitions.specs.Rules.{Today};
ghost use Rattle.definitions.specs.Limits.{most_lines};
ghost use Rattle.definitions.specs.Page.{PageAdvice, page_of};
ghost use Rattle.definitions.specs.Register as register;
ghost use Rattle.rules.specs.Pages.{advice_at};
ghost use Rattle.book_statements.specs.Asking.{Asked, OfStanding};
ghost use Rattle.book_tables.specs.Looking.{bare_advice, lines_advised};
ghost use Rattle.book_tables.specs.Showing.{advice_shown};

use crate::connected::Tables;
use crate::line_rows::lines_in;
use crate::reading::{flag_at, text_at};
use definitions::MOST_LINES_TWO;
use rules::{Goods, KnownAdvice, Who};
use sqlite::{Alter, Row};
use std::alloc::{AllocError, Global};
use std::marker::Model;
use store::Fault;

// An advice as its row has it, without its lines.
#[derive(Drop)]
struct BareAdvice {
    shipment: Vec<u8>,
    order: Vec<u8>,
    is_open: bool,
}

impl Model for BareAdvice {
    ghost Value = { PageAdvice };

    ghost view = { λ a. record {
      shipment = a.shipment.items;
      order = a.order.items;
      lines = [];
      is_open = a.is_open;
    } };
}

// The advice that a row of shipment, ord and is_open shows, but for its lines; None where it shows
// none.
fn advice_in(alloc: Global, row: &Row) -> Result<Option<BareAdvice>, AllocError>
    ensures { (a : PageAdvice) → row.now ≡ advice_shown a
        → IfOk result (λ shown. shown ≡ Some (bare_advice a)) }
{
    let Some(shipment) = text_at(row, 0) else {
        return Ok(None);
    };
    let Some(order) = text_at(row, 1) else {
        return Ok(None);
    };
    let Some(is_open) = flag_at(row, 2) else {
        return Ok(None);
    };
    Ok(Some(BareAdvice {
        shipment: Vec::from_slice(alloc, shipment)?,
        order: Vec::from_slice(alloc, order)?,
        is_open,
    }))
}

// An advice with its lines. 43 where they are more than an advice has.
fn with_lines(bare: BareAdvice, lines: Vec<Goods>) -> Result<Option<KnownAdvice>, Fault>
    ensures whole { IfOk result (λ advice. advice ≡ Some (record bare { lines = lines.items })) }
    ensures many { IfErr result (λ fault. (fault ≡ Fault.NotThisBook)
        × (most_lines Today < length lines.items)) }
{
    if lines.len() > usize::from(MOST_LINES_TWO) {
        return Err(Fault::NotThisBook);
    }
    Ok(Some(KnownAdvice::new(bare.shipment, bare.order, lines, bare.is_open)))
}

impl<S: Alter + Drop> Tables<S> {
    // A depositor's advice under a shipment number, but for its lines; None where there is none. 43
    // where its row shows none.
    fn bare_advice(
        &mut self,
        alloc: Global,
        who: Who,
        shipment: &[u8],
    ) -> Result<Option<BareAdvice>, Fault>
        ensures advice { OfStanding S.Store self.old self.new
            (λ W L. IfOk result (λ advice. advice ≡ option_map bare_advice
            (advice_at shipment.now (page_of (register.own L who)).advices))) }
        ensures asked { Asked S.Store self.old self.new result }
    {
        let rows = self.under_text(
            "SELECT shipment, ord, is_open FROM advice WHERE who = ?1 AND shipment = ?2",
            who,
            shipment,
        )?;
        let Some(row) = rows.first() else {
            return Ok(None);
        };
        match advice_in(alloc, row)? {
            Some(advice) => Ok(Some(advice)),
            None => Err(Fault::NotThisBook),
        }
    }

    // The lines of a depositor's advice under a shipment number; nothing where there is none. 43
    // where a row shows no line.
    fn advice_lines(
        &mut self,
        alloc: Global,
        who: Who,
        shipment: &[u8],
    ) -> Result<Vec<Goods>, Fault>
        ensures lines { OfStanding S.Store self.old self.new
            (λ W L. IfOk result (λ lines. lines.items ≡ lines_advised
            (advice_at shipment.now (page_of (register.own L who)).advices))) }
        ensures asked { Asked S.Store self.old self.new result }
    {
        let rows = self.under_text(
            "SELECT item, lot, quantity FROM advice_line WHERE who = ?1 AND shipment = ?2 ORDER BY line",
            who,
            shipment,
        )?;
        match lines_in(alloc, &rows)? {
            Some(lines) => Ok(lines),
            None => Err(Fault::NotThisBook),
        }
    }

    /// A depositor's advice under a shipment number; None where there is none. 43 where a row shows
    /// none.
    pub(crate) fn advice_under(
        &mut self,
        alloc: Global,
        who: Who,
        shipment: &[u8],
    ) -> Result<Option<KnownAdvice>, Fault>
        ensures advice { OfStanding S.Store self.old self.new
            (λ W L. IfOk result (λ advice. advice ≡ advice_at shipment.now
            (page_of (register.own L who)).advices)) }
        ensures asked { Asked S.Store self.old self.new result }
    {
        let Some(bare) = self.bare_advice(alloc, who, shipment)? else {
            return Ok(None);
        };
        match self.advice_lines(alloc, who, shipment) {
            Ok(lines) => with_lines(bare, lines),
            Err(fault) => Err(fault),
        }
    }
}
