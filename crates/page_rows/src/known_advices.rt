ghost use Rattle.std.specs.Prelude.{◌≡◌, ◌≤◌, length, sum_by, IfOk};
ghost use Rattle.definitions.specs.Rules.{Today};
ghost use Rattle.definitions.specs.Limits.{most_lines};
ghost use Rattle.definitions.specs.Page.{PageAdvice};
ghost use Rattle.page_rows.specs.Keyed.{text_order};
ghost use Rattle.page_rows.specs.Steps.{closed_advice};

use sets_in::Goods;
use std::alloc::AllocError;
use std::cmp::Ordering;
use std::marker::Model;

/// An advice as a page has it.
#[derive(Clone, Drop)]
pub struct KnownAdvice {
    shipment: Vec<u8>,
    order: Vec<u8>,
    lines: Vec<Goods>,
    is_open: bool,
}

impl Model for KnownAdvice {
    ghost Value = { PageAdvice };

    ghost view = { λ k. record {
      shipment = k.shipment.items;
      order = k.order.items;
      lines = k.lines.items;
      is_open = k.is_open;
    } };

    ghost invariant = { λ k. length k.lines.items ≤ most_lines Today };
}

impl KnownAdvice {
    /// An advice of these numbers and at most 999 lines; it is open until it is counted.
    pub fn new(shipment: Vec<u8>, order: Vec<u8>, lines: Vec<Goods>, is_open: bool) -> KnownAdvice
        requires { length lines.items ≤ most_lines Today }

        ensures { result ≡ record {
          shipment = shipment.items;
          order = order.items;
          lines = lines.items;
          is_open = is_open;
        } }
    {
        KnownAdvice {
            shipment,
            order,
            lines,
            is_open,
        }
    }

    /// A copy of it; want of memory is the one error.
    pub fn copy(&self) -> Result<KnownAdvice, AllocError>
        ensures { IfOk result (λ known. known ≡ self.now) }
    {
        self.clone()
    }

    /// Its shipment number, 1 to 22 bytes.
    pub fn shipment(&self) -> &[u8]
        ensures { result.now ≡ self.now.shipment }
    {
        &self.shipment
    }

    /// The number of the order that it belongs to.
    pub fn order(&self) -> &[u8]
        ensures { result.now ≡ self.now.order }
    {
        &self.order
    }

    /// Whether its shipment number comes before this one, is this one, or comes after it.
    pub fn stands_to(&self, shipment: &[u8]) -> Ordering
        ensures { result ≡ text_order self.now.shipment shipment.now }
    {
        self.shipment.as_slice().cmp(&shipment)
    }

    /// What is advised, in the order of its set.
    pub fn lines(&self) -> &[Goods]
        ensures { result.now ≡ self.now.lines }
    {
        &self.lines
    }

    /// A copy of it that is closed; want of memory is the one error.
    pub fn closed(&self) -> Result<KnownAdvice, AllocError>
        ensures { IfOk result (λ known. known ≡ closed_advice self.now) }
    {
        let mut known = self.copy()?;
        known.is_open = false;
        Ok(known)
    }

    /// Whether it hasn't been counted yet.
    pub fn is_open(&self) -> bool
        ensures { result ≡ self.now.is_open }
    {
        self.is_open
    }

    /// The sum of what is advised, in the unit EA.
    pub fn total(&self) -> u64
        ensures { result ≡ sum_by (λ l. l.quantity) self.now.lines }
    {
        total(&self.lines)
    }
}

/// The sum of the quantities of lines, in the unit EA.
pub fn total(lines: &[Goods]) -> u64
    requires { length lines.now ≤ most_lines Today }

    ensures { result ≡ sum_by (λ l. l.quantity) lines.now }
{
    let mut total: u64 = 0;
    for line in lines {
        total += u64::from(line.quantity);
    }
    total
}
