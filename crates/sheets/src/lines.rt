ghost use Rattle.std.specs.Prelude.{◌≡◌, ◌≤◌, ◌-◌, ◌^◌, min, IfOk};
ghost use Rattle.definitions.specs.Bytes as bytes;
ghost use Rattle.definitions.specs.Clerk as clerk;
ghost use Rattle.definitions.specs.Limits.{most_recounted};
ghost use Rattle.sheets.specs.Pairs.{pair_cmp};

use definitions::{MOST_ITEM, MOST_LOT, Rules, SHEET_DIGITS, SheetKind};
use segments::{Ident, all_digits, value_up_to};
use std::alloc::{AllocError, Global};
use std::cmp::Ordering;
use std::marker::Model;

/// A line of a sheet, as it was read: nothing of it is tested yet.
#[derive(Drop)]
pub struct Line {
    /// The text of the item.
    pub item: Vec<u8>,
    /// The text of the lot.
    pub lot: Vec<u8>,
    /// How much, in the unit EA: the text of a number.
    pub quantity: Vec<u8>,
}

impl Model for Line {
    ghost Value = { clerk.RawLine };

    ghost view = { λ l. record {
      item = l.item.items;
      lot = l.lot.items;
      quantity = l.quantity.items;
    } };
}

// Whether the text is digits, at least one.
fn is_number(text: &[u8]) -> bool
    ensures { result ≡ bytes.is_number text.now }
{
    !text.is_empty() && all_digits(text)
}

// Whether the text is an identifier of at least one and at most so many bytes.
fn is_identifier(text: &[u8], most: usize) -> bool
    ensures { result ≡ bytes.is_identifier 1 most text.now }
{
    Ident::new(text, most).is_some()
}

impl Line {
    /// The texts of an item, a lot and a quantity, whatever they are.
    pub fn new(item: Vec<u8>, lot: Vec<u8>, quantity: Vec<u8>) -> Line
        ensures { result ≡ record {
          item = item.items;
          lot = lot.items;
          quantity = quantity.items;
        } }
    {
        Line {
            item,
            lot,
            quantity,
        }
    }

    /// How much, in the unit EA: the value of the quantity's digits, and 4,294,967,295 where that
    /// is greater. A line of a sheet has at most 999,999,999.
    pub fn amount(&self) -> u32
        ensures { result ≡ min (bytes.value self.now.quantity) (2 ^ 32 - 1) }
    {
        value_up_to(&self.quantity, u64::from(u32::MAX)) as u32
    }

    // Whether it picks nothing; more than nine digits aren't read as 0.
    fn picks_nothing(&self, kind: SheetKind) -> bool
        ensures { result ≡ clerk.picks_nothing kind self.now }
    {
        match kind {
            SheetKind::Pick => self.quantity.len() <= SHEET_DIGITS && self.amount() == 0,
            SheetKind::Count | SheetKind::Recount => false,
        }
    }

    // Whether one of its texts can't be read, or it picks nothing.
    pub(crate) fn is_bad(&self, kind: SheetKind) -> bool
        ensures { result ≡ clerk.is_bad_line kind self.now }
    {
        !(is_identifier(&self.item, MOST_ITEM)
            && is_identifier(&self.lot, MOST_LOT)
            && is_number(&self.quantity))
            || self.picks_nothing(kind)
    }

    // Whether its quantity is over the limit.
    pub(crate) fn is_too_much(&self, kind: SheetKind, rules: Rules) -> bool
        ensures { result ≡ clerk.is_too_much rules kind self.now }
    {
        self.quantity.len() > SHEET_DIGITS || self.amount() > kind.most(rules)
    }

    // By item and then lot, each by its bytes.
    pub(crate) fn compare_pair(&self, other: &Line) -> Ordering
        ensures { result ≡ pair_cmp self.now other.now }
    {
        let lots = self.lot.as_slice().cmp(other.lot.as_slice());
        self.item.as_slice().cmp(other.item.as_slice()).then(lots)
    }

    // The line of a sheet with its quantity as a number.
    pub(crate) fn typed(&self, alloc: Global) -> Result<sets_in::Goods, AllocError>
        requires { bytes.value self.now.quantity ≤ most_recounted }

        ensures { IfOk result (λ l. l ≡ clerk.line_of self.now) }
    {
        let item = self.item.clone()?;
        let lot = self.lot.clone()?;
        Ok(sets_in::Goods {
            item,
            lot,
            quantity: self.amount(),
        })
    }
}
