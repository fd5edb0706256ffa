ghost use Rattle.std.specs.Prelude.{◌≡◌, IfOk, option_map};
ghost use Rattle.definitions.specs.Page.{PageLine, PageOrder};
ghost use Rattle.page_rows.specs.Keyed.{text_order};
ghost use Rattle.page_rows.specs.Steps.{closed_order};

use sets_in::{Address, Goods};
use std::alloc::AllocError;
use std::cmp::Ordering;
use std::marker::Model;

/// A line of an order as a page has it.
#[derive(Clone, Drop)]
pub struct KnownLine {
    /// Its item.
    pub item: Vec<u8>,
    /// The lot that it is pinned to, if there is one.
    pub pin: Option<Vec<u8>>,
    /// How much is ordered, in the unit EA.
    pub quantity: u32,
}

impl Model for KnownLine {
    ghost Value = { PageLine };

    ghost view = { λ l. record {
      item = l.item.items;
      pin = option_map (λ v. v.items) l.pin;
      quantity = l.quantity;
    } };
}

/// An order as a page has it.
#[derive(Clone, Drop)]
pub struct KnownOrder {
    /// Its number, 1 to 22 bytes.
    pub number: Vec<u8>,
    /// Where it goes, if its set said so.
    pub address: Option<Address>,
    /// Its lines, in the order of its set.
    pub lines: Vec<KnownLine>,
    /// What is reserved for it, by item and lot, each above 0; nothing where it was picked.
    pub reserved: Vec<Goods>,
    /// Whether it hasn't been picked yet.
    pub is_open: bool,
}

impl Model for KnownOrder {
    ghost Value = { PageOrder };

    ghost view = { λ k. record {
      number = k.number.items;
      address = k.address;
      lines = k.lines.items;
      reserved = k.reserved.items;
      is_open = k.is_open;
    } };
}

impl KnownOrder {
    /// A copy of it; want of memory is the one error.
    pub fn copy(&self) -> Result<KnownOrder, AllocError>
        ensures { IfOk result (λ known. known ≡ self.now) }
    {
        self.clone()
    }

    /// Whether its number comes before this one, is this one, or comes after it.
    pub fn stands_to(&self, number: &[u8]) -> Ordering
        ensures { result ≡ text_order self.now.number number.now }
    {
        self.number.as_slice().cmp(&number)
    }

    /// A copy of it that is closed: nothing is reserved for it any more. Want of memory is the one
    /// error.
    pub fn closed(&self) -> Result<KnownOrder, AllocError>
        ensures { IfOk result (λ known. known ≡ closed_order self.now) }
    {
        let mut known = self.copy()?;
        known.reserved.clear();
        known.is_open = false;
        Ok(known)
    }
}
