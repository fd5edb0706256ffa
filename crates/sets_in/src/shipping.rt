ghost use Rattle.std.specs.Prelude.{◌≡◌, MatchOption, None, option_map};
ghost use Rattle.definitions.specs.Means as meant;
ghost use Rattle.sets_in.specs.Limits.{HasFewOrderLines};

use crate::sets::Address;
use std::marker::Model;

/// A line of an order: of one lot alone where it is pinned to that.
#[derive(Drop)]
pub struct OrderLine {
    /// The item (W01, element 5).
    pub item: Vec<u8>,
    /// The lot that it is pinned to (element 2 of the N9 after its W01), if there is one.
    pub pin: Option<Vec<u8>>,
    /// How much, in the unit EA (W01, element 1).
    pub quantity: u32,
    /// The position of its W01 in the set, ST at 1.
    pub position: u32,
}

impl Model for OrderLine {
    ghost Value = { meant.OrderLine };

    ghost view = { λ l. record {
      item = l.item.items;
      pin = option_map (λ v. v.items) l.pin;
      quantity = l.quantity;
      position = l.position;
    } };
}

/// What a shipping order (940) says.
#[derive(Drop)]
pub struct Order {
    pub(crate) number: Vec<u8>,
    pub(crate) address: Option<Address>,
    pub(crate) lines: Vec<OrderLine>,
    pub(crate) total: u32,
    pub(crate) place_of_total: u32,
}

impl Model for Order {
    ghost Value = { meant.Order };

    ghost view = { λ o. record {
      number = o.number.items;
      address = o.address;
      lines = o.lines.items;
      total = o.total;
      total_position = o.place_of_total;
    } };

    ghost invariant = { λ o. HasFewOrderLines o.lines.items };
}

impl Order {
    /// The order number (W05, element 2).
    pub fn number(&self) -> &[u8]
        ensures { result.now ≡ self.now.number }
    {
        &self.number
    }

    /// Where it goes; None where no N1 has the code ST.
    pub fn address(&self) -> Option<&Address>
        ensures { MatchOption result (self.now.address ≡ None)
            (λ a. self.now.address ≡ Some a.now) }
    {
        self.address.as_ref()
    }

    /// The lines, in the order of their W01: at most 999, each of a quantity of at most 999,999.
    pub fn lines(&self) -> &[OrderLine]
        ensures lines { result.now ≡ self.now.lines }
        ensures few { HasFewOrderLines self.now.lines }
    {
        &self.lines
    }

    /// The sum of the quantities as the set states it (W76, element 1), right or wrong.
    pub fn stated_total(&self) -> u32
        ensures { result ≡ self.now.total }
    {
        self.total
    }

    /// The position of W76 in the set, ST at 1.
    pub fn total_position(&self) -> u32
        ensures { result ≡ self.now.total_position }
    {
        self.place_of_total
    }
}
