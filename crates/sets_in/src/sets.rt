ghost use Rattle.std.specs.Prelude.{◌≡◌};
ghost use Rattle.definitions.specs.Means as meant;
ghost use Rattle.sets_in.specs.Limits.{HasFewLines};

use crate::lines::AdviceLine;
use std::marker::Model;

/// What a shipment advice (943) says.
#[derive(Drop)]
pub struct Advice {
    pub(crate) shipment: Vec<u8>,
    pub(crate) order: Vec<u8>,
    pub(crate) lines: Vec<AdviceLine>,
    pub(crate) total: u32,
    pub(crate) place_of_total: u32,
}

impl Model for Advice {
    ghost Value = { meant.Advice };

    ghost view = { λ a. record {
      shipment = a.shipment.items;
      order = a.order.items;
      lines = a.lines.items;
      total = a.total;
      total_position = a.place_of_total;
    } };

    ghost invariant = { λ a. HasFewLines a.lines.items };
}

impl Advice {
    /// The shipment number (W06, element 4).
    pub fn shipment(&self) -> &[u8]
        ensures { result.now ≡ self.now.shipment }
    {
        &self.shipment
    }

    /// The order number (W06, element 2).
    pub fn order(&self) -> &[u8]
        ensures { result.now ≡ self.now.order }
    {
        &self.order
    }

    /// The lines, in the order of their W04: at most 999, each of a quantity of at most 999,999.
    pub fn lines(&self) -> &[AdviceLine]
        ensures lines { result.now ≡ self.now.lines }
        ensures few { HasFewLines self.now.lines }
    {
        &self.lines
    }

    /// The sum of the quantities as the set states it (W03, element 1), right or wrong.
    pub fn stated_total(&self) -> u32
        ensures { result ≡ self.now.total }
    {
        self.total
    }

    /// The position of W03 in the set, ST at 1.
    pub fn total_position(&self) -> u32
        ensures { result ≡ self.now.total_position }
    {
        self.place_of_total
    }
}

/// Where an order goes: the first N1 of its set with code ST, and the N3 and N4 that belong to it.
/// A text that isn't there is empty.
#[derive(Clone, Drop)]
pub struct Address {
    /// The name (N102).
    pub name: Vec<u8>,
    /// The first line of the street (N301).
    pub one: Vec<u8>,
    /// The second line of the street (N302).
    pub two: Vec<u8>,
    /// City, state and postal code (N401 to N403): those that aren't empty, with a space between
    /// each two.
    pub place: Vec<u8>,
}

impl Model for Address {
    ghost Value = { meant.Address };

    ghost view = { λ a. record {
      name = a.name.items;
      one = a.one.items;
      two = a.two.items;
      place = a.place.items;
    } };
}
