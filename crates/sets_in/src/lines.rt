ghost use Rattle.std.specs.Prelude.{option_map};
ghost use Rattle.definitions.specs.Means.{Line as LineSaid, AdviceLine as AdviceLineSaid};

use std::marker::Model;

/// A quantity of a lot of an item.
#[derive(Clone, Drop)]
pub struct Goods {
    /// The item (W04 or W01, element 5).
    pub item: Vec<u8>,
    /// The lot (N9 after it, element 2).
    pub lot: Vec<u8>,
    /// How much, in the unit EA (element 1).
    pub quantity: u32,
}

impl Model for Goods {
    ghost Value = { LineSaid };

    ghost view = { λ l. record { item = l.item.items; lot = l.lot.items; quantity = l.quantity } };
}

/// A line of an advice.
#[derive(Drop)]
pub struct AdviceLine {
    /// What is advised.
    pub line: Goods,
    /// The day on which the lot expires, eight digits CCYYMMDD (element 4 of the N9 after its W04),
    /// if it is given.
    pub expiry: Option<Vec<u8>>,
    /// The position of its W04 in the set, ST at 1; its N9 stands directly after.
    pub position: u32,
}

impl Model for AdviceLine {
    ghost Value = { AdviceLineSaid };

    ghost view = { λ l. record {
      line = l.line;
      expiry = option_map (λ v. v.items) l.expiry;
      position = l.position;
    } };
}
