ghost use Rattle.definitions.specs.Means.{Line as MeantLine};
ghost use Rattle.sets_out.specs.Documents.{PickedLot as MeantLot, ShippedLine as MeantShipped, AdjustedLine as MeantAdjusted};

use std::marker::Model;

/// A quantity of a lot of an item.
#[derive(Drop)]
pub struct CountedLine<'a> {
    /// The item.
    pub item: &'a [u8],
    /// The lot.
    pub lot: &'a [u8],
    /// How many pieces.
    pub quantity: u64,
}

impl<'a> Model for CountedLine<'a> {
    ghost Value = { MeantLine };

    ghost view = { λ l. record { item = l.item.now; lot = l.lot.now; quantity = l.quantity } };
}

/// What a 944 tells of a count.
#[derive(Drop)]
pub struct Receipt<'a> {
    /// The order of the advice, W0602 of its 943.
    pub order: &'a [u8],
    /// The shipment of the advice, W0604.
    pub shipment: &'a [u8],
    /// Each pair of item and lot that was advised or counted, with what was counted: 0 where
    /// nothing was.
    pub lines: &'a [CountedLine<'a>],
    /// The sum of what was counted.
    pub counted: u64,
    /// The sum of what was advised.
    pub advised: u64,
}

/// What was picked of a lot.
#[derive(Drop)]
pub struct PickedLot<'a> {
    /// The lot.
    pub lot: &'a [u8],
    /// How many pieces.
    pub quantity: u64,
}

impl<'a> Model for PickedLot<'a> {
    ghost Value = { MeantLot };

    ghost view = { λ k. record { lot = k.lot.now; quantity = k.quantity } };
}

/// A line of an order with what was picked of its item.
#[derive(Drop)]
pub struct ShippedLine<'a> {
    /// The item.
    pub item: &'a [u8],
    /// How many pieces were ordered.
    pub ordered: u64,
    /// How many were picked: the sum of the lots.
    pub shipped: u64,
    /// The lots that were picked, by their bytes.
    pub lots: Vec<PickedLot<'a>>,
}

impl<'a> Model for ShippedLine<'a> {
    ghost Value = { MeantShipped };

    ghost view = { λ l. record {
      item = l.item.now;
      ordered = l.ordered;
      shipped = l.shipped;
      lots = l.lots.items;
    } };
}

/// What a 945 tells of a pick.
#[derive(Drop)]
pub struct Shipment<'a> {
    /// The order, W0502 of its 940.
    pub order: &'a [u8],
    /// The lines of the order, as ordered.
    pub lines: &'a [ShippedLine<'a>],
    /// The sum of all that was picked.
    pub shipped: u64,
}

/// A pair of item and lot that was recounted.
#[derive(Drop)]
pub struct AdjustedLine<'a> {
    /// The item.
    pub item: &'a [u8],
    /// The lot.
    pub lot: &'a [u8],
    /// How many pieces were on hand before.
    pub before: u64,
    /// How many there are now.
    pub after: u64,
}

impl<'a> Model for AdjustedLine<'a> {
    ghost Value = { MeantAdjusted };

    ghost view = { λ l. record {
      item = l.item.now;
      lot = l.lot.now;
      before = l.before;
      after = l.after;
    } };
}

/// A document, written from what a clerk's act found.
#[derive(Clone, Copy)]
pub enum Document<'a> {
    /// A count: a 944 in an RE group.
    Received(&'a Receipt<'a>),
    /// A pick: a 945 in an SW group.
    Shipped(&'a Shipment<'a>),
    /// A recount: a 947 in an AW group, of the pairs that were recounted, by item and lot.
    Adjusted(&'a [AdjustedLine<'a>]),
}
