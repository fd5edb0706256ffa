ghost use Rattle.std.specs.Prelude.{◌≡◌, Some};
ghost use Rattle.std.specs.Ordering.{nat_cmp};
ghost use Rattle.page_rows.specs.Functions.{function_text};
ghost use Rattle.page_rows.specs.Steps.{decides};

use sets_in::AckIn;
use std::cmp::Ordering;
use std::marker::Model;

/// What kind of document was sent.
#[derive(Clone, Copy, PartialEq, Eq)]
pub enum Function {
    /// A receipt advice (944, of a group RE).
    Receipt,
    /// A shipping advice (945, of a group SW).
    Shipment,
    /// An inventory adjustment advice (947, of a group AW).
    Adjustment,
}

impl Function {
    /// The functional identifier of its group: RE, SW or AW.
    pub fn text(&self) -> &'static [u8]
        ensures { result.now ≡ function_text self.now }
    {
        match self {
            Function::Receipt => b"RE",
            Function::Shipment => b"SW",
            Function::Adjustment => b"AW",
        }
    }
}

/// A document that was sent.
#[derive(Drop)]
pub struct KnownDocument {
    /// The number of its entry, 1 to 999,999.
    pub n: u32,
    /// What kind of document it is.
    pub function: Function,
    /// What the first acknowledgment of it said, whether it is accepted; None before there is one.
    pub said: Option<bool>,
}

impl Model for KnownDocument {
    ghost use Rattle.definitions.specs.Page.{PageDocument};
    ghost use Rattle.page_rows.specs.Functions.{function_text};

    ghost Value = { PageDocument };

    ghost view = { λ d. record { n = d.n; function = function_text d.function; said = d.said } };
}

impl KnownDocument {
    /// Whether its number comes before this one, is this one, or comes after it.
    pub fn stands_to(&self, n: u32) -> Ordering
        ensures { result ≡ nat_cmp self.now.n n }
    {
        self.n.cmp(&n)
    }

    /// Whether an acknowledgment decides it, which the entry after this number brings.
    pub fn is_decided_by(&self, entries: u32, ack: &AckIn) -> bool
        ensures { result ≡ decides entries ack.now self.now }
    {
        self.n <= entries
            && ack.document == self.n
            && ack.function.as_slice() == self.function.text()
            && self.said.is_none()
    }

    /// Keeps what an acknowledgment said of it.
    pub fn keep(&mut self, accepts: bool)
        ensures { self.new ≡ record self.old { said = Some accepts } }
    {
        self.said = Some(accepts);
    }
}
