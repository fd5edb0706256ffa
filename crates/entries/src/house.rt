ghost use Rattle.std.specs.Prelude.{◌≡◌};
ghost use Rattle.definitions.specs.Header.{Who as Partner};

use segments::Who;
use std::marker::Model;

/// The warehouse that keeps the book: the partner that interchanges are addressed to.
#[derive(Clone, Copy)]
pub struct Warehouse {
    /// Its name, as ISA07 and ISA08 have it.
    pub who: Who,
}

impl Model for Warehouse {
    ghost Value = { Partner };

    ghost view = { λ w. w.who };

    ghost inverse = { λ w. record { who = w } };
}

impl Warehouse {
    /// The warehouse of this name.
    pub fn new(who: Who) -> Warehouse
        ensures { result ≡ who }
    {
        Warehouse { who }
    }

    /// Its name.
    pub fn who(&self) -> Who
        ensures { result ≡ self.now }
    {
        self.who
    }
}
