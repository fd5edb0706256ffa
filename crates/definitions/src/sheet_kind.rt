ghost use Rattle.std.specs.Prelude.{◌≡◌};
ghost use Rattle.definitions.specs.Clerk.{quantity_limit};

use crate::limits::{MOST_QUANTITY, MOST_QUANTITY_TWO, MOST_RECOUNTED};
use crate::rules::Rules;

/// What a clerk did, and what its sheet is for.
#[derive(Clone, Copy, PartialEq, Eq)]
pub enum SheetKind {
    /// Goods of an advice were counted: quantities from 0 to 99,999 under rules 1, to 999,999 under
    /// rules 2.
    Count,
    /// Goods were taken for an order: quantities from 1 to 99,999 under rules 1, to 999,999 under
    /// rules 2.
    Pick,
    /// Goods on hand were counted again: quantities from 0 to 999,999,999.
    Recount,
}

impl SheetKind {
    /// The greatest quantity of a line.
    pub fn most(self, rules: Rules) -> u32
        ensures { result ≡ quantity_limit rules self }
    {
        match (self, rules) {
            (SheetKind::Recount, _) => MOST_RECOUNTED,
            (_, Rules::One) => MOST_QUANTITY,
            (_, Rules::Two) => MOST_QUANTITY_TWO,
        }
    }
}
