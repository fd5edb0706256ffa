ghost use Rattle.std.specs.Prelude.{◌≡◌, bytes_eq, find};
ghost use Rattle.definitions.specs.Words.{kind_function, kind_number, set_kinds};

/// The sets that are read.
#[derive(Clone, Copy)]
pub enum SetKind {
    /// 940, in groups OW.
    ShippingOrder,
    /// 943, in groups AR.
    ShipmentAdvice,
    /// 997, in groups FA.
    FunctionalAcknowledgment,
}

impl SetKind {
    /// The kind of the sets in a group with this functional identifier (GS01); None where no such
    /// set is read.
    pub fn of_function(function: &[u8]) -> Option<SetKind>
        ensures { result ≡ find (λ k. bytes_eq (kind_function k) function.now) set_kinds }
    {
        match function {
            b"OW" => Some(SetKind::ShippingOrder),
            b"AR" => Some(SetKind::ShipmentAdvice),
            b"FA" => Some(SetKind::FunctionalAcknowledgment),
            _ => None,
        }
    }

    /// The number of the set (ST01).
    pub fn number(self) -> &'static [u8]
        ensures { result.now ≡ kind_number self }
    {
        match self {
            SetKind::ShippingOrder => b"940",
            SetKind::ShipmentAdvice => b"943",
            SetKind::FunctionalAcknowledgment => b"997",
        }
    }
}
