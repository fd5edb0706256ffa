//! Why what was asked for isn't made ready.
#![tactic(auto)]

ghost use Rattle.std.specs.Prelude.{◌≡◌};

use definitions::Refusal;
use std::alloc::AllocError;

/// Why what was asked for isn't made ready.
#[derive(Clone, Copy)]
pub enum Unready {
    /// It is refused.
    Refused(Refusal),
    /// A growth was refused.
    OutOfMemory,
}

impl From<AllocError> for Unready {
    ghost use Rattle.unready.specs.declared.Unready.TheVariants.{OutOfMemory};

    ghost from_gives = { λ _ why. why ≡ OutOfMemory };

    fn from(_error: AllocError) -> Unready {
        Unready::OutOfMemory
    }
}

impl From<Refusal> for Unready {
    ghost use Rattle.unready.specs.declared.Unready.TheVariants.{Refused};

    ghost from_gives = { λ refusal why. why ≡ Refused refusal };

    fn from(refusal: Refusal) -> Unready {
        Unready::Refused(refusal)
    }
}
