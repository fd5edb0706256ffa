//! Why a line isn't made ready.
use crate::told::CommandError;
use std::alloc::AllocError;
use store::{Fault, Refusal};
use unready::Unready;

/// Why a line isn't made ready.
#[derive(Drop)]
pub enum LineStop {
    /// It is refused.
    Refused(Refusal),
    /// Something stopped it before.
    Stopped(CommandError),
}

impl From<Refusal> for LineStop {
    ghost use Rattle.std.specs.Prelude.{◌≡◌};
    ghost use Rattle.commands.specs.declared.line_stops.LineStop.TheVariants.{Refused};

    ghost from_gives = { λ refusal why. why ≡ Refused refusal };

    fn from(refusal: Refusal) -> LineStop {
        LineStop::Refused(refusal)
    }
}

impl From<CommandError> for LineStop {
    ghost use Rattle.std.specs.Prelude.{◌≡◌};
    ghost use Rattle.commands.specs.declared.line_stops.LineStop.TheVariants.{Stopped};

    ghost from_gives = { λ stop why. why ≡ Stopped stop };

    fn from(stop: CommandError) -> LineStop {
        LineStop::Stopped(stop)
    }
}

impl From<AllocError> for LineStop {
    ghost use Rattle.std.specs.Prelude.{◌≡◌};
    ghost use Rattle.commands.specs.LineStops.{wants_memory};

    ghost from_gives = { λ _ why. why ≡ wants_memory };

    fn from(_error: AllocError) -> LineStop {
        LineStop::Stopped(CommandError::Fault(Fault::OutOfMemory))
    }
}

impl From<Unready> for LineStop {
    ghost use Rattle.std.specs.Prelude.{◌≡◌};
    ghost use Rattle.commands.specs.LineStops.{line_stop_of};

    ghost from_gives = { λ unready why. why ≡ line_stop_of unready };

    fn from(unready: Unready) -> LineStop {
        match unready {
            Unready::Refused(refusal) => LineStop::Refused(refusal),
            Unready::OutOfMemory => LineStop::Stopped(CommandError::Fault(Fault::OutOfMemory)),
        }
    }
}
