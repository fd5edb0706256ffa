use std::alloc::AllocError;

/// Why an interchange is halted after its header.
#[derive(Drop)]
pub enum Halt {
    /// The code of the note, as TA105 tells it in three digits: 23 the text ends early, 22 the
    /// trailer IEA, 1 the control numbers, 21 the number of groups, 24 the content.
    Note(u8),
    /// Memory couldn't be had.
    OutOfMemory,
}

impl From<AllocError> for Halt {
    ghost use Rattle.std.specs.Prelude.{◌≡◌};
    ghost use Rattle.envelope.specs.declared.halt.Halt.TheVariants.{OutOfMemory};

    ghost from_gives = { λ _ h. h ≡ OutOfMemory };

    fn from(_: AllocError) -> Halt {
        Halt::OutOfMemory
    }
}
