use crate::noted::NotedSeal;
use store::{Fault, Keeper};

/// A book whose register can be sealed. Nothing is written; 40, 41 and 43 are the faults of a
/// query, 42 is that of a book that has to be opened again.
pub trait Sealed: Keeper {
    ghost use Rattle.std.specs.Prelude.{◌≡◌, IfOk};
    ghost use Rattle.store.specs.Standing.{IsQuery, OfAnyKept};
    ghost use Rattle.seals.specs.Noted as meant;
    ghost use Rattle.seals.specs.Noted.{noted_in, noted_of_first};

    /// The seal of the register, with the number of its entries and the moment of the last.
    fn seal(&mut self) -> Result<NotedSeal, Fault>
        ensures seal { OfAnyKept (Self.Keeper.standing self.old) (Self.Keeper.standing self.new)
            (λ L. IfOk result (λ seal. meant.noted seal ≡ meant.noted_of L)) }
        ensures query { IsQuery (Self.Keeper.standing self.old) (Self.Keeper.standing self.new)
            result };

    /// The same of the first so many entries of the register; None where it has fewer.
    fn seal_of_first(&mut self, count: u64) -> Result<Option<NotedSeal>, Fault>
        ensures seal { OfAnyKept (Self.Keeper.standing self.old) (Self.Keeper.standing self.new)
            (λ L. IfOk result (λ seal. noted_in seal ≡ noted_of_first count L)) }
        ensures query { IsQuery (Self.Keeper.standing self.old) (Self.Keeper.standing self.new)
            result };
}
