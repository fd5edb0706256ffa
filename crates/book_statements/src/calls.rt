ghost use Rattle.std.specs.Prelude.{◌≡◌, ◌≢◌, ◌+◌, ◌-◌, ◌^◌, min, IfErr, OnErr, OnOk, None, Some};
ghost use Rattle.book_statements.specs.Faults.{fault_of_call, IsCallFault};
ghost use Rattle.book_statements.specs.Limits.{Spends, Spent, fewer};
ghost use Rattle.book_statements.specs.Rises.{Rises};

use sqlite::{Error, ErrorCode};
use store::Fault;

/// How many calls of a store were refused and how many were made, and how many more may be.
#[derive(Clone, Copy, Drop)]
pub struct Calls {
    /// How many were refused; at its greatest number the count stays.
    pub refused: u64,
    /// How many were made; at its greatest number the count stays.
    pub made: u64,
    /// How many more may be made, any number where this is None.
    pub limit: Option<u64>,
}

impl Calls {
    /// No call was made yet, and any number may be.
    pub fn new() -> Calls
        ensures refused { result.refused ≡ 0 }
        ensures made { result.made ≡ 0 }
        ensures limit { result.limit ≡ None }
    {
        Calls {
            refused: 0,
            made: 0,
            limit: None,
        }
    }

    // One more call was refused. At its greatest number the count stays.
    fn count(&mut self)
        ensures counted { Rises self.old.refused self.new.refused }
        ensures made { self.new.made ≡ self.old.made }
        ensures limit { self.new.limit ≡ self.old.limit }
    {
        self.refused = self.refused.saturating_add(1);
    }

    // One more call is made, which leaves so many. At its greatest number the count stays.
    fn spend(&mut self, left: Option<u64>)
        ensures refused { self.new.refused ≡ self.old.refused }
        ensures made { self.new.made ≡ min (self.old.made + 1) (2 ^ 64 - 1) }
        ensures limit { self.new.limit ≡ left }
    {
        self.made = self.made.saturating_add(1);
        self.limit = left;
    }

    /// A call may be made, which is counted, and one fewer after it; or, where none is left, it is
    /// refused unmade, which counts.
    #[tactic(auto, using(crate::proofs::Limited::spends_same, crate::proofs::Limited::spent_one))]
    pub fn allow(&mut self) -> Result<(), Fault>
        ensures ok { OnOk result (self.new.refused ≡ self.old.refused) }
        ensures err { IfErr result (λ f. (f ≡ Fault.Store)
            × Rises self.old.refused self.new.refused) }
        ensures allowed { OnOk result ((self.old.limit ≢ Some 0)
            × (self.new.limit ≡ fewer 1 self.old.limit)) }
        ensures once { OnOk result (Spent 1 self.old.made self.new.made self.old.limit
            self.new.limit) }
        ensures unmade { OnErr result ((self.old.limit ≡ Some 0) × (self.new.limit ≡ Some 0)
            × (self.new.made ≡ self.old.made)) }
        ensures limit { Spends self.old.made self.new.made self.old.limit self.new.limit }
    {
        match self.limit {
            None => self.spend(None),
            Some(0) => return Err(self.refuse()),
            Some(left) => self.spend(Some(left - 1)),
        }
        Ok(())
    }

    /// What a refusal of the store is told as: 40 where it had no memory, else 41.
    pub fn failed(&mut self, error: Error) -> Fault
        ensures counted { Rises self.old.refused self.new.refused }
        ensures made { self.new.made ≡ self.old.made }
        ensures limit { self.new.limit ≡ self.old.limit }
        ensures told { result ≡ fault_of_call error }
        ensures named { IsCallFault result }
    {
        self.count();
        match error {
            Error::SqliteFailure(ErrorCode::OutOfMemory) => Fault::OutOfMemory,
            _ => Fault::Store,
        }
    }

    /// A call that can't be made, since a number isn't one of SQLite or is used up, is refused.
    pub fn refuse(&mut self) -> Fault
        ensures counted { Rises self.old.refused self.new.refused }
        ensures made { self.new.made ≡ self.old.made }
        ensures limit { self.new.limit ≡ self.old.limit }
        ensures told { result ≡ Fault.Store }
    {
        self.count();
        Fault::Store
    }
}
