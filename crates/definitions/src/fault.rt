ghost use Rattle.std.specs.Prelude.{◌≡◌};
ghost use Rattle.definitions.specs.Refusals.{OutOfMemory, fault_number, fault_numbered, fault_name, fault_line};

use std::alloc::AllocError;

/// What keeps a command or a query from being answered.
#[derive(Clone, Copy, PartialEq, Eq)]
pub enum Fault {
    /// 40: a growth was refused, or the store answered so.
    OutOfMemory,
    /// 41: the store refused a call.
    Store,
    /// 42: the book has to be opened again.
    Reopen,
    /// 43: the tables are no book.
    NotThisBook,
    /// 44: a reader, a writer, a file or a socket failed.
    Device,
}

/// All of them.
pub const FAULTS: [Fault; 5] = [
    Fault::OutOfMemory,
    Fault::Store,
    Fault::Reopen,
    Fault::NotThisBook,
    Fault::Device,
];

impl From<AllocError> for Fault {
    ghost from_gives = { λ _ fault. fault ≡ OutOfMemory };

    fn from(_error: AllocError) -> Fault {
        Fault::OutOfMemory
    }
}

impl Fault {
    /// Its number.
    pub fn number(&self) -> u8
        ensures { result ≡ fault_number self.now }
    {
        match self {
            Fault::OutOfMemory => 40,
            Fault::Store => 41,
            Fault::Reopen => 42,
            Fault::NotThisBook => 43,
            Fault::Device => 44,
        }
    }

    /// The fault of this number, if it is one's.
    pub fn numbered(number: u64) -> Option<Fault>
        ensures { result ≡ fault_numbered number }
    {
        FAULTS
            .iter()
            .copied()
            .find(|fault| u64::from(fault.number()) == number)
    }

    /// Its name.
    pub fn name(&self) -> &'static str
        ensures { result.now ≡ fault_name self.now }
    {
        match self {
            Fault::OutOfMemory => "OutOfMemory",
            Fault::Store => "Store",
            Fault::Reopen => "Reopen",
            Fault::NotThisBook => "NotThisBook",
            Fault::Device => "Device",
        }
    }

    /// Number and name, and LF. It takes no memory.
    pub fn line(&self) -> &'static [u8]
        ensures { result.now ≡ fault_line self.now }
    {
        match self {
            Fault::OutOfMemory => b"40 OutOfMemory\n",
            Fault::Store => b"41 Store\n",
            Fault::Reopen => b"42 Reopen\n",
            Fault::NotThisBook => b"43 NotThisBook\n",
            Fault::Device => b"44 Device\n",
        }
    }
}
