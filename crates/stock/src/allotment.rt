ghost use Rattle.std.specs.Prelude.{◌≡◌, IfOk};
ghost use Rattle.definitions.specs.Allotment.{allot};

use std::alloc::{AllocError, Global};

/// What each lot gives of a wanted amount: `free` says what is free of the lots, the first lot
/// first, and each gives all that it has until nothing is wanted any more. Want of memory is the
/// one error.
pub fn allot(alloc: Global, free: &[u64], want: u64) -> Result<Vec<u64>, AllocError>
    ensures { IfOk result (λ shares. shares.items ≡ allot free.now want) }
{
    let mut shares = Vec::new(alloc);
    let mut left = want;
    for amount in free {
        let share = left.min(*amount);
        shares.push(share)?;
        left -= share;
    }
    Ok(shares)
}
