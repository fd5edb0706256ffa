//! The beginning of a register, as somebody noted it, and whether a book still has it.
ghost use Rattle.std.specs.Prelude.{◌≡◌, ◌==◌, IfOk, option_map, position};
ghost use Rattle.store.specs.Standing.{IsQuery, OfAnyKept};
ghost use Rattle.seals.specs.Noted as meant;

use crate::seal::Seal;
use crate::sealed::Sealed;
use segments::{all_digits, number};
use store::Fault;

/// How many entries a register begins with, and their seal: what `46:` and 64 digits say.
#[derive(Clone, Copy, PartialEq, Eq)]
pub struct Beginning {
    /// How many entries.
    pub entries: u64,
    /// Their seal.
    pub seal: Seal,
}

/// The number of entries that is written so, in 1 to 9 digits; None where none is.
pub fn entries_in(text: &[u8]) -> Option<u64>
    ensures { result ≡ meant.entries_in text.now }
{
    if text.is_empty() || text.len() > 9 || !all_digits(text) {
        return None;
    }
    Some(u64::from(number(text)))
}

// Where a colon stands first.
fn colon_of(text: &[u8]) -> Option<usize>
    ensures { result ≡ position (λ b. b == 58) text.now }
{
    text.iter().position(|b| *b == b':')
}

impl Beginning {
    /// The beginning that is written so: a number in 1 to 9 digits, a colon, and the 64 digits of a
    /// seal, in lower case. None of any other text.
    pub fn read(text: &[u8]) -> Option<Beginning>
        ensures { option_map meant.beginning result ≡ meant.beginning_in text.now }
    {
        let colon = colon_of(text)?;
        let entries = entries_in(&text[..colon])?;
        let seal = Seal::read(&text[colon + 1..])?;
        Some(Beginning { entries, seal })
    }
}

/// Whether the register of a book begins so: its first entries, as many, have this seal. Not where
/// it has fewer. The faults are those of a query.
pub fn begins_with<K: Sealed>(book: &mut K, beginning: &Beginning) -> Result<bool, Fault>
    ensures begins { OfAnyKept (K.Keeper.standing book.old) (K.Keeper.standing book.new)
        (λ L. IfOk result (λ begins. begins ≡ meant.begins_so (meant.beginning beginning.now) L)) }
    ensures query { IsQuery (K.Keeper.standing book.old) (K.Keeper.standing book.new) result }
{
    match book.seal_of_first(beginning.entries)? {
        Some(first) => Ok(first.seal == beginning.seal),
        None => Ok(false),
    }
}
