//! The seal of a book, told.
ghost use Rattle.std.specs.Prelude.{None, Some, IfErr};
ghost use Rattle.commands.specs.Failures.{IsDeviceBy, WasEitherRefused, WasRefused};
ghost use Rattle.commands.specs.Shown.{IsLookAt, shown_seal};

use crate::printing::{Printer, print};
use crate::told::{CommandError, ExitStatus};
use seals::Sealed;
use std::alloc::Global;

// Prints the seal of all entries.
fn tell_whole<K: Sealed, W: Printer>(
    alloc: Global,
    book: &mut K,
    out: &mut W,
) -> Result<ExitStatus, CommandError>
    ensures looked { IsLookAt (K.Keeper.standing book.old) (K.Keeper.standing book.new)
        (shown_seal None) (W.contents out.old) (W.contents out.new) result }
    ensures caused { IfErr result (IsDeviceBy
        (WasRefused (W.failures out.old) (W.failures out.new))) }
{
    let seal = book.seal()?;
    print(out, &seal.line(alloc)?)?;
    Ok(ExitStatus::Done)
}

// Prints the seal of the first so many entries, if there are so many; else that is told on standard
// error, and what can't be told there is left out.
#[tactic(auto, using(crate::proofs::TellingLaws::appends_nothing))]
fn tell_first<K: Sealed, W: Printer, E: Printer>(
    alloc: Global,
    book: &mut K,
    entries: u64,
    out: &mut W,
    err: &mut E,
) -> Result<ExitStatus, CommandError>
    ensures looked { IsLookAt (K.Keeper.standing book.old) (K.Keeper.standing book.new)
        (shown_seal (Some entries)) (W.contents out.old) (W.contents out.new) result }
    ensures caused { IfErr result (IsDeviceBy (WasEitherRefused (W.failures out.old)
        (W.failures out.new) (E.failures err.old) (E.failures err.new))) }
{
    let Some(seal) = book.seal_of_first(entries)? else {
        let _ = write!(err, "the book has fewer entries than {entries}\n");
        return Ok(ExitStatus::Refused);
    };
    print(out, &seal.line(alloc)?)?;
    Ok(ExitStatus::Done)
}

/// Prints the seal of a book, or of its first entries, so many: their number, a colon, the seal's
/// 64 digits, and the moment of the last of them. Nothing is printed where it has fewer entries
/// (status 1), which is told on standard error. The faults are those of a query, want of memory,
/// and Device (44) where it can't be printed.
pub fn tell_seal<K: Sealed, W: Printer, E: Printer>(
    alloc: Global,
    book: &mut K,
    first: Option<u64>,
    out: &mut W,
    err: &mut E,
) -> Result<ExitStatus, CommandError>
    ensures looked { IsLookAt (K.Keeper.standing book.old) (K.Keeper.standing book.new)
        (shown_seal first) (W.contents out.old) (W.contents out.new) result }
    ensures caused { IfErr result (IsDeviceBy (WasEitherRefused (W.failures out.old)
        (W.failures out.new) (E.failures err.old) (E.failures err.new))) }
{
    match first {
        None => tell_whole(alloc, book, out),
        Some(entries) => tell_first(alloc, book, entries, out, err),
    }
}
