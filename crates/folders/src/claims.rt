//! Interchanges that are moved to another folder before they are read, so that nobody can change
//! them under their names any more.
ghost use Rattle.std.specs.Prelude.{◌≡◌, ◌⊎◌, ◌++◌, IfOk, IfErr, OnOk};
ghost use Rattle.std.specs.Option.{option_to_list};
ghost use Rattle.std.specs.IoError.{error_kind};
ghost use Rattle.folders.specs.Claims.{AreClaimed, IsClaim, IsFailed, IsTried, claim_of_kind, told_staying};

use crate::file_system::{EntryKind, FileSystem};
use crate::files::is_free;
use crate::paths::path_in;
use crate::staying::{Staying, WhyStays, why_of};
use std::alloc::AllocError;
use std::io;

/// What becomes of a file that is to be moved.
#[derive(Clone, Copy, PartialEq, Eq)]
pub enum Claim {
    /// It was moved.
    Moved,
    /// It is gone.
    Gone,
    /// It stays.
    Stays(WhyStays),
}

// Moves a file to a path, unless something stands there.
fn move_file<R: FileSystem>(rt: &R, from: &str, to: &str) -> io::Result<Claim>
    ensures tried { IfOk result
        (λ claim. R.finds rt.now from.now EntryKind.File
        → IsTried (R.finds rt.now) (R.moves rt.now) from.now to.now claim) }
    ensures failed { IfErr result
        (λ error. R.fails rt.now from.now (error_kind error)
        ⊎ R.fails rt.now to.now (error_kind error)) }
{
    if !is_free(rt, to)? {
        return Ok(Claim::Stays(WhyStays::NameStands));
    }
    rt.rename(from, to)?;
    Ok(Claim::Moved)
}

// Moves a regular file to a path, unless something stands there.
fn try_claim<R: FileSystem>(rt: &R, from: &str, to: &str) -> io::Result<Claim>
    ensures tried { IfOk result
        (λ claim. IsTried (R.finds rt.now) (R.moves rt.now) from.now to.now claim) }
    ensures failed { IfErr result
        (λ error. R.fails rt.now from.now (error_kind error)
        ⊎ R.fails rt.now to.now (error_kind error)) }
{
    match rt.kind_of(from)? {
        EntryKind::NoEntry => Ok(Claim::Gone),
        EntryKind::File => move_file(rt, from, to),
        EntryKind::Link => Ok(Claim::Stays(WhyStays::Link)),
        EntryKind::Other => Ok(Claim::Stays(WhyStays::NoFile)),
    }
}

// What an error comes to: the file is gone, or it stays.
fn claim_of(error: &io::Error) -> Claim
    ensures { result ≡ claim_of_kind (error_kind error.now) }
{
    match error.kind() {
        io::ErrorKind::NotFound => Claim::Gone,
        _ => Claim::Stays(why_of(error)),
    }
}

// Moves a regular file to a path, unless something stands there, and says what became of it.
fn claim_file<R: FileSystem>(rt: &R, from: &str, to: &str) -> Claim
    ensures { IsTried (R.finds rt.now) (R.moves rt.now) from.now to.now result
        ⊎ IsFailed (R.fails rt.now) from.now to.now result }
{
    match try_claim(rt, from, to) {
        Ok(claim) => claim,
        Err(error) => claim_of(&error),
    }
}

// Moves the file of this name from a folder to another.
fn claim_name<R: FileSystem + AllocGlobal>(
    rt: &R,
    dir: &str,
    other: &str,
    name: &str,
) -> Result<Claim, AllocError>
    ensures { IfOk result (λ claim. IsClaim (R.finds rt.now) (R.moves rt.now) (R.fails rt.now)
        dir.now other.now name.now claim) }
{
    let from = path_in(rt, dir, name)?;
    let to = path_in(rt, other, name)?;
    Ok(claim_file(rt, &from, &to))
}

// Puts a file to those that stay, if it does.
fn put_staying(claim: Claim, name: String, stays: &mut Vec<Staying>) -> Result<(), AllocError>
    ensures { OnOk result
        (stays.new.items ≡ stays.old.items ++ option_to_list (told_staying name claim)) }
{
    if let Claim::Stays(why) = claim {
        stays.push(Staying { name, why })?;
    }
    Ok(())
}

/// Moves the regular files of these names from a folder to another, where nothing has their names,
/// and returns those that stay, in the same order. Of a file that is gone nothing is said.
pub(crate) fn claim_names<R: FileSystem + AllocGlobal>(
    rt: &R,
    dir: &str,
    other: &str,
    names: Vec<String>,
) -> Result<Vec<Staying>, AllocError>
    ensures { IfOk result
        (λ stays. AreClaimed (IsClaim (R.finds rt.now) (R.moves rt.now) (R.fails rt.now) dir.now
        other.now) names.items stays.items) }
{
    let mut stays = Vec::new(rt.alloc());
    for name in names {
        let claim = claim_name(rt, dir, other, &name)?;
        put_staying(claim, name, &mut stays)?;
    }
    Ok(stays)
}
