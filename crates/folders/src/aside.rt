//! Unreadable interchanges, which are set aside in a folder of their own.
ghost use Rattle.std.specs.Prelude.{◌≡◌, IfErr, OnOk, string_bytes};
ghost use Rattle.folders.specs.Folders.{WasRefused, became_of, HasCause, IsDeviceFault};
ghost use Rattle.folders.specs.Naming.{AreUnreadable, IsMovedIfFree, IsSetAside};
ghost use Rattle.definitions.specs.declared.refusals.Refusal.TheVariants.{Unreadable};

use crate::calls::{is_path_free, make_folder, move_to, sync_folder};
use crate::file_system::FileSystem;
use crate::folder::{FileOutcome, Taken};
use crate::paths::path_in;
use store::{Fault, Refusal};

// The folder for files that are unreadable, in the one in which interchanges are taken.
const UNREADABLE: &str = "unreadable";

// Moves what stands under a path to another, unless something stands there.
fn move_if_free<R: FileSystem>(rt: &R, from: &str, to: &str) -> Result<(), Fault>
    ensures moved { OnOk result
        (IsMovedIfFree (R.finds rt.now) (R.moves rt.now) from.now to.now) }
    ensures named { IfErr result IsDeviceFault }
    ensures cause { IfErr result (HasCause (R.fails rt.now)) }
{
    if is_path_free(rt, to)? {
        move_to(rt, from, to)?;
    }
    Ok(())
}

// Moves an unreadable file to the folder for those, unless a file of its name is there. It has no
// answer that could go with it.
fn set_aside<R: FileSystem + AllocGlobal>(rt: &R, taking: &str, file: &Taken) -> Result<(), Fault>
    requires { became_of file.now.outcome ≡ WasRefused Unreadable }

    ensures set { OnOk result (IsSetAside (R.finds rt.now) (R.moves rt.now) (R.makes rt.now)
        (R.syncs rt.now) taking.now (string_bytes file.now.name)) }
    ensures named { IfErr result IsDeviceFault }
    ensures cause { IfErr result (HasCause (R.fails rt.now)) }
{
    let aside = path_in(rt, taking, UNREADABLE)?;
    make_folder(rt, &aside)?;
    let from = path_in(rt, taking, &file.name)?;
    let to = path_in(rt, &aside, &file.name)?;
    move_if_free(rt, &from, &to)?;
    sync_folder(rt, &aside)
}

// Sets a file aside if it is unreadable.
fn set_aside_unreadable<R: FileSystem + AllocGlobal>(
    rt: &R,
    taking: &str,
    file: &Taken,
) -> Result<(), Fault>
    ensures set { OnOk result (became_of file.now.outcome ≡ WasRefused Unreadable
        → IsSetAside (R.finds rt.now) (R.moves rt.now) (R.makes rt.now) (R.syncs rt.now)
        taking.now (string_bytes file.now.name)) }
    ensures named { IfErr result IsDeviceFault }
    ensures cause { IfErr result (HasCause (R.fails rt.now)) }
{
    match file.outcome {
        FileOutcome::Refused(Refusal::Unreadable) => set_aside(rt, taking, file),
        _ => Ok(()),
    }
}

/// Sets each file aside that is unreadable.
pub(crate) fn set_each_aside<R: FileSystem + AllocGlobal>(
    rt: &R,
    taking: &str,
    files: &[Taken],
) -> Result<(), Fault>
    ensures set { OnOk result (AreUnreadable (IsSetAside (R.finds rt.now) (R.moves rt.now)
        (R.makes rt.now) (R.syncs rt.now) taking.now) files.now) }
    ensures named { IfErr result IsDeviceFault }
    ensures cause { IfErr result (HasCause (R.fails rt.now)) }
{
    for file in files {
        set_aside_unreadable(rt, taking, file)?;
    }
    Ok(())
}
