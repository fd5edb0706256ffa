//! Calls about folders and files whose errors are faults.
ghost use Rattle.std.specs.Prelude.{◌≡◌, [], true, false, IfOk, IfErr, OnOk};
ghost use Rattle.folders.specs.Entries.{IsFree, IsStanding};
ghost use Rattle.folders.specs.Folders.{HasCause, IsDeviceFault};

use crate::file_system::FileSystem;
use crate::files::is_free;
use crate::folder::fault_of;
use store::Fault;

/// Makes a folder, unless it is there.
pub(crate) fn make_folder<R: FileSystem>(rt: &R, path: &str) -> Result<(), Fault>
    ensures made { OnOk result (R.makes rt.now path.now) }
    ensures named { IfErr result IsDeviceFault }
    ensures cause { IfErr result (HasCause (R.fails rt.now)) }
{
    match rt.make_folder(path) {
        Ok(()) => Ok(()),
        Err(error) => Err(fault_of(&error)),
    }
}

/// Brings the names in a folder down to the disk.
pub(crate) fn sync_folder<R: FileSystem>(rt: &R, path: &str) -> Result<(), Fault>
    ensures synced { OnOk result (R.syncs rt.now path.now) }
    ensures named { IfErr result IsDeviceFault }
    ensures cause { IfErr result (HasCause (R.fails rt.now)) }
{
    match rt.sync_folder(path) {
        Ok(()) => Ok(()),
        Err(error) => Err(fault_of(&error)),
    }
}

/// Whether nothing stands under a path.
pub(crate) fn is_path_free<R: FileSystem>(rt: &R, path: &str) -> Result<bool, Fault>
    ensures free { IfOk result (λ is. is ≡ true → IsFree (R.finds rt.now) path.now) }
    ensures stands { IfOk result (λ is. is ≡ false → IsStanding (R.finds rt.now) path.now) }
    ensures named { IfErr result IsDeviceFault }
    ensures cause { IfErr result (HasCause (R.fails rt.now)) }
{
    match is_free(rt, path) {
        Ok(is) => Ok(is),
        Err(error) => Err(fault_of(&error)),
    }
}

/// Moves what stands under a path to another, under which nothing stood when it was looked at.
pub(crate) fn move_to<R: FileSystem>(rt: &R, from: &str, to: &str) -> Result<(), Fault>
    requires { IsFree (R.finds rt.now) to.now }

    ensures moved { OnOk result (R.moves rt.now from.now to.now) }
    ensures named { IfErr result IsDeviceFault }
    ensures cause { IfErr result (HasCause (R.fails rt.now)) }
{
    match rt.rename(from, to) {
        Ok(()) => Ok(()),
        Err(error) => Err(fault_of(&error)),
    }
}

/// Whether a folder has no entry.
pub(crate) fn is_folder_empty<R: FileSystem>(rt: &R, dir: &str) -> Result<bool, Fault>
    ensures empty { IfOk result (λ is. is ≡ true → R.lists rt.now dir.now []) }
    ensures named { IfErr result IsDeviceFault }
    ensures cause { IfErr result (HasCause (R.fails rt.now)) }
{
    match rt.entries(dir) {
        Ok(entries) => Ok(entries.is_empty()),
        Err(error) => Err(fault_of(&error)),
    }
}
