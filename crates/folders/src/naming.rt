//! The folder in which interchanges are taken, and the name that it gets: that of the run.
ghost use Rattle.std.specs.Prelude.{◌≡◌, ◌+◌, IfOk, IfErr, IfNone, IfSome, OnOk, string_bytes};
ghost use Rattle.folders.specs.Entries.{IsFree};
ghost use Rattle.folders.specs.Naming.{AreTaken, AreUnreadable, IsFirstFree, IsRunFolder, IsSetAside, run_name, taking_path};
ghost use Rattle.folders.specs.Folders.{HasCause, IsDeviceFault};
ghost use Rattle.folders.specs.Paths.{file_path};

use crate::aside::set_each_aside;
use crate::calls::{is_folder_empty, is_path_free, move_to, sync_folder};
use crate::file_system::FileSystem;
use crate::folder::Taken;
use crate::paths::path_in;
use itoa::Buffer;
use std::alloc::{AllocError, Global};
use store::Fault;

/// A folder into which another one is taken.
#[derive(Clone, Copy)]
pub struct Done<'a> {
    /// Its path.
    pub dir: &'a str,
    /// The name of the run, under which what was taken is kept, as `2026-11-30T0215`. No slash is
    /// in it.
    pub run: &'a str,
}

/// Where the folder is in which interchanges were taken.
#[derive(Drop)]
pub enum RunFolder {
    /// It is in DONE under this name.
    Named(String),
    /// It is where it was, since nothing is in it.
    Empty,
    /// It is where it was, since all names of the run are used up. The next run takes it again.
    Unnamed,
}

/// How many names a run has: RUN, and RUN-2 to RUN-999.
pub(crate) const MOST_RUNS: u32 = 999;

// The folder in which interchanges are taken.
const TAKING: &str = "taking";

/// The path of the folder in which interchanges are taken.
pub(crate) fn path_of_taking<R: AllocGlobal>(rt: &R, done: &str) -> Result<String, AllocError>
    ensures { IfOk result (λ path. string_bytes path ≡ taking_path done.now) }
{
    path_in(rt, done, TAKING)
}

// The nth name of a run.
fn name_of_run(alloc: Global, run: &str, n: u32) -> Result<String, AllocError>
    ensures { IfOk result (λ name. string_bytes name ≡ run_name run.now n) }
{
    if n > 1 {
        let mut digits = Buffer::new();
        [run, "-", digits.format(n)].concat(alloc)
    } else {
        String::from_str(alloc, run)
    }
}

// The first name of the run that nothing in the folder has, if there is one.
fn find_free_name<R: FileSystem + AllocGlobal>(
    rt: &R,
    done: &Done<'_>,
) -> Result<Option<String>, Fault>
    ensures free { IfOk result (λ found. IfSome found (λ name. IsFirstFree (R.finds rt.now)
        done.now.dir.now done.now.run.now (string_bytes name))) }
    ensures none { IfOk result (λ found. IfNone found (AreTaken (R.finds rt.now)
        done.now.dir.now done.now.run.now (MOST_RUNS + 1))) }
    ensures named { IfErr result IsDeviceFault }
    ensures cause { IfErr result (HasCause (R.fails rt.now)) }
{
    for n in 1..MOST_RUNS + 1 {
        let name = name_of_run(rt.alloc(), done.run, n)?;
        let path = path_in(rt, done.dir, &name)?;
        if is_path_free(rt, &path)? {
            return Ok(Some(name));
        }
    }
    Ok(None)
}

// Gives the folder this name, which is free, down to the disk.
fn give_name<R: FileSystem + AllocGlobal>(
    rt: &R,
    done: &Done<'_>,
    taking: &str,
    name: &str,
) -> Result<(), Fault>
    requires { IsFree (R.finds rt.now) (file_path done.now.dir.now name.now) }

    ensures moved { OnOk result
        (R.moves rt.now taking.now (file_path done.now.dir.now name.now)) }
    ensures synced { OnOk result (R.syncs rt.now done.now.dir.now) }
    ensures named { IfErr result IsDeviceFault }
    ensures cause { IfErr result (HasCause (R.fails rt.now)) }
{
    let path = path_in(rt, done.dir, name)?;
    move_to(rt, taking, &path)?;
    sync_folder(rt, done.dir)
}

// Brings what the folder has down to the disk, and gives it the first name of the run that is free.
fn name_folder<R: FileSystem + AllocGlobal>(
    rt: &R,
    done: &Done<'_>,
    taking: &str,
) -> Result<RunFolder, Fault>
    requires { taking.now ≡ taking_path done.now.dir.now }

    ensures folder { IfOk result (IsRunFolder (R.lists rt.now taking.now) (R.finds rt.now)
        (R.moves rt.now) (R.syncs rt.now) done.now.dir.now done.now.run.now) }
    ensures named { IfErr result IsDeviceFault }
    ensures cause { IfErr result (HasCause (R.fails rt.now)) }
{
    sync_folder(rt, taking)?;
    match find_free_name(rt, done)? {
        Some(name) => {
            give_name(rt, done, taking, &name)?;
            Ok(RunFolder::Named(name))
        }
        None => Ok(RunFolder::Unnamed),
    }
}

/// Sets aside what is unreadable of the files that were taken in a folder, and gives the folder the
/// first name of the run that is free, if anything is in it.
pub(crate) fn finish_folder<R: FileSystem + AllocGlobal>(
    rt: &R,
    done: &Done<'_>,
    taking: &str,
    files: &[Taken],
) -> Result<RunFolder, Fault>
    requires { taking.now ≡ taking_path done.now.dir.now }

    ensures set { OnOk result (AreUnreadable (IsSetAside (R.finds rt.now) (R.moves rt.now)
        (R.makes rt.now) (R.syncs rt.now) taking.now) files.now) }
    ensures folder { IfOk result (IsRunFolder (R.lists rt.now taking.now) (R.finds rt.now)
        (R.moves rt.now) (R.syncs rt.now) done.now.dir.now done.now.run.now) }
    ensures named { IfErr result IsDeviceFault }
    ensures cause { IfErr result (HasCause (R.fails rt.now)) }
{
    set_each_aside(rt, taking, files)?;
    if is_folder_empty(rt, taking)? {
        return Ok(RunFolder::Empty);
    }
    name_folder(rt, done, taking)
}
