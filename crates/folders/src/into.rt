//! A folder that is taken into another: its interchanges are moved there before they are read.
ghost use Rattle.std.specs.Prelude.{◌≡◌, ℕ, List, map, IfOk, IfErr, OnOk, IsSorted, length, string_bytes};
ghost use Rattle.folders.specs.Claims.{AreClaimed, IsClaim, IsClaimedFrom};
ghost use Rattle.folders.specs.Naming.{AreUnreadable, IsRunFolder, IsSetAside, taking_path};
ghost use Rattle.folders.specs.Folders.{became_of, HasCause, IsDeviceFault, AreTextsTaken};
ghost use Rattle.folders.specs.Handed.{AreFilesHanded, IsHanded, IsText};
ghost use Rattle.folders.specs.Into.{AreDown, IsStoppedAt, IsUnbegun, IsNamingStop};
ghost use Rattle.folders.specs.Listing.{IsListed};
ghost use Rattle.folders.specs.Paths.{file_path};
ghost use Rattle.folders.specs.Stops.{IsFolderStop, IsFolderUnread};
ghost use Rattle.store.specs.Standing.{GoesOn};

use crate::calls::{make_folder, sync_folder};
use crate::claims::claim_names;
use crate::file_system::FileSystem;
use crate::folder::{FolderStop, TakenFolder, fault_of, take_folder_telling};
use crate::names::{Listing, listed};
use crate::naming::{Done, RunFolder, finish_folder, path_of_taking};
use crate::passing::PassedOver;
use crate::staying::Staying;
use store::{Fault, Keeper, Moment};

/// A folder IN that was taken into another, DONE.
#[derive(Drop)]
pub struct TakenInto {
    /// The folder DONE/taking, into which the interchanges of IN were moved, as it was taken.
    pub taken: TakenFolder,
    /// The interchanges that stayed in IN, in the order of their names' bytes.
    pub stays: Vec<Staying>,
    /// What may be meant as an interchange and was passed over in IN, in the same order; first what
    /// has no name.
    pub passed: Vec<PassedOver>,
    /// Where the folder is now that was DONE/taking.
    pub folder: RunFolder,
}

/// A step of taking a folder IN into another, DONE.
#[derive(Clone, Copy, PartialEq, Eq)]
pub enum IntoStep {
    /// The folder DONE/taking is made.
    Making,
    /// IN is read.
    Listing,
    /// The interchanges are moved, and their names brought down to the disk.
    Claiming,
    /// The folder DONE/taking is taken.
    Taking,
    /// What is unreadable is set aside, and DONE/taking gets the name of the run.
    Naming,
}

/// Where the taking of a folder into another stopped.
#[derive(Drop)]
pub struct IntoStop {
    /// The step at which it stopped.
    pub step: IntoStep,
    /// The fault, the file of DONE/taking at which it stopped, where that is one, and how many were
    /// taken.
    pub stop: FolderStop,
}

// A stop at this step, before anything is handed in.
fn stop_before(step: IntoStep, fault: Fault) -> IntoStop
    requires { IsDeviceFault fault }

    ensures step { result.step ≡ step }
    ensures fault { result.stop.fault ≡ fault }
    ensures unread { IsFolderUnread result.stop }
{
    IntoStop {
        step,
        stop: FolderStop {
            fault,
            at: None,
            taken: 0,
        },
    }
}

// Makes the folder DONE/taking, with its name down to the disk, and returns its path.
fn make_taking<R: FileSystem + AllocGlobal>(rt: &R, done: &str) -> Result<String, Fault>
    ensures path { IfOk result (λ path. string_bytes path ≡ taking_path done.now) }
    ensures made { OnOk result (R.makes rt.now (taking_path done.now)) }
    ensures synced { OnOk result (R.syncs rt.now done.now) }
    ensures named { IfErr result IsDeviceFault }
    ensures cause { IfErr result (HasCause (R.fails rt.now)) }
{
    let taking = path_of_taking(rt, done)?;
    make_folder(rt, &taking)?;
    sync_folder(rt, done)?;
    Ok(taking)
}

// The same, where a fault is a stop.
fn prepare_taking<R: FileSystem + AllocGlobal>(rt: &R, done: &str) -> Result<String, IntoStop>
    ensures path { IfOk result (λ path. string_bytes path ≡ taking_path done.now) }
    ensures made { OnOk result (R.makes rt.now (taking_path done.now)) }
    ensures synced { OnOk result (R.syncs rt.now done.now) }
    ensures unbegun { IfErr result IsUnbegun }
    ensures cause { IfErr result (λ stop. HasCause (R.fails rt.now) stop.stop.fault) }
{
    match make_taking(rt, done) {
        Ok(taking) => Ok(taking),
        Err(fault) => Err(stop_before(IntoStep::Making, fault)),
    }
}

// What is in a folder.
fn list_inbox<R: FileSystem + AllocGlobal>(rt: &R, dir: &str) -> Result<Listing, IntoStop>
    ensures all { IfOk result
        (λ listing. IsListed (R.lists rt.now dir.now) listing.names.items listing.passed.items) }
    ensures unbegun { IfErr result IsUnbegun }
    ensures cause { IfErr result (λ stop. HasCause (R.fails rt.now) stop.stop.fault) }
{
    match listed(rt, dir) {
        Ok(listing) => Ok(listing),
        Err(error) => Err(stop_before(IntoStep::Listing, fault_of(&error))),
    }
}

// Moves the files of these names to the folder DONE/taking, their names down to the disk, and
// returns those that stay.
fn claim_and_sync<R: FileSystem + AllocGlobal>(
    rt: &R,
    dir: &str,
    taking: &str,
    names: Vec<String>,
) -> Result<Vec<Staying>, Fault>
    ensures claimed { IfOk result
        (λ stays. AreClaimed (IsClaim (R.finds rt.now) (R.moves rt.now) (R.fails rt.now) dir.now
        taking.now) names.items stays.items) }
    ensures there { OnOk result (R.syncs rt.now taking.now) }
    ensures here { OnOk result (R.syncs rt.now dir.now) }
    ensures named { IfErr result IsDeviceFault }
    ensures cause { IfErr result (HasCause (R.fails rt.now)) }
{
    let stays = claim_names(rt, dir, taking, names)?;
    // First where they are now: a stop between the two may leave a name twice, and never none.
    sync_folder(rt, taking)?;
    sync_folder(rt, dir)?;
    Ok(stays)
}

// The interchanges of a folder that were moved or stay.
#[derive(Drop)]
struct Claims {
    // Those that stay.
    stays: Vec<Staying>,
    // What was passed over.
    passed: Vec<PassedOver>,
}

// Moves the interchanges of a folder to the folder DONE/taking.
fn claim_all<R: FileSystem + AllocGlobal>(
    rt: &R,
    dir: &str,
    taking: &str,
) -> Result<Claims, IntoStop>
    ensures claimed { IfOk result
        (λ claims. IsClaimedFrom (R.lists rt.now dir.now) (IsClaim (R.finds rt.now)
        (R.moves rt.now) (R.fails rt.now) dir.now taking.now) claims.stays.items
        claims.passed.items) }
    ensures there { OnOk result (R.syncs rt.now taking.now) }
    ensures here { OnOk result (R.syncs rt.now dir.now) }
    ensures unbegun { IfErr result IsUnbegun }
    ensures cause { IfErr result (λ stop. HasCause (R.fails rt.now) stop.stop.fault) }
{
    let Listing { names, passed } = list_inbox(rt, dir)?;
    match claim_and_sync(rt, dir, taking, names) {
        Ok(stays) => Ok(Claims { stays, passed }),
        Err(fault) => Err(stop_before(IntoStep::Claiming, fault)),
    }
}

// Gives the folder DONE/taking its name, once it is taken.
fn finish_taken<R: FileSystem + AllocGlobal>(
    rt: &R,
    done: &Done<'_>,
    taking: &str,
    folder: &TakenFolder,
) -> Result<RunFolder, IntoStop>
    requires { taking.now ≡ taking_path done.now.dir.now }

    ensures set { OnOk result (AreUnreadable (IsSetAside (R.finds rt.now) (R.moves rt.now)
        (R.makes rt.now) (R.syncs rt.now) taking.now) folder.now.files.items) }
    ensures folder { IfOk result (IsRunFolder (R.lists rt.now taking.now) (R.finds rt.now)
        (R.moves rt.now) (R.syncs rt.now) done.now.dir.now done.now.run.now) }
    ensures stopped { IfErr result (IsNamingStop (length folder.now.files.items)) }
    ensures cause { IfErr result (λ stop. HasCause (R.fails rt.now) stop.stop.fault) }
{
    match finish_folder(rt, done, taking, &folder.files) {
        Ok(named) => Ok(named),
        Err(fault) => Err(IntoStop {
            step: IntoStep::Naming,
            stop: FolderStop {
                fault,
                at: None,
                taken: folder.files.len() as u64,
            },
        }),
    }
}

// Takes the folder DONE/taking, and gives it its name.
fn take_claimed<R: FileSystem + AllocGlobal, K: Keeper, T: FnMut(u64, u64)>(
    rt: &R,
    done: &Done<'_>,
    taking: &str,
    keeper: &mut K,
    moment: Moment,
    told: T,
) -> Result<(TakenFolder, RunFolder), IntoStop>
    requires told { T.IsAlwaysCallable told }
    requires taking { taking.now ≡ taking_path done.now.dir.now }

    ensures all { IfOk result
        (λ both. IsListed (R.lists rt.now taking.now)
        (map (λ file. file.name) both.0.files.items) both.0.passed.items) }
    ensures handed { IfOk result
        (λ both. AreFilesHanded
        (IsHanded (R.reads rt.now) (R.writes rt.now) (R.lacks rt.now) taking.now)
        (K.standing keeper.old) (K.standing keeper.new) moment
        (map (λ file. string_bytes file.name) both.0.files.items)
        (map (λ file. became_of file.outcome) both.0.files.items)) }
    ensures taken { IfOk result
        (λ both. (texts : List (List ℕ))
        × AreTextsTaken (K.standing keeper.old) (K.standing keeper.new) moment texts (map
        (λ file. became_of file.outcome) both.0.files.items)) }
    ensures rising { IfOk result
        (λ both. IsSorted ⟦<String as Ord>⟧.cmp (map (λ file. file.name) both.0.files.items)) }
    ensures set { IfOk result
        (λ both. AreUnreadable (IsSetAside (R.finds rt.now) (R.moves rt.now) (R.makes rt.now)
        (R.syncs rt.now) taking.now) both.0.files.items) }
    ensures folder { IfOk result
        (λ both. IsRunFolder (R.lists rt.now taking.now) (R.finds rt.now) (R.moves rt.now)
        (R.syncs rt.now) done.now.dir.now done.now.run.now both.1) }
    ensures halted { IfErr result
        (λ stop. IsStoppedAt (R.lists rt.now taking.now)
        (IsHanded (R.reads rt.now) (R.writes rt.now) (R.lacks rt.now) taking.now)
        (λ name. IsText (R.reads rt.now) (file_path taking.now name)) (K.standing keeper.old)
        (K.standing keeper.new) moment stop.stop stop.step) }
    ensures cause { IfErr result (λ stop. HasCause (R.fails rt.now) stop.stop.fault) }
    ensures stopped { IfErr result
        (λ stop. IsFolderStop stop.stop (K.standing keeper.old) (K.standing keeper.new) moment) }
    ensures opened { OnOk result ((K.standing keeper.old).shut ≡ (K.standing keeper.new).shut) }
    ensures goes { GoesOn (K.standing keeper.old) (K.standing keeper.new) }
{
    match take_folder_telling(rt, taking, keeper, moment, told) {
        Ok(folder) => match finish_taken(rt, done, taking, &folder) {
            Ok(named) => Ok((folder, named)),
            Err(stop) => Err(stop),
        },
        Err(stop) => Err(IntoStop {
            step: IntoStep::Taking,
            stop,
        }),
    }
}

/// Takes a folder IN into another, DONE, so that each interchange is moved before it is read: no
/// file is moved that isn't handed in, whoever renames files into IN meanwhile, and nothing is ever
/// written over.
///
/// The interchanges of IN, as `take_folder_telling` has them, are moved to DONE/taking, which is
/// made if it isn't there. Those that can't be moved stay in IN, and are told: links, those under
/// whose name DONE/taking still has a file, and those that the system doesn't move. What is gone
/// meanwhile is passed over in silence. Then DONE/taking is taken by `take_folder_telling`, with
/// what an earlier run left there when it stopped: the same bytes get the same answer. Its
/// unreadable files, which have no answer, are moved to the folder `unreadable` in it, unless a
/// file of their name is there. Last DONE/taking gets the name of the run, or that name with `-2`,
/// `-3` .. `-999`, the first that is free; where it is empty it isn't renamed.
///
/// Each step is on the disk before the next begins, so after a stop at any place the next run
/// finds and answers what is left. Faults are those of `take_folder_telling`, and Device (44) where
/// a folder can't be made, read, renamed or brought down to the disk. Before the step Taking they
/// leave the book unchanged; at the step Naming all files of DONE/taking were handed in.
pub fn take_into<R: FileSystem + AllocGlobal, K: Keeper, T: FnMut(u64, u64)>(
    rt: &R,
    dir: &str,
    done: &Done<'_>,
    keeper: &mut K,
    moment: Moment,
    told: T,
) -> Result<TakenInto, IntoStop>
    requires told { T.IsAlwaysCallable told }

    ensures claimed { IfOk result
        (λ into. IsClaimedFrom (R.lists rt.now dir.now) (IsClaim (R.finds rt.now)
        (R.moves rt.now) (R.fails rt.now) dir.now (taking_path done.now.dir.now)) into.stays.items
        into.passed.items) }
    ensures down { OnOk result
        (AreDown (R.makes rt.now) (R.syncs rt.now) dir.now done.now.dir.now) }

    // The folder DONE/taking, as `take_folder_telling` says of it.
    ensures all { IfOk result
        (λ into. IsListed (R.lists rt.now (taking_path done.now.dir.now))
        (map (λ file. file.name) into.taken.files.items) into.taken.passed.items) }
    ensures handed { IfOk result
        (λ into. AreFilesHanded (IsHanded (R.reads rt.now) (R.writes rt.now) (R.lacks rt.now)
        (taking_path done.now.dir.now))
        (K.standing keeper.old) (K.standing keeper.new) moment
        (map (λ file. string_bytes file.name) into.taken.files.items)
        (map (λ file. became_of file.outcome) into.taken.files.items)) }
    ensures taken { IfOk result
        (λ into. (texts : List (List ℕ))
        × AreTextsTaken (K.standing keeper.old) (K.standing keeper.new) moment texts (map
        (λ file. became_of file.outcome) into.taken.files.items)) }
    ensures rising { IfOk result
        (λ into. IsSorted ⟦<String as Ord>⟧.cmp
        (map (λ file. file.name) into.taken.files.items)) }

    ensures set { IfOk result
        (λ into. AreUnreadable (IsSetAside (R.finds rt.now) (R.moves rt.now) (R.makes rt.now)
        (R.syncs rt.now) (taking_path done.now.dir.now)) into.taken.files.items) }
    ensures folder { IfOk result
        (λ into. IsRunFolder (R.lists rt.now (taking_path done.now.dir.now)) (R.finds rt.now)
        (R.moves rt.now) (R.syncs rt.now) done.now.dir.now done.now.run.now into.folder) }

    ensures halted { IfErr result
        (λ stop. IsStoppedAt (R.lists rt.now (taking_path done.now.dir.now)) (IsHanded
        (R.reads rt.now) (R.writes rt.now) (R.lacks rt.now) (taking_path done.now.dir.now))
        (λ name. IsText (R.reads rt.now) (file_path (taking_path done.now.dir.now) name))
        (K.standing keeper.old) (K.standing keeper.new) moment stop.stop stop.step) }
    ensures cause { IfErr result (λ stop. HasCause (R.fails rt.now) stop.stop.fault) }
    ensures stopped { IfErr result
        (λ stop. IsFolderStop stop.stop (K.standing keeper.old) (K.standing keeper.new) moment) }
    ensures opened { OnOk result ((K.standing keeper.old).shut ≡ (K.standing keeper.new).shut) }
    ensures goes { GoesOn (K.standing keeper.old) (K.standing keeper.new) }
{
    let taking = prepare_taking(rt, done.dir)?;
    let Claims { stays, passed } = claim_all(rt, dir, &taking)?;
    match take_claimed(rt, done, &taking, keeper, moment, told) {
        Ok((taken, folder)) => Ok(TakenInto {
            taken,
            stays,
            passed,
            folder,
        }),
        Err(stop) => Err(stop),
    }
}
