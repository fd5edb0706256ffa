ghost use Rattle.std.specs.Prelude.{◌≡◌, ◌≢◌, ◌<◌, [], ℕ, List, map, IfOk, IfErr, IfNone, IsSome, OnOk, IsSorted, string_bytes, vec_len, vec_capacity};
ghost use Rattle.std.specs.IoError.{error_kind};
ghost use Rattle.folders.specs.Answers.{IsFileBeside};
ghost use Rattle.folders.specs.Folders.{became, became_of, fault_of_kind, HasCause, IsDeviceFault, AreTextsTaken, IsFolderStopped};
ghost use Rattle.folders.specs.Handed.{text_of, AreFilesHanded, IsFileHanded, IsHanded, IsStoppedIn, IsStoppedWithin, IsText, IsUntaken};
ghost use Rattle.folders.specs.Listing.{IsListed};
ghost use Rattle.folders.specs.Paths.{answer_path, file_path};
ghost use Rattle.folders.specs.Stops.{IsFolderUnread, IsFolderStop};
ghost use Rattle.folders.specs.declared.passing.PassedOver.{PassedOver};
ghost use Rattle.store.specs.Runs.{told};
ghost use Rattle.store.specs.Standing.{GoesOn, IsUnchanged};

use crate::answers::{remove_answer, write_answer};
use crate::file_system::FileSystem;
use crate::files::read_interchange;
use crate::names::{Listing, listed};
use crate::passing::PassedOver;
use crate::paths::path_in;
use std::io;
use store::{Command, Fault, Keeper, Moment, Refusal, Reply, submit};

/// What became of the interchange in a file.
#[derive(Clone, Copy, PartialEq, Eq)]
pub enum FileOutcome {
    /// It is accepted.
    Accepted,
    /// It was accepted before.
    Stored,
    /// It is refused.
    Refused(Refusal),
}

/// A file that was taken.
#[derive(Drop)]
pub struct Taken {
    /// Its name in the folder.
    pub name: String,
    /// What became of it.
    pub outcome: FileOutcome,
}

/// A folder that was taken.
#[derive(Drop)]
pub struct TakenFolder {
    /// Its interchanges, in the order in which they were handed in: that of their names' bytes.
    pub files: Vec<Taken>,
    /// What may be meant as an interchange and was passed over, in the same order; first what has
    /// no name.
    pub passed: Vec<PassedOver>,
}

/// Where the taking of a folder stopped.
#[derive(Drop)]
pub struct FolderStop {
    /// The fault that stopped it.
    pub fault: Fault,
    /// The name of the file at which it stopped; None where the folder couldn't be read.
    pub at: Option<String>,
    /// How many files before it were taken.
    pub taken: u64,
}

// The fault that an error of a file or a folder is.
pub(crate) fn fault_of(error: &io::Error) -> Fault
    ensures told { result ≡ fault_of_kind (error_kind error.now) }
    ensures named { IsDeviceFault result }
{
    match error.kind() {
        io::ErrorKind::OutOfMemory => Fault::OutOfMemory,
        _ => Fault::Device,
    }
}

// The bytes of the interchange in a file.
fn bytes_of<R: FileSystem>(rt: &R, path: &str) -> Result<Vec<u8>, Fault>
    ensures read { IfOk result (λ bytes. IsText (R.reads rt.now) path.now bytes.items) }
    ensures named { IfErr result IsDeviceFault }
    ensures cause { IfErr result (HasCause (R.fails rt.now)) }
{
    match read_interchange(rt, path) {
        Ok(bytes) => Ok(bytes),
        Err(error) => Err(fault_of(&error)),
    }
}

// Writes an answer beside its file, unless it is there. Where it is empty, an old one is removed.
fn leave_answer<R: FileSystem + AllocGlobal>(rt: &R, path: &str, answer: &[u8]) -> Result<(), Fault>
    ensures written { OnOk result
        (answer.now ≢ [] → IsFileBeside (R.finds rt.now) (R.reads rt.now) (R.writes rt.now)
        (R.fails rt.now) (answer_path path.now) answer.now) }
    ensures removed { OnOk result (answer.now ≡ [] → R.lacks rt.now (answer_path path.now)) }
    ensures named { IfErr result IsDeviceFault }
    ensures cause { IfErr result (HasCause (R.fails rt.now)) }
{
    let left = if answer.is_empty() {
        remove_answer(rt, path)
    } else {
        write_answer(rt, path, answer)
    };
    match left {
        Ok(()) => Ok(()),
        Err(error) => Err(fault_of(&error)),
    }
}

// What became of an interchange with this reply, and its answer.
fn outcome_of(reply: Reply) -> (FileOutcome, Vec<u8>)
    ensures told { became_of result.0 ≡ became (told reply) }
    ensures text { result.1.items ≡ text_of (told reply) }
{
    match reply {
        Reply::Accepted(text) => (FileOutcome::Accepted, text),
        Reply::Stored(text) => (FileOutcome::Stored, text),
        Reply::Refused { refusal, answer } => (FileOutcome::Refused(refusal), answer),
    }
}

// What is in a folder.
fn listing_of<R: FileSystem + AllocGlobal>(rt: &R, dir: &str) -> Result<Listing, FolderStop>
    ensures all { IfOk result
        (λ listing. IsListed (R.lists rt.now dir.now) listing.names.items listing.passed.items) }
    ensures unread { IfErr result IsFolderUnread }
    ensures cause { IfErr result (λ stop. HasCause (R.fails rt.now) stop.fault) }
{
    match listed(rt, dir) {
        Ok(listing) => Ok(listing),
        Err(error) => Err(FolderStop {
            fault: fault_of(&error),
            at: None,
            taken: 0,
        }),
    }
}

// Takes the file of this name once there is room to tell what became of it, so that nothing can
// fail after it is taken.
fn take_file<R: FileSystem + AllocGlobal, K: Keeper>(
    rt: &R,
    dir: &str,
    name: &str,
    files: &mut Vec<Taken>,
    keeper: &mut K,
    moment: Moment,
) -> Result<FileOutcome, Fault>
    ensures taken { IfOk result
        (λ outcome. IsFileHanded
        (IsHanded (R.reads rt.now) (R.writes rt.now) (R.lacks rt.now) dir.now)
        (K.standing keeper.old) (K.standing keeper.new) moment name.now (became_of outcome)) }
    ensures stopped { IfErr result
        (λ fault. IsUntaken (IsText (R.reads rt.now) (file_path dir.now name.now)) fault
        (K.standing keeper.old) (K.standing keeper.new) moment) }
    ensures cause { IfErr result (HasCause (R.fails rt.now)) }
    ensures opened { OnOk result ((K.standing keeper.old).shut ≡ (K.standing keeper.new).shut) }
    ensures goes { GoesOn (K.standing keeper.old) (K.standing keeper.new) }
    ensures kept { files.new.items ≡ files.old.items }
    ensures room { OnOk result (vec_len files.new < vec_capacity files.new) }
{
    files.reserve(1)?;
    let path = path_in(rt, dir, name)?;
    let bytes = bytes_of(rt, &path)?;
    let reply = submit(rt.alloc(), keeper, &Command::Interchange(&bytes), moment)?;
    let (outcome, answer) = outcome_of(reply);
    leave_answer(rt, &path, &answer)?;
    Ok(outcome)
}

// Takes the files of these names, one after the other, each once. After each of them `told` is
// handed how many were taken of how many. A fault stops at the file after those that were taken.
fn take_names<R: FileSystem + AllocGlobal, K: Keeper, T: FnMut(u64, u64)>(
    rt: &R,
    dir: &str,
    names: Vec<String>,
    keeper: &mut K,
    moment: Moment,
    mut told: T,
) -> Result<Vec<Taken>, FolderStop>
    requires told { T.IsAlwaysCallable told }

    ensures each { IfOk result (λ files. map (λ file. file.name) files.items ≡ names.items) }
    ensures taken { IfOk result
        (λ files. AreFilesHanded
        (IsHanded (R.reads rt.now) (R.writes rt.now) (R.lacks rt.now) dir.now)
        (K.standing keeper.old) (K.standing keeper.new) moment
        (map (λ file. string_bytes file.name) files.items)
        (map (λ file. became_of file.outcome) files.items)) }
    ensures stopped { IfErr result
        (λ stop. IsStoppedWithin
        (IsHanded (R.reads rt.now) (R.writes rt.now) (R.lacks rt.now) dir.now)
        (λ name. IsText (R.reads rt.now) (file_path dir.now name)) stop
        (K.standing keeper.old) (K.standing keeper.new) moment names.items) }
    ensures cause { IfErr result (λ stop. HasCause (R.fails rt.now) stop.fault) }
    ensures opened { OnOk result ((K.standing keeper.old).shut ≡ (K.standing keeper.new).shut) }
    ensures goes { GoesOn (K.standing keeper.old) (K.standing keeper.new) }
{
    let count = names.len() as u64;
    let mut files = Vec::new(rt.alloc());
    for name in names {
        match take_file(rt, dir, &name, &mut files, keeper, moment) {
            Ok(outcome) => files.push(Taken { name, outcome }).unwrap(),
            Err(fault) => {
                return Err(FolderStop {
                    fault,
                    at: Some(name),
                    taken: files.len() as u64,
                });
            }
        }
        told(files.len() as u64, count);
    }
    Ok(files)
}

/// Submits each interchange of a folder, the regular files whose names end `.x12` or `.X12` and
/// links to such files, in the order of their names' bytes, and writes a nonempty answer to the
/// name with `.ans` added, as a file of its own that replaces what stands there. A regular file
/// that has just the answer's bytes is left alone. Where the answer is empty, what stands there is
/// removed. A file whose answer is there already is submitted again: so taking the folder again
/// mends a stop at any place. After each file `told` is handed how many were taken of how many.
///
/// Passed over, and told, is what may be meant as an interchange: an entry of another kind whose
/// name ends `.x12` or `.X12`, a file with such a name of more than 251 bytes, and each entry whose
/// name isn't UTF-8. Other entries are no interchanges.
///
/// Faults are those of `submit`, want of memory, and Device (44) where the folder can't be read, a
/// file can't be read or an answer can't be written. After a fault the files before it are taken;
/// what became of each isn't told.
pub fn take_folder_telling<R: FileSystem + AllocGlobal, K: Keeper, T: FnMut(u64, u64)>(
    rt: &R,
    dir: &str,
    keeper: &mut K,
    moment: Moment,
    told: T,
) -> Result<TakenFolder, FolderStop>
    requires told { T.IsAlwaysCallable told }

    ensures all { IfOk result
        (λ folder. IsListed (R.lists rt.now dir.now)
        (map (λ file. file.name) folder.files.items) folder.passed.items) }
    ensures handed { IfOk result
        (λ folder. AreFilesHanded
        (IsHanded (R.reads rt.now) (R.writes rt.now) (R.lacks rt.now) dir.now)
        (K.standing keeper.old) (K.standing keeper.new) moment
        (map (λ file. string_bytes file.name) folder.files.items)
        (map (λ file. became_of file.outcome) folder.files.items)) }
    ensures halted { IfErr result
        (λ stop. IsSome stop.at → IsStoppedIn (R.lists rt.now dir.now)
        (IsHanded (R.reads rt.now) (R.writes rt.now) (R.lacks rt.now) dir.now)
        (λ name. IsText (R.reads rt.now) (file_path dir.now name)) stop
        (K.standing keeper.old) (K.standing keeper.new) moment) }
    ensures cause { IfErr result (λ stop. HasCause (R.fails rt.now) stop.fault) }
    ensures taken { IfOk result
        (λ folder. (texts : List (List ℕ))
        × AreTextsTaken (K.standing keeper.old) (K.standing keeper.new) moment texts (map
        (λ file. became_of file.outcome) folder.files.items)) }
    ensures rising { IfOk result
        (λ folder. IsSorted ⟦<String as Ord>⟧.cmp (map (λ file. file.name) folder.files.items)) }
    ensures stopped { IfErr result
        (λ stop. IsFolderStop stop (K.standing keeper.old) (K.standing keeper.new) moment) }
    ensures unread { IfErr result
        (λ stop. IfNone stop.at (IsUnchanged (K.standing keeper.old) (K.standing keeper.new))) }
    ensures opened { OnOk result ((K.standing keeper.old).shut ≡ (K.standing keeper.new).shut) }
    ensures goes { GoesOn (K.standing keeper.old) (K.standing keeper.new) }
{
    let Listing { names, passed } = listing_of(rt, dir)?;
    match take_names(rt, dir, names, keeper, moment, told) {
        Ok(files) => Ok(TakenFolder { files, passed }),
        Err(stop) => Err(stop),
    }
}

/// The same, where nobody is told more than what became of the files: not what was passed over, nor
/// where it stopped.
pub fn take_folder<R: FileSystem + AllocGlobal, K: Keeper>(
    rt: &R,
    dir: &str,
    keeper: &mut K,
    moment: Moment,
) -> Result<Vec<Taken>, Fault>
    ensures all { IfOk result
        (λ files. (passed : List PassedOver) × IsListed (R.lists rt.now dir.now)
        (map (λ file. file.name) files.items) passed) }
    ensures handed { IfOk result
        (λ files. AreFilesHanded
        (IsHanded (R.reads rt.now) (R.writes rt.now) (R.lacks rt.now) dir.now)
        (K.standing keeper.old) (K.standing keeper.new) moment
        (map (λ file. string_bytes file.name) files.items)
        (map (λ file. became_of file.outcome) files.items)) }
    ensures cause { IfErr result (HasCause (R.fails rt.now)) }
    ensures taken { IfOk result
        (λ files. (texts : List (List ℕ))
        × AreTextsTaken (K.standing keeper.old) (K.standing keeper.new) moment texts (map
        (λ file. became_of file.outcome) files.items)) }
    ensures rising { IfOk result
        (λ files. IsSorted ⟦<String as Ord>⟧.cmp (map (λ file. file.name) files.items)) }
    ensures stopped { IfErr result
        (λ fault. IsFolderStopped fault (K.standing keeper.old) (K.standing keeper.new) moment) }
    ensures opened { OnOk result ((K.standing keeper.old).shut ≡ (K.standing keeper.new).shut) }
    ensures goes { GoesOn (K.standing keeper.old) (K.standing keeper.new) }
{
    match take_folder_telling(rt, dir, keeper, moment, |_, _| {}) {
        Ok(folder) => Ok(folder.files),
        Err(stop) => Err(stop.fault),
    }
}
