//! What is outside of the program: folders and files.
use std::io;

/// An entry of a folder.
#[derive(Drop)]
pub struct FolderEntry {
    /// Its name; None where that isn't UTF-8, since a path is text.
    pub name: Option<String>,
    /// Whether it is a regular file or a link to one.
    pub is_file: bool,
}

/// What stands under a path. A link isn't followed.
#[derive(Clone, Copy, PartialEq, Eq)]
pub enum EntryKind {
    /// Nothing.
    NoEntry,
    /// A regular file.
    File,
    /// A symbolic link, wherever it leads.
    Link,
    /// A folder, a pipe, a socket or a device.
    Other,
}

/// The folders and files outside of the program. Each call may fail, and says with which error.
/// What a system has in them no contract knows, so of a system these relations say nothing; whoever
/// reads or writes through this trait keeps to them, whatever they are.
pub trait FileSystem {
    ghost use Rattle.std.specs.Prelude.{◌≡◌, ℕ, ⊤, List, false, IfOk, IfErr, OnOk};
    ghost use Rattle.std.specs.IoError.{error_kind};
    ghost use Rattle.std.specs.declared.io.ErrorKind.{ErrorKind};
    ghost use Rattle.folders.specs.Passing.{is_interchange};
    ghost use Rattle.folders.specs.declared.file_system.FolderEntry.{FolderEntry};
    ghost use Rattle.folders.specs.declared.file_system.EntryKind.{EntryKind};

    // Relates it, the path of a folder, and the entries that the folder has.
    ghost lists: { Self → List ℕ → List FolderEntry → Type 0 } = { λ _ _ _. ⊤ };

    // Relates it, the path of a file, a number, and the first bytes of the file, so many where it
    // has so many, and else all.
    ghost reads: { Self → List ℕ → ℕ → List ℕ → Type 0 } = { λ _ _ _ _. ⊤ };

    // Relates it, a path, and the bytes that a file of its own has there, since they were written.
    ghost writes: { Self → List ℕ → List ℕ → Type 0 } = { λ _ _ _. ⊤ };

    // Relates it and a path under which nothing stands, since it was removed.
    ghost lacks: { Self → List ℕ → Type 0 } = { λ _ _. ⊤ };

    // Relates it, a path, and what stood there; a link isn't followed.
    ghost finds: { Self → List ℕ → EntryKind → Type 0 } = { λ _ _ _. ⊤ };

    // Relates it, a path, and the path to which what stood there was moved.
    ghost moves: { Self → List ℕ → List ℕ → Type 0 } = { λ _ _ _. ⊤ };

    // Relates it and a path under which a folder stands, since it was made or was there.
    ghost makes: { Self → List ℕ → Type 0 } = { λ _ _. ⊤ };

    // Relates it and the path of a folder whose names are on the disk.
    ghost syncs: { Self → List ℕ → Type 0 } = { λ _ _. ⊤ };

    // Relates it, the path that a call was about, and the kind of error with which it failed.
    ghost fails: { Self → List ℕ → ErrorKind → Type 0 } = { λ _ _ _. ⊤ };

    /// The entries of a folder, all of them. Fails where one can't be read.
    fn entries(&self, dir: &str) -> io::Result<Vec<FolderEntry>>
        ensures listed { IfOk result (λ entries. lists self.now dir.now entries.items) }
        ensures failed { IfErr result (λ error. fails self.now dir.now (error_kind error)) };

    /// The first bytes of a file, `most` of them where it has so many; no more than these are read.
    fn first_bytes(&self, path: &str, most: u64) -> io::Result<Vec<u8>>
        ensures read { IfOk result (λ bytes. reads self.now path.now most bytes.items) }
        ensures failed { IfErr result (λ error. fails self.now path.now (error_kind error)) };

    /// Writes a file of its own under a path, in place of what stands there. It is written under
    /// the path `made` first, down to the disk, and then renamed: so no link is followed, and a
    /// stop at any place leaves what was there or the whole new file. What an earlier stop left
    /// under `made` is removed. No interchange is ever written over: neither path is that of one.
    fn replace(&self, made: &str, path: &str, bytes: &[u8]) -> io::Result<()>
        requires made { is_interchange made.now ≡ false }
        requires path { is_interchange path.now ≡ false }

        ensures written { OnOk result (writes self.now path.now bytes.now) }
        ensures failed { IfErr result (λ error. fails self.now path.now (error_kind error)) };

    /// Removes what stands under a path, if anything does; of a link it is the link itself. No
    /// interchange is ever removed: the path isn't that of one.
    fn remove(&self, path: &str) -> io::Result<()>
        requires path { is_interchange path.now ≡ false }

        ensures removed { OnOk result (lacks self.now path.now) }
        ensures failed { IfErr result (λ error. fails self.now path.now (error_kind error)) };

    /// What stands under a path. Of a link it is the link itself.
    fn kind_of(&self, path: &str) -> io::Result<EntryKind>
        ensures found { IfOk result (λ kind. finds self.now path.now kind) }
        ensures failed { IfErr result (λ error. fails self.now path.now (error_kind error)) };

    /// Gives what stands under a path another one, in the same file system. Nothing is ever moved
    /// over something: nothing stood under the other path when it was looked at.
    fn rename(&self, from: &str, to: &str) -> io::Result<()>
        requires free { finds self.now to.now EntryKind.NoEntry }

        ensures moved { OnOk result (moves self.now from.now to.now) }
        ensures failed { IfErr result (λ error. fails self.now from.now (error_kind error)) };

    /// Makes a folder, and those above it, unless it is there.
    fn make_folder(&self, path: &str) -> io::Result<()>
        ensures made { OnOk result (makes self.now path.now) }
        ensures failed { IfErr result (λ error. fails self.now path.now (error_kind error)) };

    /// Brings the names of a folder's entries down to the disk.
    fn sync_folder(&self, path: &str) -> io::Result<()>
        ensures synced { OnOk result (syncs self.now path.now) }
        ensures failed { IfErr result (λ error. fails self.now path.now (error_kind error)) };

    /// Writes a file under a path where nothing stood when it was looked at. It is written under
    /// the path `made` first, down to the disk, and then renamed: so a stop at any place leaves
    /// nothing under the path, or the whole file. What an earlier stop left under `made` is
    /// removed; that isn't the path of an interchange.
    fn create(&self, made: &str, path: &str, bytes: &[u8]) -> io::Result<()>
        requires made { is_interchange made.now ≡ false }
        requires free { finds self.now path.now EntryKind.NoEntry }

        ensures written { OnOk result (writes self.now path.now bytes.now) }
        ensures failed { IfErr result (λ error. fails self.now path.now (error_kind error)) };
}
