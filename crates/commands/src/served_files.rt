//! The file of a book that is served.
ghost use Rattle.std.specs.Prelude.{◌≡◌, true, IfOk};

use std::os::unix::fs::MetadataExt;
use std::rt::Files;
use std::{fs, io};

/// What tells a file from every other one that is there.
#[derive(Clone, Copy)]
pub struct FileId {
    /// The device that it is on.
    pub device: u64,
    /// Its number there.
    pub inode: u64,
}

/// Files by their names. Where a system's names lead no contract knows, so of one the relation says
/// nothing; whoever asks through this trait keeps to it, whatever it is.
pub trait FileNames {
    ghost use Rattle.std.specs.Prelude.{ℕ, List, ⊤, IfOk};
    ghost use Rattle.commands.specs.declared.served_files.FileId.{FileId};

    // Relates it, a name, and the file to which the name led when it was asked.
    ghost leads: { Self → List ℕ → FileId → Type 0 } = { λ _ _ _. ⊤ };

    /// The file to which a name leads now. The error is that of the file system.
    fn file_at(&self, name: &str) -> io::Result<FileId>
        ensures { IfOk result (leads self.now name.now) };
}

impl<R: Files> FileNames for R {
    fn file_at(&self, name: &str) -> io::Result<FileId> {
        let found = fs::metadata(self, name)?;
        Ok(FileId {
            device: found.dev(),
            inode: found.ino(),
        })
    }
}

/// The file of a book, as its name led to it when it was looked at.
#[derive(Clone, Copy)]
pub struct ServedFile<'a> {
    name: &'a str,
    file: FileId,
}

impl<'a> ServedFile<'a> {
    /// The file to which a name leads now. The error is that of the file system.
    pub fn look<R: FileNames>(rt: &R, name: &'a str) -> io::Result<ServedFile<'a>>
        ensures name { IfOk result (λ served. served.name ≡ name.entry) }
        ensures file { IfOk result (λ served. R.leads rt.now name.now served.file) }
    {
        let file = rt.file_at(name)?;
        Ok(ServedFile { name, file })
    }

    /// Its name.
    pub fn name(&self) -> &'a str
        ensures { result ≡ self.now.name }
    {
        self.name
    }

    /// Whether the name still leads to it. A book that was removed, or restored over, is another
    /// file, and what is written to the one that is open is lost with it.
    pub fn is_there<R: FileNames>(&self, rt: &R) -> bool
        ensures { result ≡ true → R.leads rt.now self.now.name.now self.now.file }
    {
        match rt.file_at(self.name) {
            Ok(found) => found.device == self.file.device && found.inode == self.file.inode,
            Err(_) => false,
        }
    }
}
