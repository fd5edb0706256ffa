//! The files of the system.
ghost use Rattle.std.specs.Prelude.{◌≡◌, IfOk, IfSome, take};

use crate::file_system::{EntryKind, FileSystem, FolderEntry};
use std::alloc::Global;
use std::fs::{DirEntry, File, Metadata, OpenFile};
use std::io::{Read, Write};
use std::rt::Files;
use std::{fs, io};

// Whether an entry is a regular file, or a link to one.
fn is_file<R: Files, D: Files>(rt: &R, entry: &DirEntry<D>) -> io::Result<bool> {
    let kind = entry.file_type()?;
    if !kind.is_symlink() {
        return Ok(kind.is_file());
    }
    match fs::metadata(rt, entry.path()) {
        Ok(found) => Ok(found.is_file()),
        Err(_) => Ok(false),
    }
}

// A named entry; None of one that is gone since the folder was read.
fn named_entry<R: Files + AllocGlobal, D: Files>(
    rt: &R,
    found: &DirEntry<D>,
) -> io::Result<Option<FolderEntry>> {
    match is_file(rt, found) {
        Ok(is_file) => Ok(Some(FolderEntry {
            name: Some(found.file_name().to_string(rt.alloc())?),
            is_file,
        })),
        Err(error) if error.kind() == io::ErrorKind::NotFound => Ok(None),
        Err(error) => Err(error),
    }
}

// An entry, named or not.
fn entry_of<R: Files + AllocGlobal, D: Files + Drop>(
    rt: &R,
    found: io::Result<DirEntry<D>>,
) -> io::Result<Option<FolderEntry>> {
    match found {
        Ok(entry) => named_entry(rt, &entry),
        Err(error) if error.kind() == io::ErrorKind::InvalidFilename => Ok(Some(FolderEntry {
            name: None,
            is_file: false,
        })),
        Err(error) => Err(error),
    }
}

// The first bytes of a reader, `most` of them where it has so many.
fn first_of<I: Read + Drop>(alloc: Global, input: I, most: u64) -> io::Result<Vec<u8>>
    ensures { IfOk result
        (λ bytes. IfSome (I.remaining input) (λ all. bytes.items ≡ take most all)) }
{
    let mut bytes = Vec::new(alloc);
    let mut front = input.take(most);
    front.read_to_end(&mut bytes)?;
    Ok(bytes)
}

// Removes what stands under a name, if anything does. Of a link it is the link itself.
fn clear<R: Files>(rt: &R, path: &str) -> io::Result<()> {
    match fs::remove_file(rt, path) {
        Err(error) if error.kind() != io::ErrorKind::NotFound => Err(error),
        _ => Ok(()),
    }
}

// Writes a file that isn't there yet, down to the disk.
fn write_new<R: Files>(rt: &R, path: &str, bytes: &[u8]) -> io::Result<()> {
    let mut file = File::create_new(rt, path)?;
    file.write_all(bytes)?;
    file.sync_all()
}

// Writes a file under a name of its own and gives it the name that it is to have. What stands under
// that name is replaced, and never opened.
fn write_renamed<R: Files>(rt: &R, made: &str, path: &str, bytes: &[u8]) -> io::Result<()> {
    clear(rt, made)?;
    write_new(rt, made, bytes)?;
    fs::rename(rt, made, path)
}

// The same, where what is left of it is removed if it fails.
fn write_renamed_or_clear<R: Files>(
    rt: &R,
    made: &str,
    path: &str,
    bytes: &[u8],
) -> io::Result<()> {
    let written = write_renamed(rt, made, path, bytes);
    if written.is_err() {
        // Nothing is lost where this fails too: the next file under this name removes what is left.
        let _ = fs::remove_file(rt, made);
    }
    written
}

// What an entry is.
fn kind_of_entry(found: &Metadata) -> EntryKind {
    if found.is_symlink() {
        EntryKind::Link
    } else if found.is_file() {
        EntryKind::File
    } else {
        EntryKind::Other
    }
}

impl<R: Files + AllocGlobal> FileSystem for R {
    fn entries(&self, dir: &str) -> io::Result<Vec<FolderEntry>> {
        let mut entries = Vec::new(self.alloc());
        for found in fs::read_dir(&self, dir)? {
            if let Some(entry) = entry_of(self, found)? {
                entries.push(entry)?;
            }
        }
        Ok(entries)
    }

    fn first_bytes(&self, path: &str, most: u64) -> io::Result<Vec<u8>> {
        first_of(self.alloc(), fs::open(self, path)?, most)
    }

    fn replace(&self, made: &str, path: &str, bytes: &[u8]) -> io::Result<()> {
        write_renamed_or_clear(self, made, path, bytes)
    }

    fn remove(&self, path: &str) -> io::Result<()> {
        clear(self, path)
    }

    fn kind_of(&self, path: &str) -> io::Result<EntryKind> {
        match fs::symlink_metadata(self, path) {
            Ok(found) => Ok(kind_of_entry(&found)),
            Err(error) if error.kind() == io::ErrorKind::NotFound => Ok(EntryKind::NoEntry),
            Err(error) => Err(error),
        }
    }

    fn rename(&self, from: &str, to: &str) -> io::Result<()> {
        fs::rename(self, from, to)
    }

    fn make_folder(&self, path: &str) -> io::Result<()> {
        fs::create_dir_all(self, path)
    }

    fn sync_folder(&self, path: &str) -> io::Result<()> {
        fs::open(self, path)?.sync_all()
    }

    fn create(&self, made: &str, path: &str, bytes: &[u8]) -> io::Result<()> {
        write_renamed_or_clear(self, made, path, bytes)
    }
}
