//! Which entries of a folder are interchanges.
ghost use Rattle.std.specs.Prelude.{◌≡◌, ◌++◌, IfOk, IfErr, OnOk};
ghost use Rattle.std.specs.Option.{option_to_list};
ghost use Rattle.std.specs.IoError.{error_kind};
ghost use Rattle.folders.specs.Folders.{IsErrorAt};
ghost use Rattle.folders.specs.Listing.{IsListed, handed_as, told_over, why_over};

use crate::file_system::{FileSystem, FolderEntry};
use crate::passing::{PassedOver, WhyPassed, is_interchange, why_passed};
use std::alloc::AllocError;
use std::io;

/// The interchanges of a folder, and what is passed over.
#[derive(Drop)]
pub struct Listing {
    /// The names of the interchanges, in the order of their bytes.
    pub names: Vec<String>,
    /// What is passed over, in the same order; first what has no name.
    pub passed: Vec<PassedOver>,
}

// Puts an entry to the interchanges or to what is passed over, if it is one of the two.
fn place(entry: FolderEntry, listing: &mut Listing) -> Result<(), AllocError>
    ensures names { OnOk result (listing.new.names.items ≡ listing.old.names.items
        ++ option_to_list (handed_as entry.name entry.is_file)) }
    ensures passed { OnOk result (listing.new.passed.items ≡ listing.old.passed.items
        ++ option_to_list (told_over entry.name (why_over entry.name entry.is_file))) }
{
    let FolderEntry { name, is_file } = entry;
    let Some(name) = name else {
        let why = WhyPassed::NoText;
        listing.passed.push(PassedOver { name: None, why })?;
        return Ok(());
    };
    if !is_interchange(&name) {
        return Ok(());
    }
    match why_passed(&name, is_file) {
        None => listing.names.push(name)?,
        Some(why) => listing.passed.push(PassedOver {
            name: Some(name),
            why,
        })?,
    }
    Ok(())
}

/// What is in a folder: the names of the interchanges, which are the regular files whose names end
/// `.x12` or `.X12` and links to such files, and what ends so and is passed over: a folder, a pipe,
/// a socket, a device, a link that leads to no file, and a name of more than 251 bytes, to which
/// `.ans` can't be added. An entry whose name isn't UTF-8 is passed over too, however it ends.
/// Other entries are no interchanges, and nothing is said of them.
pub fn listed<R: FileSystem + AllocGlobal>(rt: &R, dir: &str) -> io::Result<Listing>
    ensures all { IfOk result
        (λ listing. IsListed (R.lists rt.now dir.now) listing.names.items listing.passed.items) }
    ensures failed { IfErr result (λ error. IsErrorAt (R.fails rt.now) dir.now (error_kind error)) }
{
    let mut listing = Listing {
        names: Vec::new(rt.alloc()),
        passed: Vec::new(rt.alloc()),
    };
    for entry in rt.entries(dir)? {
        place(entry, &mut listing)?;
    }
    listing.names.sort_unstable();
    listing.passed.sort_unstable_by(|a, b| a.name.cmp(&b.name));
    Ok(listing)
}
