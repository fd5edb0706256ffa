//! A folder that is taken, of which each call fails in turn, and one of more than a thousand files.
use super::worked::{ADVICE, ANSWER, acme, empty, enrols, failed, morning};
use folders::{
    EntryKind, FileOutcome, FileSystem, FolderEntry, FolderStop, TakenFolder, WhyPassed,
    take_folder_telling,
};
use std::alloc::{Alloc, Global};
use std::cell::Cell;
use std::io::{self, ErrorKind};
use std::test::Fail;
use store::{Fault, Keeper, Refusal};

// How many files the larger folder has.
const MANY: u32 = 1_001;

// The entries of the smaller folder: whether each is a file, and its name, where that is a text.
const ENTRIES: [(bool, Option<&str>); 6] = [
    (true, Some("c.x12")),
    (true, Some("a.x12")),
    (false, Some("e.x12")),
    (true, None),
    (true, Some("d.txt")),
    (true, Some("b.x12")),
];

// A folder in memory. Of the smaller one `a.x12` and `b.x12` are the advice; all other files are
// unreadable. It takes no other answer than that to the advice, beside these two, and lets no
// answer of theirs be removed. Beside `c.x12` an old answer stands, until it is removed.
#[derive(Drop)]
struct Drawer {
    alloc: Global,
    is_large: bool,
    failing: &'static str,
    written: Cell<u32>,
    has_old: Cell<bool>,
}

impl Drawer {
    fn new(alloc: Global, is_large: bool, failing: &'static str) -> Drawer {
        Drawer {
            alloc,
            is_large,
            failing,
            written: Cell::new(0),
            has_old: Cell::new(true),
        }
    }

    // The error of a call about a path, if it is the one that fails.
    fn try_path(&self, path: &str) -> io::Result<()> {
        if path == self.failing {
            Err(io::Error::from(ErrorKind::PermissionDenied))
        } else {
            Ok(())
        }
    }
}

impl Alloc for Drawer {
    type A = Global;

    fn alloc(&self) -> Global {
        self.alloc
    }
}

// The name of a file of the larger folder.
fn numbered(alloc: Global, n: u32) -> io::Result<String> {
    Ok(format!(in alloc; "{n:04}.x12")?)
}

impl FileSystem for Drawer {
    fn entries(&self, dir: &str) -> io::Result<Vec<FolderEntry>> {
        self.try_path(dir)?;
        let mut entries = Vec::new(self.alloc);
        if self.is_large {
            for n in 0..MANY {
                let name = Some(numbered(self.alloc, MANY - 1 - n)?);
                entries.push(FolderEntry {
                    name,
                    is_file: true,
                })?;
            }
            return Ok(entries);
        }
        for (is_file, name) in ENTRIES {
            let name = match name {
                Some(name) => Some(name.to_string(self.alloc)?),
                None => None,
            };
            entries.push(FolderEntry { name, is_file })?;
        }
        Ok(entries)
    }

    fn first_bytes(&self, path: &str, _most: u64) -> io::Result<Vec<u8>> {
        self.try_path(path)?;
        let text = match path {
            "in/a.x12" | "in/b.x12" => ADVICE,
            _ => b"?",
        };
        Ok(text.to_vec(self.alloc)?)
    }

    fn replace(&self, _made: &str, path: &str, bytes: &[u8]) -> io::Result<()> {
        self.try_path(path)?;
        if (path != "in/a.x12.ans" && path != "in/b.x12.ans") || bytes != ANSWER {
            return Err(io::Error::from(ErrorKind::Unsupported));
        }
        self.written.set(self.written.get().saturating_add(1));
        Ok(())
    }

    fn remove(&self, path: &str) -> io::Result<()> {
        self.try_path(path)?;
        if path == "in/a.x12.ans" || path == "in/b.x12.ans" {
            return Err(io::Error::from(ErrorKind::Unsupported));
        }
        if path == "in/c.x12.ans" {
            self.has_old.set(false);
        }
        Ok(())
    }

    // Each of its files is in the one folder `in`, or was moved.
    fn kind_of(&self, path: &str) -> io::Result<EntryKind> {
        self.try_path(path)?;
        if path.starts_with("in/") {
            Ok(EntryKind::File)
        } else {
            Ok(EntryKind::NoEntry)
        }
    }

    fn rename(&self, from: &str, _to: &str) -> io::Result<()> {
        self.try_path(from)
    }

    fn make_folder(&self, path: &str) -> io::Result<()> {
        self.try_path(path)
    }

    fn sync_folder(&self, path: &str) -> io::Result<()> {
        self.try_path(path)
    }

    // Documents aren't its own.
    fn create(&self, _made: &str, _path: &str, _bytes: &[u8]) -> io::Result<()> {
        Err(io::Error::from(ErrorKind::Unsupported))
    }
}

// Takes the folder, and tells nobody.
fn taken<K: Keeper>(
    drawer: &Drawer,
    book: &mut K,
) -> Result<Result<TakenFolder, FolderStop>, Fail> {
    let moment = morning()?;
    Ok(take_folder_telling(drawer, "in", book, moment, |_, _| {}))
}

// Whether the files were taken with these outcomes, in the order of their names.
fn are_taken(folder: &TakenFolder, want: &[(&str, FileOutcome)]) -> bool {
    folder.files.len() == want.len()
        && folder.files.iter().zip(want).all(|(file, (name, outcome))| file.name.as_str() == *name
            && file.outcome == *outcome)
}

// Whether just the entry without a name and the one that is no file were passed over.
fn are_passed(folder: &TakenFolder) -> bool {
    match folder.passed.as_slice() {
        [first, second] => {
            first.name.is_none()
                && first.why == WhyPassed::NoText
                && second
                    .name
                    .as_ref()
                    .is_some_and(|name| name.as_str() == "e.x12")
                && second.why == WhyPassed::NoFile
        }
        _ => false,
    }
}

// Takes a folder of which a call about this path fails, and takes it again when none does.
fn taken_again(
    alloc: Global,
    failing: &'static str,
) -> Result<(FolderStop, u32, FileOutcome), Fail> {
    let mut book = empty(alloc)?;
    enrols(alloc, &mut book, acme()?, morning()?);
    let mut drawer = Drawer::new(alloc, false, failing);
    let Err(stop) = taken(&drawer, &mut book)? else {
        return Err("nothing failed".into());
    };
    let before = drawer.written.get();
    drawer.failing = "";
    match taken(&drawer, &mut book)? {
        Ok(folder) => {
            let first = folder.files.first().ok_or("a file")?.outcome;
            let want = [
                ("a.x12", first),
                ("b.x12", FileOutcome::Stored),
                ("c.x12", FileOutcome::Refused(Refusal::Unreadable)),
            ];
            if are_taken(&folder, &want)
                && are_passed(&folder)
                && drawer.written.get() == before.saturating_add(2)
            {
                Ok((stop, before, first))
            } else {
                Err("taken otherwise".into())
            }
        }
        Err(stop) => Err(failed(stop.fault)),
    }
}

#[test]
fn a_folder_is_taken_again_after_each_failure(rt: HostRuntime) -> Result<(), Fail> {
    // The path of the call that fails, the file at which the folder stops, how many were taken
    // before, how many answers were written, and what becomes of the first when it is taken again.
    let cases: [(&'static str, Option<&str>, u64, u32, FileOutcome); 7] = [
        ("in", None, 0, 0, FileOutcome::Accepted),
        ("in/a.x12", Some("a.x12"), 0, 0, FileOutcome::Accepted),
        ("in/a.x12.ans", Some("a.x12"), 0, 0, FileOutcome::Stored),
        ("in/b.x12", Some("b.x12"), 1, 1, FileOutcome::Stored),
        ("in/b.x12.ans", Some("b.x12"), 1, 1, FileOutcome::Stored),
        ("in/c.x12", Some("c.x12"), 2, 2, FileOutcome::Stored),
        ("in/c.x12.ans", Some("c.x12"), 2, 2, FileOutcome::Stored),
    ];
    for (failing, at, before, written, again) in cases {
        let (stop, left, first) = taken_again(rt.alloc(), failing)?;
        assert!(rt; stop.fault == Fault::Device, "{failing}");
        assert!(rt;
            stop.at.as_ref().map(|name| name.as_str()) == at,
            "{failing}"
        );
        assert!(rt;
            stop.taken == before && left == written && first == again,
            "{failing}"
        );
    }
    Ok(())
}

#[test]
fn an_old_answer_goes_where_a_text_is_unreadable(rt: HostRuntime) -> Result<(), Fail> {
    let mut book = empty(rt.alloc())?;
    enrols(rt.alloc(), &mut book, acme()?, morning()?);
    let mut drawer = Drawer::new(rt.alloc(), false, "in/c.x12");
    // The file can't be read, and so what stands beside it stays.
    let stopped = taken(&drawer, &mut book)?.is_err();
    assert!(rt; stopped && drawer.has_old.get());
    drawer.failing = "";
    let is_taken = taken(&drawer, &mut book)?.is_ok();
    assert!(rt; is_taken && !drawer.has_old.get());
    Ok(())
}

#[test]
fn each_of_a_thousand_files_and_one_is_taken(rt: HostRuntime) -> Result<(), Fail> {
    let mut book = empty(rt.alloc())?;
    let folder = match taken(&Drawer::new(rt.alloc(), true, ""), &mut book)? {
        Ok(folder) => folder,
        Err(stop) => return Err(failed(stop.fault)),
    };
    assert_eq!(rt; folder.files.len(), MANY as usize);
    for (n, file) in (0..MANY).zip(folder.files.iter()) {
        assert!(rt; file.name == numbered(rt.alloc(), n)?, "{n}");
    }
    Ok(())
}
