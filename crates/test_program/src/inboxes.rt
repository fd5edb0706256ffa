//! Folders of interchanges.
//!
//! In `data/inboxes` the interchanges are the advice under the same control number with another
//! quantity (b.x12), its beginning, which can't be read (c.x12), the advice as a stranger would
//! send it (c1.x12), and another advice of as many (c2.x12). The answers there are the last ones:
//! the note of a duplicate, which isn't kept (b.x12.ans), and the stranger's (c1.x12.ans).
use crate::ran::{Wanted, do_lines, run_lines, run_text};
use crate::telling::{hold, tell};
use crate::texts::{answer, has_text, remove, remove_book, text_of, write_advice};
use case_files::spreading::spread;
use std::fs;
use std::os::unix::fs::symlink;
use std::test::Fail;

// Makes the folder anew.
fn fill(rt: &HostRuntime) -> Result<(), Fail> {
    if fs::exists(rt, "inbox")? {
        fs::remove_dir_all(rt, "inbox")?;
    }
    fs::create_dir(rt, "inbox")?;
    for name in ["c2.x12", "c1.x12", "c.x12", "b.x12"] {
        let text = text_of(rt, &["inboxes/", name].concat(rt.alloc())?)?;
        fs::write(rt, &["inbox/", name].concat(rt.alloc())?, text.as_str())?;
    }
    write_advice(rt, "inbox/a.x12")?;
    write_advice(rt, "inbox/d.txt")
}

// A failure, if the answers in the folder aren't right: each is the interchange that is answered,
// and what can't be read has none.
fn are_answered(rt: &HostRuntime) -> Result<(), Fail> {
    let is_none = !fs::exists(rt, "inbox/c.x12.ans")? && !fs::exists(rt, "inbox/d.txt.ans")?;
    hold(is_none, "what can't be read has no answer")?;
    let answer = answer(rt)?;
    hold(
        has_text(rt, "inbox/a.x12.ans", answer.trim_end())?,
        "the advice is answered",
    )?;
    let duplicate = text_of(rt, "inboxes/b.x12.ans")?;
    hold(
        has_text(rt, "inbox/b.x12.ans", &duplicate)?,
        "the duplicate is answered",
    )?;
    let unknown = text_of(rt, "inboxes/c1.x12.ans")?;
    hold(
        has_text(rt, "inbox/c1.x12.ans", &unknown)?,
        "the stranger is answered",
    )
}

// Runs the script that takes the folder twice, over the book in a file.
fn take_twice(rt: &HostRuntime, name: &str, wanted: &Wanted<'_>) -> Result<(), Fail> {
    remove_book(rt, "case.book", "case.book-wal")?;
    run_lines(rt, "case.book", &text_of(rt, "inboxes/twice.script")?)?.compare(name, wanted)
}

// What the program prints that takes it twice.
fn printed(rt: &HostRuntime) -> Result<String, Fail> {
    text_of(rt, "inboxes/twice.printed")
}

// What comes of it where that is printed.
fn taken(printed: &str) -> Wanted<'_> {
    Wanted {
        printed,
        told: "",
        status: 1,
    }
}

fn a_folder_is_taken_and_taken_again(rt: &HostRuntime) -> Result<(), Fail> {
    let printed = printed(rt)?;
    let wanted = taken(&printed);
    fill(rt)?;
    run_text(rt, &text_of(rt, "inboxes/twice.script")?)?.compare("in memory", &wanted)?;
    are_answered(rt)?;
    fill(rt)?;
    take_twice(rt, "in a file", &wanted)?;
    are_answered(rt)
}

const UNWRITTEN: Wanted<'static> = Wanted {
    printed: "",
    told: "fault 44 Device\n",
    status: 3,
};

// The same where it is asked what it is about: the file, and how many were taken before it.
const EXPLAINED: Wanted<'static> = Wanted {
    printed: "",
    told: "\
fault 44 Device
inbox/a.x12: it can't be read, or its answer can't be written; files taken before it: 0
",
    status: 3,
};

const MENDED: Wanted<'static> = Wanted {
    printed: "\
a.x12 stored
b.x12 refused 025
c.x12 unreadable
c1.x12 refused 006
c2.x12 accepted
",
    told: "",
    status: 1,
};

// An answer that can't be written is a fault, and the interchange before it is taken. Once the
// folder is mended it is taken again, and the answers are there.
fn an_answer_that_cannot_be_written_is_a_fault(rt: &HostRuntime) -> Result<(), Fail> {
    fill(rt)?;
    fs::create_dir(rt, "inbox/a.x12.ans")?;
    take_twice(rt, "unwritten", &UNWRITTEN)?;
    run_lines(rt, "case.book", AGAIN)?.compare("explained", &EXPLAINED)?;
    fs::remove_dir_all(rt, "inbox/a.x12.ans")?;
    run_lines(rt, "case.book", "take inbox --at 2025-03-05T10:00")?.compare("mended", &MENDED)?;
    are_answered(rt)
}

const AGAIN: &str = "take inbox --at 2025-03-05T10:00 --explain";

// What is passed over where it is asked for: what is no file, by the names' bytes.
const PASSED: Wanted<'static> = Wanted {
    printed: "\
a.x12 stored
b.x12 refused 025
c.x12 unreadable
c1.x12 refused 006
c2.x12 stored
",
    told: "\
e.x12 passed over: no regular file
f.x12 passed over: no regular file
g.x12 passed over: no regular file
",
    status: 1,
};

// Fills the folder, with links at the names of answers, what an earlier stop left, and entries that
// are no files.
fn fill_oddly(rt: &HostRuntime) -> Result<(), Fail> {
    fill(rt)?;
    remove(rt, "kept.txt")?;
    fs::write(rt, "kept.txt", "kept")?;
    symlink(rt, "../kept.txt", "inbox/a.x12.ans")?;
    fs::hard_link(rt, "kept.txt", "inbox/b.x12.ans")?;
    symlink(rt, "../kept.txt", "inbox/a.x12.new")?;
    fs::write(rt, "inbox/b.x12.new", "the beginning of an answer")?;
    fs::create_dir(rt, "inbox/e.x12")?;
    symlink(rt, "nowhere", "inbox/f.x12")?;
    symlink(rt, ".", "inbox/g.x12")?;
    Ok(())
}

// Whether the answer of the first file is a file of its own, and nothing of an earlier stop is
// left.
fn is_tidy(rt: &HostRuntime) -> Result<bool, Fail> {
    Ok(
        fs::symlink_metadata(rt, "inbox/a.x12.ans")?.is_file()
            && !fs::exists(rt, "inbox/a.x12.new")?
            && !fs::exists(rt, "inbox/b.x12.new")?,
    )
}

// An answer is a file of its own: a link at its name is replaced and never followed, and what an
// earlier stop left is removed. What is no file is passed over.
fn links_are_replaced(rt: &HostRuntime) -> Result<(), Fail> {
    fill_oddly(rt)?;
    let printed = printed(rt)?;
    take_twice(rt, "links", &taken(&printed))?;
    are_answered(rt)?;
    hold(
        has_text(rt, "kept.txt", "kept")?,
        "the file of a link is kept",
    )?;
    run_lines(rt, "case.book", AGAIN)?.compare("passed over", &PASSED)?;
    hold(is_tidy(rt)?, "the folder is tidy")
}

// A name of 252 bytes.
const LONG: &str = "\
aaaaaaaaaaaaaaaaaaaaaaaaaaaaaaaaaaaaaaaaaaaaaaaaaaaaaaaaaaaaaaaaaaaaaaaaaaaaaaaa\
bbbbbbbbbbbbbbbbbbbbbbbbbbbbbbbbbbbbbbbbbbbbbbbbbbbbbbbbbbbbbbbbbbbbbbbbbbbbbbbb\
cccccccccccccccccccccccccccccccccccccccccccccccccccccccccccccccccccccccccccccccc\
dddddddd.x12";

// An interchange that can't be answered, since its name is too long, is told and not taken.
fn an_interchange_with_too_long_a_name_is_told(rt: &HostRuntime) -> Result<(), Fail> {
    fs::create_dir(rt, "long")?;
    write_advice(rt, &["long/", LONG].concat(rt.alloc())?)?;
    let told = [LONG, " passed over: its name has more than 251 bytes\n"].concat(rt.alloc())?;
    let wanted = Wanted {
        printed: "",
        told: &told,
        status: 1,
    };
    let script = "init ZZ-WHSE1\nenrol ZZ-ACME --at 2025-03-04T09:15\ntake long";
    run_text(rt, script)?.compare("a long name", &wanted)
}

// A folder of more than a thousand files. None can be read, and each is told.
fn a_large_folder_is_taken_whole(rt: &HostRuntime) -> Result<(), Fail> {
    fs::create_dir(rt, "many")?;
    for n in 1..=1_001 {
        let name = format!(in rt.alloc(); "many/{n:04}.x12")?;
        fs::write(rt, &name, "X")?;
    }
    let printed = spread(rt.alloc(), "{1001:%.x12 unreadable\n}")?;
    let script = "init ZZ-WHSE1\ntake many --at 2025-03-04T09:15";
    run_text(rt, script)?.compare("a large folder", &taken(&printed))
}

// What is told of a folder in which a link stays, on standard error.
const STAYS: &str = "e.x12 stays: it is a symbolic link\n";

const AWAY: Wanted<'static> = Wanted {
    printed: "\
a.x12 accepted
b.x12 refused 025
c.x12 unreadable
c1.x12 refused 006
c2.x12 accepted
",
    told: STAYS,
    status: 1,
};

// The next run has nothing to take, and says again what stays.
const NOTHING: Wanted<'static> = Wanted {
    printed: "",
    told: STAYS,
    status: 1,
};

const TAKE_AWAY: &str = "take inbox --done taken --at 2025-03-04T09:15";

// Makes the book, the folder and the one below which it is taken, anew.
fn begin_away(rt: &HostRuntime) -> Result<(), Fail> {
    fill(rt)?;
    symlink(rt, "../kept.txt", "inbox/e.x12")?;
    if fs::exists(rt, "taken")? {
        fs::remove_dir_all(rt, "taken")?;
    }
    fs::create_dir(rt, "taken")?;
    remove_book(rt, "case.book", "case.book-wal")?;
    let begun = "init ZZ-WHSE1\nenrol ZZ-ACME --at 2025-03-04T09:15";
    run_lines(rt, "case.book", begun)?.compare("begun", &BEGUN)
}

const BEGUN: Wanted<'static> = Wanted {
    printed: "",
    told: "",
    status: 0,
};

// Whether what was taken is in the folder of the run, with its answers, and the inbox has it no
// more.
fn is_away(rt: &HostRuntime, run: &str) -> Result<bool, Fail> {
    for name in [
        "a.x12",
        "a.x12.ans",
        "b.x12.ans",
        "c2.x12",
        "unreadable/c.x12",
    ] {
        if !fs::exists(rt, &["taken/", run, "/", name].concat(rt.alloc())?)? {
            return Ok(false);
        }
    }
    Ok(!fs::exists(rt, "inbox/a.x12")? && fs::exists(rt, "inbox/d.txt")?)
}

// What was taken is moved to a folder of the run, with its answers; what an earlier run left in the
// folder `taking` is taken first, under its own name.
fn what_was_taken_is_moved(rt: &HostRuntime) -> Result<(), Fail> {
    begin_away(rt)?;
    fs::create_dir(rt, "taken/taking")?;
    fs::rename(rt, "inbox/a.x12", "taken/taking/a.x12")?;
    run_lines(rt, "case.book", TAKE_AWAY)?.compare("moved", &AWAY)?;
    hold(
        is_away(rt, "2025-03-04T0915")?,
        "it is in the folder of the run",
    )?;
    run_lines(rt, "case.book", TAKE_AWAY)?.compare("nothing", &NOTHING)?;
    write_advice(rt, "inbox/a.x12")?;
    run_lines(rt, "case.book", TAKE_AWAY)?.compare("again", &STORED)?;
    hold(
        fs::exists(rt, "taken/2025-03-04T0915-2/a.x12.ans")?,
        "another run has another folder",
    )
}

const STORED: Wanted<'static> = Wanted {
    printed: "a.x12 stored\n",
    told: STAYS,
    status: 1,
};

const DOCUMENT: Wanted<'static> = Wanted {
    printed: "2.x12 written\n",
    told: "",
    status: 0,
};

const OTHER: Wanted<'static> = Wanted {
    printed: "",
    told: "out/2.x12 has other bytes, and stays as it is\n",
    status: 1,
};

const HAND_ON: &str = "outbox ZZ-ACME --into out";

// A document is written once, to a file of its own; one that was sent isn't written again, and
// another file in its place stays.
fn documents_are_handed_on(rt: &HostRuntime) -> Result<(), Fail> {
    begin_away(rt)?;
    fs::write(rt, "count.csv", "BOLT,L1,90\n")?;
    write_advice(rt, "advice.x12")?;
    if fs::exists(rt, "out")? {
        fs::remove_dir_all(rt, "out")?;
    }
    fs::create_dir(rt, "out")?;
    let lines =
        "send advice.x12 --at 2025-03-04T09:15\ncount ZZ-ACME T1 SHP1 count.csv --at 2025-03-04T09:15";
    do_lines(rt, "case.book", lines)?;
    run_lines(rt, "case.book", HAND_ON)?.compare("written", &DOCUMENT)?;
    run_lines(rt, "case.book", HAND_ON)?.compare("there", &BEGUN)?;
    fs::rename(rt, "out/2.x12", "out/2.x12.sent")?;
    run_lines(rt, "case.book", HAND_ON)?.compare("sent", &BEGUN)?;
    fs::remove_file(rt, "out/2.x12.sent")?;
    fs::write(rt, "out/2.x12", "")?;
    run_lines(rt, "case.book", HAND_ON)?.compare("another", &OTHER)?;
    hold(!fs::exists(rt, "out/1.x12")?, "an answer isn't handed on")
}

/// Plays them.
pub(crate) fn all(rt: &HostRuntime) -> Result<(), Fail> {
    tell(
        rt,
        "a folder is taken and taken again",
        a_folder_is_taken_and_taken_again(rt),
    )?;
    tell(
        rt,
        "an answer that cannot be written is a fault",
        an_answer_that_cannot_be_written_is_a_fault(rt),
    )?;
    tell(rt, "links are replaced", links_are_replaced(rt))?;
    tell(
        rt,
        "an interchange with too long a name is told",
        an_interchange_with_too_long_a_name_is_told(rt),
    )?;
    tell(rt, "what was taken is moved", what_was_taken_is_moved(rt))?;
    tell(rt, "documents are handed on", documents_are_handed_on(rt))?;
    tell(
        rt,
        "a large folder is taken whole",
        a_large_folder_is_taken_whole(rt),
    )
}
