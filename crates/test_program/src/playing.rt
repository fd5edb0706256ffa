//! What the program prints and tells. A case is a script with its files, and is played over a book
//! in memory, and as a batch over a book in a file, which is opened once; most are also played line
//! by line over such a book, which each line opens and closes.
//!
//! Cases stand in texts (the files `.cases` of `data/`). A text is made of sections, each of which
//! begins with `@`, a word and what belongs to it in the rest of the line, and ends where the next
//! one begins:
//!
//! - `file NAME` writes a file, of all that stands below the line. It stays for the cases after it.
//! - `case NAME` begins a case.
//! - `note TEXT` says more of it, and is read by nobody else than you.
//! - `script` has the lines of its script.
//! - `printed` has what is printed; with no such section it is nothing.
//! - `explained` has what is told where it is asked for why lines are refused. With that the case
//!   is played so too.
//! - `ends STATUS` has what is told on standard error, which may be nothing. With that the case is
//!   played.
//!
//! In a file and in what is printed a part may stand in braces, after a number and a colon: it
//! stands there that often, with 0, 1, .. in place of each `#` in it, and 0001, 0002, .. in place
//! of each `%`.
use crate::ran::{Wanted, do_lines, run, run_explained, run_lines, run_text};
use crate::texts::{lay_left, remove_book, text_of};
use case_files::sections::section_of;
use case_files::spreading::spread;
use std::fs;
use std::test::Fail;

// Makes the book in a file by the first line of a script, and runs the lines after it as a batch. A
// stop that is to come is told after the number of its line, which `compare` doesn't know; so such
// a script isn't run.
fn play_batch(rt: &HostRuntime, name: &str, script: &str, wanted: &Wanted<'_>) -> Result<(), Fail> {
    let (first, rest) = script.split_once('\n').ok_or("a line")?;
    if wanted.status > 1 {
        return Ok(());
    }
    remove_book(rt, "case.book", "case.book-wal")?;
    do_lines(rt, "case.book", first)?;
    fs::write(rt, "case.batch", rest)?;
    run(rt, &["batch", "case.batch", "--book", "case.book"])?.compare(name, wanted)
}

// Plays a script over a book in memory, and as a batch over a new one in a file.
fn play_whole(rt: &HostRuntime, name: &str, script: &str, wanted: &Wanted<'_>) -> Result<(), Fail> {
    run_text(rt, script)?.compare(name, wanted)?;
    play_batch(rt, name, script, wanted)
}

// Plays a script so, and asks why lines are refused. The first line of the batch is empty, so that
// its lines have the same numbers.
fn play_explained(
    rt: &HostRuntime,
    name: &str,
    script: &str,
    wanted: &Wanted<'_>,
) -> Result<(), Fail> {
    run_explained(rt, script)?.compare(name, wanted)?;
    let (first, rest) = script.split_once('\n').ok_or("a line")?;
    remove_book(rt, "case.book", "case.book-wal")?;
    do_lines(rt, "case.book", first)?;
    fs::write(rt, "case.batch", format!(in rt.alloc(); "\n{rest}")?)?;
    run(
        rt,
        &["batch", "case.batch", "--book", "case.book", "--explain"],
    )?
    .compare(name, wanted)
}

// Plays a script line by line over a new book in a file.
fn play_lines(rt: &HostRuntime, name: &str, script: &str, wanted: &Wanted<'_>) -> Result<(), Fail> {
    remove_book(rt, "case.book", "case.book-wal")?;
    run_lines(rt, "case.book", script)?.compare(name, wanted)
}

// Plays a script line by line over a copy of the book that was left.
fn play_left(rt: &HostRuntime, name: &str, script: &str, wanted: &Wanted<'_>) -> Result<(), Fail> {
    lay_left(rt)?;
    run_lines(rt, "case.book", script)?.compare(name, wanted)
}

/// Plays a script so, and line by line over another book in a file.
pub(crate) fn play(
    rt: &HostRuntime,
    name: &str,
    script: &str,
    wanted: &Wanted<'_>,
) -> Result<(), Fail> {
    play_whole(rt, name, script, wanted)?;
    play_lines(rt, name, script, wanted)
}

/// Writes the files of a case.
pub(crate) fn write_files(rt: &HostRuntime, case: &str) -> Result<(), Fail> {
    for section in case.split('@') {
        if let Some(file) = section.strip_prefix("file ") {
            let (name, body) = file.split_once('\n').unwrap_or((file, ""));
            let text = spread(rt.alloc(), body)?;
            fs::write(rt, name, text.as_str())?;
        }
    }
    Ok(())
}

/// Which ways a case is played.
#[derive(Clone, Copy)]
pub(crate) enum Ways {
    /// In memory, and as a batch.
    Whole,
    /// So, and line by line.
    Each,
    /// Line by line alone.
    Lines,
    /// Line by line, over the book that was left (left.rt).
    Left,
}

// Plays the script of a case, and asks why lines are refused where the case says what is told then.
fn play_ways(
    rt: &HostRuntime,
    name: &str,
    sections: &str,
    ways: Ways,
    wanted: &Wanted<'_>,
) -> Result<(), Fail> {
    let script = section_of(sections, "script").1;
    match ways {
        Ways::Whole => play_whole(rt, name, script, wanted)?,
        Ways::Each => play(rt, name, script, wanted)?,
        Ways::Lines => play_lines(rt, name, script, wanted)?,
        Ways::Left => play_left(rt, name, script, wanted)?,
    }
    match section_of(sections, "explained").1 {
        "" => Ok(()),
        told => play_explained(rt, name, script, &Wanted { told, ..*wanted }),
    }
}

// Plays a case.
fn play_case(rt: &HostRuntime, case: &str, ways: Ways) -> Result<(), Fail> {
    let (name, sections) = case.split_once('\n').ok_or("sections")?;
    write_files(rt, sections)?;
    let (status, told) = section_of(sections, "ends");
    let status = status.parse()?;
    let printed = spread(rt.alloc(), section_of(sections, "printed").1)?;
    let wanted = Wanted {
        printed: printed.as_str(),
        told,
        status,
    };
    play_ways(rt, name, sections, ways, &wanted)
}

/// Plays each case of the text in a file, after the files that they have in common.
pub(crate) fn play_cases(rt: &HostRuntime, file: &str, ways: Ways) -> Result<(), Fail> {
    let text = text_of(rt, file)?;
    let (before, cases) = text.split_once("@case ").ok_or("a case")?;
    write_files(rt, before)?;
    for case in cases.split("@case ") {
        play_case(rt, case, ways)?;
    }
    Ok(())
}

/// Plays the cases of the text in a file, each way.
pub(crate) fn play_all(rt: &HostRuntime, file: &str) -> Result<(), Fail> {
    play_cases(rt, file, Ways::Each)
}
