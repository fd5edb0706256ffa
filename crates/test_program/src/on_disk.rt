//! Books in files: each line is a command of its own, which opens the book and closes it.
use crate::laying::lay;
use crate::playing::{play_all, write_files};
use crate::ran::{Ran, Wanted, do_lines, run_lines, run_over};
use crate::telling::{hold, tell};
use crate::texts::{has_text, remove_book, text_of, write_advice};
use sqlite::{Alter, Connection, FileStore};
use sqlite_disk::Disk;
use std::fs;
use std::test::Fail;

// What is looked at after the day.
const LEFT: Wanted<'static> = Wanted {
    printed: "item,lot,expiry,expected,on_hand,reserved,shipped\nBOLT,L1,,0,0,0,90\nok 6\n",
    told: "fault 43 NotThisBook\n",
    status: 3,
};

// Makes a book over the one that is there, shows its stock, and checks it. The result is the status
// of the first.
fn look_after(rt: &HostRuntime, out: &mut Vec<u8>, err: &mut Vec<u8>) -> Result<u8, Fail> {
    let status = run_over(rt, "case.book", "init ZZ-OTHER", out, err)?;
    run_over(rt, "case.book", "stock ZZ-ACME --csv", out, err)?;
    run_over(rt, "case.book", "verify", out, err)?;
    Ok(status)
}

// A book isn't made over another, which stays as it is: its rows are those of its six entries.
fn a_day_is_kept_in_a_file(rt: &HostRuntime) -> Result<(), Fail> {
    play_all(rt, "scripts/on_disk.cases")?;
    let mut out = Vec::new(rt.alloc());
    let mut err = Vec::new(rt.alloc());
    let status = look_after(rt, &mut out, &mut err)?;
    Ran::new(rt, status, &out, &err)?.compare("after the day", &LEFT)
}

const LESS: Wanted<'static> = Wanted {
    printed: "item,lot,expiry,expected,on_hand,reserved,shipped\nBOLT,L1,,0,89,0,0\n",
    told: "",
    status: 0,
};

// Runs statements over a database, and lines over books while it is open. It is over any store,
// since what owns a store on disk is dear to prove.
fn over_store<S: Alter + Drop>(
    rt: &HostRuntime,
    mut conn: Connection<S>,
    sql: &str,
    lines: &str,
) -> Result<Connection<S>, Fail> {
    lay(&mut conn, sql)?;
    play_unopened(rt, lines)?;
    Ok(conn)
}

// The same over a database on any disk, which is closed then.
fn over_disk<D: Disk + Drop>(
    rt: &HostRuntime,
    conn: Connection<FileStore<D>>,
    sql: &str,
    lines: &str,
) -> Result<(), Fail> {
    over_store(rt, conn, sql, lines)?.close()?;
    Ok(())
}

// The same over the database in a file.
pub(crate) fn over_database(
    rt: &HostRuntime,
    file: &str,
    sql: &str,
    lines: &str,
) -> Result<(), Fail> {
    match Connection::open(rt, file) {
        Ok(conn) => over_disk(rt, conn, sql, lines),
        Err(error) => Err(Fail::from(error)),
    }
}

// What a check of the whole book tells of it.
pub(crate) const NOT_THIS: Wanted<'static> = Wanted {
    printed: "",
    told: "fault 43 NotThisBook\n",
    status: 3,
};

// Makes the book in a file by the lines of the day up to its count.
fn make_counted(rt: &HostRuntime) -> Result<(), Fail> {
    write_advice(rt, "advice.x12")?;
    fs::write(rt, "count.csv", "BOLT,L1,90\n")?;
    remove_book(rt, "case.book", "case.book-wal")?;
    do_lines(rt, "case.book", &text_of(rt, "on_disk/counted.script")?)
}

// The running rows of the file are what is shown, and a check of the whole book finds them wrong.
fn stock_is_read_from_its_rows(rt: &HostRuntime) -> Result<(), Fail> {
    make_counted(rt)?;
    over_database(rt, "case.book", "UPDATE stock SET on_hand = 89", "")?;
    run_lines(rt, "case.book", "stock ZZ-ACME --csv")?.compare("89", &LESS)?;
    run_lines(rt, "case.book", "verify")?.compare("verify", &NOT_THIS)
}

// A row that can't be read is a fault, and never the end of a list. Each row of the text is
// statements that make a row of the book such a one, and a line that reads it.
fn a_row_that_cannot_be_read_is_a_fault(rt: &HostRuntime) -> Result<(), Fail> {
    make_counted(rt)?;
    let text = text_of(rt, "on_disk/unreadable.rows")?;
    for row in text.lines() {
        let (sql, line) = row.split_once('|').ok_or("a line")?;
        over_database(rt, "case.book", sql, "")?;
        run_lines(rt, "case.book", line)?.compare(sql, &NOT_THIS)?;
    }
    Ok(())
}

// Runs lines over books that can't be opened: the book, the line over it, its exit status, and what
// is told, with `|` after each of its lines. In `/proc` nobody can make a file.
fn play_unopened(rt: &HostRuntime, rows: &str) -> Result<(), Fail> {
    for row in rows.lines() {
        let (book, rest) = row.split_once('|').ok_or("a book")?;
        let (line, rest) = rest.split_once('|').ok_or("a line")?;
        run_lines(rt, book, line)?.compare_row(rt, book, rest)?;
    }
    Ok(())
}

// Lays what those lines name: files, sheets, and a database of another table.
fn lay_unopened(rt: &HostRuntime) -> Result<(), Fail> {
    remove_book(rt, "other.book", "other.book-wal")?;
    remove_book(rt, "held.book", "held.book-wal")?;
    fs::write(rt, "text.book", "no database")?;
    write_files(rt, &text_of(rt, "on_disk/unopened.sections")?)?;
    let note = "CREATE TABLE note (id INTEGER PRIMARY KEY) STRICT";
    over_database(rt, "other.book", note, "")
}

// Whether the files are as before that are no books.
fn are_left(rt: &HostRuntime, other: &[u8]) -> Result<bool, Fail> {
    Ok(fs::read(rt, "other.book")?.as_slice() == other && has_text(rt, "text.book", "no database")?)
}

// Whether there is no such book, nor its log.
fn is_absent(rt: &HostRuntime, book: &str, log: &str) -> Result<bool, Fail> {
    Ok(!fs::exists(rt, book)? && !fs::exists(rt, log)?)
}

// What can't be opened is a fault, and nothing is made or changed of it; words and files come
// before the book.
fn files_that_are_no_book_stay_as_they_are(rt: &HostRuntime) -> Result<(), Fail> {
    lay_unopened(rt)?;
    let other = fs::read(rt, "other.book")?;
    over_database(rt, "held.book", "", &text_of(rt, "on_disk/unopened.rows")?)?;
    hold(
        are_left(rt, &other)?,
        "files that are no books are as before",
    )?;
    let is_absent = is_absent(rt, "nowhere.book", "nowhere.book-wal")?
        && is_absent(rt, "/proc/house.book", "/proc/house.book-wal")?;
    hold(is_absent, "no book is made")
}

// What a batch prints and tells whose second line can't be kept.
const STOPPED: Wanted<'static> = Wanted {
    printed: "ZZ-ACME\n",
    told: "stopped at line 2\nfault 41 Store\n",
    status: 3,
};

// A command that can't be kept isn't answered, and what is before it in a batch is answered once.
fn what_is_not_kept_is_not_answered(rt: &HostRuntime) -> Result<(), Fail> {
    make_counted(rt)?;
    over_database(rt, "case.book", "DROP TABLE entry_rules", "")?;
    let other = text_of(rt, "inboxes/c2.x12")?;
    fs::write(rt, "unkept.x12", other.as_str())?;
    play_unopened(rt, &text_of(rt, "on_disk/unkept.rows")?)?;
    fs::write(rt, "unkept.batch", "depositors\nenrol ZZ-BETA\n")?;
    run_lines(rt, "case.book", "batch unkept.batch")?.compare("a batch", &STOPPED)
}

/// Plays them.
pub(crate) fn all(rt: &HostRuntime) -> Result<(), Fail> {
    tell(rt, "a day is kept in a file", a_day_is_kept_in_a_file(rt))?;
    tell(
        rt,
        "stock is read from its rows",
        stock_is_read_from_its_rows(rt),
    )?;
    tell(
        rt,
        "a row that cannot be read is a fault",
        a_row_that_cannot_be_read_is_a_fault(rt),
    )?;
    tell(
        rt,
        "what is not kept is not answered",
        what_is_not_kept_is_not_answered(rt),
    )?;
    tell(
        rt,
        "files that are no book stay as they are",
        files_that_are_no_book_stay_as_they_are(rt),
    )
}
