//! Books left as a stop leaves them: what was answered last stands in the log beside the file
//! alone, and the next line finds it there.
//!
//! In `data/left` the day (`day.sections`) is played over a book that is let go then, and not
//! closed. Each case of `looks.cases` is played over a copy of the file and its log.
ghost use Rattle.std.specs.Prelude.{◌≡◌, false};

use crate::on_disk::over_database;
use crate::playing::{Ways, play_cases, write_files};
use crate::ran::{Ran, Wanted, do_lines, run_lines};
use crate::telling::{hold, tell};
use crate::texts::{lay_left, remove, remove_book, text_of};
use books::{Book, Tables};
use case_files::sections::section_of;
use commands::{Verbosity, play_over};
use sqlite::{Alter, Connection};
use std::fs;
use std::test::Fail;
use store::{Command, Keeper, Who, need};

/// The book in a database.
pub(crate) fn open_book<S: Alter + Drop>(
    rt: &HostRuntime,
    conn: Connection<S>,
) -> Result<Book<S>, Fail>
    requires { conn.in_transaction ≡ false }
{
    match Book::open_from(rt.alloc(), Tables::new(conn)) {
        Ok(book) => Ok(book),
        Err((fault, _)) => Err(Fail::new(format_args!("fault {}", fault.number()))),
    }
}

const QUIET: Verbosity = Verbosity {
    explains: false,
    watches: false,
};

// Plays the script of a day over a book, whose store refuses no call.
fn play_day<K: Keeper>(rt: &HostRuntime, book: &mut K, day: &str) -> Result<(), Fail> {
    let (mut out, mut err) = (Vec::new(rt.alloc()), Vec::new(rt.alloc()));
    let script = section_of(day, "script").1;
    let wanted = Wanted {
        printed: section_of(day, "printed").1,
        told: "",
        status: 0,
    };
    match play_over(rt, book, script, QUIET, &mut out, &mut err) {
        Ok(status) => Ran::new(rt, status.code(), &out, &err)?.compare("the day", &wanted)?,
        Err(_) => return Err("a fault in the day".into()),
    }
    hold(book.refused() == 0, "no call is refused")
}

// How many pairs the page of ZZ ACME has that a book hands out for an interchange.
fn pairs<K: Keeper>(rt: &HostRuntime, book: &mut K, text: &str) -> Result<u64, Fail> {
    let who = Who::new(b"ZZ-ACME").ok_or("a depositor")?;
    let need = need(rt.alloc(), &Command::Interchange(text.as_bytes()))?;
    match book.load(who, &need) {
        Ok(Some(page)) => Ok(page.pairs()),
        Ok(None) => Err("no page".into()),
        Err(fault) => Err(Fail::new(format_args!("fault {}", fault.number()))),
    }
}

// Plays the day over the book in a database, which is let go then. The order names one of the two
// pairs of the depositor.
fn leave<S: Alter + Drop>(rt: &HostRuntime, conn: Connection<S>, day: &str) -> Result<(), Fail>
    requires { conn.in_transaction ≡ false }
{
    let mut book = open_book(rt, conn)?;
    play_day(rt, &mut book, day)?;
    let order = fs::read_to_string(rt, "order.x12")?;
    hold(
        pairs(rt, &mut book, &order)? == 1,
        "the page of the order has one pair",
    )
}

// Makes the book, plays the day over it, and leaves it.
fn leave_day(rt: &HostRuntime) -> Result<(), Fail> {
    let day = text_of(rt, "left/day.sections")?;
    if !fs::exists(rt, "goods")? {
        fs::create_dir(rt, "goods")?;
    }
    write_files(rt, &day)?;
    remove_book(rt, "left.book", "left.book-wal")?;
    do_lines(rt, "left.book", "init ZZ-WHSE1")?;
    match Connection::open(rt, "left.book") {
        Ok(conn) => leave(rt, conn, &day),
        Err(error) => Err(Fail::from(error)),
    }
}

// What a check of a book tells that was left, and that of the file alone.
const WHOLE: Wanted<'static> = Wanted {
    printed: "ok 8\n",
    told: "",
    status: 0,
};

const WITHOUT_LOG: Wanted<'static> = Wanted {
    printed: "ok 0\n",
    ..WHOLE
};

// Nothing of the day is in the file alone, and with the log each command finds it.
fn a_book_that_was_left_has_what_was_answered(rt: &HostRuntime) -> Result<(), Fail> {
    leave_day(rt)?;
    lay_left(rt)?;
    remove(rt, "case.book-wal")?;
    run_lines(rt, "case.book", "verify")?.compare("without the log", &WITHOUT_LOG)?;
    play_cases(rt, "left/looks.cases", Ways::Left)
}

const UNOPENED: Wanted<'static> = Wanted {
    printed: "",
    told: "fault 44 Device\n",
    status: 3,
};

// A file with a second name is not opened.
fn a_book_that_is_not_opened_keeps_its_log(rt: &HostRuntime) -> Result<(), Fail> {
    lay_left(rt)?;
    remove(rt, "second.book")?;
    fs::hard_link(rt, "case.book", "second.book")?;
    run_lines(rt, "case.book", "verify")?.compare("a second name", &UNOPENED)?;
    remove(rt, "second.book")?;
    run_lines(rt, "case.book", "verify")?.compare("one name", &WHOLE)
}

// It is waited for as long as a line does that doesn't say how long.
fn a_book_in_use_is_not_made_anew(rt: &HostRuntime) -> Result<(), Fail> {
    lay_left(rt)?;
    let row = "case.book|init ZZ-OTHER|3|fault 44 Device|";
    over_database(rt, "case.book", "", row)?;
    run_lines(rt, "case.book", "verify")?.compare("a book in use", &WHOLE)
}

/// Plays them.
pub(crate) fn all(rt: &HostRuntime) -> Result<(), Fail> {
    tell(
        rt,
        "a book that was left has what was answered",
        a_book_that_was_left_has_what_was_answered(rt),
    )?;
    tell(
        rt,
        "a book that is not opened keeps its log",
        a_book_that_is_not_opened_keeps_its_log(rt),
    )?;
    tell(
        rt,
        "a book in use is not made anew",
        a_book_in_use_is_not_made_anew(rt),
    )
}
