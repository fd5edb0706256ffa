//! Books of version 1 in files, which the first line over them carries over.
use crate::on_disk::{NOT_THIS, over_database};
use crate::playing::write_files;
use crate::ran::{Wanted, run_lines};
use crate::telling::tell;
use crate::texts::{remove_book, text_of};
use crate::version1::{hundred_lines, with_lines};
use case_files::sections::section_of;
use std::fs;
use std::test::Fail;

// Makes a file with a book of version 1, of these rows.
fn make(rt: &HostRuntime, rows: &str) -> Result<(), Fail> {
    remove_book(rt, "old.book", "old.book-wal")?;
    over_database(rt, "old.book", &text_of(rt, "version1/tables.sql")?, "")?;
    over_database(rt, "old.book", rows, "")
}

// Runs the script of a case over the book, and compares what comes of it.
fn play_old(rt: &HostRuntime, case: &str) -> Result<(), Fail> {
    write_files(rt, case)?;
    let (status, told) = section_of(case, "ends");
    let wanted = Wanted {
        printed: section_of(case, "printed").1,
        told,
        status: status.parse()?,
    };
    run_lines(rt, "old.book", section_of(case, "script").1)?.compare("carried over", &wanted)
}

// Does so with the case in a file.
fn go_on(rt: &HostRuntime, file: &str) -> Result<(), Fail> {
    play_old(rt, &text_of(rt, file)?)
}

// The book stands beside a table of the house's own.
fn an_open_order_keeps_what_it_reserved(rt: &HostRuntime) -> Result<(), Fail> {
    let beside = text_of(rt, "version1/beside.sql")?;
    let counted = text_of(rt, "version1/counted.sql")?;
    let ordered = text_of(rt, "version1/ordered.sql")?;
    make(rt, &format!(in rt.alloc(); "{beside}{counted}{ordered}")?)?;
    go_on(rt, "version1/open_order.sections")
}

fn a_date_that_was_refused_stays_refused(rt: &HostRuntime) -> Result<(), Fail> {
    make(rt, &text_of(rt, "version1/dated.sql")?)?;
    go_on(rt, "version1/refused_date.sections")
}

// The rows of a book in which an order of a hundred lines was refused, which is in a file too.
fn with_order(rt: &HostRuntime) -> Result<String, Fail> {
    let head = text_of(rt, "version1/order_head.x12")?;
    let tail = text_of(rt, "version1/order_tail.x12")?;
    let order = hundred_lines(rt.alloc(), &head, &tail)?;
    fs::write(rt, "order.x12", order.as_str())?;
    let counted = text_of(rt, "version1/counted.sql")?;
    let refused = text_of(rt, "version1/order_refused.sql")?;
    Ok(with_lines(rt.alloc(), &counted, &order, &refused)?)
}

fn an_order_that_was_refused_reserves_nothing(rt: &HostRuntime) -> Result<(), Fail> {
    make(rt, &with_order(rt)?)?;
    go_on(rt, "version1/refused_lines.sections")
}

// A file that has these bytes is told as no book, and stays as it is.
fn is_left(rt: &HostRuntime, statement: &str, bytes: &[u8]) -> Result<(), Fail> {
    run_lines(rt, "old.book", "verify")?.compare(statement, &NOT_THIS)?;
    run_lines(rt, "old.book", "enrol ZZ-BETA")?.compare(statement, &NOT_THIS)?;
    if fs::read(rt, "old.book")?.as_slice() == bytes {
        Ok(())
    } else {
        Err("another file after a fault".into())
    }
}

// Such a book is told as none.
fn is_none(rt: &HostRuntime, statement: &str) -> Result<(), Fail> {
    make(rt, &text_of(rt, "version1/counted.sql")?)?;
    over_database(rt, "old.book", statement, "")?;
    is_left(rt, statement, &fs::read(rt, "old.book")?)
}

fn other_versions_are_no_books(rt: &HostRuntime) -> Result<(), Fail> {
    let text = text_of(rt, "version1/others.sql")?;
    for statement in text.lines() {
        is_none(rt, statement)?;
    }
    Ok(())
}

/// Plays them.
pub(crate) fn all(rt: &HostRuntime) -> Result<(), Fail> {
    tell(
        rt,
        "an open order keeps what it reserved",
        an_open_order_keeps_what_it_reserved(rt),
    )?;
    tell(
        rt,
        "a date that was refused stays refused",
        a_date_that_was_refused_stays_refused(rt),
    )?;
    tell(
        rt,
        "an order that was refused reserves nothing",
        an_order_that_was_refused_reserves_nothing(rt),
    )?;
    tell(
        rt,
        "other versions are no books",
        other_versions_are_no_books(rt),
    )
}
