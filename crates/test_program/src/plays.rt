//! Sentences that hold where texts of cases are played. In `data/plays.rows` each row is a
//! sentence, the folder of its texts, and their names, with `|` between them. Scripts are played
//! each way; stories, which look at what a depositor has after each command, are not played line by
//! line, and what is long or checks a book (`filed`) is played line by line alone.
use crate::playing::{Ways, play_cases};
use crate::ran::{Wanted, run_explained};
use crate::telling::tell;
use crate::texts::text_of;
use std::test::Fail;

// Plays the texts of a folder by their names.
fn play_texts(rt: &HostRuntime, folder: &str, names: &str) -> Result<(), Fail> {
    let ways = match folder {
        "stories" => Ways::Whole,
        "filed" => Ways::Lines,
        _ => Ways::Each,
    };
    for name in names.split(' ') {
        let file = format!(in rt.alloc(); "{folder}/{name}.cases")?;
        play_cases(rt, &file, ways)?;
    }
    Ok(())
}

// Plays the texts of a row, and prints its sentence.
fn play_row(rt: &HostRuntime, row: &str) -> Result<(), Fail> {
    let (sentence, rest) = row.split_once('|').ok_or("a sentence")?;
    let (folder, names) = rest.split_once('|').ok_or("a folder")?;
    tell(rt, sentence, play_texts(rt, folder, names))
}

fn a_fault_is_explained(rt: &HostRuntime) -> Result<(), Fail> {
    let told = text_of(rt, "explained/stopped.told")?;
    let wanted = Wanted {
        printed: "",
        told: told.as_str(),
        status: 3,
    };
    run_explained(rt, &text_of(rt, "explained/stopped.script")?)?.compare("a fault", &wanted)
}

/// Plays them.
pub(crate) fn all(rt: &HostRuntime) -> Result<(), Fail> {
    let text = text_of(rt, "plays.rows")?;
    for row in text.lines() {
        play_row(rt, row)?;
    }
    tell(rt, "a fault is explained", a_fault_is_explained(rt))
}
