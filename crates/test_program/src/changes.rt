//! The advice with changes, and long ones, as their answers tell them: faults of groups, of sets,
//! of segments and of elements, and notes.
//!
//! In `data/changes` a row `.rows` is a part of the advice, what stands in its place, and the set
//! or the note of the answer, with `|` between them. In the answers (`judged.x12`, `noted.x12`,
//! `long_judged.x12`) `#` stands for that set or note.
use crate::playing::{play, play_all};
use crate::ran::Wanted;
use crate::telling::tell;
use crate::texts::{advice, text_of};
use std::fs;
use std::test::Fail;

// Sends what is in `changed.x12`, and compares. `#` in what is to be printed and told stands for a
// part.
fn play_changed(rt: &HostRuntime, part: &str, wanted: &Wanted<'_>) -> Result<(), Fail> {
    let printed = wanted.printed.replace(rt.alloc(), "#", part)?;
    let told = wanted.told.replace(rt.alloc(), "#", part)?;
    let wanted = Wanted {
        printed: printed.as_str(),
        told: told.as_str(),
        status: wanted.status,
    };
    play(rt, part, &text_of(rt, "changes/send.script")?, &wanted)
}

// Sends the advice with each change of the text in a file.
fn play_changes(rt: &HostRuntime, file: &str, wanted: &Wanted<'_>) -> Result<(), Fail> {
    let advice = advice(rt)?;
    let text = text_of(rt, file)?;
    for line in text.lines() {
        let (from, rest) = line.split_once('|').ok_or("a part of the advice")?;
        let (to, part) = rest.split_once('|').ok_or("what stands in its place")?;
        fs::write(
            rt,
            "changed.x12",
            advice.replace(rt.alloc(), from, to)?.as_str(),
        )?;
        play_changed(rt, part, wanted)?;
    }
    Ok(())
}

// Sends it so where it is answered.
fn play_judged(rt: &HostRuntime, file: &str) -> Result<(), Fail> {
    let judged = text_of(rt, "changes/judged.x12")?;
    let wanted = Wanted {
        printed: judged.as_str(),
        told: "",
        status: 0,
    };
    play_changes(rt, file, &wanted)
}

fn faults_of_sets_are_told(rt: &HostRuntime) -> Result<(), Fail> {
    play_judged(rt, "changes/of_sets.rows")?;
    play_all(rt, "scripts/sets.cases")
}

fn faults_of_segments_are_told(rt: &HostRuntime) -> Result<(), Fail> {
    play_judged(rt, "changes/of_segments.rows")
}

fn notes_are_told(rt: &HostRuntime) -> Result<(), Fail> {
    let noted = text_of(rt, "changes/noted.x12")?;
    let wanted = Wanted {
        printed: noted.as_str(),
        told: "refused 2 Note(#)\n",
        status: 1,
    };
    play_changes(rt, "changes/notes.rows", &wanted)
}

// Writes a 943 of so many lines of 999,999 BOLT, each of another lot, and with this end, alone in
// its interchange.
fn write_long(rt: &HostRuntime, lines: u32, end: &str) -> Result<(), Fail> {
    let mut text = text_of(rt, "changes/long_head.x12")?;
    for n in 1..=lines {
        write!(text, "W04*999999*EA**SK*BOLT~N9*LT*L{n}~")?;
    }
    write!(text, "{end}*0001~GE*1*1~IEA*1*000000001~")?;
    fs::write(rt, "changed.x12", text.as_str())?;
    Ok(())
}

// Sends the advice of a row: how many lines it has, its end, and the set of the answer.
fn play_long(rt: &HostRuntime, row: &str, printed: &str) -> Result<(), Fail> {
    let (lines, rest) = row.split_once('|').ok_or("how many lines")?;
    let (end, set) = rest.split_once('|').ok_or("an end")?;
    write_long(rt, lines.parse()?, end)?;
    let wanted = Wanted {
        printed,
        told: "",
        status: 0,
    };
    play_changed(rt, set, &wanted)
}

// As many lines as there may be, with their sum and with another; and one line more. The answer is
// that to an interchange that asks for no TA1.
fn an_advice_has_999_lines_at_most(rt: &HostRuntime) -> Result<(), Fail> {
    let printed = text_of(rt, "changes/long_judged.x12")?;
    let text = text_of(rt, "changes/long.rows")?;
    for row in text.lines() {
        play_long(rt, row, &printed)?;
    }
    Ok(())
}

/// Plays them.
pub(crate) fn all(rt: &HostRuntime) -> Result<(), Fail> {
    tell(rt, "faults of sets are told", faults_of_sets_are_told(rt))?;
    tell(
        rt,
        "faults of segments are told",
        faults_of_segments_are_told(rt),
    )?;
    tell(rt, "notes are told", notes_are_told(rt))?;
    tell(
        rt,
        "an advice has 999 lines at most",
        an_advice_has_999_lines_at_most(rt),
    )
}
