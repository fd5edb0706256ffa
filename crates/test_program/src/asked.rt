//! What a command with `--server` prints of the responses that it gets.
//!
//! The cases are those of `case_files::clerks`, and of `data/asked/faults.cases` those whose
//! responses are faults. In `data/asked/unasked.rows` each row is a line that asks nobody, and what
//! is told of it.
use crate::ran::{Ran, Wanted, run_words};
use crate::telling::{hold, tell};
use crate::texts::text_of;
use case_files::clerks::{deeds, looks, response_of, strays};
use case_files::sections::section_of;
use case_files::spreading::spread;
use commands::{CommandError, ExitStatus, Printer, tell_stop};
use http_client::remote::{ServerAnswer, Unanswered, read_answer};
use http_client::{tell_document, tell_report};
use intake::Audience;
use std::alloc::Global;
use std::fs;
use std::test::Fail;

// The answer that the response of a case is.
fn answer_of(rt: &HostRuntime, case: &str) -> Result<ServerAnswer, Fail> {
    let answered = spread(rt.alloc(), section_of(case, "answered").1)?;
    let response = response_of(rt.alloc(), &answered)?;
    let mut bytes = response.as_bytes();
    match read_answer(rt.alloc(), &mut bytes) {
        Ok(answer) => Ok(answer),
        Err(Unanswered::OutOfMemory) => Err("no memory".into()),
        Err(Unanswered::Device) => Err("no answer".into()),
    }
}

// Tells the answer to a command of a kind.
fn tell_answer<W: Printer, E: Printer>(
    alloc: Global,
    by: &str,
    answer: &ServerAnswer,
    out: &mut W,
    err: &mut E,
) -> Result<ExitStatus, CommandError> {
    match by {
        "report" => tell_report(alloc, Audience::Partners, answer, out, err),
        "look" => tell_report(alloc, Audience::Clerks, answer, out, err),
        _ => tell_document(alloc, answer, out, err),
    }
}

// Tells the answer of a case as its command does.
fn told(rt: &HostRuntime, case: &str) -> Result<Ran, Fail> {
    let answer = answer_of(rt, case)?;
    let (mut out, mut err) = (Vec::new(rt.alloc()), Vec::new(rt.alloc()));
    let by = section_of(case, "by").0;
    let status = match tell_answer(rt.alloc(), by, &answer, &mut out, &mut err) {
        Ok(status) => status,
        Err(stop) => tell_stop(&mut err, &stop, false),
    };
    Ran::new(rt, status.code(), &out, &err)
}

// The case's answer is told as the case has it.
fn is_told(rt: &HostRuntime, case: &str) -> Result<(), Fail> {
    let (status, line) = section_of(case, "ends");
    let printed = spread(rt.alloc(), section_of(case, "printed").1)?;
    let wanted = Wanted {
        printed: &printed,
        told: line,
        status: status.parse()?,
    };
    told(rt, case)?.compare(case, &wanted)
}

// So are those of each case of a text, which has one at least.
fn are_told(rt: &HostRuntime, text: &str) -> Result<(), Fail> {
    let (_, cases) = text.split_once("@case ").ok_or("a case")?;
    for case in cases.split("@case ") {
        is_told(rt, case)?;
    }
    Ok(())
}

fn the_answers_of_a_server_are_told_as_over_the_book(rt: &HostRuntime) -> Result<(), Fail> {
    let faults = text_of(rt, "asked/faults.cases")?;
    for text in [deeds::CASES, looks::CASES, strays::CASES, faults.as_str()] {
        are_told(rt, text)?;
    }
    Ok(())
}

// Whether a response that breaks off after these bytes is no answer.
fn is_no_answer(alloc: Global, mut bytes: &[u8]) -> bool {
    matches!(read_answer(alloc, &mut bytes), Err(Unanswered::Device))
}

// No beginning of a response is an answer.
fn a_response_that_breaks_off_is_no_answer(rt: &HostRuntime) -> Result<(), Fail> {
    let case = deeds::CASES.split("@case ").nth(1).ok_or("a case")?;
    let response = response_of(rt.alloc(), section_of(case, "answered").1)?;
    for k in 0..response.len() {
        hold(
            is_no_answer(rt.alloc(), &response.as_bytes()[..k]),
            "a part is no answer",
        )?;
    }
    Ok(())
}

// Words are tested and files read before a server is asked, and nobody listens at port 1.
fn a_server_that_is_not_there_is_a_fault(rt: &HostRuntime) -> Result<(), Fail> {
    fs::write(rt, "asked.csv", "BOLT,L1,90\n")?;
    fs::write(rt, "bad.csv", "BOLT,L1\n")?;
    let text = text_of(rt, "asked/unasked.rows")?;
    for row in text.lines() {
        let (line, rest) = row.split_once('|').ok_or("a line")?;
        run_words(rt, line)?.compare_row(rt, line, rest)?;
    }
    Ok(())
}

/// Plays them.
pub(crate) fn all(rt: &HostRuntime) -> Result<(), Fail> {
    tell(
        rt,
        "the answers of a server are told as over the book",
        the_answers_of_a_server_are_told_as_over_the_book(rt),
    )?;
    tell(
        rt,
        "a response that breaks off is no answer",
        a_response_that_breaks_off_is_no_answer(rt),
    )?;
    tell(
        rt,
        "a server that is not there is a fault",
        a_server_that_is_not_there_is_a_fault(rt),
    )
}
