//! Lines of words and scripts run, and what comes of them.
use app::command;
use std::fs;
use std::test::Fail;

// What is to come of a script.
#[derive(Clone, Copy)]
pub(crate) struct Wanted<'a> {
    // what is printed
    pub(crate) printed: &'a str,
    // what is told on standard error
    pub(crate) told: &'a str,
    // the exit status
    pub(crate) status: u8,
}

// What a run came to.
#[derive(Drop)]
pub(crate) struct Ran {
    // the exit status
    pub(crate) status: u8,
    // what was printed
    pub(crate) out: String,
    // what was told on standard error
    pub(crate) err: String,
}

impl Ran {
    // What was printed and told, as texts.
    pub(crate) fn new(rt: &HostRuntime, status: u8, out: &[u8], err: &[u8]) -> Result<Ran, Fail> {
        Ok(Ran {
            status,
            out: std::str::from_utf8(out)?.to_string(rt.alloc())?,
            err: std::str::from_utf8(err)?.to_string(rt.alloc())?,
        })
    }

    // A failure, if it isn't what was to come of a script.
    pub(crate) fn compare(&self, name: &str, wanted: &Wanted<'_>) -> Result<(), Fail> {
        let (status, told, printed) = (self.status, self.err.as_str(), self.out.as_str());
        if status == wanted.status && told == wanted.told && printed == wanted.printed {
            Ok(())
        } else {
            Err(Fail::new(format_args!("{name}: status {status}, told {told}, printed {printed}")))
        }
    }

    // A failure, if it isn't what the rest of a row says: nothing is printed, there is this status,
    // and these lines are told, with `|` after each.
    pub(crate) fn compare_row(&self, rt: &HostRuntime, name: &str, rest: &str) -> Result<(), Fail> {
        let (status, told) = rest.split_once('|').ok_or("a status")?;
        let status = status.parse()?;
        let told = told.replace(rt.alloc(), "|", "\n")?;
        let wanted = Wanted {
            printed: "",
            told: told.as_str(),
            status,
        };
        self.compare(name, &wanted)
    }
}

// Runs a line of words.
pub(crate) fn run(rt: &HostRuntime, words: &[&str]) -> Result<Ran, Fail> {
    let mut out = Vec::new(rt.alloc());
    let mut err = Vec::new(rt.alloc());
    let status = command(rt, words, &mut out, &mut err);
    Ran::new(rt, status, &out, &err)
}

// Runs a line of words, with one space between any two.
pub(crate) fn run_words(rt: &HostRuntime, line: &str) -> Result<Ran, Fail> {
    let words: Vec<&str> = line.split(' ').collect(rt.alloc())?;
    run(rt, &words)
}

// Runs a script of this text.
pub(crate) fn run_text(rt: &HostRuntime, text: &str) -> Result<Ran, Fail> {
    fs::write(rt, "case.script", text)?;
    run(rt, &["script", "case.script"])
}

// Runs a script of this text, and asks why lines are refused.
pub(crate) fn run_explained(rt: &HostRuntime, text: &str) -> Result<Ran, Fail> {
    fs::write(rt, "case.script", text)?;
    run(rt, &["script", "case.script", "--explain"])
}

// Runs a line of words over the book in a file, which is named after its first word. The result is
// the exit status.
pub(crate) fn run_over(
    rt: &HostRuntime,
    book: &str,
    line: &str,
    out: &mut Vec<u8>,
    err: &mut Vec<u8>,
) -> Result<u8, Fail> {
    let mut words = Vec::new(rt.alloc());
    for word in line.split(' ') {
        words.push(word)?;
        if words.len() == 1 {
            words.push("--book")?;
            words.push(book)?;
        }
    }
    Ok(command(rt, &words, out, err))
}

// Runs the lines of a text over the book in a file, one after the other, to the first that is no
// done or refused command. The result is the greatest status.
pub(crate) fn run_each(
    rt: &HostRuntime,
    book: &str,
    text: &str,
    out: &mut Vec<u8>,
    err: &mut Vec<u8>,
) -> Result<u8, Fail> {
    let mut status = 0;
    for line in text.split('\n') {
        if !line.is_empty() && status < 2 {
            status = run_over(rt, book, line, out, err)?.max(status);
        }
    }
    Ok(status)
}

// What comes of such lines.
pub(crate) fn run_lines(rt: &HostRuntime, book: &str, text: &str) -> Result<Ran, Fail> {
    let mut out = Vec::new(rt.alloc());
    let mut err = Vec::new(rt.alloc());
    let status = run_each(rt, book, text, &mut out, &mut err)?;
    Ran::new(rt, status, &out, &err)
}

// Runs lines of the same kind, each of which is to be done.
pub(crate) fn do_lines(rt: &HostRuntime, book: &str, text: &str) -> Result<(), Fail> {
    let ran = run_lines(rt, book, text)?;
    if ran.status == 0 && ran.err.is_empty() {
        Ok(())
    } else {
        Err(Fail::new(format_args!("{text}: status {}, told {}", ran.status, ran.err)))
    }
}
