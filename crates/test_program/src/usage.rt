//! Words that can't be read, help, faults, and which is looked at first.
use crate::ran::{Ran, Wanted, do_lines, run, run_text, run_words};
use crate::telling::{hold, tell};
use crate::texts::{answer, remove_book, text_of, write_advice};
use std::fs;
use std::test::Fail;

impl Ran {
    // A failure, if it isn't words that can't be read, after what was printed and told before them.
    fn is_unread(&self, at: &str, printed: &str, told: &str) -> Result<(), Fail> {
        let text = self.err.strip_prefix(told).unwrap_or("");
        let is_told = !text.is_empty() && !text.starts_with("refused");
        if self.status == 2 && self.out.as_str() == printed && is_told {
            Ok(())
        } else {
            Err(Fail::new(format_args!("at {at}")))
        }
    }
}

fn words_of_the_program_are_read(rt: &HostRuntime) -> Result<(), Fail> {
    run(rt, &[])?.is_unread("no word", "", "")?;
    let text = text_of(rt, "usage/words.lines")?;
    for line in text.lines() {
        run_words(rt, line)?.is_unread(line, "", "")?;
    }
    hold(!fs::exists(rt, "b.book")?, "no book is made")?;
    let wanted = Wanted {
        printed: "",
        told: "fault 44 Device\n",
        status: 3,
    };
    run(rt, &["script", "nowhere.script"])?.compare("nowhere", &wanted)
}

// What is told of a book that isn't made. It ends a script, whatever its other lines are.
const NOT_MADE: Wanted<'static> = Wanted {
    printed: "",
    told: "refused 32 BadText\n",
    status: 1,
};

fn scripts_begin_with_init(rt: &HostRuntime) -> Result<(), Fail> {
    for text in ["", "\n\n", "enrol ZZ-ACME\n", "init ZZ-WHSE1 ZZ-ACME\n"] {
        run_text(rt, text)?.is_unread(text, "", "")?;
    }
    fs::write(rt, "latin.script", b"init ZZ-WHSE1\nenrol ZZ-\xc9\n")?;
    run(rt, &["script", "latin.script"])?.is_unread("latin", "", "")?;
    run(rt, &["script", "/dev/zero"])?.is_unread("a script without an end", "", "")?;
    for text in [
        "init WHSE1\nenrol ZZ-ACME\nunread\n",
        "init ZZ-WHSE1\r\nunread\n",
    ] {
        run_text(rt, text)?.compare(text, &NOT_MADE)?;
    }
    Ok(())
}

// Runs a line after `init`, with another after it.
fn run_line(rt: &HostRuntime, line: &str) -> Result<Ran, Fail> {
    let text = format!(in rt.alloc(); "init ZZ-WHSE1\n{line}\nenrol ZZ-ACME\n")?;
    run_text(rt, &text)
}

fn lines_are_read(rt: &HostRuntime) -> Result<(), Fail> {
    let text = text_of(rt, "usage/script.lines")?;
    for line in text.lines() {
        run_line(rt, line)?.is_unread(line, "", "")?;
    }
    write_advice(rt, "stop.x12")?;
    let ran = run_text(rt, &text_of(rt, "usage/stops.script")?)?;
    ran.is_unread("ship", &answer(rt)?, "refused 35 AlreadyEnrolled\n")
}

// A batch that stops tells at which line, and what was done before it stays done.
fn a_batch_says_where_it_stopped(rt: &HostRuntime) -> Result<(), Fail> {
    let answer = answer(rt)?;
    write_advice(rt, "stop.x12")?;
    let stops = text_of(rt, "usage/stops.script")?;
    fs::write(rt, "stop.batch", stops.split_once('\n').ok_or("a line")?.1)?;
    remove_book(rt, "case.book", "case.book-wal")?;
    do_lines(rt, "case.book", "init ZZ-WHSE1")?;
    let told = "refused 35 AlreadyEnrolled\nstopped at line 4\n";
    let words = ["batch", "stop.batch", "--book", "case.book"];
    run(rt, &words)?.is_unread("ship", &answer, told)?;
    fs::write(rt, "stop.batch", "\nsend stop.x12\nsend nowhere.x12\n")?;
    let wanted = Wanted {
        printed: answer.as_str(),
        told: "stopped at line 3\nfault 44 Device\nnowhere.x12: no such file\n",
        status: 3,
    };
    let words = ["batch", "stop.batch", "--book", "case.book", "--explain"];
    run(rt, &words)?.compare("nowhere", &wanted)
}

// The help of each line of a script has an example.
const HELPED: &str = "init enrol roster send take count pick recount stock orders outbox";

// What the help of such a line says.
fn help_of(rt: &HostRuntime, name: &str) -> Result<String, Fail> {
    let line = format!(in rt.alloc(); "{name} --help")?;
    Ok(run_line(rt, &line)?.err)
}

fn help_has_an_example(rt: &HostRuntime) -> Result<(), Fail> {
    for name in HELPED.split(' ') {
        let example = format!(in rt.alloc(); "Example: whx12 {name} ")?;
        hold(help_of(rt, name)?.contains(example.as_str()), &example)?;
    }
    Ok(())
}

// Whether a line prints this part among the rest, and tells nothing.
fn prints(rt: &HostRuntime, line: &str, part: &str) -> Result<bool, Fail> {
    let ran = run_words(rt, line)?;
    Ok(ran.status == 0 && ran.err.is_empty() && ran.out.contains(part))
}

// Each row is a line that asks for help, and what it says among the rest.
fn help_is_printed(rt: &HostRuntime) -> Result<(), Fail> {
    let text = text_of(rt, "usage/help.rows")?;
    for row in text.lines() {
        let (line, part) = row.split_once('|').ok_or("a line")?;
        hold(prints(rt, line, part)?, line)?;
    }
    Ok(())
}

/// Plays them.
pub(crate) fn all(rt: &HostRuntime) -> Result<(), Fail> {
    tell(
        rt,
        "words of the program are read",
        words_of_the_program_are_read(rt),
    )?;
    tell(rt, "scripts begin with init", scripts_begin_with_init(rt))?;
    tell(rt, "lines are read", lines_are_read(rt))?;
    tell(
        rt,
        "a batch says where it stopped",
        a_batch_says_where_it_stopped(rt),
    )?;
    tell(rt, "help has an example", help_has_an_example(rt))?;
    tell(rt, "help is printed", help_is_printed(rt))
}
