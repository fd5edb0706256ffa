//! A line of words read: what it asks for.
ghost use Rattle.std.specs.Prelude.{◌≡◌, ◌≢◌, None, Some, IfOk, IfErr, IfSome, IfNone, MatchOption, codes, map};
ghost use Rattle.clap.specs.Matches.{found_of};
ghost use Rattle.clap.specs.Values.{kind_of};
ghost use Rattle.clap.specs.Walk.{rows_of};
ghost use Rattle.command_line.specs.Asked as meant;

use crate::alone::parser_of;
use crate::values::{
    book_of, given, has_flag, leaves_to_server, moment, number, opening, server, service_of,
    text_of, usage, without,
};
use crate::words::{BookAct, ClerkWords, Endpoint, LineFault, Place, Show, Task, Words};
use clap::ArgMatches;
use clap::error::ErrorKind;
use definitions::SheetKind;
use segments::Moment;
use std::alloc::Global;

// What the parser says: what is wrong, or the help that is asked for.
fn refused(alloc: Global, error: &clap::Error) -> LineFault
    ensures { kind_of error.now ≡ ErrorKind.OutOfMemory → result ≡ LineFault.OutOfMemory }
{
    if error.kind() == ErrorKind::OutOfMemory {
        return LineFault::OutOfMemory;
    }
    match error.to_string(alloc) {
        Ok(text) if error.kind() == ErrorKind::DisplayHelp => LineFault::Help(text),
        Ok(text) => LineFault::Usage(text),
        Err(_) => LineFault::OutOfMemory,
    }
}

// The number of the advice or the order that a line says, which a recount doesn't have.
fn number_read<'a>(
    alloc: Global,
    kind: SheetKind,
    values: &ArgMatches<'a>,
) -> Result<&'a str, LineFault>
    ensures ok { IfOk result
        (λ number. meant.SaysNumberOf kind (rows_of (found_of values.now)) number.now) }
    ensures err { IfErr result (meant.LacksMemory
        (meant.HasAll (meant.act_name kind, rows_of (found_of values.now)))) }
{
    Ok(match kind {
        SheetKind::Recount => "",
        _ => given(alloc, values, "number")?,
    })
}

// What a clerk did, with the values of its line.
fn words_of<'a>(
    alloc: Global,
    kind: SheetKind,
    values: &ArgMatches<'a>,
) -> Result<ClerkWords<'a>, LineFault>
    ensures told { IfOk result (meant.SaysWords (rows_of (found_of values.now))) }
    ensures kind { IfOk result (λ t. t.kind ≡ kind) }
    ensures err { IfErr result (meant.LacksMemory
        (meant.HasAll (meant.act_name kind, rows_of (found_of values.now)))) }
{
    let number = number_read(alloc, kind, values)?;
    Ok(ClerkWords {
        kind,
        who: given(alloc, values, "who")?,
        ticket: given(alloc, values, "ticket")?,
        number,
        sheet: given(alloc, values, "sheet")?,
    })
}

// What a clerk's subcommand does to the book with its values; None where it is no clerk's.
fn clerk_act_of<'a>(
    alloc: Global,
    name: &str,
    values: &ArgMatches<'a>,
) -> Result<Option<BookAct<'a>>, LineFault>
    ensures ok { IfOk result
        (λ act. IfSome act (meant.SaysAct (name.now, rows_of (found_of values.now)))) }
    ensures none { IfOk result (λ act. IfNone act ((k : _) → name.now ≢ meant.act_name k)) }
    ensures err { IfErr result (meant.LacksMemory
        (meant.HasAll (name.now, rows_of (found_of values.now)))) }
{
    let act = match name {
        "count" => BookAct::Clerk(words_of(alloc, SheetKind::Count, values)?),
        "pick" => BookAct::Clerk(words_of(alloc, SheetKind::Pick, values)?),
        "recount" => BookAct::Clerk(words_of(alloc, SheetKind::Recount, values)?),
        _ => return Ok(None),
    };
    Ok(Some(act))
}

// What a subcommand does to the book with its values; None where it does nothing to it.
fn act_of<'a>(
    alloc: Global,
    name: &str,
    values: &ArgMatches<'a>,
) -> Result<Option<BookAct<'a>>, LineFault>
    ensures ok { IfOk result
        (meant.IsFoundOf (meant.SaysAct (name.now, rows_of (found_of values.now)))) }
    ensures err { IfErr result (meant.LacksMemory
        (meant.HasAll (name.now, rows_of (found_of values.now)))) }
{
    let act = match name {
        "enrol" => BookAct::Enrol {
            who: given(alloc, values, "who")?,
        },
        "roster" => BookAct::Roster {
            file: given(alloc, values, "file")?,
        },
        "send" => BookAct::Send {
            file: given(alloc, values, "file")?,
        },
        "take" => BookAct::Take {
            dir: given(alloc, values, "dir")?,
            done: text_of(values, "done"),
        },
        _ => return clerk_act_of(alloc, name, values),
    };
    Ok(Some(act))
}

// What is shown of what went out to a depositor, with the values of its line.
fn outbox_of<'a>(alloc: Global, values: &ArgMatches<'a>) -> Result<Show<'a>, LineFault>
    ensures ok { IfOk result
        (meant.SaysShow (codes "outbox", rows_of (found_of values.now))) }
    ensures err { IfErr result (meant.LacksMemory
        (meant.HasAll (codes "outbox", rows_of (found_of values.now))
        × meant.ReadsNumber (rows_of (found_of values.now))
        × meant.Lacks (rows_of (found_of values.now)) (codes "into"))) }
{
    without(
        alloc,
        values,
        "into",
        "--into and --number exclude each other\n",
    )?;
    Ok(Show::Outbox {
        who: given(alloc, values, "who")?,
        number: number(alloc, values)?,
    })
}

// What a subcommand shows with its values; None where it shows nothing.
fn show_of<'a>(
    alloc: Global,
    name: &str,
    values: &ArgMatches<'a>,
) -> Result<Option<Show<'a>>, LineFault>
    ensures ok { IfOk result
        (meant.IsFoundOf (meant.SaysShow (name.now, rows_of (found_of values.now)))) }
    ensures err { IfErr result (meant.LacksMemory
        (meant.HasAll (name.now, rows_of (found_of values.now))
        × (name.now ≡ codes "outbox" → meant.ReadsNumber (rows_of (found_of values.now))
        × meant.Lacks (rows_of (found_of values.now)) (codes "into")))) }
{
    let show = match name {
        "stock" => Show::Stock {
            who: given(alloc, values, "who")?,
            is_csv: has_flag(values, "csv"),
        },
        "open" => Show::Open {
            who: given(alloc, values, "who")?,
        },
        "advices" => Show::Advice {
            who: given(alloc, values, "who")?,
            number: given(alloc, values, "number")?,
            is_csv: has_flag(values, "csv"),
        },
        "orders" => Show::Order {
            who: given(alloc, values, "who")?,
            number: given(alloc, values, "number")?,
            is_csv: has_flag(values, "csv"),
        },
        "outbox" => outbox_of(alloc, values)?,
        "depositors" => Show::Depositors,
        _ => return Ok(None),
    };
    Ok(Some(show))
}

// The task of a subcommand by which documents are handed on, with its values; None where it isn't
// such a one.
fn hand_on_of<'a>(
    alloc: Global,
    name: &str,
    values: &ArgMatches<'a>,
) -> Result<Option<Task<'a>>, LineFault>
    ensures ok { IfOk result (λ found. MatchOption found
        (name.now ≡ codes "outbox" → meant.Lacks (rows_of (found_of values.now)) (codes "into"))
        (meant.SaysTask (name.now, rows_of (found_of values.now)))) }
    ensures err { IfErr result (meant.LacksMemory ((t : _)
        × meant.SaysPart (name.now, rows_of (found_of values.now)) t)) }
{
    if name != "outbox" {
        return Ok(None);
    }
    let Some(dir) = text_of(values, "into") else {
        return Ok(None);
    };
    without(
        alloc,
        values,
        "number",
        "--into and --number exclude each other\n",
    )?;
    Ok(Some(Task::HandOn {
        who: given(alloc, values, "who")?,
        dir,
    }))
}

// What a subcommand changes of a book or shows of it with its values, at the moment that its line
// says.
fn part_task_of<'a>(
    alloc: Global,
    name: &str,
    values: &ArgMatches<'a>,
    at: Option<Moment>,
) -> Result<Task<'a>, LineFault>
    requires { meant.SaysMoment (rows_of (found_of values.now)) at }

    ensures ok { IfOk result (meant.SaysTask (name.now, rows_of (found_of values.now))) }
    ensures err { IfErr result (meant.LacksMemory ((t : _)
        × meant.SaysPart (name.now, rows_of (found_of values.now)) t)) }
{
    if let Some(act) = act_of(alloc, name, values)? {
        return Ok(if has_flag(values, "try") {
            Task::Try { act, at }
        } else {
            Task::Act { act, at }
        });
    }
    if let Some(task) = hand_on_of(alloc, name, values)? {
        return Ok(task);
    }
    match show_of(alloc, name, values)? {
        Some(show) => Ok(Task::Show(show)),
        None => Err(usage(alloc, "there is no such command\n")),
    }
}

// What a subcommand does over a book with its values, at the moment that its line says.
fn task_at<'a>(
    alloc: Global,
    name: &str,
    values: &ArgMatches<'a>,
    at: Option<Moment>,
) -> Result<Task<'a>, LineFault>
    requires { meant.SaysMoment (rows_of (found_of values.now)) at }

    ensures ok { IfOk result (meant.SaysTask (name.now, rows_of (found_of values.now))) }
    ensures err { IfErr result (meant.LacksMemory
        (meant.Asks (name.now, rows_of (found_of values.now)))) }
{
    let task = match name {
        "init" => Task::Init {
            who: given(alloc, values, "who")?,
        },
        "serve" => Task::Serve {
            service: service_of(alloc, values)?,
            at,
        },
        "verify" => Task::Verify {
            seal: text_of(values, "seal"),
        },
        "seal" => Task::Seal {
            first: text_of(values, "first"),
        },
        "batch" => Task::Batch {
            file: given(alloc, values, "file")?,
        },
        _ => return part_task_of(alloc, name, values, at),
    };
    Ok(task)
}

// What a subcommand does over a book with its values.
fn task_of<'a>(alloc: Global, name: &str, values: &ArgMatches<'a>) -> Result<Task<'a>, LineFault>
    ensures ok { IfOk result (meant.SaysTask (name.now, rows_of (found_of values.now))) }
    ensures moment { IfOk result (λ task. meant.ReadsMoment (rows_of (found_of values.now))) }
    ensures err { IfErr result (meant.LacksMemory (meant.ReadsMoment (rows_of (found_of values.now))
        × meant.Asks (name.now, rows_of (found_of values.now)))) }
{
    let at = moment(alloc, values)?;
    task_at(alloc, name, values, at)
}

// What a subcommand over a book asks for with its values.
fn over<'a>(
    alloc: Global,
    place: Place,
    name: &str,
    values: &ArgMatches<'a>,
) -> Result<Words<'a>, LineFault>
    requires { meant.SaysServer (rows_of (found_of values.now)) None }

    ensures ok { IfOk result (meant.Says place (name.now, rows_of (found_of values.now))) }
    ensures err { IfErr result (meant.LacksMemory
        (meant.AsksOver place (name.now, rows_of (found_of values.now)))) }
{
    Ok(Words::Over {
        book: book_of(alloc, place, values)?,
        opening: opening(alloc, values)?,
        task: task_of(alloc, name, values)?,
    })
}

// Whether a running server may be asked for a subcommand.
fn takes_server(name: &str) -> bool
    ensures { result ≡ meant.takes_server name.now }
{
    matches!(
        name,
        "send"
            | "count"
            | "pick"
            | "recount"
            | "stock"
            | "open"
            | "advices"
            | "orders"
            | "outbox"
            | "depositors"
    )
}

// What a subcommand asks a running server for with its values.
fn remote<'a>(
    alloc: Global,
    name: &str,
    values: &ArgMatches<'a>,
    server: Endpoint<'a>,
) -> Result<Words<'a>, LineFault>
    requires { meant.SaysServer (rows_of (found_of values.now)) (Some server) }

    ensures ok { (p : _) → IfOk result (meant.Says p (name.now, rows_of (found_of values.now))) }
    ensures err { IfErr result (meant.LacksMemory
        (meant.AsksServer (name.now, rows_of (found_of values.now)))) }
{
    leaves_to_server(alloc, values)?;
    // Only at these does the parser take `--server`.
    if !takes_server(name) {
        return Err(usage(alloc, "no server does this\n"));
    }
    let task = part_task_of(alloc, name, values, None)?;
    Ok(Words::Remote { server, task })
}

// What a subcommand asks for with its values: a script, something of a running server, or something
// over a book.
fn asked<'a>(
    alloc: Global,
    place: Place,
    name: &str,
    values: &ArgMatches<'a>,
) -> Result<Words<'a>, LineFault>
    ensures ok { IfOk result (meant.Says place (name.now, rows_of (found_of values.now))) }
    ensures err { IfErr result (meant.LacksMemory ((w : Words)
        × meant.Says place (name.now, rows_of (found_of values.now)) w)) }
{
    if name == "script" {
        let file = given(alloc, values, "file")?;
        return Ok(Words::Script { file });
    }
    match server(alloc, values)? {
        Some(server) => remote(alloc, name, values, server),
        None => over(alloc, place, name, values),
    }
}

// Whether a word stands first.
fn stands_first(words: &[&str], name: &str) -> bool
    ensures { result ≡ meant.stands_first name.now (map (λ w. w.now) words.now) }
{
    match words.first() {
        Some(first) => *first == name,
        None => false,
    }
}

/// Reads one line of words, without a program's name in front, as it stands at a place: what it
/// asks for. The errors are `Usage`, a line that can't be read, with the text to show; `Help`, one
/// that asks for help, with that text; and `OutOfMemory`.
pub fn line<'a>(alloc: Global, place: Place, words: &'a [&'a str]) -> Result<Words<'a>, LineFault>
    // The first word names the subcommand, and its values are those that `clap` defines for a
    // simple command.
    ensures ok { IfOk result (meant.IsLineRead place (map (λ w. w.now) words.now)) }
    // A line that can be read is refused for want of memory alone.
    ensures err { IfErr result (meant.LacksMemory
        (meant.CanBeRead place (map (λ w. w.now) words.now))) }
{
    let matches = match parser_of(alloc, place, words)?.try_get_matches_from(words) {
        Ok(matches) => matches,
        Err(error) => return Err(refused(alloc, &error)),
    };
    let Some((name, values)) = matches.subcommand() else {
        return Err(usage(alloc, "a command is missing\n"));
    };
    if !stands_first(words, name) {
        return Err(usage(alloc, "a line begins with a command\n"));
    }
    asked(alloc, place, name, values)
}
