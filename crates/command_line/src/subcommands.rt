//! What may stand in a line of words: the subcommands, and the help that each shows. Those that
//! only look stand in shows.rt, and the server's in services.rt.
ghost use Rattle.std.specs.Prelude.{◌≡◌, IfOk, true};
ghost use Rattle.clap.specs.Simple.{App, app_of};
ghost use Rattle.command_line.specs.Lines as meant;
ghost use Rattle.command_line.specs.Parsers.{IsCommand};

use crate::arguments::{
    described, join, join_at, join_either_at, of_clerk, of_depositor, option, order, shipment,
    subcommand, value, with, with_at, with_sheet, with_try,
};
use crate::services::serve;
use crate::shows::with_shows;
use crate::words::Place;
use clap::Command;
use std::alloc::{AllocError, Global};

fn script<'a>(alloc: Global) -> Result<Command<'a>, AllocError>
    ensures { IfOk result (IsCommand meant.script_shape) }
{
    subcommand(
        alloc,
        "script",
        "Runs the commands of a file, line by line, over a new book in memory",
        "whx12 script FILE",
        "Example: whx12 script morning.txt\n\n\
         The first line makes the book, as: init ZZ-WHSE1. Each other line is one of\n\
         \x20 enrol   roster   send   take   count   pick   recount   stock   open   advices   \
         orders   outbox   depositors\n\
         without `whx12` and `--book`, and with single spaces between its words; empty lines are \
         passed over. A line that is a name and --help stops the script and\n\
         shows what that command wants. A refused command is told on standard error, and the \
         script goes on; words that can't be\n\
         read and faults stop it.",
        value(alloc, "file", "FILE", "The file with the commands"),
    )
}

fn batch<'a>(alloc: Global) -> Result<Command<'a>, AllocError>
    ensures { IfOk result (IsCommand meant.batch_shape) }
{
    subcommand(
        alloc,
        "batch",
        "Runs the commands of a file, line by line, over the book, which is opened once",
        "whx12 batch FILE --book BOOK",
        "Example: whx12 batch morning.txt --book harbor.book\n\n\
         The lines are those of a script, without `init`. Each command is in the book before the \
         next one begins. A refused command is\n\
         told on standard error, and the next one follows; words that can't be read and faults \
         stop the batch, and the number of their\n\
         line is told. What was done before them stays done, and the file can be given again: \
         what is known gets its first answer.",
        value(alloc, "file", "FILE", "The file with the commands"),
    )
}

pub(crate) fn init<'a>(alloc: Global) -> Result<Command<'a>, AllocError>
    ensures { IfOk result (IsCommand meant.init_shape) }
{
    let command = subcommand(
        alloc,
        "init",
        "Makes the book of a warehouse; the first line of a script, and no other",
        "whx12 init WHO --book BOOK [--at MOMENT]",
        "Example: whx12 init ZZ-WHSE1 --book harbor.book",
        value(
            alloc,
            "who",
            "WHO",
            "The warehouse: its qualifier, a hyphen and its id, as its ISA has them",
        ),
    );
    with_at(alloc, command)
}

pub(crate) fn enrol<'a>(alloc: Global) -> Result<Command<'a>, AllocError>
    ensures { IfOk result (IsCommand meant.enrol_shape) }
{
    let command = of_depositor(
        alloc,
        "enrol",
        "Enrols a depositor, whose interchanges are taken from then on",
        "whx12 enrol WHO [--try] --book BOOK [--at MOMENT]",
        "Example: whx12 enrol ZZ-ACME --book harbor.book",
    );
    with_try(alloc, command)
}

pub(crate) fn roster<'a>(alloc: Global) -> Result<Command<'a>, AllocError>
    ensures { IfOk result (IsCommand meant.roster_shape) }
{
    let command = subcommand(
        alloc,
        "roster",
        "Enrols the depositors of a list, and prints what became of each",
        "whx12 roster FILE --book BOOK [--at MOMENT]",
        "Example: whx12 roster depositors.toml --book harbor.book\n\n\
         The file is TOML with the line\n\
         \x20 depositors = [\"ZZ-ACME\", \"ZZ-BOLTCO\"]\n\
         A name in it that can't be read refuses the whole list, and nobody is enrolled.",
        value(alloc, "file", "FILE", "The file with the list"),
    );
    with_at(alloc, command)
}

pub(crate) fn send<'a>(alloc: Global) -> Result<Command<'a>, AllocError>
    ensures { IfOk result (IsCommand meant.send_shape) }
{
    let command = subcommand(
        alloc,
        "send",
        "Hands in an interchange as it came, and prints the answer to send back",
        "whx12 send FILE [--try] (--book BOOK [--at MOMENT] | --server ADDR)",
        "Example: whx12 send advice.x12 --book harbor.book\n\
         Example: whx12 send advice.x12 --server 127.0.0.1:8080\n\n\
         The same bytes sent again get the same answer, and nothing is taken twice.",
        value(alloc, "file", "FILE", "The file with the interchange"),
    );
    with_try(alloc, command)
}

pub(crate) fn take<'a>(alloc: Global) -> Result<Command<'a>, AllocError>
    ensures { IfOk result (IsCommand meant.take_shape) }
{
    let command = subcommand(
        alloc,
        "take",
        "Hands in each file of a folder whose name ends .x12, and writes the answers beside them",
        "whx12 take DIR [--done DONE] --book BOOK [--at MOMENT]",
        "Example: whx12 take inbox --book harbor.book\n\n\
         The answer to inbox/a.x12 is written to inbox/a.x12.ans. What became of each file is \
         printed. Taking the folder again\n\
         is safe: the same bytes get the same answer, and nothing is taken twice.",
        value(alloc, "dir", "DIR", "The folder with the interchanges"),
    );
    let command = with(
        command,
        option(
            alloc,
            "done",
            "DONE",
            "The folder below which what was taken is moved, with its answers",
        ),
    );
    with_at(alloc, command)
}

pub(crate) fn count<'a>(alloc: Global) -> Result<Command<'a>, AllocError>
    ensures { IfOk result (IsCommand meant.count_shape) }
{
    let command = of_clerk(
        alloc,
        "count",
        "Tells what came in for an advice, closes it, and prints its receipt (944)",
        "whx12 count WHO TICKET SHIPMENT SHEET [--try] (--book BOOK [--at MOMENT] | --server ADDR)",
        "Example: whx12 count ZZ-ACME CNT-0412 SHP1 count.csv --book harbor.book\n\
         Example: whx12 count ZZ-ACME CNT-0412 SHP1 count.csv --server 127.0.0.1:8080\n\n\
         where count.csv is\n\
         \x20 BOLT,LOT-7,90\n\
         \x20 NUT,LOT-2,0\n\
         What was announced and isn't in the sheet is missing: an empty sheet closes the advice \
         with nothing on hand.",
    );
    let command = with(command, shipment(alloc));
    with_sheet(alloc, command)
}

pub(crate) fn pick<'a>(alloc: Global) -> Result<Command<'a>, AllocError>
    ensures { IfOk result (IsCommand meant.pick_shape) }
{
    let command = of_clerk(
        alloc,
        "pick",
        "Tells what was picked for an order, closes it, and prints its shipping advice (945)",
        "whx12 pick WHO TICKET ORDER SHEET [--try] (--book BOOK [--at MOMENT] | --server ADDR)",
        "Example: whx12 pick ZZ-ACME PCK-0231 ORD1 pick.csv --book harbor.book\n\
         Example: whx12 pick ZZ-ACME PCK-0231 ORD1 pick.csv --server 127.0.0.1:8080\n\n\
         where pick.csv is\n\
         \x20 BOLT,LOT-7,60\n\
         No more of a lot can be picked than the order has reserved. An empty file says that \
         nothing was picked.",
    );
    let command = with(command, order(alloc));
    with_sheet(alloc, command)
}

pub(crate) fn recount<'a>(alloc: Global) -> Result<Command<'a>, AllocError>
    ensures { IfOk result (IsCommand meant.recount_shape) }
{
    let command = of_clerk(
        alloc,
        "recount",
        "Sets what is on hand of each lot of the sheet, and prints the adjustment (947)",
        "whx12 recount WHO TICKET SHEET [--try] (--book BOOK [--at MOMENT] | --server ADDR)",
        "Example: whx12 recount ZZ-ACME REC-0009 recount.csv --book harbor.book\n\
         Example: whx12 recount ZZ-ACME REC-0009 recount.csv --server 127.0.0.1:8080\n\n\
         where recount.csv is\n\
         \x20 BOLT,LOT-7,28\n\
         At least one line has to differ from what is on hand.",
    );
    with_sheet(alloc, command)
}

fn verify<'a>(alloc: Global) -> Result<Command<'a>, AllocError>
    ensures { IfOk result (IsCommand meant.verify_shape) }
{
    let command = subcommand(
        alloc,
        "verify",
        "Says whether every table of the book is what its register gives",
        "whx12 verify [--seal N:DIGITS] --book BOOK",
        "Example: whx12 verify --book harbor.book\n\n\
         The command of each entry is given again to an empty book in memory, and every table is \
         compared with that book's. Printed\n\
         is: ok and the number of entries; a difference is: fault 43 NotThisBook. The book stays \
         as it is; one of version 1 is carried\n\
         over first, as by each command. Run it after a restore, before a\n\
         year is closed, and after a fault of the disk.",
        option(
            alloc,
            "seal",
            "N:DIGITS",
            "A seal that was noted: says too whether the first N entries are still those",
        ),
    );
    with_at(alloc, command)
}

fn seal<'a>(alloc: Global) -> Result<Command<'a>, AllocError>
    ensures { IfOk result (IsCommand meant.seal_shape) }
{
    let command = subcommand(
        alloc,
        "seal",
        "Tells the seal of the book: how many entries it has, and a digest over all of them",
        "whx12 seal [--first N] --book BOOK",
        "Example: whx12 seal --book harbor.book\n\
         Example: whx12 seal --first 46 --book harbor.book\n\n\
         Printed is N:DIGITS, a SHA-256 over the N entries. Note it elsewhere, as beside a \
         backup: as long as seal --first N prints the\n\
         same, the book has these entries, unchanged; status 1 says that it has fewer. Nothing \
         is written.",
        option(
            alloc,
            "first",
            "N",
            "Of the first N entries, 0 to 999999999 [default: of all]",
        ),
    );
    with_at(alloc, command)
}

// With the subcommands that change the book.
fn with_acts<'a>(
    alloc: Global,
    place: Place,
    parser: Result<Command<'a>, AllocError>,
) -> Result<Command<'a>, AllocError>
    ensures { (a : App) → IfOk parser.entry (λ c. app_of c ≡ a)
        → IfOk result (λ c. app_of c ≡ meant.with_all a (meant.act_subcommands place)) }
{
    let parser = join_at(alloc, place, parser, enrol(alloc));
    let parser = join_at(alloc, place, parser, roster(alloc));
    let parser = join_either_at(alloc, place, parser, send(alloc));
    let parser = join_at(alloc, place, parser, take(alloc));
    let parser = join_either_at(alloc, place, parser, count(alloc));
    let parser = join_either_at(alloc, place, parser, pick(alloc));
    join_either_at(alloc, place, parser, recount(alloc))
}

// With the subcommands that may stand in a script, as they stand at the place.
fn with_lines<'a>(
    alloc: Global,
    place: Place,
    parser: Result<Command<'a>, AllocError>,
) -> Result<Command<'a>, AllocError>
    ensures { (a : App) → IfOk parser.entry (λ c. app_of c ≡ a)
        → IfOk result (λ c. app_of c ≡ meant.with_all a (meant.line_subcommands place)) }
{
    let parser = join_at(alloc, place, parser, init(alloc));
    let parser = with_acts(alloc, place, parser);
    with_shows(alloc, place, parser)
}

/// The program, without its subcommands.
pub(crate) fn top<'a>(alloc: Global) -> Command<'a>
    ensures { IsCommand (record meant.top_shape { is_leaf = true }) result }
{
    described(
        alloc,
        "whx12",
        "The book of a third-party warehouse that takes its orders as X12 interchanges",
        "whx12 COMMAND ..",
        "The book:      init, enrol, roster, verify, seal\n\
         Interchanges:  send, take, serve\n\
         Clerks:        count, pick, recount\n\
         Looking:       stock, open, advices, orders, outbox, depositors\n\
         Many at once:  batch\n\
         Trying out:    script\n\n\
         Example: whx12 init ZZ-WHSE1 --book harbor.book\n\
         Example: whx12 enrol ZZ-ACME --book harbor.book\n\
         Example: whx12 send advice.x12 --book harbor.book\n\
         Example: whx12 script morning.txt\n\n\
         `whx12 help COMMAND` says what a command wants. The exit status is 0 where all was \
         done, 1 where something was refused, 2 where words can't be read, 3 at a fault.\n\n\
         What a refusal or a fault is about is told in a line of its own on a terminal, and \
         elsewhere where one of the words is --explain.",
    )
    .no_binary_name(true)
    .subcommand_required(true)
    .disable_help_subcommand(true)
    .disable_version_flag(true)
}

// The words that may stand after the program's name.
fn of_programs<'a>(alloc: Global) -> Result<Command<'a>, AllocError>
    ensures { IfOk result
        (λ c. app_of c ≡ record { top = meant.top_shape; subs = meant.program_subcommands }) }
{
    let parser = join(Ok(top(alloc)), script(alloc));
    let parser = with_lines(alloc, Place::Program, parser);
    let parser = join_at(alloc, Place::Program, parser, batch(alloc));
    let parser = join_at(alloc, Place::Program, parser, serve(alloc));
    let parser = join_at(alloc, Place::Program, parser, verify(alloc));
    join_at(alloc, Place::Program, parser, seal(alloc))
}

// The words that may stand in a script.
fn of_scripts<'a>(alloc: Global) -> Result<Command<'a>, AllocError>
    ensures { IfOk result
        (λ c. app_of c ≡ record { top = meant.top_shape; subs = meant.script_subcommands }) }
{
    with_lines(alloc, Place::Script, Ok(top(alloc)))
}

/// What may stand at the place. The one error is want of memory.
pub fn parser<'a>(alloc: Global, place: Place) -> Result<Command<'a>, AllocError>
    ensures { IfOk result (λ c. app_of c ≡ meant.app_at place) }
{
    match place {
        Place::Program => of_programs(alloc),
        Place::Script => of_scripts(alloc),
    }
}
