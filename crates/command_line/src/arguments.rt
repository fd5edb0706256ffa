//! The arguments of subcommands, and how a subcommand is put together of them and joined to the
//! others.
ghost use Rattle.std.specs.Prelude.{◌≡◌, ◌∷◌, IfOk, true, []};
ghost use Rattle.clap.specs.Simple.{App, Shape, app_of, new_shape, with_subcommand};
ghost use Rattle.clap.specs.Walk.{Rule};
ghost use Rattle.command_line.specs.Lines as meant;
ghost use Rattle.command_line.specs.Parsers.{IsRule, IsCommand};

use crate::words::Place;
use clap::{Arg, ArgAction, Command};
use std::alloc::{AllocError, Global};

/// A value that must be there.
pub(crate) fn value<'a>(alloc: Global, id: &'a str, name: &'a str, help: &'a str) -> Arg<'a>
    ensures { IsRule (meant.value_rule id.now) result }
{
    Arg::new(alloc, id)
        .value_name(name)
        .help(help)
        .required(true)
        .action(ArgAction::Set)
}

/// An option with a value.
pub(crate) fn option<'a>(alloc: Global, id: &'a str, name: &'a str, help: &'a str) -> Arg<'a>
    ensures { IsRule (meant.option_rule id.now) result }
{
    Arg::new(alloc, id)
        .long(id)
        .value_name(name)
        .help(help)
        .action(ArgAction::Set)
}

/// An option with a value that must be there.
pub(crate) fn wanted<'a>(alloc: Global, id: &'a str, name: &'a str, help: &'a str) -> Arg<'a>
    ensures { IsRule (meant.wanted_rule id.now) result }
{
    option(alloc, id, name, help).required(true)
}

/// An option with a value that may be given several times.
pub(crate) fn repeated<'a>(alloc: Global, id: &'a str, name: &'a str, help: &'a str) -> Arg<'a>
    ensures { IsRule (meant.repeated_rule id.now) result }
{
    option(alloc, id, name, help).action(ArgAction::Append)
}

/// An option without a value.
pub(crate) fn flag<'a>(alloc: Global, id: &'a str, help: &'a str) -> Arg<'a>
    ensures { IsRule (meant.flag_rule id.now) result }
{
    Arg::new(alloc, id)
        .long(id)
        .help(help)
        .action(ArgAction::SetTrue)
}

// The depositor of a command.
fn depositor<'a>(alloc: Global) -> Arg<'a>
    ensures { IsRule meant.who_rule result }
{
    value(
        alloc,
        "who",
        "WHO",
        "The depositor: its qualifier, a hyphen and its id, as its ISA has them",
    )
}

/// The shipment number of an advice.
pub(crate) fn shipment<'a>(alloc: Global) -> Arg<'a>
    ensures { IsRule meant.number_rule result }
{
    value(
        alloc,
        "number",
        "SHIPMENT",
        "The shipment number of the advice",
    )
}

/// The number of an order.
pub(crate) fn order<'a>(alloc: Global) -> Arg<'a>
    ensures { IsRule meant.number_rule result }
{
    value(alloc, "number", "ORDER", "The number of the order")
}

// The ticket of a clerk's act.
fn ticket<'a>(alloc: Global) -> Arg<'a>
    ensures { IsRule meant.ticket_rule result }
{
    value(
        alloc,
        "ticket",
        "TICKET",
        "The number of the slip, by which the act is known when it is told again",
    )
}

// The sheet of a clerk's act.
fn sheet<'a>(alloc: Global) -> Arg<'a>
    ensures { IsRule meant.sheet_rule result }
{
    value(
        alloc,
        "sheet",
        "SHEET",
        "The file with the sheet: CSV without a header, a line for each item, lot and quantity",
    )
}

/// The moment of a command, which may stand in each line.
pub(crate) fn at<'a>(alloc: Global) -> Arg<'a>
    ensures { IsRule meant.at_rule result }
{
    option(
        alloc,
        "at",
        "YYYY-MM-DDTHH:MM",
        "The moment of the command in UTC, in place of the clock's",
    )
}

/// A command of this name with its texts: what it does, how it is used, and what its help ends
/// with.
pub(crate) fn described<'a>(
    alloc: Global,
    name: &'a str,
    about: &'a str,
    usage: &'a str,
    help: &'a str,
) -> Command<'a>
    ensures { IsCommand (new_shape name.now) result }
{
    Command::new(alloc, name)
        .about(about)
        .override_usage(usage)
        .after_help(help)
}

/// A command of this name with its first argument. The functions after it take a command or the
/// error of the step before, which they hand on. So what puts commands together has no branch: at
/// each of them every command that is alive would be let go, which is dear to prove.
pub(crate) fn subcommand<'a>(
    alloc: Global,
    name: &'a str,
    about: &'a str,
    usage: &'a str,
    help: &'a str,
    first: Arg<'a>,
) -> Result<Command<'a>, AllocError>
    ensures { (r : Rule) → IsRule r first.entry
        → IfOk result (IsCommand (meant.subcommand name.now (r ∷ []))) }
{
    described(alloc, name, about, usage, help).arg(first)
}

/// With an argument more.
pub(crate) fn with<'a>(
    command: Result<Command<'a>, AllocError>,
    arg: Arg<'a>,
) -> Result<Command<'a>, AllocError>
    ensures { (s : Shape) (r : Rule) → IfOk command.entry (IsCommand s) → IsRule r arg.entry
        → IfOk result (IsCommand (meant.and_rule s r)) }
{
    // A match in place of `?`, since the proof names what it finds.
    match command {
        Ok(command) => command.arg(arg),
        Err(error) => Err(error),
    }
}

/// With the moment of the command, which may stand in each line.
pub(crate) fn with_at<'a>(
    alloc: Global,
    command: Result<Command<'a>, AllocError>,
) -> Result<Command<'a>, AllocError>
    ensures { (s : Shape) → IfOk command.entry (IsCommand s)
        → IfOk result (IsCommand (meant.and_rule s meant.at_rule)) }
{
    with(command, at(alloc))
}

/// With the word by which a command is tried, and its moment.
pub(crate) fn with_try<'a>(
    alloc: Global,
    command: Result<Command<'a>, AllocError>,
) -> Result<Command<'a>, AllocError>
    ensures { (s : Shape) → IfOk command.entry (IsCommand s)
        → IfOk result (IsCommand (meant.and_rule (meant.and_rule s meant.try_rule)
        meant.at_rule)) }
{
    let tried = flag(
        alloc,
        "try",
        "Prints what would be answered now, and changes nothing",
    );
    let command = with(command, tried);
    with_at(alloc, command)
}

/// With the sheet of a clerk's act, the word by which it is tried, and its moment.
pub(crate) fn with_sheet<'a>(
    alloc: Global,
    command: Result<Command<'a>, AllocError>,
) -> Result<Command<'a>, AllocError>
    ensures { (s : Shape) → IfOk command.entry (IsCommand s)
        → IfOk result (IsCommand (meant.and_rule (meant.and_rule (meant.and_rule s
        meant.sheet_rule) meant.try_rule) meant.at_rule)) }
{
    let command = with(command, sheet(alloc));
    with_try(alloc, command)
}

/// A command of this name whose first argument is the depositor.
pub(crate) fn of_depositor<'a>(
    alloc: Global,
    name: &'a str,
    about: &'a str,
    usage: &'a str,
    help: &'a str,
) -> Result<Command<'a>, AllocError>
    ensures { IfOk result (IsCommand (meant.subcommand name.now (meant.who_rule ∷ []))) }
{
    subcommand(alloc, name, about, usage, help, depositor(alloc))
}

/// A command of this name whose first arguments are the depositor and the ticket, as a clerk's are.
pub(crate) fn of_clerk<'a>(
    alloc: Global,
    name: &'a str,
    about: &'a str,
    usage: &'a str,
    help: &'a str,
) -> Result<Command<'a>, AllocError>
    ensures { IfOk result (IsCommand (meant.subcommand name.now (meant.who_rule ∷ meant.ticket_rule
        ∷ []))) }
{
    let command = of_depositor(alloc, name, about, usage, help);
    with(command, ticket(alloc))
}

/// With a subcommand more.
pub(crate) fn join<'a>(
    parser: Result<Command<'a>, AllocError>,
    command: Result<Command<'a>, AllocError>,
) -> Result<Command<'a>, AllocError>
    ensures { (a : App) (s : Shape) → IfOk parser.entry (λ c. app_of c ≡ a)
        → IfOk command.entry (IsCommand s)
        → IfOk result (λ c. app_of c ≡ with_subcommand a s) }
{
    // Both errors are want of memory, so one arm lets go of what there is.
    match (parser, command) {
        (Ok(parser), Ok(command)) => parser.subcommand(command),
        _ => Err(AllocError),
    }
}

// What the help says of the file of a book.
const BOOK_HELP: &str = "The file with the book";

// With how the file of the book is opened: how long it is waited for while it is in use, and
// whether anything is supposed of its disk.
fn with_opening<'a>(
    alloc: Global,
    command: Result<Command<'a>, AllocError>,
) -> Result<Command<'a>, AllocError>
    ensures { (s : Shape) → IfOk command.entry (IsCommand s)
        → IfOk result (IsCommand (meant.with_opening s)) }
{
    let command = with(
        command,
        option(
            alloc,
            "wait",
            "SECONDS",
            "How long a book that is in use is waited for [default: 5]",
        ),
    );
    with(
        command,
        flag(
            alloc,
            "wary",
            "Supposes nothing of what a power failure leaves of a write; each commit takes longer",
        ),
    )
}

// With the file of the book, and how it is opened.
fn with_book<'a>(
    alloc: Global,
    command: Result<Command<'a>, AllocError>,
) -> Result<Command<'a>, AllocError>
    ensures { (s : Shape) → IfOk command.entry (IsCommand s)
        → IfOk result (IsCommand (meant.over_book s)) }
{
    let command = with(command, wanted(alloc, "book", "BOOK", BOOK_HELP));
    with_opening(alloc, command)
}

// With the file of the book and how it is opened, or the address of a server that has the book.
fn with_either<'a>(
    alloc: Global,
    command: Result<Command<'a>, AllocError>,
) -> Result<Command<'a>, AllocError>
    ensures { (s : Shape) → IfOk command.entry (IsCommand s)
        → IfOk result (IsCommand (meant.over_either s)) }
{
    let command = with(command, option(alloc, "book", "BOOK", BOOK_HELP));
    let command = with_opening(alloc, command);
    with(
        command,
        option(
            alloc,
            "server",
            "ADDR",
            "The address of a server that has the book, as 127.0.0.1:8080",
        ),
    )
}

/// With a subcommand more, as it stands at the place: the program's is over the book in a file.
pub(crate) fn join_at<'a>(
    alloc: Global,
    place: Place,
    parser: Result<Command<'a>, AllocError>,
    command: Result<Command<'a>, AllocError>,
) -> Result<Command<'a>, AllocError>
    ensures { (a : App) (s : Shape) → IfOk parser.entry (λ c. app_of c ≡ a)
        → IfOk command.entry (IsCommand s)
        → IfOk result (λ c. app_of c ≡ with_subcommand a (meant.over_at place s)) }
{
    match place {
        Place::Program => join(parser, with_book(alloc, command)),
        Place::Script => join(parser, command),
    }
}

/// With a subcommand more, as it stands at the place: a running server may be asked for the
/// program's too.
pub(crate) fn join_either_at<'a>(
    alloc: Global,
    place: Place,
    parser: Result<Command<'a>, AllocError>,
    command: Result<Command<'a>, AllocError>,
) -> Result<Command<'a>, AllocError>
    ensures { (a : App) (s : Shape) → IfOk parser.entry (λ c. app_of c ≡ a)
        → IfOk command.entry (IsCommand s)
        → IfOk result (λ c. app_of c ≡ with_subcommand a (meant.either_at place s)) }
{
    match place {
        Place::Program => join(parser, with_either(alloc, command)),
        Place::Script => join(parser, command),
    }
}
