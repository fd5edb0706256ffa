//! The subcommands that show something of a book, and the help of each.
ghost use Rattle.std.specs.Prelude.{◌≡◌, IfOk, codes};
ghost use Rattle.clap.specs.Simple.{App, app_of};
ghost use Rattle.command_line.specs.Lines as meant;
ghost use Rattle.command_line.specs.Parsers.{IsCommand, IsRule};

use crate::arguments::{
    at, flag, join_either_at, of_depositor, option, order, shipment, subcommand, with, with_at,
};
use crate::words::Place;
use clap::{Arg, Command};
use std::alloc::{AllocError, Global};

pub(crate) fn stock<'a>(alloc: Global) -> Result<Command<'a>, AllocError>
    ensures { IfOk result (IsCommand meant.stock_shape) }
{
    let command = of_depositor(
        alloc,
        "stock",
        "Prints what a depositor has, a line for each item and lot",
        "whx12 stock WHO [--csv] (--book BOOK | --server ADDR)",
        "Example: whx12 stock ZZ-ACME --book harbor.book\n\
         Example: whx12 stock ZZ-ACME --csv --book harbor.book\n\
         Example: whx12 stock ZZ-ACME --server 127.0.0.1:8080",
    );
    let command = with(
        command,
        flag(alloc, "csv", "Prints it as CSV, for a spreadsheet"),
    );
    with_at(alloc, command)
}

pub(crate) fn open<'a>(alloc: Global) -> Result<Command<'a>, AllocError>
    ensures { IfOk result (IsCommand meant.open_shape) }
{
    let command = of_depositor(
        alloc,
        "open",
        "Lists what a depositor has open, a line for each advice and each order",
        "whx12 open WHO (--book BOOK | --server ADDR)",
        "Example: whx12 open ZZ-ACME --book harbor.book\n\
         Example: whx12 open ZZ-ACME --server 127.0.0.1:8080\n\n\
         Listed are the advices that aren't counted, with how many pieces were announced, and \
         the orders that aren't picked, with how\n\
         many of their pieces are short: ordered, and not reserved.",
    );
    with_at(alloc, command)
}

// The option by which a sheet is printed as CSV.
fn csv<'a>(alloc: Global) -> Arg<'a>
    ensures { IsRule (meant.flag_rule (codes "csv")) result }
{
    flag(alloc, "csv", "Prints it as CSV, to fill in and hand back")
}

pub(crate) fn advices<'a>(alloc: Global) -> Result<Command<'a>, AllocError>
    ensures { IfOk result (IsCommand meant.advices_shape) }
{
    let command = of_depositor(
        alloc,
        "advices",
        "Prints the receiving sheet of an open advice",
        "whx12 advices WHO SHIPMENT [--csv] (--book BOOK | --server ADDR)",
        "Example: whx12 advices ZZ-ACME SHP1 --book harbor.book\n\
         Example: whx12 advices ZZ-ACME SHP1 --csv --book harbor.book > count.csv\n\n\
         A line for each item and lot that was announced, with room to write what came. As CSV \
         it is the sheet that `count` takes.",
    );
    let command = with(command, shipment(alloc));
    let command = with(command, csv(alloc));
    with_at(alloc, command)
}

pub(crate) fn orders<'a>(alloc: Global) -> Result<Command<'a>, AllocError>
    ensures { IfOk result (IsCommand meant.orders_shape) }
{
    let command = of_depositor(
        alloc,
        "orders",
        "Prints the picking sheet of an open order",
        "whx12 orders WHO ORDER [--csv] (--book BOOK | --server ADDR)",
        "Example: whx12 orders ZZ-ACME ORD1 --book harbor.book\n\
         Example: whx12 orders ZZ-ACME ORD1 --csv --book harbor.book > pick.csv\n\
         Example: whx12 orders ZZ-ACME ORD1 --server 127.0.0.1:8080\n\n\
         As CSV it is the sheet that `pick` takes: what is reserved of each lot.",
    );
    let command = with(command, order(alloc));
    let command = with(command, csv(alloc));
    with_at(alloc, command)
}

pub(crate) fn outbox<'a>(alloc: Global) -> Result<Command<'a>, AllocError>
    ensures { IfOk result (IsCommand meant.outbox_shape) }
{
    let command = of_depositor(
        alloc,
        "outbox",
        "Lists what went out to a depositor, or prints one of those texts again",
        "whx12 outbox WHO [--number N | --into DIR] (--book BOOK | --server ADDR)",
        "Example: whx12 outbox ZZ-ACME --book harbor.book\n\
         Example: whx12 outbox ZZ-ACME --number 4 --book harbor.book\n\
         Example: whx12 outbox ZZ-ACME --into out --book harbor.book\n\
         Example: whx12 outbox ZZ-ACME --server 127.0.0.1:8080\n\n\
         In the list ANS is an answer; of a document it says whether the depositor took it: \
         open, accepted or refused.",
    );
    let command = with(
        command,
        option(
            alloc,
            "number",
            "N",
            "The number of one text, from 1 to 999999",
        ),
    );
    let command = with(
        command,
        option(
            alloc,
            "into",
            "DIR",
            "The folder to which each document is written, as N.x12, if it isn't there yet",
        ),
    );
    with_at(alloc, command)
}

pub(crate) fn depositors<'a>(alloc: Global) -> Result<Command<'a>, AllocError>
    ensures { IfOk result (IsCommand meant.depositors_shape) }
{
    subcommand(
        alloc,
        "depositors",
        "Lists who is enrolled, a line for each depositor",
        "whx12 depositors (--book BOOK | --server ADDR)",
        "Example: whx12 depositors --book harbor.book\n\
         Example: whx12 depositors --server 127.0.0.1:8080\n\n\
         They stand in the order in which they were enrolled, each as a command takes it: its \
         qualifier, a hyphen and its id.",
        at(alloc),
    )
}

/// With the subcommands that show something of the book.
pub(crate) fn with_shows<'a>(
    alloc: Global,
    place: Place,
    parser: Result<Command<'a>, AllocError>,
) -> Result<Command<'a>, AllocError>
    ensures { (a : App) → IfOk parser.entry (λ c. app_of c ≡ a)
        → IfOk result (λ c. app_of c ≡ meant.with_all a (meant.show_subcommands place)) }
{
    let parser = join_either_at(alloc, place, parser, stock(alloc));
    let parser = join_either_at(alloc, place, parser, open(alloc));
    let parser = join_either_at(alloc, place, parser, advices(alloc));
    let parser = join_either_at(alloc, place, parser, orders(alloc));
    let parser = join_either_at(alloc, place, parser, outbox(alloc));
    join_either_at(alloc, place, parser, depositors(alloc))
}
