//! What may stand in a line that begins so: of a script, the subcommand that it begins with alone.
//! To make all of them takes longer than to read the line.
ghost use Rattle.std.specs.Prelude.{◌≡◌, ◌∷◌, List, IfOk, map};
ghost use Rattle.clap.specs.Simple.{Shape, app_of};
ghost use Rattle.clap.specs.Walk.{Text};
ghost use Rattle.command_line.specs.Lines as meant;
ghost use Rattle.command_line.specs.Parsers.{IsCommand, ReadsAlike};

use crate::arguments::join;
use crate::shows::{advices, depositors, open, orders, outbox, stock};
use crate::subcommands::{count, enrol, init, parser, pick, recount, roster, send, take, top};
use crate::words::Place;
use clap::Command;
use std::alloc::{AllocError, Global};

// A parser of one subcommand.
fn alone<'a>(
    alloc: Global,
    command: Result<Command<'a>, AllocError>,
) -> Result<Command<'a>, AllocError>
    ensures { (s : Shape) → IfOk command.entry (IsCommand s)
        → IfOk result (λ c. app_of c ≡ meant.alone s) }
{
    join(Ok(top(alloc)), command)
}

// What may stand in a line of a script that begins with this word.
fn after<'a>(alloc: Global, name: &str) -> Result<Command<'a>, AllocError>
    ensures { (rest : List Text) → IfOk result
        (λ c. ReadsAlike Place.Script (name.now ∷ rest) (app_of c)) }
{
    match name {
        "init" => alone(alloc, init(alloc)),
        "enrol" => alone(alloc, enrol(alloc)),
        "roster" => alone(alloc, roster(alloc)),
        "send" => alone(alloc, send(alloc)),
        "take" => alone(alloc, take(alloc)),
        "count" => alone(alloc, count(alloc)),
        "pick" => alone(alloc, pick(alloc)),
        "recount" => alone(alloc, recount(alloc)),
        "stock" => alone(alloc, stock(alloc)),
        "open" => alone(alloc, open(alloc)),
        "advices" => alone(alloc, advices(alloc)),
        "orders" => alone(alloc, orders(alloc)),
        "outbox" => alone(alloc, outbox(alloc)),
        "depositors" => alone(alloc, depositors(alloc)),
        _ => parser(alloc, Place::Script),
    }
}

// What may stand in a line of a script that has these words.
fn script_parser<'a>(alloc: Global, words: &[&str]) -> Result<Command<'a>, AllocError>
    ensures { IfOk result
        (λ c. ReadsAlike Place.Script (map (λ w. w.now) words.now) (app_of c)) }
{
    match words.split_first() {
        Some((name, _)) => after(alloc, *name),
        None => parser(alloc, Place::Script),
    }
}

/// What may stand in a line at the place that has these words: it is read as by `parser`.
pub(crate) fn parser_of<'a>(
    alloc: Global,
    place: Place,
    words: &[&str],
) -> Result<Command<'a>, AllocError>
    ensures { IfOk result
        (λ c. ReadsAlike place (map (λ w. w.now) words.now) (app_of c)) }
{
    match place {
        Place::Program => parser(alloc, place),
        Place::Script => script_parser(alloc, words),
    }
}
