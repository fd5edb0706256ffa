//! The subcommand that serves the book, and its help.
ghost use Rattle.std.specs.Prelude.{◌∷◌, IfOk, [], codes};
ghost use Rattle.command_line.specs.Lines as meant;
ghost use Rattle.command_line.specs.Parsers.{IsCommand};

use crate::arguments::{flag, option, repeated, subcommand, wanted, with, with_at};
use clap::Command;
use std::alloc::{AllocError, Global};

// The subcommand `serve` as far as its words must be there.
fn serve_wanted<'a>(alloc: Global) -> Result<Command<'a>, AllocError>
    ensures { IfOk result (IsCommand (meant.subcommand (codes "serve")
        (meant.wanted_rule (codes "listen") ∷ []))) }
{
    subcommand(
        alloc,
        "serve",
        "Serves the book over HTTP: many connections at once, their requests one after the other",
        "whx12 serve --listen ADDR [--count N] [--patience SECONDS] [--peers N] [--host NAME].. \
         [--from FIELD] [--anyone] [--clerks] [--clerks-at ADDR] --book BOOK [--at MOMENT]",
        "Example: whx12 serve --book harbor.book --listen 127.0.0.1:8080\n\n\
         A depositor posts its interchanges to /x12. GET /stock/ZZ-ACME shows stock, \
         /outbox/ZZ-ACME what went out. Printed is the\n\
         status of each response, or: fault 44 Device. While it serves, no other command can \
         open the book; where it\n\
         has --clerks, those with --server ask it instead.",
        wanted(
            alloc,
            "listen",
            "ADDR",
            "The IP address and port to listen at, as 127.0.0.1:8080, or a socket, as unix:PATH",
        ),
    )
}

/// The subcommand `serve`.
pub(crate) fn serve<'a>(alloc: Global) -> Result<Command<'a>, AllocError>
    ensures { IfOk result (IsCommand meant.serve_shape) }
{
    let command = serve_wanted(alloc);
    let command = with(
        command,
        option(
            alloc,
            "count",
            "N",
            "How many connections are served, from 1 to 65535 [default: until it is stopped]",
        ),
    );
    let command = with(
        command,
        option(
            alloc,
            "patience",
            "SECONDS",
            "How long a request is waited for, and its response [default: 30]",
        ),
    );
    let command = with(
        command,
        option(
            alloc,
            "peers",
            "N",
            "How many connections are there at once; for one more the oldest idle one is closed \
             [default: 256]",
        ),
    );
    let command = with(
        command,
        repeated(
            alloc,
            "host",
            "NAME",
            "A name by which it is asked beside localhost and its address (may be given up to \
             eight times)",
        ),
    );
    let command = with(
        command,
        option(
            alloc,
            "from",
            "FIELD",
            "The field in which what stands in front says for which depositor it asks, as \
             X-Depositor",
        ),
    );
    let command = with(
        command,
        flag(
            alloc,
            "anyone",
            "Listens at an address that other machines reach: whoever reaches it may post",
        ),
    );
    let command = with(
        command,
        flag(
            alloc,
            "clerks",
            "Takes counts, picks and recounts too, and shows picking sheets, what is open and \
             who is enrolled, for commands with --server",
        ),
    );
    let command = with(
        command,
        option(
            alloc,
            "clerks-at",
            "ADDR",
            "An address or a socket beside that of --listen whose requests are taken as clerks' \
             are with --clerks, and want no --from",
        ),
    );
    with_at(alloc, command)
}
