//! A running server asked, and its answer told.
ghost use Rattle.std.specs.Prelude.{◌≡◌, [], ◌∷◌, codes, IfOk, IfErr, None, Some};
ghost use Rattle.commands.specs.Stops.{HasDeviceFault, fault_in};
ghost use Rattle.http_client.specs.Heard.{stop_of, heard_query as query_of};
ghost use Rattle.http_client.specs.Carried.{AsksAtMostOnce, IsCarried, IsTextShown, IsHaltedAt, IsHaltedAfter, IsShowHalted, IsCarryHalted, IsExported, IsPosted, IsReported, IsShowDone};
ghost use Rattle.http_client.specs.Paths.{look_path as path_for, path_text};

use crate::answers::{HeardAs, heard, heard_query};
use crate::courier::Courier;
use crate::errand::Errand;
use crate::paths::{deed_path, look_path, try_path};
use crate::remote::{Request, ServerAnswer, Unanswered, Verb};
use crate::telling::{tell_document, tell_report};
use command_line::{Endpoint, Show};
use commands::{CommandError, ExitStatus, Printer, about_server, tell_tried};
use intake::Audience;
use std::alloc::Global;
use store::Fault;

// Asks a server.
fn ask_server<C: Courier>(
    alloc: Global,
    courier: &mut C,
    server: &Endpoint<'_>,
    request: &Request<'_>,
) -> Result<ServerAnswer, CommandError>
    ensures brought { IfOk result
        (λ answer. C.brings courier.old request.now.verb request.now.path.now request.now.body.now
        answer courier.new) }
    ensures lost { IfErr result (λ stop. C.loses courier.old request.now.verb request.now.path.now
        request.now.body.now courier.new × HasDeviceFault stop) }
{
    match courier.carry(request) {
        Ok(answer) => Ok(answer),
        Err(Unanswered::OutOfMemory) => Err(CommandError::Fault(Fault::OutOfMemory)),
        Err(Unanswered::Device) => Err(about_server(
            alloc,
            server,
            Fault::Device,
            " gives no answer: is a server running there? What was asked may yet be done: give it again",
        )),
    }
}

/// The fault that an answer tells, with what is said of it; Device (44) of an answer that no such
/// server gives.
pub(crate) fn about_server_stop(alloc: Global, server: &Endpoint<'_>, fault: Fault) -> CommandError
    ensures { fault_in result ≡ Some fault }
{
    let said = match fault {
        Fault::Device => " gives another answer: is it whx12, started with --clerks?",
        Fault::Reopen => ": its book has to be opened again, so it ends; start it again",
        Fault::NotThisBook => ": its book is damaged, see docs/OPERATIONS.md on backups",
        _ => ": its book couldn't be read or written",
    };
    about_server(alloc, server, fault, said)
}

// Posts a body, and tells the answer.
fn post<C: Courier, W: Printer, E: Printer>(
    alloc: Global,
    courier: &mut C,
    server: &Endpoint<'_>,
    path: &str,
    body: &[u8],
    out: &mut W,
    err: &mut E,
) -> Result<ExitStatus, CommandError>
    ensures told { IfOk result (λ status. IsPosted C.brings courier.old courier.new
        (W.contents out.old) (W.contents out.new) status path.now body.now) }
    ensures halted { IfErr result (λ stop. IsHaltedAt C.brings C.loses stop courier.old courier.new
        Verb.Post path.now body.now) }
{
    let request = Request {
        verb: Verb::Post,
        path,
        body,
    };
    let answer = ask_server(alloc, courier, server, &request)?;
    match heard(answer.status, answer.is_interchange, &answer.body) {
        HeardAs::Stopped(fault) => Err(about_server_stop(alloc, server, fault)),
        _ => tell_document(alloc, &answer, out, err),
    }
}

// Posts a body that is to be tried, tells the answer, and that nothing was done.
fn try_post<C: Courier, W: Printer, E: Printer>(
    alloc: Global,
    courier: &mut C,
    server: &Endpoint<'_>,
    path: &str,
    body: &[u8],
    out: &mut W,
    err: &mut E,
) -> Result<ExitStatus, CommandError>
    ensures told { IfOk result (λ status. IsPosted C.brings courier.old courier.new
        (W.contents out.old) (W.contents out.new) status path.now body.now) }
    ensures halted { IfErr result (λ stop. IsHaltedAt C.brings C.loses stop courier.old courier.new
        Verb.Post path.now body.now) }
{
    let status = post(alloc, courier, server, path, body, out, err)?;
    tell_tried(err)?;
    Ok(status)
}

/// The answer to a query, whatever it is.
pub(crate) fn get_any<C: Courier>(
    alloc: Global,
    courier: &mut C,
    server: &Endpoint<'_>,
    show: &Show<'_>,
) -> Result<ServerAnswer, CommandError>
    ensures brought { IfOk result
        (λ answer. C.brings courier.old Verb.Get (path_for show.now) [] answer courier.new) }
    ensures halted { IfErr result (λ stop. IsHaltedAt C.brings C.loses stop courier.old courier.new
        Verb.Get (path_for show.now) []) }
    ensures asks { AsksAtMostOnce C.brings C.loses courier.old courier.new }
    ensures device { IfErr result HasDeviceFault }
{
    let path = look_path(alloc, show)?;
    let request = Request {
        verb: Verb::Get,
        path: path.as_str(),
        body: &[],
    };
    ask_server(alloc, courier, server, &request)
}

/// The answer to a query of what these are shown, where it is one.
pub(crate) fn get<C: Courier>(
    alloc: Global,
    courier: &mut C,
    server: &Endpoint<'_>,
    shown: Audience,
    show: &Show<'_>,
) -> Result<ServerAnswer, CommandError>
    ensures brought { IfOk result
        (λ answer. C.brings courier.old Verb.Get (path_for show.now) [] answer courier.new) }
    ensures halted { IfErr result (λ stop. IsHaltedAt C.brings C.loses stop courier.old courier.new
        Verb.Get (path_for show.now) []) }
    ensures heard { IfOk result (λ answer. stop_of (query_of shown answer.status
        answer.is_interchange answer.body.items) ≡ None) }
{
    let answer = get_any(alloc, courier, server, show)?;
    match heard_query(shown, answer.status, answer.is_interchange, &answer.body) {
        HeardAs::Stopped(fault) => Err(about_server_stop(alloc, server, fault)),
        _ => Ok(answer),
    }
}

/// The answer to a query for a text that went out, where it is one, or 404.
pub(crate) fn get_text<C: Courier>(
    alloc: Global,
    courier: &mut C,
    server: &Endpoint<'_>,
    show: &Show<'_>,
) -> Result<ServerAnswer, CommandError>
    ensures brought { IfOk result
        (λ answer. C.brings courier.old Verb.Get (path_for show.now) [] answer courier.new) }
    ensures halted { IfErr result (λ stop. IsHaltedAt C.brings C.loses stop courier.old courier.new
        Verb.Get (path_for show.now) []) }
{
    let answer = get_any(alloc, courier, server, show)?;
    match heard(answer.status, answer.is_interchange, &answer.body) {
        HeardAs::Stopped(fault) if answer.status != 404 => {
            Err(about_server_stop(alloc, server, fault))
        }
        _ => Ok(answer),
    }
}

// Asks for what these are shown, and tells it.
fn report<C: Courier, W: Printer, E: Printer>(
    alloc: Global,
    courier: &mut C,
    server: &Endpoint<'_>,
    shown: Audience,
    show: &Show<'_>,
    out: &mut W,
    err: &mut E,
) -> Result<ExitStatus, CommandError>
    ensures told { IfOk result
        (λ status. IsReported C.brings courier.old courier.new (W.contents out.old)
        (W.contents out.new) status shown show.now) }
    ensures halted { IfErr result (λ stop. IsHaltedAt C.brings C.loses stop courier.old courier.new
        Verb.Get (path_for show.now) []) }
{
    let answer = get(alloc, courier, server, shown, show)?;
    tell_report(alloc, shown, &answer, out, err)
}

// Asks for the stock as CSV, and tells it. A server without `--clerks` says 404 of every depositor
// there, so the stock itself tells whether this one is unknown.
fn export<C: Courier, W: Printer, E: Printer>(
    alloc: Global,
    courier: &mut C,
    server: &Endpoint<'_>,
    who: &str,
    show: &Show<'_>,
    out: &mut W,
    err: &mut E,
) -> Result<ExitStatus, CommandError>
    ensures told { IfOk result
        (λ status. IsExported C.brings courier.old courier.new (W.contents out.old)
        (W.contents out.new) status show.now who.now) }
    ensures halted { IfErr result (λ stop. IsHaltedAfter C.brings C.loses stop courier.old
        courier.new (path_for show.now) (path_text (codes "stock" ∷ who.now ∷ []))) }
{
    let partners = Audience::Partners;
    let answer = get(alloc, courier, server, partners, show)?;
    if answer.status != 404 {
        return tell_report(alloc, partners, &answer, out, err);
    }
    let rows = Show::Stock { who, is_csv: false };
    let stock = get(alloc, courier, server, partners, &rows)?;
    if stock.status == 200 {
        return Err(about_server_stop(alloc, server, Fault::Device));
    }
    tell_report(alloc, partners, &answer, out, err)
}

// Asks for a text that went out, and tells it. A server says 404 of a number without a text and of
// a stranger alike, so the list of what went out tells which it is: a stranger is refused, and of a
// missing text only the status tells.
fn content<C: Courier, W: Printer, E: Printer>(
    alloc: Global,
    courier: &mut C,
    server: &Endpoint<'_>,
    who: &str,
    show: &Show<'_>,
    out: &mut W,
    err: &mut E,
) -> Result<ExitStatus, CommandError>
    ensures told { IfOk result (λ status. IsTextShown C.brings courier.old courier.new
        (W.contents out.old) (W.contents out.new) status show.now who.now) }
    ensures halted { IfErr result (λ stop. IsHaltedAfter C.brings C.loses stop courier.old
        courier.new (path_for show.now) (path_text (codes "outbox" ∷ who.now ∷ []))) }
{
    let answer = get_text(alloc, courier, server, show)?;
    if answer.status != 404 {
        return tell_document(alloc, &answer, out, err);
    }
    let partners = Audience::Partners;
    let texts = Show::Outbox { who, number: None };
    let list = get(alloc, courier, server, partners, &texts)?;
    match heard_query(partners, list.status, list.is_interchange, &list.body) {
        HeardAs::Done => Ok(ExitStatus::Refused),
        _ => tell_report(alloc, partners, &list, out, err),
    }
}

// Has a running server show something.
fn look<C: Courier, W: Printer, E: Printer>(
    alloc: Global,
    courier: &mut C,
    server: &Endpoint<'_>,
    show: &Show<'_>,
    out: &mut W,
    err: &mut E,
) -> Result<ExitStatus, CommandError>
    ensures told { IfOk result (λ status. IsShowDone C.brings courier.old courier.new
        (W.contents out.old) (W.contents out.new) status show.now) }
    ensures halted { IfErr result (λ stop. IsShowHalted C.brings C.loses stop courier.old
        courier.new show.now) }
{
    match show {
        Show::Outbox { who, number } => match number {
            Some(_) => content(alloc, courier, server, *who, show, out, err),
            None => report(alloc, courier, server, Audience::Partners, show, out, err),
        },
        Show::Stock { who, is_csv } => {
            if *is_csv {
                export(alloc, courier, server, *who, show, out, err)
            } else {
                report(alloc, courier, server, Audience::Partners, show, out, err)
            }
        }
        Show::Open { .. } | Show::Advice { .. } | Show::Order { .. } | Show::Depositors => {
            report(alloc, courier, server, Audience::Clerks, show, out, err)
        }
    }
}

/// Has a running server do what it is asked for, and prints what a command over the book in its
/// file prints. Device (44) where no answer is brought, or where the answer is none that such a
/// server gives; else a fault is the one that the server tells. Where the answer to a command is
/// lost on the way, the command may be done: given again, it gets its first answer.
pub fn carry_out<C: Courier, W: Printer, E: Printer>(
    alloc: Global,
    courier: &mut C,
    server: &Endpoint<'_>,
    errand: &Errand<'_>,
    out: &mut W,
    err: &mut E,
) -> Result<ExitStatus, CommandError>
    ensures carried { IfOk result
        (λ status. IsCarried C.brings courier.old courier.new (W.contents out.old)
        (W.contents out.new) status errand.now) }
    ensures halted { IfErr result (λ stop. IsCarryHalted C.brings C.loses stop courier.old
        courier.new errand.now) }
{
    match errand {
        Errand::Send(bytes) => post(alloc, courier, server, "/x12", bytes, out, err),
        Errand::Deed(words, sheet) => {
            let path = deed_path(alloc, words)?;
            post(alloc, courier, server, path.as_str(), sheet, out, err)
        }
        Errand::TrySend(bytes) => try_post(alloc, courier, server, "/try/x12", bytes, out, err),
        Errand::TryDeed(words, sheet) => {
            let path = try_path(alloc, words)?;
            try_post(alloc, courier, server, path.as_str(), sheet, out, err)
        }
        Errand::Look(show) => look(alloc, courier, server, show, out, err),
    }
}
