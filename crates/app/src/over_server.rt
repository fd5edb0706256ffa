//! What a line says, done by a running server.
ghost use Rattle.std.specs.Prelude.{IfErr, IfOk};
ghost use Rattle.http_client.specs.Carried.{IsCarriedByAny, IsHaltedByAny};
ghost use Rattle.http_client.specs.HandedOn.{IsHandedOnByAny};
ghost use Rattle.app.specs.Asking.{IsHandingAsked, IsServerAsked};

use crate::missing_texts::tell_missing;
use command_line::{Endpoint, Show, Task};
use commands::{CommandError, ExitStatus, LineStop, Printer, Verbosity, tell_unready};
use http_client::{
    Courier, Errand, HandOn, Listening, Network, carry_out, errand_of, hand_on_there,
    tell_reason_there,
};
use std::alloc::Global;
use store::{Refusal, Who};

// Hands on the documents that a running server has of a depositor. Of what brings the answers, and
// of the folder, nothing is said.
fn hand_on_by<C: Courier, W: Printer, E: Printer>(
    rt: &HostRuntime,
    courier: &mut C,
    asked: HandOn<'_>,
    out: &mut W,
    err: &mut E,
) -> Result<ExitStatus, CommandError>
    ensures { IfOk result
        (IsHandedOnByAny asked.entry (W.contents out.old) (W.contents out.new)) }
{
    hand_on_there(rt, courier, asked, out, err)
}

// The same, of a server that is called; a depositor's word that can't be read is refused before.
fn hand_on_from<W: Printer, E: Printer>(
    rt: &HostRuntime,
    task: &Task<'_>,
    asked: HandOn<'_>,
    verbosity: Verbosity,
    out: &mut W,
    err: &mut E,
) -> Result<ExitStatus, CommandError>
    ensures { IsHandingAsked W.contents asked.entry out.old out.new result }
{
    if Who::new(asked.who.as_bytes()).is_none() {
        return tell_unready(rt, task, Refusal::BadText, verbosity, err);
    }
    let mut courier = Network::new(rt, asked.server);
    hand_on_by(rt, &mut courier, asked, out, err)
}

// Tells why a server refused an errand. What can't be told is left out: the refusal stands.
fn explain_refusal<C: Courier, E: Printer>(
    alloc: Global,
    courier: &mut Listening<C>,
    server: &Endpoint<'_>,
    errand: &Errand<'_>,
    err: &mut E,
) {
    let _ = tell_reason_there(alloc, courier, server, errand, err);
    if let Errand::Look(
        Show::Outbox {
            who,
            number: Some(number),
        },
    ) = errand
    {
        tell_missing(err, who.as_bytes(), *number);
    }
}

// Carries an errand out. Of what brings the answers nothing is said.
fn carry_by<C: Courier, W: Printer, E: Printer>(
    alloc: Global,
    courier: &mut C,
    server: &Endpoint<'_>,
    errand: &Errand<'_>,
    out: &mut W,
    err: &mut E,
) -> Result<ExitStatus, CommandError>
    ensures carried { IfOk result (λ status. IsCarriedByAny (W.contents out.old)
        (W.contents out.new) status errand.now) }
    ensures halted { IfErr result (λ stop. IsHaltedByAny stop errand.now) }
{
    carry_out(alloc, courier, server, errand, out, err)
}

// Carries an errand out, and prints what comes of it.
fn carry<W: Printer, E: Printer>(
    rt: &HostRuntime,
    server: &Endpoint<'_>,
    errand: &Errand<'_>,
    verbosity: Verbosity,
    out: &mut W,
    err: &mut E,
) -> Result<ExitStatus, CommandError>
    ensures carried { IfOk result (λ status. IsCarriedByAny (W.contents out.old)
        (W.contents out.new) status errand.now) }
    ensures halted { IfErr result (λ stop. IsHaltedByAny stop errand.now) }
{
    let (alloc, mut courier) = (rt.alloc(), Listening::new(Network::new(rt, *server)));
    let status = carry_by(alloc, &mut courier, server, errand, out, err)?;
    if verbosity.explains && status == ExitStatus::Refused {
        explain_refusal(alloc, &mut courier, server, errand, err);
    }
    Ok(status)
}

/// Has a running server do what a line says, and prints what it prints over the book in its file.
/// Words are tested and files read before the server is asked.
pub fn run_over_server<W: Printer, E: Printer>(
    rt: &HostRuntime,
    server: &Endpoint<'_>,
    task: &Task<'_>,
    verbosity: Verbosity,
    out: &mut W,
    err: &mut E,
) -> Result<ExitStatus, CommandError>
    ensures { IsServerAsked W.contents task.now out.old out.new result }
{
    if let Task::HandOn { who, dir } = task {
        let asked = HandOn {
            server: *server,
            who: *who,
            dir: *dir,
        };
        return hand_on_from(rt, task, asked, verbosity, out, err);
    }
    match errand_of(rt, task) {
        Ok(errand) => carry(rt, server, &errand, verbosity, out, err),
        Err(LineStop::Refused(refusal)) => tell_unready(rt, task, refusal, verbosity, err),
        Err(LineStop::Stopped(stop)) => Err(stop),
    }
}
