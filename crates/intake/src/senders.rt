//! What a request is answered, and who sent the interchange that it hands in.
ghost use Rattle.std.specs.Prelude.{◌≡◌, ℕ, List, None, Ok};
ghost use Rattle.definitions.specs.Register.{Interchange};
ghost use Rattle.definitions.specs.Accepted.{depositor_of};
ghost use Rattle.store.specs.Asked.{asked};
ghost use Rattle.intake.specs.Answers.{seen};
ghost use Rattle.intake.specs.Fields.{seen_method};
ghost use Rattle.intake.specs.Lines.{sender_in};
ghost use Rattle.intake.specs.Reaching.{sent_for};
ghost use Rattle.intake.specs.Serving.{IsAskedServed};
ghost use Rattle.intake.specs.Targets.{command_with, interchange_with, seen_target, target_command};

use crate::heading::MethodKind;
use crate::response::{Response, Status, bare_response};
use crate::targets::{Target, hands_in, has_interchange, respond_to};
use request_guard::{Asker, may_send};
use std::alloc::Global;
use store::{Command, Keeper, Moment, Who, subject};

/// What a request is answered.
#[derive(Drop)]
pub(crate) struct Replied {
    /// The response.
    pub(crate) response: Response,
    /// The depositor of the interchange that was handed in, if one was and names one.
    pub(crate) sender: Option<Who>,
}

/// A response where no interchange was handed in.
pub(crate) fn unsent(response: Response) -> Replied
    ensures response { result.response ≡ response }
    ensures sender { result.sender ≡ None }
{
    Replied {
        response,
        sender: None,
    }
}

// The depositor that a command names.
fn named_in(command: &Command<'_>) -> Option<Who>
    ensures { result ≡ depositor_of (asked command.now) }
{
    let Some(named) = subject(command) else {
        return None;
    };
    Some(named.0)
}

// The depositor of the interchange that comes with a request, if one does and names one.
fn sender_of(method: MethodKind, target: &Target<'_>, command: &Command<'_>) -> Option<Who>
    ensures { (body : List ℕ) → asked command.now ≡ Interchange body → result
        ≡ sender_in (interchange_with (seen_method method) (seen_target target.now) body) }
{
    if !has_interchange(method, target) {
        return None;
    }
    named_in(command)
}

// The sender that is told of a request: of an interchange that is tried out nobody is.
fn told_sender(method: MethodKind, target: &Target<'_>, sender: Option<Who>) -> Option<Who>
    ensures { (body : List ℕ)
        → sender ≡ sender_in (interchange_with (seen_method method) (seen_target target.now) body)
        → result ≡ sender_in (target_command (seen_method method) (seen_target target.now) body) }
{
    if !hands_in(method, target) {
        return None;
    }
    sender
}

/// Answers a request with this body whose target is found, and may be asked for; where its
/// interchange may not be handed in, or tried out, for whom it is asked, it is 403. A fault inside
/// is answered 503, and is told in the response alone.
pub(crate) fn answer_at<K: Keeper>(
    alloc: Global,
    keeper: &mut K,
    asker: &Asker,
    method: MethodKind,
    target: &Target<'_>,
    body: &[u8],
    moment: Moment,
) -> Replied
    ensures served { let to = seen_target target.now in
        IsAskedServed (K.standing keeper.old) (K.standing keeper.new) moment (seen_method method) to
        (sent_for asker.now (seen_method method) to (Ok body.now)) (seen result.response) }
    ensures sender { let to = seen_target target.now in
        result.sender ≡ sender_in (command_with (seen_method method) to
        (sent_for asker.now (seen_method method) to (Ok body.now))) }
{
    let sender = sender_of(method, target, &Command::Interchange(body));
    if !may_send(asker, &sender) {
        return unsent(bare_response(Status::Forbidden));
    }
    let response = respond_to(alloc, keeper, method, target, body, moment);
    Replied {
        response,
        sender: told_sender(method, target, sender),
    }
}
