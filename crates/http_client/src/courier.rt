//! What carries requests to a server.
use crate::remote::{Request, ServerAnswer, Unanswered, call};
use command_line::Endpoint;
use std::time::Duration;

/// What carries a request to a server, and brings its answer.
pub trait Courier {
    ghost use Rattle.std.specs.Prelude.{ℕ, ⊤, List, IfOk, IfErr};
    ghost use Rattle.http_client.specs.declared.remote.answers.ServerAnswer.{ServerAnswer};
    ghost use Rattle.http_client.specs.declared.remote.requests.Verb.{Verb};

    // Relates what it is, the verb, the path and the body of a request, its answer, and what it is
    // then. Of a network nothing is said.
    ghost brings: { Self → Verb → List ℕ → List ℕ → ServerAnswer
        → Self → Type 0 } = { λ _ _ _ _ _ _. ⊤ };

    // Relates what it is, the verb, the path and the body of a request to which it brings no
    // answer, and what it is then.
    ghost loses: { Self → Verb → List ℕ → List ℕ → Self → Type 0 } = { λ _ _ _ _ _. ⊤ };

    /// The answer to a request. Device where none comes: what was asked for may be done all the
    /// same.
    fn carry(&mut self, request: &Request<'_>) -> Result<ServerAnswer, Unanswered>
        ensures brought { IfOk result
            (λ answer. brings self.old request.now.verb request.now.path.now request.now.body.now
            answer self.new) }
        ensures lost { IfErr result
            (λ _. loses self.old request.now.verb request.now.path.now request.now.body.now
            self.new) };
}

// How many seconds a server is waited for, in each call. It may have another's large interchange in
// hand.
const PATIENCE: u64 = 60;

/// A connection to a server for each request, of which each call waits 60 seconds at most.
#[derive(Drop)]
pub struct Network<'a> {
    rt: &'a HostRuntime,
    server: Endpoint<'a>,
}

impl<'a> Network<'a> {
    /// Connections to the server that listens there.
    pub fn new(rt: &'a HostRuntime, server: Endpoint<'a>) -> Network<'a> {
        Network { rt, server }
    }
}

impl Courier for Network<'_> {
    fn carry(&mut self, request: &Request<'_>) -> Result<ServerAnswer, Unanswered> {
        call(
            self.rt,
            &self.server,
            request,
            Duration::from_secs(PATIENCE),
        )
    }
}
