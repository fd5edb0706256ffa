//! What a command with `--server` asks of a server, where why it was refused is asked too.
//!
//! In `data/asked/why.sections` stand the responses of a server that refuses each deed (`posted`)
//! and shows its stock (`got`), and what is told then.
use crate::ran::{Ran, Wanted};
use crate::telling::{hold, tell};
use crate::texts::text_of;
use case_files::clerks::response_of;
use case_files::sections::section_of;
use command_line::{ClerkWords, Endpoint};
use commands::{CommandError, ExitStatus};
use http_client::remote::{Request, ServerAnswer, Unanswered, Verb, read_answer};
use http_client::{Courier, Errand, Listening, carry_out, tell_reason_there};
use std::alloc::Global;
use std::test::Fail;
use store::SheetKind;

// A server that gives the one response where something is handed in, and the other where something
// is asked for. It counts what was handed in.
#[derive(Drop)]
struct Refusing<'a> {
    alloc: Global,
    posted: &'a str,
    got: &'a str,
    posts: &'a mut u32,
}

impl Courier for Refusing<'_> {
    fn carry(&mut self, request: &Request<'_>) -> Result<ServerAnswer, Unanswered> {
        let mut response = match request.verb {
            Verb::Get => self.got.as_bytes(),
            Verb::Post => {
                *self.posts = self.posts.saturating_add(1);
                self.posted.as_bytes()
            }
        };
        read_answer(self.alloc, &mut response)
    }
}

const RECOUNT: ClerkWords<'static> = ClerkWords {
    kind: SheetKind::Recount,
    who: "ZZ-ACME",
    ticket: "R-1",
    number: "",
    sheet: "less.csv",
};

// Has a server do what a clerk did, and tells why it is refused.
fn explain<C: Courier + Drop>(
    alloc: Global,
    courier: C,
    out: &mut Vec<u8>,
    err: &mut Vec<u8>,
) -> Result<ExitStatus, Fail> {
    let server = Endpoint::Inet("127.0.0.1:1".parse()?);
    let errand = Errand::Deed(RECOUNT, b"BOLT,L1,4\n".to_vec(alloc)?);
    let mut courier = Listening::new(courier);
    match carry_out(alloc, &mut courier, &server, &errand, out, err) {
        Ok(status) => match tell_reason_there(alloc, &mut courier, &server, &errand, err) {
            Ok(()) => Ok(status),
            Err(_) => Err("no reason".into()),
        },
        Err(_) => Err("no answer".into()),
    }
}

// Why a deed was refused is told, and the deed is asked for once.
fn why_a_deed_is_refused_is_asked_without_another(rt: &HostRuntime) -> Result<(), Fail> {
    let case = text_of(rt, "asked/why.sections")?;
    let posted = response_of(rt.alloc(), section_of(&case, "posted").1)?;
    let got = response_of(rt.alloc(), section_of(&case, "got").1)?;
    let (mut out, mut err, mut posts) = (Vec::new(rt.alloc()), Vec::new(rt.alloc()), 0);
    let server = Refusing {
        alloc: rt.alloc(),
        posted: &posted,
        got: &got,
        posts: &mut posts,
    };
    let status = explain(rt.alloc(), server, &mut out, &mut err)?;
    let wanted = Wanted {
        printed: "",
        told: section_of(&case, "told").1,
        status: 1,
    };
    Ran::new(rt, status.code(), &out, &err)?.compare("why", &wanted)?;
    hold(posts == 1, "the deed is handed in once")
}

/// Plays it.
pub(crate) fn all(rt: &HostRuntime) -> Result<(), Fail> {
    tell(
        rt,
        "why a deed is refused is asked without another",
        why_a_deed_is_refused_is_asked_without_another(rt),
    )
}
