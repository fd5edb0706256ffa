//! The program: one line of words, over a book in a file or as a script.
#![tactic(auto)]

use app::program;
use counted_io::Gauge;
use std::process::ExitCode;

fn main(rt: HostRuntime) -> ExitCode {
    let (mut out, mut err) = (Gauge::new(rt.stdout()), Gauge::new(rt.stderr()));
    ExitCode::from(program(&rt, &mut out, &mut err))
}
