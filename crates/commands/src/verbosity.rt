//! How much is told on standard error beside refusals and faults.
ghost use Rattle.std.specs.Prelude.{◌≡◌, false};

use std::io;

/// How much is told on standard error beside refusals and faults. What can't be told is left out:
/// it is no part of an answer.
#[derive(Clone, Copy)]
pub struct Verbosity {
    /// What a refusal or a fault is about, what is passed over, where a server listens and what
    /// became of each connection.
    pub explains: bool,
    /// How far long work is, over what was said of it before; for a terminal.
    pub watches: bool,
}

// At how many things more it is said how far work is.
const STRIDE: u64 = 100;

impl Verbosity {
    /// Nothing more.
    pub const QUIET: Verbosity = Verbosity {
        explains: false,
        watches: false,
    };

    /// Says how far work is, at each hundredth thing and at the last one; nothing where nobody
    /// watches.
    pub fn tell_progress<E: io::Write>(self, err: &mut E, done: u64, all: u64, things: &str)
        ensures { self.watches ≡ false → E.contents err.new ≡ E.contents err.old }
    {
        if self.watches && done == all {
            let _ = write!(err, "\r{done} of {all} {things}\n");
        } else if self.watches && done % STRIDE == 0 {
            let _ = write!(err, "\r{done} of {all} {things}");
        }
    }

    /// Ends the line that says how far work was when it stopped, so that a fault is told on a line
    /// of its own; nothing where nobody watches.
    pub fn end_progress<E: io::Write>(self, err: &mut E)
        ensures { self.watches ≡ false → E.contents err.new ≡ E.contents err.old }
    {
        if self.watches {
            let _ = err.write_all(b"\n");
        }
    }
}
