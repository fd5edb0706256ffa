//! What is told of a text that is asked for and never went out.
use std::io;

/// Says that nothing went out to a depositor under a number. What can't be told is left out: the
/// status says that nothing was shown.
pub(crate) fn tell_missing<E: io::Write>(err: &mut E, who: &[u8], number: u32) {
    let who = who.escape_ascii();
    let _ = write!(err, "nothing went out to {who} under number {number}\n");
}
