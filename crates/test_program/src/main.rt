//! Tests of the program's lines: stories over a book in memory and over one in its file, a book
//! that is served, and usage. They are a program, which plays one after the other: it prints a
//! sentence for each that held, and stops at the first that didn't, which it tells on standard
//! error. So all of them are proved and linked once, and both compilers' builds run them.
//!
//! What is played stands in texts, in the files of `data/`.
#![tactic(auto)]

mod asked;
mod asking;
mod carried;
mod changes;
mod inboxes;
mod laying;
mod left;
mod on_disk;
mod playing;
mod plays;
mod ran;
mod served;
mod serving;
mod telling;
mod texts;
mod usage;
mod version1;

use std::test::Fail;

fn main(rt: HostRuntime) -> Result<(), Fail> {
    plays::all(&rt)?;
    asked::all(&rt)?;
    asking::all(&rt)?;
    carried::all(&rt)?;
    changes::all(&rt)?;
    inboxes::all(&rt)?;
    on_disk::all(&rt)?;
    left::all(&rt)?;
    served::all(&rt)?;
    usage::all(&rt)
}
