//! The lines that tell what became of a file, and what was passed over.
ghost use Rattle.std.specs.Prelude.{◌≡◌, OnOk, string_bytes};
ghost use Rattle.std.specs.Io.KnownBytes.{Appends};
ghost use Rattle.definitions.specs.declared.refusals.Refusal.TheVariants.{Note};
ghost use Rattle.folders.specs.Folders.{became_of};
ghost use Rattle.folders.specs.Lines.{became_text, passed_line, refused_text, taken_line, told_entry};

use crate::folder::{FileOutcome, Taken};
use crate::passing::PassedOver;
use crate::told_names::write_name;
use definitions::{NOTE_DIGITS, zero_filled};
use itoa::Buffer;
use std::io;
use store::Refusal;

// Writes what a note is told as.
fn write_note<W: io::Write>(out: &mut W, code: u8) -> io::Result<()>
    ensures { OnOk result (Appends (W.contents out.old) (W.contents out.new)
        (refused_text (Note code))) }
{
    out.write_all(b"refused ")?;
    out.write_all(&zero_filled::<NOTE_DIGITS>(u64::from(code)))
}

// Writes what a refusal is told as.
fn write_refused<W: io::Write>(out: &mut W, refusal: Refusal) -> io::Result<()>
    ensures { OnOk result
        (Appends (W.contents out.old) (W.contents out.new) (refused_text refusal)) }
{
    match refusal {
        Refusal::Unreadable => out.write_all(b"unreadable"),
        Refusal::Duplicate => out.write_all(b"refused 025"),
        Refusal::Note(code) => write_note(out, code),
        other => {
            let mut number = Buffer::new();
            out.write_all(b"refused ")?;
            out.write_all(number.format(other.number()).as_bytes())
        }
    }
}

// Writes what became of a file.
fn write_outcome<W: io::Write>(out: &mut W, outcome: FileOutcome) -> io::Result<()>
    ensures { OnOk result
        (Appends (W.contents out.old) (W.contents out.new) (became_text (became_of outcome))) }
{
    match outcome {
        FileOutcome::Accepted => out.write_all(b"accepted"),
        FileOutcome::Stored => out.write_all(b"stored"),
        FileOutcome::Refused(refusal) => write_refused(out, refusal),
    }
}

impl Taken {
    /// Writes the line that tells of it, as `a.x12 accepted`, `a.x12 stored`, `a.x12 refused 025`,
    /// with the three digits of a note's code or the number of another refusal, or `a.x12
    /// unreadable`, with LF at its end. The name is told as `write_name` does. The one error is the
    /// writer's.
    pub fn write_line<W: io::Write>(&self, out: &mut W) -> io::Result<()>
        ensures { OnOk result (Appends (W.contents out.old) (W.contents out.new)
            (taken_line (string_bytes self.now.name) (became_of self.now.outcome))) }
    {
        write_name(out, &self.name)?;
        out.write_all(b" ")?;
        write_outcome(out, self.outcome)?;
        out.write_all(b"\n")
    }
}

// Writes the name of an entry that was passed over, as `write_name` does.
fn write_entry<W: io::Write>(out: &mut W, name: &Option<String>) -> io::Result<()>
    ensures { OnOk result
        (Appends (W.contents out.old) (W.contents out.new) (told_entry name.now)) }
{
    match name {
        Some(name) => write_name(out, name),
        None => out.write_all(b"an entry"),
    }
}

impl PassedOver {
    /// Writes the line that tells of it, as `old.x12 passed over: no regular file`, with LF at its
    /// end; without a name it is told as `an entry`. The name is told as `write_name` does. The one
    /// error is the writer's.
    pub fn write_line<W: io::Write>(&self, out: &mut W) -> io::Result<()>
        ensures { OnOk result
            (Appends (W.contents out.old) (W.contents out.new) (passed_line self.now)) }
    {
        write_entry(out, &self.name)?;
        out.write_all(b" passed over: ")?;
        out.write_all(self.why.text().as_bytes())?;
        out.write_all(b"\n")
    }
}
