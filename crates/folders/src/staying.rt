//! Interchanges that stay where they are, since they can't be moved.
ghost use Rattle.std.specs.Prelude.{◌≡◌, OnOk};
ghost use Rattle.std.specs.Io.KnownBytes.{Appends};
ghost use Rattle.std.specs.IoError.{error_kind};
ghost use Rattle.folders.specs.Claims as meant;
ghost use Rattle.folders.specs.Lines.{staying_line};

use crate::told_names::write_name;
use std::io;

/// Why an interchange stays in its folder.
#[derive(Clone, Copy, PartialEq, Eq)]
pub enum WhyStays {
    /// Under its name a file stands in the other folder, left by a run that stopped. It is for the
    /// next run.
    NameStands,
    /// It is a symbolic link, which may lead nowhere from another folder.
    Link,
    /// It is no regular file any more.
    NoFile,
    /// The other folder is on another file system.
    OtherFileSystem,
    /// The system gives no right to move it.
    NoRight,
    /// The system doesn't move it, for another reason.
    Failed,
}

impl WhyStays {
    /// The reason, as `it is a symbolic link`.
    pub fn text(self) -> &'static str
        ensures { result.now ≡ meant.reason_text self }
    {
        match self {
            WhyStays::NameStands => "an earlier file of its name isn't taken yet",
            WhyStays::Link => "it is a symbolic link",
            WhyStays::NoFile => "no regular file",
            WhyStays::OtherFileSystem => "the other folder is on another file system",
            WhyStays::NoRight => "there is no right to move it",
            WhyStays::Failed => "it can't be moved",
        }
    }
}

/// An interchange that stays in its folder.
#[derive(Drop)]
pub struct Staying {
    /// Its name.
    pub name: String,
    /// Why it stays.
    pub why: WhyStays,
}

impl Staying {
    /// Writes the line that tells of it, as `a.x12 stays: it is a symbolic link`, with LF at its
    /// end. The name is told as `write_name` does. The one error is the writer's.
    pub fn write_line<W: io::Write>(&self, out: &mut W) -> io::Result<()>
        ensures { OnOk result
            (Appends (W.contents out.old) (W.contents out.new) (staying_line self.now)) }
    {
        write_name(out, &self.name)?;
        out.write_all(b" stays: ")?;
        out.write_all(self.why.text().as_bytes())?;
        out.write_all(b"\n")
    }
}

// Why a file stays after an error.
pub(crate) fn why_of(error: &io::Error) -> WhyStays
    ensures { result ≡ meant.why_of_kind (error_kind error.now) }
{
    match error.kind() {
        io::ErrorKind::CrossesDevices => WhyStays::OtherFileSystem,
        io::ErrorKind::PermissionDenied => WhyStays::NoRight,
        _ => WhyStays::Failed,
    }
}
