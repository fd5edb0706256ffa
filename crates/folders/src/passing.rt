//! Entries of a folder that are passed over.
ghost use Rattle.std.specs.Prelude.{◌≡◌};
ghost use Rattle.folders.specs.Passing as meant;

/// Why an entry that may be meant as an interchange isn't handed in.
#[derive(Clone, Copy, PartialEq, Eq)]
pub enum WhyPassed {
    /// It is a folder, a pipe, a socket, a device, or a link that leads to no regular file.
    NoFile,
    /// Its name isn't UTF-8. Paths are text here, so it can't be opened, and its name can't be
    /// told.
    NoText,
    /// Its name has more than 251 bytes, so that there is no room for `.ans` after it.
    LongName,
}

impl WhyPassed {
    /// The reason, as `no regular file`.
    pub fn text(self) -> &'static str
        ensures { result.now ≡ meant.reason_text self }
    {
        match self {
            WhyPassed::NoFile => "no regular file",
            WhyPassed::NoText => "its name isn't UTF-8",
            WhyPassed::LongName => "its name has more than 251 bytes",
        }
    }
}

/// An entry that may be meant as an interchange, and is passed over.
#[derive(Drop)]
pub struct PassedOver {
    /// Its name in the folder; None where that isn't UTF-8.
    pub name: Option<String>,
    /// Why it isn't handed in.
    pub why: WhyPassed,
}

/// The most bytes of a name to which `.ans` can be added: a name in a folder has 255 at most.
pub(crate) const MOST_FILE_NAME: usize = 251;

// Whether a name is that of an interchange: it ends `.x12` or `.X12`.
pub(crate) fn is_interchange(name: &str) -> bool
    ensures { result ≡ meant.is_interchange name.now }
{
    name.as_bytes().ends_with(b".x12") || name.as_bytes().ends_with(b".X12")
}

// Why an interchange of this name isn't handed in, if it isn't.
pub(crate) fn why_passed(name: &str, is_file: bool) -> Option<WhyPassed>
    ensures { result ≡ meant.why_passed name.now is_file }
{
    if name.len() > MOST_FILE_NAME {
        Some(WhyPassed::LongName)
    } else if is_file {
        None
    } else {
        Some(WhyPassed::NoFile)
    }
}
