ghost use Rattle.std.specs.Prelude.{◌≡◌};

use crate::cutting::Cut;
use crate::delims::Delims;

/// The cut of a text into its segments, an iterator over them. It takes no memory: each segment is
/// a slice of the text.
pub fn cut(text: &[u8], delims: Delims) -> Cut<'_>
    ensures { result ≡ record { delims = delims; text = text.now } }
{
    Cut { text, delims }
}

impl<'a> Cut<'a> {
    /// What isn't cut yet; after the last segment the rest, which no terminator ends.
    pub fn rest(&self) -> &'a [u8]
        ensures { result.now ≡ self.now.text }
    {
        self.text
    }
}
