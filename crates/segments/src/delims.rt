ghost use Rattle.std.specs.Prelude.{◌≡◌, IsTrue};
ghost use Rattle.definitions.specs.Bytes.{Delims as Bounds, is_data};
ghost use Rattle.definitions.specs.Header.{are_delimiters, delims_in, is_delimiter};

use definitions::{COMPONENT_AT, ISA_BYTES, SEPARATOR_AT, TERMINATOR_AT};
use std::marker::Model;

/// The three delimiters of an interchange, as ISA names them by using them: the element separator
/// after its id, the component separator as ISA16, and the segment terminator after that.
#[derive(Clone, Copy)]
pub struct Delims {
    separator: u8,
    component: u8,
    terminator: u8,
}

impl Model for Delims {
    ghost Value = { Bounds };

    ghost view = { λ d. record {
      separator = d.separator;
      component = d.component;
      terminator = d.terminator;
    } };

    ghost invariant = { λ d. IsTrue (are_delimiters (record {
      separator = d.separator;
      component = d.component;
      terminator = d.terminator;
    })) };

    ghost inverse = { λ d. record {
      separator = d.separator;
      component = d.component;
      terminator = d.terminator;
    } };
}

// Whether the byte may be a delimiter: 1C to 1F (hexadecimal), or punctuation other than `-` and
// `.`.
fn is_allowed(b: u8) -> bool
    ensures { result ≡ is_delimiter b }
{
    matches!(b, 28..=31 | 33..=44 | 47 | 58..=64 | 91..=96 | 123..=126)
}

impl Delims {
    /// The bytes at offsets 3, 104 and 105 of the text, where it has 106 bytes and the three are
    /// allowed and different; else None. The terminator may also be LF.
    pub fn of(text: &[u8]) -> Option<Delims>
        ensures { result ≡ delims_in text.now }
    {
        if text.len() < ISA_BYTES {
            return None;
        }
        let separator = text[SEPARATOR_AT];
        let component = text[COMPONENT_AT];
        let terminator = text[TERMINATOR_AT];
        let allowed = is_allowed(separator)
            && is_allowed(component)
            && (is_allowed(terminator) || terminator == b'\n');
        if !allowed
            || separator == component
            || separator == terminator
            || component == terminator
        {
            return None;
        }
        Some(Delims {
            separator,
            component,
            terminator,
        })
    }

    /// The element separator.
    pub fn separator(&self) -> u8
        ensures { result ≡ self.now.separator }
    {
        self.separator
    }

    /// The component separator.
    pub fn component(&self) -> u8
        ensures { result ≡ self.now.component }
    {
        self.component
    }

    /// The segment terminator.
    pub fn terminator(&self) -> u8
        ensures { result ≡ self.now.terminator }
    {
        self.terminator
    }

    /// The delimiters of this house's own documents: `*`, `>` and `~`.
    pub fn of_documents() -> Delims
        ensures { result ≡ record { separator = 42; component = 62; terminator = 126 } }
    {
        Delims {
            separator: b'*',
            component: b'>',
            terminator: b'~',
        }
    }

    /// Whether the byte is a data byte: 20 to 7E (hexadecimal), and none of the delimiters.
    pub fn leaves(&self, b: u8) -> bool
        ensures { result ≡ is_data self.now b }
    {
        matches!(b, 32..=126) && b != self.separator && b != self.component && b != self.terminator
    }
}
