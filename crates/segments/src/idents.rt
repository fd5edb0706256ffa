ghost use Rattle.std.specs.Prelude.{◌≡◌, ℕ, List, IsTrue, true, false, MatchOption};
ghost use Rattle.std.specs.List.{list_all};
ghost use Rattle.definitions.specs.Bytes.{is_alphanumeric, is_identifier, is_identifier_byte};

use std::marker::Model;

/// An identifier, a slice of a text: of A to Z, 0 to 9, `-` and `.`, so that it holds no delimiter.
#[derive(Drop)]
pub struct Ident<'a> {
    text: &'a [u8],
}

impl<'a> Model for Ident<'a> {
    ghost Value = { List ℕ };

    ghost view = { λ i. i.text.now };

    ghost invariant = { λ i. IsTrue (list_all is_identifier_byte i.text.now) };
}

// Whether the byte is one of A to Z and 0 to 9.
pub(crate) fn is_alphanumeric_byte(b: u8) -> bool
    ensures { result ≡ is_alphanumeric b }
{
    matches!(b, b'A'..=b'Z' | b'0'..=b'9')
}

// Whether the byte may stand in an identifier.
pub(crate) fn is_ident_byte(b: u8) -> bool
    ensures { result ≡ is_identifier_byte b }
{
    is_alphanumeric_byte(b) || b == b'-' || b == b'.'
}

/// Whether each byte is one of A to Z and 0 to 9.
pub fn all_alphanumeric(text: &[u8]) -> bool
    ensures { result ≡ list_all is_alphanumeric text.now }
{
    text.iter().all(|b| is_alphanumeric_byte(*b))
}

// Whether each byte may stand in an identifier.
fn all_ident(text: &[u8]) -> bool
    ensures { result ≡ list_all is_identifier_byte text.now }
{
    text.iter().all(|b| is_ident_byte(*b))
}

// Whether the text is an identifier of these lengths.
pub(crate) fn is_ident(text: &[u8], least: usize, most: usize) -> bool
    ensures { result ≡ is_identifier least most text.now }
{
    least <= text.len() && text.len() <= most && all_ident(text)
}

impl<'a> Ident<'a> {
    /// The text, where it is 1 to `most` identifier bytes; else None.
    pub fn new(text: &'a [u8], most: usize) -> Option<Ident<'a>>
        ensures { MatchOption result (is_identifier 1 most text.now ≡ false)
            (λ i. (is_identifier 1 most text.now ≡ true) × (i ≡ text.now)) }
    {
        if is_ident(text, 1, most) {
            Some(Ident { text })
        } else {
            None
        }
    }

    /// The bytes of the identifier.
    pub fn bytes(&self) -> &'a [u8]
        ensures { result.now ≡ self.now }
    {
        self.text
    }
}
