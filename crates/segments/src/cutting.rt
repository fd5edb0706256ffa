ghost use Rattle.std.specs.Prelude.{◌≡◌, ◌++◌, ℕ, List, length, IsTrue, MatchOption, slice_get, nat_lt, bytes_eq, ◌==◌, not, position, [], ◌∷◌, option_copied};
ghost use Rattle.std.specs.List.{slice_split, list_all};
ghost use Rattle.std.specs.Iterator.{item_count};
ghost use Rattle.definitions.specs.Bytes.{is_line_end};
ghost use Rattle.definitions.specs.Cut as meant;

use crate::delims::Delims;
use std::marker::Model;

/// A segment: a slice of the text that it was cut from, without its terminator, and the delimiters
/// of that text.
#[derive(Drop)]
pub struct Segment<'a> {
    text: &'a [u8],
    delims: Delims,
}

impl<'a> Model for Segment<'a> {
    ghost Value = { meant.Piece };

    ghost view = { λ s. record {
      delims = s.delims;
      elements = slice_split (λ b. b == s.delims.separator) s.text.now;
    } };
}

/// The cut of a text, as far as it is not done.
#[derive(Drop)]
pub struct Cut<'a> {
    pub(crate) text: &'a [u8],
    pub(crate) delims: Delims,
}

impl<'a> Model for Cut<'a> {
    ghost Value = { meant.Uncut };

    ghost view = { λ c. record { delims = c.delims; text = c.text.now } };
}

// Where the byte stands first.
fn first_of(byte: u8, text: &[u8]) -> Option<usize>
    ensures { result ≡ position (λ b. b == byte) text.now }
{
    text.iter().position(|b| *b == byte)
}

// Where neither CR nor LF stands first.
fn first_inside(text: &[u8]) -> Option<usize>
    ensures { result ≡ position (λ b. not (is_line_end b)) text.now }
{
    text.iter().position(|b| !(*b == b'\n' || *b == b'\r'))
}

// The text after the CR and LF in front.
#[tactic(auto, using(crate::proofs::Places::skipped_some, crate::proofs::Places::skipped_none))]
fn skip_line_ends(text: &[u8]) -> &[u8]
    ensures { result.now ≡ meant.skipped text.now }
{
    match first_inside(text) {
        Some(i) => &text[i..],
        None => &[],
    }
}

// The segment of that text.
fn segment_of(text: &[u8], delims: Delims) -> Segment<'_>
    ensures { result ≡ record {
      delims = delims;
      elements = slice_split (λ b. b == delims.separator) text.now;
    } }
{
    Segment { text, delims }
}

// The first segment, and what stands after it and its CR and LF.
fn first_segment<'a>(text: &'a [u8], delims: &Delims) -> Option<(Segment<'a>, &'a [u8])>
    ensures { MatchOption result
        (((meant.cut delims.now text.now).segments ≡ [])
        × ((meant.cut delims.now text.now).rest ≡ text.now))
        (λ p. (p.0.delims ≡ delims.now)
        × ((meant.cut delims.now text.now).segments ≡ p.0.elements
        ∷ (meant.cut delims.now p.1.now).segments)
        × ((meant.cut delims.now text.now).rest ≡ (meant.cut delims.now p.1.now).rest)
        × ((skip : List ℕ) × (text.now ≡ meant.spelled delims.now p.0.elements ++ (skip ++ p.1.now))
        × IsTrue (list_all is_line_end skip) × meant.StartsClean p.1.now)) }
{
    let end = first_of(delims.terminator(), text)?;
    let after = skip_line_ends(&text[end + 1..]);
    Some((segment_of(&text[..end], *delims), after))
}

impl<'a> Iterator for Cut<'a> {
    type Item = Segment<'a>;

    ghost next_gives = { meant.GivesSegment };

    ghost remaining = { item_count meant.pieces_left };

    fn next(&mut self) -> Option<Segment<'a>> {
        let (segment, after) = first_segment(self.text, &self.delims)?;
        self.text = after;
        Some(segment)
    }
}

/// The part at a place between the separators, the first at 0; None where there are fewer.
pub fn part(text: &[u8], separator: u8, n: usize) -> Option<&[u8]>
    ensures { option_copied result ≡ slice_get (slice_split (λ b. b == separator) text.now) n }
{
    text.split(|b| *b == separator).nth(n)
}

// Whether the two are the same.
fn same(a: &[u8], b: &[u8]) -> bool
    ensures { result ≡ bytes_eq a.now b.now }
{
    a == b
}

impl<'a> Segment<'a> {
    /// The element at a place, the id at 0; empty where there is none. A trailing separator makes
    /// an empty element.
    pub fn element(&self, n: usize) -> &'a [u8]
        ensures { result.now ≡ meant.element self.now.elements n }
    {
        match part(self.text, self.delims.separator(), n) {
            Some(element) => element,
            None => &[],
        }
    }

    /// Whether an element, empty or not, stands at the place or after it.
    pub fn reaches(&self, n: usize) -> bool
        ensures { result ≡ nat_lt n (length self.now.elements) }
    {
        part(self.text, self.delims.separator(), n).is_some()
    }

    /// Whether the segment has the id.
    pub fn has_id(&self, id: &[u8]) -> bool
        ensures { result ≡ meant.has_id id.now self.now.elements }
    {
        same(self.element(0), id)
    }

    /// The delimiters of the text that it was cut from.
    pub fn delims(&self) -> Delims
        ensures { result ≡ self.now.delims }
    {
        self.delims
    }

    /// The same segment once more: a slice is copied, and not its bytes.
    pub fn again(&self) -> Segment<'a>
        ensures { result ≡ self.now }
    {
        segment_of(self.text, self.delims)
    }
}
