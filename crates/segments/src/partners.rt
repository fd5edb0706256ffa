ghost use Rattle.std.specs.Prelude.{◌≡◌, ◌-◌, ◌++◌, Some, None, if◌then◌else◌, IsTrue, replicate, length};
ghost use Rattle.definitions.specs.Header.{Who as Partner, is_partner, who_eq, who_of, who_text};
ghost use Rattle.segments.specs.Filled.{IsFilled, partner_in, length_front, filled_front};
ghost use Rattle.segments.specs.declared.partners.TheConstants.{TEXT_BYTES};

use crate::idents::{all_alphanumeric, is_ident};
use definitions::{LEAST_PARTNER, MOST_PARTNER, QUALIFIER_BYTES};
use std::marker::Model;

// The bytes of the longest text of a partner: a qualifier, a hyphen, and an id.
const TEXT_BYTES: usize = QUALIFIER_BYTES + 1 + MOST_PARTNER;

/// A trading partner, as two elements of ISA name it: a qualifier of two of A to Z and 0 to 9, and
/// an id of 2 to 15 identifier bytes. It is kept as its text, `ZZ-ACME`, which is filled up with
/// spaces.
#[derive(Clone, Copy)]
pub struct Who {
    text: [u8; TEXT_BYTES],
    len: usize,
}

impl Model for Who {
    ghost Value = { Partner };

    ghost view = { λ w. partner_in w.text w.len };

    ghost invariant = { λ w. IsFilled w.text w.len
        × IsTrue (is_partner (partner_in w.text w.len)) };

    ghost inverse = { λ p. record {
      text = who_text p ++ replicate (TEXT_BYTES - length (who_text p)) 32;
      len = length (who_text p);
    } };

    ghost inverse_ok = { λ a h i. record {
      text = filled_front a.text a.len h.0 i;
      len = length_front a.text a.len h.0 i;
    } };
}

impl Who {
    /// The partner with this qualifier and id, without the spaces that fill ISA06; None where they
    /// name none.
    pub fn of(qualifier: &[u8], id: &[u8]) -> Option<Who>
        ensures { let w : Partner = record {
          qualifier = qualifier.now;
          id = id.now;
        } in result ≡ (if is_partner w then Some w else None) }
    {
        if qualifier.len() != QUALIFIER_BYTES || !all_alphanumeric(qualifier) {
            return None;
        }
        if !is_ident(id, LEAST_PARTNER, MOST_PARTNER) {
            return None;
        }
        let len = 3 + id.len();
        let mut text = [b' '; TEXT_BYTES];
        text[0] = qualifier[0];
        text[1] = qualifier[1];
        text[2] = b'-';
        text[3..len].copy_from_slice(id);
        Some(Who { text, len })
    }

    /// The partner that the text writes, as `ZZ-ACME`; else None.
    pub fn new(text: &[u8]) -> Option<Who>
        ensures { result ≡ who_of text.now }
    {
        if text.len() < 3 || text[2] != b'-' {
            return None;
        }
        Who::of(&text[..2], &text[3..])
    }

    /// The qualifier, two bytes.
    pub fn qualifier(&self) -> &[u8]
        ensures { result.now ≡ self.now.qualifier }
    {
        &self.text[..QUALIFIER_BYTES]
    }

    /// The id, 2 to 15 bytes.
    pub fn id(&self) -> &[u8]
        ensures { result.now ≡ self.now.id }
    {
        &self.text[3..self.len]
    }

    /// Its text, qualifier, hyphen and id, as `ZZ-ACME`.
    pub fn text(&self) -> &[u8]
        ensures { result.now ≡ who_text self.now }
    {
        &self.text[..self.len]
    }

    /// Whether the two are one partner.
    pub fn is(&self, other: &Who) -> bool
        ensures { result ≡ who_eq self.now other.now }
    {
        self.qualifier() == other.qualifier() && self.id() == other.id()
    }
}
