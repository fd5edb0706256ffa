//! What kind of text goes out for an entry.
ghost use Rattle.std.specs.Prelude.{◌≡◌, MatchOption};
ghost use Rattle.definitions.specs.Register.{Deed, deed_mark, body_of};
ghost use Rattle.entries.specs.Kinds.{kind_text, kind_by};

use crate::entries::Entry;

/// What kind of text went out.
#[derive(Clone, Copy, PartialEq, Eq)]
pub enum OutKind {
    /// The answer to an interchange.
    Answer,
    /// The receipt advice (944) of a count.
    Receipt,
    /// The shipping advice (945) of a pick.
    Shipment,
    /// The inventory adjustment advice (947) of a recount.
    Adjustment,
}

impl OutKind {
    /// The word for it in lists and tables: ANS, 944, 945 or 947.
    pub fn text(self) -> &'static [u8]
        ensures { result.now ≡ kind_text self }
    {
        match self {
            OutKind::Answer => b"ANS",
            OutKind::Receipt => b"944",
            OutKind::Shipment => b"945",
            OutKind::Adjustment => b"947",
        }
    }

    /// The kind with this word; None where no kind has it.
    pub fn of_text(text: &[u8]) -> Option<OutKind>
        ensures { MatchOption result ((kind : OutKind) → text.now ≡ kind_text kind
            → ⊥) (λ kind. text.now ≡ kind_text kind) }
    {
        match text {
            b"ANS" => Some(OutKind::Answer),
            b"944" => Some(OutKind::Receipt),
            b"945" => Some(OutKind::Shipment),
            b"947" => Some(OutKind::Adjustment),
            _ => None,
        }
    }
}

impl Entry {
    /// The kind of the text that goes out for it, by its key and its canonical text.
    pub fn kind(&self) -> OutKind
        ensures { (deed : Deed) → self.now.key ≡ deed_mark deed → self.now.body ≡ body_of deed
            → kind_text result ≡ kind_by deed }
    {
        if !self.is_ticketed() {
            OutKind::Answer
        } else if self.body.starts_with(b"count ") {
            OutKind::Receipt
        } else if self.body.starts_with(b"pick ") {
            OutKind::Shipment
        } else {
            OutKind::Adjustment
        }
    }
}
