//! Laws of seals: nothing runs, a contract is the law.
ghost use Rattle.std.specs.Prelude.{◌≡◌, ◌⊎◌, ◌↔◌, ◌<◌, ◌^◌, IsTrue, true, ℕ, List, [], ◌∷◌, ◌++◌, length, take, flat_map, Option, Some, codes};
ghost use Rattle.hex.specs.Hex.{IsBytes};
ghost use Rattle.definitions.specs.Rules.{Today};
ghost use Rattle.definitions.specs.Header.{Who};
ghost use Rattle.definitions.specs.Moments.{Moment};
ghost use Rattle.definitions.specs.Register.{Entry};
ghost use Rattle.definitions.specs.Accepted.{IsLegal};
ghost use Rattle.rules.specs.Written.{written};
ghost use Rattle.store.specs.Replayed.{written_on};
ghost use Rattle.seals.specs.Noted.{beginning_in, begins_so, entries_in, noted_after, noted_of, noted_of_first, noted_text};
ghost use Rattle.seals.specs.Seals.{AreHeld, Collide, IsHeld, digested, framed, seal_in, seal_of, seal_of_first, seal_on, seal_text};
ghost use Rattle.seals.specs.declared.seal.TheConstants.{SEAL_BYTES};

/// One register has one seal, however its book came about.
pub fn a_register_has_one_seal()
    ensures { (L M : List Entry) → L ≡ M → seal_of L ≡ seal_of M }
{}

/// The seal of a register that goes on is that of its beginning, gone on with.
pub fn seals_go_on()
    ensures { (L M : List Entry) → seal_of (L ++ M) ≡ seal_on (seal_of L) (written_on L M) }
{}

/// So the seal that was noted of a register is that of the first entries, as many as it had, of
/// each register that goes on from it.
pub fn a_seal_stays()
    ensures { (L M : List Entry) → seal_of_first (length L) (L ++ M) ≡ Some (seal_of L) }
{}

/// No two lists of texts, each behind its length, are one text.
pub fn framed_texts_are_told_apart()
    ensures { (xs ys : List (List ℕ)) → AreHeld xs → AreHeld ys
        → flat_map framed xs ≡ flat_map framed ys → xs ≡ ys }
{}

/// Of a legal register somebody noted the seal, and how many entries it has. A legal register whose
/// first entries, as many, have this seal goes on from the noted one. Or else two different texts
/// have one SHA-256, and it is known which: they were digested for the two seals, at one place. No
/// two such texts have been found so far.
pub fn a_noted_seal_tells_the_entries()
    ensures { (V W : Who) (L M : List Entry) → IsLegal Today V L → IsLegal Today W M → IsHeld L
        → IsHeld M → seal_of_first (length L) M ≡ Some (seal_of L)
        → (take (length L) M ≡ L) ⊎ Collide (digested (take (length L) M)) (digested L) }
{}

/// The text of a seal is read as the seal, and no other text is.
pub fn seals_are_read_back()
    ensures back { (seal : List ℕ) → length seal ≡ SEAL_BYTES → IsBytes seal
        → seal_in (seal_text seal) ≡ Some seal }
    ensures only { (text seal : List ℕ) → seal_in text ≡ Some seal → text ≡ seal_text seal }
{}

/// What is noted of a register that grew by an entry follows from what was noted before.
pub fn what_is_noted_goes_on()
    ensures { (L : List Entry) (e : Entry)
        → noted_of (L ++ e ∷ []) ≡ noted_after (noted_of L) (written L e) }
{}

/// What was noted of a register is noted of the first entries, as many as it had, of each register
/// that goes on from it, with the moment of the last of them.
pub fn what_was_noted_stays()
    ensures { (L M : List Entry) → noted_of_first (length L) (L ++ M) ≡ Some (noted_of L) }
{}

/// The text of a noted seal is read as its number and its seal. And what is read is written so: a
/// number in digits, a colon, and the digits of the seal.
pub fn beginnings_are_read_back()
    ensures back { (n : ℕ × List ℕ × Option Moment) → n.0 < 10 ^ 9 → length n.1 ≡ SEAL_BYTES
        → IsBytes n.1 → beginning_in (noted_text n) ≡ Some (n.0, n.1) }
    ensures only { (text : List ℕ) (b : ℕ × List ℕ) → beginning_in text ≡ Some b
        → (digits : List ℕ) × ((entries_in digits ≡ Some b.0)
        × (text ≡ digits ++ codes ":" ++ seal_text b.1)) }
{}

/// A register begins as somebody noted it, if its first entries, as many, have the seal that was
/// noted; and no other register does.
pub fn a_beginning_is_told_by_its_seal()
    ensures { (b : ℕ × List ℕ) (L : List Entry)
        → IsTrue (begins_so b L) ↔ (seal_of_first b.0 L ≡ Some b.1) }
{}

/// So each register that goes on from one begins as that one was noted.
pub fn a_beginning_stays()
    ensures { (L M : List Entry) → begins_so (length L, seal_of L) (L ++ M) ≡ true }
{}
