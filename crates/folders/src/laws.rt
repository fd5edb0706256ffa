//! Laws of names as they are told: nothing runs, each contract is a law.
ghost use Rattle.std.specs.Prelude.{◌≡◌, ◌<◌, ℕ, List, All};
ghost use Rattle.folders.specs.Lines.{IsPlain, told_name};

/// A name in which no control and no mark of direction begins is told byte for byte.
pub fn a_plain_name_is_told_as_it_stands()
    ensures { (name : List ℕ) → IsPlain name → told_name name ≡ name }
{}

/// No name ends the line on which it is told: what is told of it has no line feed, nor any other
/// byte below 32.
pub fn no_name_ends_a_line()
    ensures { (name : List ℕ) → All (λ b. 31 < b) (told_name name) }
{}
