ghost use Rattle.std.specs.Prelude.{◌≡◌};
ghost use Rattle.definitions.specs.Register.{Deed, deed_mark};
ghost use Rattle.book_statements.specs.Appending.{first_state};

use store::DocumentState;

/// The state of a text that has just gone out for an entry with this mark: open where it is a
/// document.
pub(crate) fn new_state_text(mark: &[u8]) -> &'static [u8]
    ensures { (deed : Deed) → mark.now ≡ deed_mark deed → result.now ≡ first_state deed }
{
    if mark.starts_with(b"T") {
        DocumentState::Open.text()
    } else {
        DocumentState::Unasked.text()
    }
}
