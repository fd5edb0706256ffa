ghost use Rattle.std.specs.Prelude.{◌≡◌, ℕ, List, [], ◌∷◌, MatchResult, Ok, Err};
ghost use Rattle.head_fields.specs.Fields.{IsValues};
ghost use Rattle.definitions.specs.Response.{stated_length};
ghost use Rattle.intake.specs.Answers.{number};
ghost use Rattle.intake.specs.Fields.{seen_method, method_of};

use crate::response::Status;
use definitions::MOST_BYTES;
use head_fields::Values;
use segments::{all_digits, value_up_to};

/// The methods that routes tell apart.
#[derive(Clone, Copy)]
pub(crate) enum MethodKind {
    /// GET
    Get,
    /// POST
    Post,
    /// Any other.
    Other,
}

/// The method of a name, by its exact bytes.
pub(crate) fn read_method(name: &[u8]) -> MethodKind
    ensures { seen_method result ≡ method_of name.now }
{
    if name == b"GET".as_slice() {
        MethodKind::Get
    } else if name == b"POST".as_slice() {
        MethodKind::Post
    } else {
        MethodKind::Other
    }
}

// The length that digits state, or the status that refuses it.
fn length_value(text: &[u8]) -> Result<usize, Status>
    ensures { MatchResult result
        (λ n. stated_length (text.now ∷ []) ≡ Ok n)
        (λ status. stated_length (text.now ∷ []) ≡ Err (number status)) }
{
    if text.is_empty() || !all_digits(text) {
        return Err(Status::BadRequest);
    }
    let most = MOST_BYTES as u64;
    let size = value_up_to(text, most + 1);
    if most < size {
        return Err(Status::PayloadTooLarge);
    }
    Ok(size as usize)
}

/// The length of a body that these values of Content-Length state, or the status that refuses them:
/// 411 for none, 400 for more than one or no digits, 413 for too much.
pub(crate) fn length_of(values: &Values<'_>) -> Result<usize, Status>
    ensures { (texts : List (List ℕ)) → IsValues values.now texts → MatchResult result
        (λ n. stated_length texts ≡ Ok n) (λ status. stated_length texts ≡ Err (number status)) }
{
    match values {
        Values::Absent => Err(Status::LengthRequired),
        Values::Single(text) => length_value(text),
        Values::Several => Err(Status::BadRequest),
    }
}
