//! Whether a line of words asks that a refusal and a fault are explained.
ghost use Rattle.std.specs.Prelude.{◌≡◌, IfOk, option_map};
ghost use Rattle.app.specs.Explaining.{asks, ends_options, without_asking};

use std::alloc::{AllocError, Global};

// Whether all words after this one are values.
fn ends_options(word: &str) -> bool
    ensures { result ≡ ends_options word.entry }
{
    word == "--"
}

// Whether this word asks for it, unless it is a value.
fn asks(word: &str) -> bool
    ensures { result ≡ asks word.entry }
{
    word == "--explain"
}

/// The words without the first that asks that a refusal and a fault are explained; None where none
/// does. The one error is want of memory.
#[tactic(auto, using(crate::proofs::Asking::asked, crate::proofs::Asking::ended, crate::proofs::Asking::went_on))]
pub(crate) fn without_asking<'a>(
    alloc: Global,
    words: &[&'a str],
) -> Result<Option<Vec<&'a str>>, AllocError>
    ensures { IfOk result (λ line. option_map (λ v. v.items) line ≡ without_asking words.now) }
{
    let mut line = Vec::new(alloc);
    for at in 0..words.len() {
        if asks(words[at]) {
            line.extend_from_slice(&words[at + 1..])?;
            return Ok(Some(line));
        }
        if ends_options(words[at]) {
            return Ok(None);
        }
        line.push(words[at])?;
    }
    Ok(None)
}
