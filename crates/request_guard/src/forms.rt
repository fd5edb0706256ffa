//! Forms, which a page may post to any origin without asking it first.
ghost use Rattle.std.specs.Prelude.{◌≡◌, option_copied};
ghost use Rattle.request_guard.specs.Doors as meant;

use crate::texts::{place_of, same_letters, trim};

fn media_type(text: &[u8]) -> &[u8]
    ensures { result.now ≡ meant.media_type text.now }
{
    trim(&text[..place_of(text, b';')])
}

fn is_form_type(media: Option<&[u8]>) -> bool
    ensures { result ≡ meant.is_form_type (option_copied media.entry) }
{
    let Some(text) = media else {
        return false;
    };
    let name = media_type(text);
    same_letters(name, b"text/plain")
        || same_letters(name, b"multipart/form-data")
        || same_letters(name, b"application/x-www-form-urlencoded")
}

/// Whether a browser posts, and what it posts may be a form.
pub(crate) fn is_posted_form(
    method: &[u8],
    origin: Option<&[u8]>,
    mode: Option<&[u8]>,
    media: Option<&[u8]>,
) -> bool
    ensures { result ≡ meant.is_posted_form method.now (option_copied origin.entry)
        (option_copied mode.entry) (option_copied media.entry) }
{
    method == b"POST".as_slice() && (origin.is_some() || mode.is_some()) && is_form_type(media)
}
