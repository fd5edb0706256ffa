ghost use Rattle.std.specs.Prelude.{◌≡◌, IfOk};
ghost use Rattle.sets_out.specs.Interchanges.{handed_text};

use sets_out::{Document, Envelope, Outgoing, write_interchange};
use std::alloc::{AllocError, Global};

/// The interchange that hands out a document. Want of memory is the one error.
pub(crate) fn written(
    alloc: Global,
    envelope: &Envelope,
    document: &Document<'_>,
) -> Result<Vec<u8>, AllocError>
    ensures { IfOk result (λ text. text.items ≡ handed_text envelope.now document.now) }
{
    let interchange = Outgoing::Documented(envelope, document);
    let mut text = Vec::new(alloc);
    write_interchange(&mut text, &interchange)?;
    Ok(text)
}
