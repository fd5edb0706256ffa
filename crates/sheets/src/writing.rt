ghost use Rattle.std.specs.Prelude.{◌≡◌, ◌≤◌, ◌++◌, All, OnOk, flat_map, map};
ghost use Rattle.definitions.specs.Bytes as bytes;
ghost use Rattle.definitions.specs.Clerk as clerk;
ghost use Rattle.definitions.specs.Limits.{most_recounted};
ghost use Rattle.definitions.specs.Register.{line_text};
ghost use Rattle.segments.specs.Extends.{Extends};

use crate::lines::Line;
use itoa::Buffer;
use std::alloc::AllocError;

// Appends the text, or nothing.
#[tactic(auto, using(segments::proofs::ExtendsLemmas::extends_append))]
fn append_text(out: &mut Vec<u8>, text: &[u8]) -> Result<(), AllocError>
    ensures ok { OnOk result (out.new.items ≡ out.old.items ++ text.now) }
    ensures kept { Extends out.old.items out.new.items }
{
    out.extend_from_slice(text)?;
    Ok(())
}

// Appends the texts, or a beginning of them.
fn append_texts(out: &mut Vec<u8>, texts: &[&[u8]]) -> Result<(), AllocError>
    ensures ok { OnOk result (out.new.items ≡ out.old.items ++ flat_map (λ t. t.now) texts.now) }
    ensures kept { Extends out.old.items out.new.items }
{
    for text in texts {
        append_text(out, text)?;
    }
    Ok(())
}

// Appends ITEM,LOT,QUANTITY and LF, or a beginning of it.
fn append_line(out: &mut Vec<u8>, line: &Line) -> Result<(), AllocError>
    requires { bytes.value line.now.quantity ≤ most_recounted }

    ensures ok { OnOk result (out.new.items ≡ out.old.items ++ line_text (clerk.line_of line.now)) }
    ensures kept { Extends out.old.items out.new.items }
{
    let mut buffer = Buffer::new();
    let quantity = buffer.format(line.amount()).as_bytes();
    append_texts(out, &[&line.item, b",", &line.lot, b",", quantity, b"\n"])
}

// Appends the text of each line, or a beginning of it.
pub(crate) fn append_lines(out: &mut Vec<u8>, lines: &[Line]) -> Result<(), AllocError>
    requires { All (λ (l : clerk.RawLine). bytes.value l.quantity ≤ most_recounted) lines.now }

    ensures ok { OnOk result (out.new.items ≡ out.old.items
        ++ flat_map line_text (map clerk.line_of lines.now)) }
    ensures kept { Extends out.old.items out.new.items }
{
    for line in lines {
        append_line(out, line)?;
    }
    Ok(())
}
