//! Texts with parts that stand in them more than once.

use std::alloc::Global;
use std::fmt::Write;
use std::test::Fail;

// Appends a part, with a number in place of each `#`, and the next one in four digits in place of each `%`.
fn push_numbered(text: &mut String, part: &str, n: u32) -> Result<(), Fail> {
    for c in part.chars() {
        match c {
            '#' => write!(text, "{n}")?,
            '%' => write!(text, "{:04}", n.saturating_add(1))?,
            c => text.push(c)?,
        }
    }
    Ok(())
}

// Appends a part so many times as the number before it says.
fn push_part(text: &mut String, part: &str) -> Result<(), Fail> {
    let (times, part) = part.split_once(':').ok_or("a part")?;
    let times: u32 = times.parse()?;
    for n in 0..times {
        push_numbered(text, part, n)?;
    }
    Ok(())
}

/// The text with each part in braces as often as it says: `{99:LX*%~}` has 99 of them, numbered from 1 in four digits. The error is want of
/// memory, or braces that say no number.
pub fn spread(alloc: Global, text: &str) -> Result<String, Fail> {
    let mut spread = String::new(alloc);
    for piece in text.split('{') {
        match piece.split_once('}') {
            Some((part, rest)) => {
                push_part(&mut spread, part)?;
                spread.push_str(rest)?;
            }
            None => spread.push_str(piece)?,
        }
    }
    Ok(spread)
}
