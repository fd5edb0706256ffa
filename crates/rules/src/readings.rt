//! Acts, read from their canonical texts.
ghost use Rattle.std.specs.Prelude.{◌≡◌, IfOk, map, filter_map, option_map};
ghost use Rattle.definitions.specs.Clerk.{raw_line};
ghost use Rattle.definitions.specs.Readings as meant;
ghost use Rattle.definitions.specs.Readings.{parts_at};
ghost use Rattle.entries.specs.Asked.{act_of};
ghost use Rattle.rules.specs.ReadActs.{read_act};
ghost use Rattle.rules.specs.Likely.{named_head, head_in, record_in, act_from, likely_act};

use definitions::{MOST_NUMBER, Rules};
use entries::Act;
use segments::Ident;
use std::alloc::{AllocError, Global};
use std::marker::Model;
use stock::{Line, Sheet, SheetKind};

/// An act that was read.
#[derive(Drop)]
pub(crate) struct ReadAct<'a> {
    kind: SheetKind,
    number: &'a [u8],
    sheet: Sheet,
}

/// What was done, and to what: nothing of a recount.
#[derive(Drop)]
struct ActHead<'a> {
    kind: SheetKind,
    number: &'a [u8],
}

impl<'a> Model for ActHead<'a> {
    ghost use Rattle.rules.specs.Likely.{ActHead};

    ghost Value = { ActHead };

    ghost view = { λ h. record { kind = h.kind; number = h.number.now } };
}

impl<'a> ReadAct<'a> {
    /// The act.
    pub(crate) fn act(&self) -> Act<'_>
        ensures { act_of result ≡ read_act self.now }
    {
        match self.kind {
            SheetKind::Count => Act::Count {
                shipment: self.number,
                sheet: &self.sheet,
            },
            SheetKind::Pick => Act::Pick {
                order: self.number,
                sheet: &self.sheet,
            },
            SheetKind::Recount => Act::Recount { sheet: &self.sheet },
        }
    }
}

// The parts of a text between those bytes.
fn parts<'a>(alloc: Global, text: &'a [u8], byte: u8) -> Result<Vec<&'a [u8]>, AllocError>
    ensures { IfOk result (λ v. map (λ part. part.now) v.items ≡ parts_at byte text.now) }
{
    text.split(|b| *b == byte).collect(alloc)
}

// What was done, and to what, by a word and a number.
fn named<'a>(word: &[u8], number: &'a [u8]) -> Option<ActHead<'a>>
    ensures { result ≡ named_head word.now number.now }
{
    if Ident::new(number, MOST_NUMBER).is_none() {
        return None;
    }
    let kind = if word == b"count".as_slice() {
        SheetKind::Count
    } else if word == b"pick".as_slice() {
        SheetKind::Pick
    } else {
        return None;
    };
    Some(ActHead { kind, number })
}

// What was done, and to what, by the words of the first line.
fn first_line<'a>(words: &[&'a [u8]]) -> Option<ActHead<'a>>
    ensures { result ≡ head_in (map (λ word. word.now) words.now) }
{
    match *words {
        [word, number] => named(word, number),
        [_] => Some(ActHead {
            kind: SheetKind::Recount,
            number: b"",
        }),
        _ => None,
    }
}

// The line of a sheet with these parts.
fn line_of(alloc: Global, parts: &[&[u8]]) -> Result<Option<Line>, AllocError>
    ensures { IfOk result (λ line. line ≡ raw_line (map (λ part. part.now) parts.now)) }
{
    let [item, lot, quantity] = *parts else {
        return Ok(None);
    };
    Ok(Some(Line::new(
        item.to_vec(alloc)?,
        lot.to_vec(alloc)?,
        quantity.to_vec(alloc)?,
    )))
}

// The line of a sheet that a text between two LF is: ITEM,LOT,QUANTITY.
fn line(alloc: Global, text: &[u8]) -> Result<Option<Line>, AllocError>
    ensures { IfOk result (λ line. line ≡ record_in text.now) }
{
    let parts = parts(alloc, text, b',')?;
    line_of(alloc, &parts)
}

// The lines of a sheet among these texts.
fn lines(alloc: Global, texts: &[&[u8]]) -> Result<Vec<Line>, AllocError>
    ensures { IfOk result
        (λ lines. lines.items ≡ filter_map record_in (map (λ text. text.now) texts.now)) }
{
    let mut lines = Vec::new(alloc);
    for text in texts {
        if let Some(line) = line(alloc, text)? {
            lines.push(line)?;
        }
    }
    Ok(lines)
}

// The act of a head and of lines, where they make a sheet by the rules.
fn made<'a>(head: ActHead<'a>, lines: Vec<Line>, rules: Rules) -> Option<ReadAct<'a>>
    ensures { option_map read_act result ≡ act_from rules lines.items head.entry }
{
    match Sheet::new(head.kind, lines, rules) {
        Ok(sheet) => Some(ReadAct {
            kind: head.kind,
            number: head.number,
            sheet,
        }),
        Err(_) => None,
    }
}

// The act that the text looks like.
fn likely<'a>(
    alloc: Global,
    text: &'a [u8],
    rules: Rules,
) -> Result<Option<ReadAct<'a>>, AllocError>
    ensures { IfOk result (λ o. option_map read_act o ≡ likely_act rules text.now) }
{
    let texts = parts(alloc, text, b'\n')?;
    let [first, rest @ ..] = texts.as_slice() else {
        return Ok(None);
    };
    let words = parts(alloc, first, b' ')?;
    let Some(head) = first_line(&words) else {
        return Ok(None);
    };
    Ok(made(head, lines(alloc, rest)?, rules))
}

/// The act under the rules of which the text is the canonical one, if there is one. Want of memory
/// is the one error.
pub(crate) fn read<'a>(
    alloc: Global,
    text: &'a [u8],
    rules: Rules,
) -> Result<Option<ReadAct<'a>>, AllocError>
    ensures { IfOk result (λ o. option_map read_act o ≡ meant.act_of rules text.now) }
{
    let Some(read) = likely(alloc, text, rules)? else {
        return Ok(None);
    };
    let again = read.act().canonical(alloc)?;
    if again.as_slice() == text {
        return Ok(Some(read));
    }
    Ok(None)
}
