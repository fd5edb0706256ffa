//! What clerks did, with their sheets.
ghost use Rattle.std.specs.Prelude.{◌≡◌, List, true, IsTrue, None, Some, Ok, Err, IfErr, IfNone, IfOk, IfSome, option_map};
ghost use Rattle.definitions.specs.Rules.{Today};
ghost use Rattle.definitions.specs.Accepted.{is_command};
ghost use Rattle.definitions.specs.Clerk.{is_sheet};
ghost use Rattle.definitions.specs.Header.{Who as Partner};
ghost use Rattle.definitions.specs.Means.{Line};
ghost use Rattle.sheet_texts.specs.Texts.{sheet_of_text};
ghost use Rattle.store.specs.Asked.{asked};
ghost use Rattle.unready.specs.Refused.{IfRefused};
ghost use Rattle.commands.specs.Clerks as meant;
ghost use Rattle.commands.specs.Clerks.{IsNoSlip, IsSheetRead, IsSlipOf, command_of, depositor_of, sheet_read};
ghost use Rattle.commands.specs.Files.{reads_as};
ghost use Rattle.commands.specs.LineStops.{IfLineRefused, IfLineStopped};
ghost use Rattle.commands.specs.Stops.{HasDeviceFault};

use crate::causes::about_file;
use crate::files::MOST_SHEET;
use crate::line_stops::LineStop;
use crate::told::CommandError;
use command_line::ClerkWords;
use folders::FileSystem;
use intake::{act_of, depositor, read_first};
use sheet_texts::sheet;
use std::alloc::{AllocError, Global};
use store::{Command, Goods, Refusal, Sheet, SheetKind, Who};
use unready::Unready;

/// What a clerk did, with its sheet: its command can be given.
#[derive(Drop)]
pub struct Slip<'a> {
    pub(crate) who: Who,
    pub(crate) words: ClerkWords<'a>,
    pub(crate) text: Vec<u8>,
    pub(crate) sheet: Sheet,
    pub ghost given: { IsTrue (is_command Today (command_of who words sheet)) },
}

// A depositor that a clerk's words name, and what was read of the file with their sheet.
#[derive(Drop)]
struct Read {
    who: Who,
    text: Vec<u8>,
}

// The depositor that a clerk's words name; None where one of the words can't be read.
fn named(words: &ClerkWords<'_>) -> Option<Who>
    ensures { result ≡ depositor_of words.now }
{
    let (ticket, number) = (words.ticket.as_bytes(), words.number.as_bytes());
    depositor(words.kind, words.who.as_bytes(), ticket, number)
}

// Tests a clerk's words, and reads the file with their sheet, at most one byte more than a sheet
// may have; None where a word can't be read (32). A file that can't be read is Device (44).
fn read_slip<R: FileSystem + AllocGlobal>(
    rt: &R,
    words: &ClerkWords<'_>,
) -> Result<Option<Read>, CommandError>
    ensures named { IfOk result
        (λ found. IfSome found (λ read. depositor_of words.now ≡ Some read.who)) }
    ensures read { IfOk result
        (λ found. IfSome found (λ read. IsSheetRead (R.reads rt.now) words.now read.text.items)) }
    ensures none { IfOk result (λ found. IfNone found (depositor_of words.now ≡ None)) }
    ensures unread { IfErr result HasDeviceFault }
{
    let Some(who) = named(words) else {
        return Ok(None);
    };
    match read_first(rt, words.sheet, u64::from(MOST_SHEET) + 1) {
        Ok(text) => Ok(Some(Read { who, text })),
        Err(error) => Err(about_file(rt.alloc(), words.sheet, &error)),
    }
}

// Why a file that is longer than a sheet may be makes none, where its first bytes make none for
// this reason.
fn long_reason(refusal: Refusal) -> Refusal
    ensures { result ≡ meant.long_reason (Err refusal) }
{
    match refusal {
        Refusal::TooManyLines => Refusal::TooManyLines,
        _ => Refusal::BadText,
    }
}

// The sheet of a kind in what was read of a file, its first bytes up to one more than a sheet may
// have, or why there is none (30 to 33). A longer file has too many lines in these already (33), or
// can't be read (32).
fn sheet_of(alloc: Global, kind: SheetKind, text: &[u8]) -> Result<Sheet, Unready>
    ensures ok { IfOk result (λ sheet. sheet_read kind text.now ≡ Ok sheet) }
    ensures kind { IfOk result (λ sheet. is_sheet Today kind sheet ≡ true) }
    ensures err { IfErr result (IfRefused (λ refusal. sheet_read kind text.now ≡ Err refusal)) }
{
    let made = sheet(alloc, kind, text);
    if text.len() as u64 <= u64::from(MOST_SHEET) {
        return made;
    }
    match made {
        Ok(_) => Err(Unready::Refused(Refusal::BadText)),
        Err(Unready::Refused(refusal)) => Err(Unready::Refused(long_reason(refusal))),
        Err(Unready::OutOfMemory) => Err(Unready::OutOfMemory),
    }
}

// What a clerk's words, which name this depositor, and the text of their sheet come to. Refused is
// what keeps the text from being a sheet (30 to 33).
fn slip_in<'a>(
    alloc: Global,
    words: &ClerkWords<'a>,
    who: Who,
    text: Vec<u8>,
) -> Result<Slip<'a>, Unready>
    requires { depositor_of words.now ≡ Some who }

    ensures slip { IfOk result (λ slip. IsSlipOf (reads_as text.items) words.now slip.who
        slip.words slip.text.items slip.sheet) }
    ensures none { IfErr result
        (IfRefused (λ refusal. sheet_read words.now.kind text.items ≡ Err refusal)) }
{
    let sheet = sheet_of(alloc, words.kind, &text)?;
    Ok(Slip {
        who,
        words: *words,
        text,
        sheet,
    })
}

/// What a clerk's words and the file with its sheet come to. Refused are 32, a word that can't be
/// read, and what keeps a sheet from being one (30 to 33; 33 or 32 where it has more than 1,048,576
/// bytes); a file that can't be read is Device (44).
pub fn slip_of<'a, R: FileSystem + AllocGlobal>(
    rt: &R,
    words: &ClerkWords<'a>,
) -> Result<Slip<'a>, LineStop>
    ensures slip { IfOk result (λ slip. IsSlipOf (R.reads rt.now) words.now slip.who slip.words
        slip.text.items slip.sheet) }
    ensures none { IfErr result (IfLineRefused (IsNoSlip (R.reads rt.now) words.now)) }
    ensures unread { IfErr result (IfLineStopped HasDeviceFault) }
{
    match read_slip(rt, words)? {
        Some(read) => Ok(slip_in(rt.alloc(), words, read.who, read.text)?),
        None => Err(LineStop::Refused(Refusal::BadText)),
    }
}

// The text of a sheet of a kind, where it is one. Refused is what keeps it from being one (30 to
// 33).
fn test_sheet(alloc: Global, kind: SheetKind, text: Vec<u8>) -> Result<Vec<u8>, Unready>
    ensures same { IfOk result (λ given. given.items ≡ text.items) }
    ensures sheet { IfOk result
        (λ given. (sheet : List Line) × (sheet_read kind given.items ≡ Ok sheet)) }
    ensures none { IfErr result
        (IfRefused (λ refusal. sheet_read kind text.items ≡ Err refusal)) }
{
    sheet_of(alloc, kind, &text)?;
    Ok(text)
}

/// The text of a clerk's sheet, tested as `slip_of` tests it, for a server that reads it again.
pub fn sheet_text_of<R: FileSystem + AllocGlobal>(
    rt: &R,
    words: &ClerkWords<'_>,
) -> Result<Vec<u8>, LineStop>
    ensures from { IfOk result (λ text. IsSheetRead (R.reads rt.now) words.now text.items) }
    ensures text { IfOk result (λ text. (who : Partner) × (sheet : List Line)
        × (depositor_of words.now ≡ Some who)
        × (sheet_read words.now.kind text.items ≡ Ok sheet)) }
    ensures none { IfErr result (IfLineRefused (IsNoSlip (R.reads rt.now) words.now)) }
    ensures unread { IfErr result (IfLineStopped HasDeviceFault) }
{
    match read_slip(rt, words)? {
        Some(Read { text, .. }) => Ok(test_sheet(rt.alloc(), words.kind, text)?),
        None => Err(LineStop::Refused(Refusal::BadText)),
    }
}

/// The lines of a clerk's sheet in a text, by item and then lot; None where it makes no sheet.
pub(crate) fn lines_in(
    alloc: Global,
    words: &ClerkWords<'_>,
    text: &[u8],
) -> Result<Option<Vec<Goods>>, AllocError>
    ensures { (sheet : List Line)
        → sheet_of_text Today words.now.kind text.now ≡ Ok sheet
        → IfOk result (λ found. option_map (λ lines. lines.items) found ≡ Some sheet) }
{
    match sheet(alloc, words.kind, text) {
        Ok(sheet) => Ok(Some(sheet.lines(alloc)?)),
        Err(Unready::Refused(_)) => Ok(None),
        Err(Unready::OutOfMemory) => Err(AllocError),
    }
}

/// What a clerk did, as a command.
pub fn clerk<'a>(slip: &'a Slip<'_>) -> Command<'a>
    ensures told { asked result ≡ command_of slip.now.who slip.now.words slip.now.sheet }
    ensures given { is_command Today (asked result) ≡ true }
{
    let words = &slip.words;
    Command::Clerk {
        who: slip.who,
        ticket: words.ticket.as_bytes(),
        act: act_of(words.kind, words.number.as_bytes(), &slip.sheet),
    }
}
