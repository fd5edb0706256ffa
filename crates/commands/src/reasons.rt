//! Why words, files or the book refuse something, for people: the word, or the line of the sheet
//! and what the book has of its pair.
ghost use Rattle.std.specs.Io.KnownBytes.{Appends};
ghost use Rattle.std.specs.Prelude.{◌≡◌, ◌++◌, false, List, Ok, IfErr, IfOk, OnOk, codes, count_by, find, is_some, option_copied};
ghost use Rattle.definitions.specs.Rules.{Today};
ghost use Rattle.definitions.specs.Means.{Line};
ghost use Rattle.sheet_texts.specs.Texts.{sheet_of_text};
ghost use Rattle.store.specs.Standing.{IsUnchanged};
ghost use Rattle.commands.specs.Failures.{IsDeviceBy, WasRefused};
ghost use Rattle.commands.specs.Reasons as meant;
ghost use Rattle.commands.specs.Stops.{IsReasonStopped};
ghost use Rattle.commands.specs.Telling.{refused_line};

use crate::causes::{about_line, at_line};
use crate::printing::Printer;
use crate::slips::{Slip, clerk, lines_in};
use crate::told::{CommandError, ExitStatus, tell_refusal};
use crate::verbosity::Verbosity;
use command_line::{ClerkWords, Task};
use folders::FileSystem;
use itoa::Buffer;
use sheet_texts::line_of_pair;
use std::alloc::{AllocError, Global};
use std::io;
use store::{Goods, Keeper, Key, KnownOrder, Page, Refusal, SheetKind, need};

/// A pair of item and lot that a book keeps, as far as it may be why a clerk's sheet is refused.
#[derive(Clone, Copy)]
pub struct KeptPair<'a> {
    /// The item.
    pub item: &'a [u8],
    /// The lot.
    pub lot: &'a [u8],
    /// How much of it is reserved, of a pick by its order.
    pub reserved: u64,
    /// Whether it is known that a count named it.
    pub is_counted: bool,
}

// The text of an identifier.
fn text_of(bytes: &[u8]) -> &str {
    str::from_utf8(bytes).unwrap_or("")
}

// What is kept of a line's pair, if anything is.
fn kept_of<'k, 'a>(kept: &'k [KeptPair<'a>], line: &Goods) -> Option<&'k KeptPair<'a>>
    ensures { option_copied result ≡ meant.kept_of kept.now line.now }
{
    kept.iter().find(|pair| pair.item == line.item.as_slice() && pair.lot == line.lot.as_slice())
}

// How much is reserved of a line's pair.
fn reserved_of(kept: &[KeptPair<'_>], line: &Goods) -> u64
    ensures { result ≡ meant.reserved_of kept.now line.now }
{
    match kept_of(kept, line) {
        Some(pair) => pair.reserved,
        None => 0,
    }
}

// Whether a count may not have named a line's pair.
fn is_doubtful(kept: &[KeptPair<'_>], line: &Goods) -> bool
    ensures { result ≡ meant.is_doubtful kept.now line.now }
{
    match kept_of(kept, line) {
        Some(pair) => !pair.is_counted,
        None => true,
    }
}

// How many lines have pairs that a count may not have named.
fn doubtful(lines: &[Goods], kept: &[KeptPair<'_>]) -> usize
    ensures { result ≡ count_by (meant.is_doubtful kept.now) lines.now }
{
    lines.iter().filter(|line| is_doubtful(kept, line)).count()
}

// The first of them.
fn first_doubtful<'l>(lines: &'l [Goods], kept: &[KeptPair<'_>]) -> Option<&'l Goods>
    ensures { option_copied result ≡ find (meant.is_doubtful kept.now) lines.now }
{
    lines.iter().find(|line| is_doubtful(kept, line))
}

// The only one of them; of several it isn't known which it is.
fn only_doubtful<'l>(lines: &'l [Goods], kept: &[KeptPair<'_>]) -> Option<&'l Goods>
    ensures { option_copied result ≡ meant.only_doubtful kept.now lines.now }
{
    if doubtful(lines, kept) == 1 {
        first_doubtful(lines, kept)
    } else {
        None
    }
}

// Whether nothing is kept of a line's pair.
fn is_unkept(kept: &[KeptPair<'_>], line: &Goods) -> bool
    ensures { result ≡ meant.is_unkept kept.now line.now }
{
    kept_of(kept, line).is_none()
}

// The first line of whose pair nothing is kept.
fn first_unkept<'l>(lines: &'l [Goods], kept: &[KeptPair<'_>]) -> Option<&'l Goods>
    ensures { option_copied result ≡ find (meant.is_unkept kept.now) lines.now }
{
    lines.iter().find(|line| is_unkept(kept, line))
}

// The line whose pair no count has named: the first one of whose pair nothing is kept, or the only
// one of which it isn't known that a count named it.
fn unnamed<'l>(lines: &'l [Goods], kept: &[KeptPair<'_>]) -> Option<&'l Goods>
    ensures { option_copied result ≡ meant.unnamed kept.now lines.now }
{
    match first_unkept(lines, kept) {
        Some(line) => Some(line),
        None => only_doubtful(lines, kept),
    }
}

// Whether more of a line's pair is picked than is reserved.
fn is_over(kept: &[KeptPair<'_>], line: &Goods) -> bool
    ensures { result ≡ meant.is_over kept.now line.now }
{
    reserved_of(kept, line) < u64::from(line.quantity)
}

// The first line of whose pair more is picked than is reserved.
fn first_over<'l>(lines: &'l [Goods], kept: &[KeptPair<'_>]) -> Option<&'l Goods>
    ensures { option_copied result ≡ find (meant.is_over kept.now) lines.now }
{
    lines.iter().find(|line| is_over(kept, line))
}

// Whether less of a line's pair is left than is reserved.
fn is_under(kept: &[KeptPair<'_>], line: &Goods) -> bool
    ensures { result ≡ meant.is_under kept.now line.now }
{
    u64::from(line.quantity) < reserved_of(kept, line)
}

// The first line of whose pair less is left than is reserved.
fn first_under<'l>(lines: &'l [Goods], kept: &[KeptPair<'_>]) -> Option<&'l Goods>
    ensures { option_copied result ≡ find (meant.is_under kept.now) lines.now }
{
    lines.iter().find(|line| is_under(kept, line))
}

// The line of a sheet that is the reason of a refusal, by what is kept of the pairs; None of a
// refusal that no line is the reason of, or where it isn't known.
fn blamed<'l>(refusal: Refusal, lines: &'l [Goods], kept: &[KeptPair<'_>]) -> Option<&'l Goods>
    ensures { option_copied result ≡ meant.blamed refusal kept.now lines.now }
{
    match refusal {
        Refusal::NotReserved => first_over(lines, kept),
        Refusal::UnknownLot => unnamed(lines, kept),
        Refusal::BelowReserved => first_under(lines, kept),
        _ => None,
    }
}

// Says of a line what is done with its pair, and how much is reserved of it.
fn compared(alloc: Global, line: &Goods, deed: &str, reserved: u64) -> Result<String, AllocError> {
    let (mut amount, mut kept) = (Buffer::new(), Buffer::new());
    let why = [
        text_of(&line.item),
        " ",
        text_of(&line.lot),
        ": ",
        amount.format(line.quantity),
        " ",
        deed,
        ", and ",
        kept.format(reserved),
        " reserved",
    ];
    why.concat(alloc)
}

// Says of a line that no count has named its pair.
fn not_counted(alloc: Global, line: &Goods) -> Result<String, AllocError> {
    let (item, lot) = (text_of(&line.item), text_of(&line.lot));
    [item, " ", lot, ": no count has named it"].concat(alloc)
}

// What is wrong with a line, by how much is reserved of its pair.
fn wrong_with(
    alloc: Global,
    refusal: Refusal,
    line: &Goods,
    reserved: u64,
) -> Result<String, AllocError> {
    match refusal {
        Refusal::NotReserved => compared(alloc, line, "picked", reserved),
        Refusal::BelowReserved => compared(alloc, line, "on hand", reserved),
        _ => not_counted(alloc, line),
    }
}

/// Why the sheet in a file, which has this text, is refused (26, 27 or 28) by a book that keeps
/// these pairs, as a line without its end: the file's name, the line and what is wrong there. None
/// for another refusal, or where it isn't known.
pub fn reason(
    alloc: Global,
    refusal: Refusal,
    words: &ClerkWords<'_>,
    text: &[u8],
    kept: &[KeptPair<'_>],
) -> Result<Option<String>, AllocError>
    ensures blamed { (sheet : List Line)
        → sheet_of_text Today words.now.kind text.now ≡ Ok sheet
        → IfOk result (λ why. is_some why ≡ is_some (meant.blamed refusal kept.now sheet)) }
{
    let Some(lines) = lines_in(alloc, words, text)? else {
        return Ok(None);
    };
    let Some(line) = blamed(refusal, &lines, kept) else {
        return Ok(None);
    };
    let wrong = wrong_with(alloc, refusal, line, reserved_of(kept, line))?;
    match line_of_pair(alloc, text, &line.item, &line.lot)? {
        Some(number) => Ok(Some(at_line(alloc, words.sheet, number, &wrong)?)),
        None => Ok(Some(wrong)),
    }
}

// What an order has reserved.
fn held_of(alloc: Global, order: &KnownOrder) -> Result<Vec<KeptPair<'_>>, AllocError> {
    let mut kept = Vec::new(alloc);
    for share in &order.reserved {
        kept.push(KeptPair {
            item: &share.item,
            lot: &share.lot,
            reserved: u64::from(share.quantity),
            is_counted: true,
        })?;
    }
    Ok(kept)
}

// The pairs of a page that a count has named.
fn counted_of(alloc: Global, page: &Page) -> Result<Vec<KeptPair<'_>>, AllocError> {
    let mut kept = Vec::new(alloc);
    for row in page.rows() {
        if row.since > 0 {
            kept.push(KeptPair {
                item: &row.item,
                lot: &row.lot,
                reserved: row.reserved,
                is_counted: true,
            })?;
        }
    }
    Ok(kept)
}

// Why a page refuses a recount, as far as a line of the sheet is the reason: a pair that no count
// has named comes first.
fn not_recounted(
    alloc: Global,
    page: &Page,
    slip: &Slip<'_>,
) -> Result<Option<String>, AllocError> {
    let kept = counted_of(alloc, page)?;
    match reason(alloc, Refusal::UnknownLot, &slip.words, &slip.text, &kept)? {
        Some(why) => Ok(Some(why)),
        None => reason(
            alloc,
            Refusal::BelowReserved,
            &slip.words,
            &slip.text,
            &kept,
        ),
    }
}

// Why a page refuses a pick, as far as a line of the sheet is the reason.
fn not_picked(alloc: Global, page: &Page, slip: &Slip<'_>) -> Result<Option<String>, AllocError> {
    let Some(order) = page.order(slip.words.number.as_bytes()) else {
        return Ok(None);
    };
    if !order.is_open {
        return Ok(None);
    }
    let kept = held_of(alloc, order)?;
    reason(alloc, Refusal::NotReserved, &slip.words, &slip.text, &kept)
}

// Why a page refuses what a clerk did under a new ticket, as far as a line of the sheet is the
// reason.
fn page_reason(alloc: Global, page: &Page, slip: &Slip<'_>) -> Result<Option<String>, AllocError> {
    match slip.words.kind {
        SheetKind::Count => Ok(None),
        SheetKind::Pick => not_picked(alloc, page, slip),
        SheetKind::Recount => not_recounted(alloc, page, slip),
    }
}

/// Tells what a refusal is about, as a line.
pub fn tell_cause<E: io::Write>(err: &mut E, cause: &str) -> io::Result<()>
    ensures { OnOk result (Appends (E.contents err.old) (E.contents err.new)
        (cause.now ++ codes "\n")) }
{
    err.write_all(cause.as_bytes())?;
    err.write_all(b"\n")
}

/// Tells why a line's words or files are refused (30 to 33), and where it is asked for which of
/// them it is. What can't be told of that is left out: the refusal stands.
pub fn tell_unready<R: FileSystem + AllocGlobal, E: Printer>(
    rt: &R,
    task: &Task<'_>,
    refusal: Refusal,
    verbosity: Verbosity,
    err: &mut E,
) -> Result<ExitStatus, CommandError>
    ensures says { IfOk result (λ status. status ≡ ExitStatus.Refused) }
    ensures quiet { verbosity.explains ≡ false
        → OnOk result (Appends (E.contents err.old) (E.contents err.new) (refused_line refusal)) }
    ensures caused { IfErr result (IsDeviceBy
        (WasRefused (E.failures err.old) (E.failures err.new))) }
{
    let status = tell_refusal(rt.alloc(), err, refusal)?;
    if verbosity.explains {
        if let Ok(Some(cause)) = about_line(rt, task, refusal) {
            let _ = tell_cause(err, &cause);
        }
    }
    Ok(status)
}

/// Tells why a book refuses what a clerk did, where a line of the sheet is the reason, and not the
/// ticket, which another deed has. The book stays as it is. What keeps it from being told is a
/// fault of the book, want of memory, or `err`.
pub fn tell_reason<K: Keeper, E: io::Write>(
    alloc: Global,
    book: &mut K,
    slip: &Slip<'_>,
    err: &mut E,
) -> Result<(), CommandError>
    ensures same { IsUnchanged (K.standing book.old) (K.standing book.new) }
    ensures stopped { IfErr result (IsReasonStopped (K.standing book.old) (K.standing book.new)) }
{
    let ticket = Key::Ticket(slip.words.ticket.as_bytes());
    if book.known(slip.who, &ticket)?.is_some() {
        return Ok(());
    }
    let need = need(alloc, &clerk(slip))?;
    let Some(page) = book.load(slip.who, &need)? else {
        return Ok(());
    };
    if let Some(why) = page_reason(alloc, &page, slip)? {
        tell_cause(err, &why)?;
    }
    Ok(())
}
