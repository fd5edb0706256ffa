//! What is shown of a book, which stays as it is.
ghost use Rattle.std.specs.Prelude.{◌≡◌, false, Some, IfErr, IfOk, OnErr, option_map};
ghost use Rattle.definitions.specs.Decision.{standing as history_of};
ghost use Rattle.definitions.specs.Header.{who_of};
ghost use Rattle.definitions.specs.Register.{own};
ghost use Rattle.definitions.specs.Rows.{stock_of, outbox_of};
ghost use Rattle.store.specs.Open.{open_of, enrolled};
ghost use Rattle.store.specs.Sent.{text_of};
ghost use Rattle.commands.specs.Looking.{IsAskedFor, IsLook, asked_for, is_readable};
ghost use Rattle.commands.specs.Failures.{IsDeviceBy, WasEitherRefused, WasRefused};
ghost use Rattle.commands.specs.Printing.{AppendsFront};
ghost use Rattle.commands.specs.Refused.{IsLookSaid, IsWhySaid, refused_advice, refused_order, refused_stranger};
ghost use Rattle.commands.specs.Stops.{IsDeviceStop};
ghost use Rattle.commands.specs.Shown.{IsLookAt, IsShown, shown_stock, shown_open, shown_list, shown_text, shown_advice, shown_order, shown_depositors};

use crate::dock_sheets::{picking_text, receiving_text};
use crate::printing::{Printer, print};
use crate::told::{CommandError, ExitStatus, tell_refusal, tell_text};
use command_line::Show;
use intake::owner;
use reports::{depositor_list, need_of_advice, open_report, outbox_list, stock_text};
use std::alloc::Global;
use store::{Fault, Keeper, Need, Refusal, Who};
use unready::Unready;

/// What is to be shown, its words tested.
#[derive(Clone, Copy)]
pub enum Look<'a> {
    /// What a depositor has, as CSV or not.
    Stock(Who, bool),
    /// What a depositor has open.
    Open(Who),
    /// The receiving sheet of a depositor's advice, by its number, as CSV or not.
    Advice(Who, &'a str, bool),
    /// The picking sheet of a depositor's order, by its number, as CSV or not.
    Order(Who, &'a str, bool),
    /// What went out to a depositor: the text of this number, or the list.
    Outbox(Who, Option<u32>),
    /// Who is enrolled.
    Depositors,
}

// The depositor that a word names.
fn named(who: &str) -> Option<Who>
    ensures { result ≡ who_of who.now }
{
    Who::new(who.as_bytes())
}

// What a line asks to be shown; None where one of its words can't be read.
fn read<'a>(show: &Show<'a>) -> Option<Look<'a>>
    ensures { result ≡ asked_for show.now }
{
    match show {
        Show::Stock { who, is_csv } => Some(Look::Stock(named(*who)?, *is_csv)),
        Show::Open { who } => Some(Look::Open(named(*who)?)),
        Show::Advice {
            who,
            number,
            is_csv,
        } => Some(Look::Advice(
            owner((*who).as_bytes(), (*number).as_bytes())?,
            *number,
            *is_csv,
        )),
        Show::Order {
            who,
            number,
            is_csv,
        } => Some(Look::Order(
            owner((*who).as_bytes(), (*number).as_bytes())?,
            *number,
            *is_csv,
        )),
        Show::Outbox { who, number } => Some(Look::Outbox(named(*who)?, *number)),
        Show::Depositors => Some(Look::Depositors),
    }
}

/// What a line asks to be shown. Refused is 32, a word that can't be read.
pub fn ask<'a>(show: &Show<'a>) -> Result<Look<'a>, Refusal>
    ensures asked { IfOk result (IsAskedFor show.now) }
    ensures refused { IfErr result
        (λ refusal. (refusal ≡ Refusal.BadText) × (is_readable show.now ≡ false)) }
{
    match read(show) {
        Some(asked) => Ok(asked),
        None => Err(Refusal::BadText),
    }
}

// Prints what a depositor has: the stock report, or its export as CSV. Refused is 20, an unknown
// depositor.
#[tactic(auto, using(crate::proofs::TellingLaws::appends_nothing))]
fn stock<K: Keeper, W: Printer, E: Printer>(
    alloc: Global,
    book: &mut K,
    who: Who,
    is_csv: bool,
    out: &mut W,
    err: &mut E,
) -> Result<ExitStatus, CommandError>
    ensures looked { IsLookAt (K.standing book.old) (K.standing book.new)
        (λ L. shown_stock is_csv (stock_of L who))
        (W.contents out.old) (W.contents out.new) result }
    ensures said { IsWhySaid (K.standing book.old) (K.standing book.new)
        (λ L. refused_stranger (stock_of L who))
        (E.contents err.old) (E.contents err.new) result }
    ensures caused { IfErr result (IsDeviceBy (WasEitherRefused (W.failures out.old)
        (W.failures out.new) (E.failures err.old) (E.failures err.new))) }
{
    match store::stock(book, who)? {
        Some(rows) => {
            print(out, &stock_text(alloc, &rows, is_csv)?)?;
            Ok(ExitStatus::Done)
        }
        None => tell_refusal(alloc, err, Refusal::UnknownDepositor),
    }
}

// Prints what a depositor has open. Refused is 20, an unknown depositor.
#[tactic(auto, using(crate::proofs::TellingLaws::appends_nothing))]
fn open<K: Keeper, W: Printer, E: Printer>(
    alloc: Global,
    book: &mut K,
    who: Who,
    out: &mut W,
    err: &mut E,
) -> Result<ExitStatus, CommandError>
    ensures looked { IsLookAt (K.standing book.old) (K.standing book.new)
        (λ L. shown_open (open_of L who))
        (W.contents out.old) (W.contents out.new) result }
    ensures said { IsWhySaid (K.standing book.old) (K.standing book.new)
        (λ L. refused_stranger (open_of L who))
        (E.contents err.old) (E.contents err.new) result }
    ensures caused { IfErr result (IsDeviceBy (WasEitherRefused (W.failures out.old)
        (W.failures out.new) (E.failures err.old) (E.failures err.new))) }
{
    match book.open(who)? {
        Some(page) => {
            print(out, &open_report(alloc, &page)?)?;
            Ok(ExitStatus::Done)
        }
        None => tell_refusal(alloc, err, Refusal::UnknownDepositor),
    }
}

// Prints the receiving sheet of an advice. Refused are 20, an unknown depositor, 22, an unknown
// advice, and 23, one that was counted.
#[tactic(auto, using(crate::proofs::TellingLaws::appends_nothing))]
fn advice<K: Keeper, W: Printer, E: Printer>(
    alloc: Global,
    book: &mut K,
    who: Who,
    number: &str,
    is_csv: bool,
    out: &mut W,
    err: &mut E,
) -> Result<ExitStatus, CommandError>
    ensures looked { IsLookAt (K.standing book.old) (K.standing book.new)
        (λ L. shown_advice is_csv number.now (history_of (own L who)))
        (W.contents out.old) (W.contents out.new) result }
    ensures said { IsWhySaid (K.standing book.old) (K.standing book.new)
        (λ L. refused_advice is_csv number.now (history_of (own L who)))
        (E.contents err.old) (E.contents err.new) result }
    ensures caused { IfErr result (IsDeviceBy (WasEitherRefused (W.failures out.old)
        (W.failures out.new) (E.failures err.old) (E.failures err.new))) }
{
    let need = need_of_advice(alloc, number.as_bytes())?;
    let Some(page) = book.load(who, &need)? else {
        return tell_refusal(alloc, err, Refusal::UnknownDepositor);
    };
    match receiving_text(alloc, &page, number.as_bytes(), is_csv) {
        Ok(sheet) => {
            print(out, &sheet)?;
            Ok(ExitStatus::Done)
        }
        Err(Unready::Refused(refusal)) => tell_refusal(alloc, err, refusal),
        Err(Unready::OutOfMemory) => Err(CommandError::Fault(Fault::OutOfMemory)),
    }
}

// Prints the picking sheet of an order. Refused are 20, an unknown depositor, 24, an unknown order,
// and 25, an order that was picked.
#[tactic(auto, using(crate::proofs::TellingLaws::appends_nothing))]
fn order<K: Keeper, W: Printer, E: Printer>(
    alloc: Global,
    book: &mut K,
    who: Who,
    number: &str,
    is_csv: bool,
    out: &mut W,
    err: &mut E,
) -> Result<ExitStatus, CommandError>
    ensures looked { IsLookAt (K.standing book.old) (K.standing book.new)
        (λ L. shown_order is_csv number.now (history_of (own L who)))
        (W.contents out.old) (W.contents out.new) result }
    ensures said { IsWhySaid (K.standing book.old) (K.standing book.new)
        (λ L. refused_order is_csv number.now (history_of (own L who)))
        (E.contents err.old) (E.contents err.new) result }
    ensures caused { IfErr result (IsDeviceBy (WasEitherRefused (W.failures out.old)
        (W.failures out.new) (E.failures err.old) (E.failures err.new))) }
{
    let need = Need::order(alloc, number.as_bytes())?;
    let Some(page) = book.load(who, &need)? else {
        return tell_refusal(alloc, err, Refusal::UnknownDepositor);
    };
    match picking_text(alloc, &page, number.as_bytes(), is_csv) {
        Ok(sheet) => {
            print(out, &sheet)?;
            Ok(ExitStatus::Done)
        }
        Err(Unready::Refused(refusal)) => tell_refusal(alloc, err, refusal),
        Err(Unready::OutOfMemory) => Err(CommandError::Fault(Fault::OutOfMemory)),
    }
}

// Prints the list of what went out to a depositor. Refused is 20, an unknown depositor.
#[tactic(auto, using(crate::proofs::TellingLaws::appends_nothing))]
fn outbox<K: Keeper, W: Printer, E: Printer>(
    alloc: Global,
    book: &mut K,
    who: Who,
    out: &mut W,
    err: &mut E,
) -> Result<ExitStatus, CommandError>
    ensures looked { IsLookAt (K.standing book.old) (K.standing book.new)
        (λ L. shown_list (outbox_of (K.standing book.old).warehouse L who))
        (W.contents out.old) (W.contents out.new) result }
    ensures said { IsWhySaid (K.standing book.old) (K.standing book.new)
        (λ L. refused_stranger (outbox_of (K.standing book.old).warehouse L who))
        (E.contents err.old) (E.contents err.new) result }
    ensures caused { IfErr result (IsDeviceBy (WasEitherRefused (W.failures out.old)
        (W.failures out.new) (E.failures err.old) (E.failures err.new))) }
{
    match store::outbox(book, who)? {
        Some(rows) => {
            print(out, &outbox_list(alloc, &rows)?)?;
            Ok(ExitStatus::Done)
        }
        None => tell_refusal(alloc, err, Refusal::UnknownDepositor),
    }
}

// Prints the text that went out, if one did.
fn tell_content<W: Printer>(text: Option<Vec<u8>>, out: &mut W) -> Result<ExitStatus, CommandError>
    ensures shown { IfOk result
        (λ status. IsShown (shown_text (Some (option_map (λ t. t.items) text)))
        (W.contents out.old) (W.contents out.new) status) }
    ensures front { OnErr result (AppendsFront (W.contents out.old) (W.contents out.new)
        (shown_text (Some (option_map (λ t. t.items) text))).0) }
    ensures halted { IfErr result IsDeviceStop }
    ensures caused { IfErr result (IsDeviceBy
        (WasRefused (W.failures out.old) (W.failures out.new))) }
{
    match text {
        Some(text) => {
            tell_text(out, &text)?;
            Ok(ExitStatus::Done)
        }
        None => Ok(ExitStatus::Refused),
    }
}

// Prints the text of a number that went out to a depositor, and LF. Refused is 20, an unknown
// depositor; where nothing went out under the number nothing is told, and the status says so.
#[tactic(auto, using(crate::proofs::TellingLaws::appends_nothing))]
fn content<K: Keeper, W: Printer, E: Printer>(
    alloc: Global,
    book: &mut K,
    who: Who,
    number: u32,
    out: &mut W,
    err: &mut E,
) -> Result<ExitStatus, CommandError>
    ensures looked { IsLookAt (K.standing book.old) (K.standing book.new)
        (λ L. shown_text (text_of (K.standing book.old).warehouse L who number))
        (W.contents out.old) (W.contents out.new) result }
    ensures said { IsWhySaid (K.standing book.old) (K.standing book.new)
        (λ L. refused_stranger (text_of (K.standing book.old).warehouse L who number))
        (E.contents err.old) (E.contents err.new) result }
    ensures caused { IfErr result (IsDeviceBy (WasEitherRefused (W.failures out.old)
        (W.failures out.new) (E.failures err.old) (E.failures err.new))) }
{
    match store::text(book, who, number)? {
        Some(text) => tell_content(text, out),
        None => tell_refusal(alloc, err, Refusal::UnknownDepositor),
    }
}

// Prints who is enrolled.
#[tactic(auto, using(crate::proofs::TellingLaws::appends_nothing))]
fn depositors<K: Keeper, W: Printer>(
    alloc: Global,
    book: &mut K,
    out: &mut W,
) -> Result<ExitStatus, CommandError>
    ensures looked { IsLookAt (K.standing book.old) (K.standing book.new)
        (λ L. shown_depositors (enrolled L))
        (W.contents out.old) (W.contents out.new) result }
    ensures caused { IfErr result (IsDeviceBy
        (WasRefused (W.failures out.old) (W.failures out.new))) }
{
    let whos = book.depositors()?;
    print(out, &depositor_list(alloc, &whos)?)?;
    Ok(ExitStatus::Done)
}

/// Shows of a book what is asked for. Refused are 20, an unknown depositor, of a receiving sheet
/// 22, an unknown advice, and 23, one that was counted, and of a picking sheet 24, an unknown
/// order, and 25, one that was picked; a number without a text is told by the status alone.
pub fn show<K: Keeper, W: Printer, E: Printer>(
    alloc: Global,
    book: &mut K,
    asked: &Look<'_>,
    out: &mut W,
    err: &mut E,
) -> Result<ExitStatus, CommandError>
    ensures looked { IsLook (K.standing book.old) (K.standing book.new) asked.now
        (W.contents out.old) (W.contents out.new) result }
    ensures said { IsLookSaid (K.standing book.old) (K.standing book.new) asked.now
        (E.contents err.old) (E.contents err.new) result }
    ensures caused { IfErr result (IsDeviceBy (WasEitherRefused (W.failures out.old)
        (W.failures out.new) (E.failures err.old) (E.failures err.new))) }
{
    match *asked {
        Look::Stock(who, is_csv) => stock(alloc, book, who, is_csv, out, err),
        Look::Open(who) => open(alloc, book, who, out, err),
        Look::Advice(who, number, is_csv) => advice(alloc, book, who, number, is_csv, out, err),
        Look::Order(who, number, is_csv) => order(alloc, book, who, number, is_csv, out, err),
        Look::Outbox(who, None) => outbox(alloc, book, who, out, err),
        Look::Outbox(who, Some(number)) => content(alloc, book, who, number, out, err),
        Look::Depositors => depositors(alloc, book, out),
    }
}
