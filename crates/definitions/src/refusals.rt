ghost use Rattle.std.specs.Prelude.{◌≡◌, IfOk};
ghost use Rattle.definitions.specs.Refusals.{Note, refusal_number, refusal_numbered, refusal_name, plain_name, refusal_line};

use crate::numbers::zero_filled;
use crate::widths::NOTE_DIGITS;
use std::alloc::{AllocError, Global};

/// Why a command is refused. The book is as before.
#[derive(Clone, Copy, PartialEq, Eq)]
pub enum Refusal {
    /// 1: the text is no interchange that can be read.
    Unreadable,
    /// 2: a condition on the interchange's header or segments, with its note code (TA105).
    Note(u8),
    /// 3: the control number is known of other bytes.
    Duplicate,
    /// 20: the depositor isn't enrolled.
    UnknownDepositor,
    /// 21: the ticket is known of another act.
    TicketUsed,
    /// 22: no advice has this shipment number.
    UnknownAdvice,
    /// 23: the advice was counted before.
    AdviceClosed,
    /// 24: no order has this number.
    UnknownOrder,
    /// 25: the order was picked before.
    OrderClosed,
    /// 26: a line exceeds what the order has reserved of its pair.
    NotReserved,
    /// 27: no count named a pair of the sheet.
    UnknownLot,
    /// 28: a new amount is below what is reserved of its pair.
    BelowReserved,
    /// 29: no line differs from what is on hand.
    NoDifference,
    /// 30: a quantity is over its limit.
    TooMuch,
    /// 31: a pair stands twice in a sheet.
    RepeatedLine,
    /// 32: a text that can't be read.
    BadText,
    /// 33: a sheet has too many lines.
    TooManyLines,
    /// 34: the depositor's numbers are used up.
    NumbersUsedUp,
    /// 35: the depositor is enrolled already.
    AlreadyEnrolled,
}

/// Those that are told by number: all but a note, which is told by an interchange.
pub const NUMBERED: [Refusal; 18] = [
    Refusal::Unreadable,
    Refusal::Duplicate,
    Refusal::UnknownDepositor,
    Refusal::TicketUsed,
    Refusal::UnknownAdvice,
    Refusal::AdviceClosed,
    Refusal::UnknownOrder,
    Refusal::OrderClosed,
    Refusal::NotReserved,
    Refusal::UnknownLot,
    Refusal::BelowReserved,
    Refusal::NoDifference,
    Refusal::TooMuch,
    Refusal::RepeatedLine,
    Refusal::BadText,
    Refusal::TooManyLines,
    Refusal::NumbersUsedUp,
    Refusal::AlreadyEnrolled,
];

// `Note(006)`, with the code in three digits.
fn note_name(alloc: Global, code: u8) -> Result<Vec<u8>, AllocError>
    ensures { IfOk result (λ name. name.items ≡ refusal_name (Note code)) }
{
    let mut name = Vec::new(alloc);
    name.extend_from_slice(b"Note(")?;
    name.extend_from_slice(&zero_filled::<NOTE_DIGITS>(u64::from(code)))?;
    name.push(b')')?;
    Ok(name)
}

impl Refusal {
    /// Its number.
    pub fn number(&self) -> u8
        ensures { result ≡ refusal_number self.now }
    {
        match self {
            Refusal::Unreadable => 1,
            Refusal::Note(_) => 2,
            Refusal::Duplicate => 3,
            Refusal::UnknownDepositor => 20,
            Refusal::TicketUsed => 21,
            Refusal::UnknownAdvice => 22,
            Refusal::AdviceClosed => 23,
            Refusal::UnknownOrder => 24,
            Refusal::OrderClosed => 25,
            Refusal::NotReserved => 26,
            Refusal::UnknownLot => 27,
            Refusal::BelowReserved => 28,
            Refusal::NoDifference => 29,
            Refusal::TooMuch => 30,
            Refusal::RepeatedLine => 31,
            Refusal::BadText => 32,
            Refusal::TooManyLines => 33,
            Refusal::NumbersUsedUp => 34,
            Refusal::AlreadyEnrolled => 35,
        }
    }

    /// The refusal of this number, if it is one's. A note has its code beside its number, so there
    /// is none for 2.
    pub fn numbered(number: u64) -> Option<Refusal>
        ensures { result ≡ refusal_numbered number }
    {
        NUMBERED
            .iter()
            .copied()
            .find(|refusal| u64::from(refusal.number()) == number)
    }

    // Its name without a note's code.
    fn plain_name(&self) -> &'static str
        ensures { result.now ≡ plain_name self.now }
    {
        match self {
            Refusal::Unreadable => "Unreadable",
            Refusal::Note(_) => "Note",
            Refusal::Duplicate => "Duplicate",
            Refusal::UnknownDepositor => "UnknownDepositor",
            Refusal::TicketUsed => "TicketUsed",
            Refusal::UnknownAdvice => "UnknownAdvice",
            Refusal::AdviceClosed => "AdviceClosed",
            Refusal::UnknownOrder => "UnknownOrder",
            Refusal::OrderClosed => "OrderClosed",
            Refusal::NotReserved => "NotReserved",
            Refusal::UnknownLot => "UnknownLot",
            Refusal::BelowReserved => "BelowReserved",
            Refusal::NoDifference => "NoDifference",
            Refusal::TooMuch => "TooMuch",
            Refusal::RepeatedLine => "RepeatedLine",
            Refusal::BadText => "BadText",
            Refusal::TooManyLines => "TooManyLines",
            Refusal::NumbersUsedUp => "NumbersUsedUp",
            Refusal::AlreadyEnrolled => "AlreadyEnrolled",
        }
    }

    /// Its name, a note's with the code in three digits, as `Note(006)`. Want of memory is the one
    /// error.
    pub fn name(&self, alloc: Global) -> Result<Vec<u8>, AllocError>
        ensures { IfOk result (λ name. name.items ≡ refusal_name self.now) }
    {
        match self {
            Refusal::Note(code) => note_name(alloc, *code),
            other => other.plain_name().as_bytes().to_vec(alloc),
        }
    }

    /// Number and name, a note's without its code, and LF. It takes no memory.
    pub fn line(&self) -> &'static [u8]
        ensures { result.now ≡ refusal_line self.now }
    {
        match self {
            Refusal::Unreadable => b"1 Unreadable\n",
            Refusal::Note(_) => b"2 Note\n",
            Refusal::Duplicate => b"3 Duplicate\n",
            Refusal::UnknownDepositor => b"20 UnknownDepositor\n",
            Refusal::TicketUsed => b"21 TicketUsed\n",
            Refusal::UnknownAdvice => b"22 UnknownAdvice\n",
            Refusal::AdviceClosed => b"23 AdviceClosed\n",
            Refusal::UnknownOrder => b"24 UnknownOrder\n",
            Refusal::OrderClosed => b"25 OrderClosed\n",
            Refusal::NotReserved => b"26 NotReserved\n",
            Refusal::UnknownLot => b"27 UnknownLot\n",
            Refusal::BelowReserved => b"28 BelowReserved\n",
            Refusal::NoDifference => b"29 NoDifference\n",
            Refusal::TooMuch => b"30 TooMuch\n",
            Refusal::RepeatedLine => b"31 RepeatedLine\n",
            Refusal::BadText => b"32 BadText\n",
            Refusal::TooManyLines => b"33 TooManyLines\n",
            Refusal::NumbersUsedUp => b"34 NumbersUsedUp\n",
            Refusal::AlreadyEnrolled => b"35 AlreadyEnrolled\n",
        }
    }
}
