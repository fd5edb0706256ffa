ghost use Rattle.std.specs.Prelude.{◌≡◌, ◌++◌, codes, IfOk, MatchOption, Some, None};
ghost use Rattle.definitions.specs.Accepted as meant;
ghost use Rattle.definitions.specs.Header.{isa as meant_isa};
ghost use Rattle.definitions.specs.Register.{canonical, interchange_mark, Interchange as Received};
ghost use Rattle.entries.specs.Asked.{act_of, asked, mark_of, sender_named, head_text, sheet_of};

use envelope::{Isa, isa};
use segments::Who;
use std::alloc::{AllocError, Global};
use stock::Sheet;

/// What a clerk did, with the sheet that was written down.
#[derive(Clone, Copy)]
pub enum Act<'a> {
    /// Goods of an advice were counted.
    Count {
        /// The shipment number of the advice: an identifier of 1 to 22 bytes.
        shipment: &'a [u8],
        /// What was counted: a sheet of counts.
        sheet: &'a Sheet,
    },
    /// An order was picked.
    Pick {
        /// The number of the order: an identifier of 1 to 22 bytes.
        order: &'a [u8],
        /// What was picked: a sheet of picks.
        sheet: &'a Sheet,
    },
    /// Goods on hand were counted again.
    Recount {
        /// What there is: a sheet of recounts.
        sheet: &'a Sheet,
    },
}

/// What is asked of the house.
#[derive(Clone, Copy)]
pub enum Command<'a> {
    /// An interchange, by its bytes.
    Interchange(&'a [u8]),
    /// A depositor's enrolment.
    Enrol(Who),
    /// A clerk's act.
    Clerk {
        /// The depositor whose goods they are.
        who: Who,
        /// The ticket, by which the act is known when it is told again: an identifier of 1 to 20
        /// bytes.
        ticket: &'a [u8],
        /// The act.
        act: Act<'a>,
    },
}

/// What an entry is known by among its depositor's.
#[derive(Clone, Copy)]
pub enum Key<'a> {
    /// The enrolment.
    Enrolment,
    /// An interchange, by its control number ISA13.
    Interchange(&'a [u8]),
    /// A clerk's act, by its ticket.
    Ticket(&'a [u8]),
}

impl<'a> Key<'a> {
    /// The key as it is written: `E`, or `X` and ISA13, or `T` and the ticket.
    pub fn text(&self, alloc: Global) -> Result<Vec<u8>, AllocError>
        ensures { IfOk result (λ text. text.items ≡ mark_of self.now) }
    {
        let (letter, name) = match self {
            Key::Enrolment => (b'E', b"".as_slice()),
            Key::Interchange(control) => (b'X', *control),
            Key::Ticket(ticket) => (b'T', *ticket),
        };
        let mut text = Vec::new(alloc);
        text.push(letter)?;
        text.extend_from_slice(name)?;
        Ok(text)
    }
}

impl<'a> Act<'a> {
    // The head of the canonical text: what was done, and to what.
    fn head(&self) -> (&'static [u8], &'a [u8])
        ensures { head_text self.now ≡ result.0.now ++ result.1.now ++ codes "\n" }
    {
        match self {
            Act::Count { shipment, .. } => (b"count ", *shipment),
            Act::Pick { order, .. } => (b"pick ", *order),
            Act::Recount { .. } => (b"recount", b""),
        }
    }

    // The sheet.
    pub(crate) fn sheet(&self) -> &'a Sheet
        ensures { result.now ≡ sheet_of self.now }
    {
        match self {
            Act::Count { sheet, .. } => sheet,
            Act::Pick { sheet, .. } => sheet,
            Act::Recount { sheet } => sheet,
        }
    }

    /// The canonical text, by which an act is the same as another: what was done, LF, and a line
    /// `ITEM,LOT,QUANTITY` with LF for each of the sheet. Want of memory is the one error.
    pub fn canonical(&self, alloc: Global) -> Result<Vec<u8>, AllocError>
        ensures { IfOk result (λ text. text.items ≡ canonical (act_of self.now)) }
    {
        let (word, number) = self.head();
        let mut text = Vec::new(alloc);
        text.extend_from_slice(word)?;
        text.extend_from_slice(number)?;
        text.push(b'\n')?;
        self.sheet().write_lines(&mut text)?;
        Ok(text)
    }
}

// The sender of an interchange by its header, if ISA05 and ISA06 name a partner, and the key of its
// entry.
fn named<'a>(header: &Isa<'a>) -> Option<(Who, Key<'a>)>
    ensures { MatchOption result (sender_named header.now ≡ None)
        (λ p. (sender_named header.now ≡ Some p.0)
        × (mark_of p.1 ≡ interchange_mark (meant_isa header.now 13))) }
{
    match header.sender() {
        Some(who) => Some((who, Key::Interchange(header.element(13)))),
        None => None,
    }
}

// The sender of an interchange, and the key of its entry.
fn sender_of(text: &[u8]) -> Option<(Who, Key<'_>)>
    ensures { MatchOption result (meant.subject (Received text.now) ≡ None)
        (λ p. meant.subject (Received text.now) ≡ Some (p.0, mark_of p.1)) }
{
    match isa(text) {
        Ok(header) => named(&header),
        Err(_) => None,
    }
}

/// The depositor that a command names, and the key of the entry that it makes; None where an
/// interchange can't be read, or its ISA05 and ISA06 can be no partner. It takes no memory.
pub fn subject<'a>(command: &Command<'a>) -> Option<(Who, Key<'a>)>
    ensures { MatchOption result (meant.subject (asked command.now) ≡ None)
        (λ p. meant.subject (asked command.now) ≡ Some (p.0, mark_of p.1)) }
{
    match command {
        Command::Interchange(text) => sender_of(text),
        Command::Enrol(who) => Some((*who, Key::Enrolment)),
        Command::Clerk { who, ticket, .. } => Some((*who, Key::Ticket(ticket))),
    }
}
