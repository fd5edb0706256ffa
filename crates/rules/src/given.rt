//! The command that an entry of the register is of, by which it can be given again.
ghost use Rattle.std.specs.Prelude.{◌≡◌, ℕ, Option, Some, true, IfOk, IsTrue};
ghost use Rattle.definitions.specs.Accepted.{is_command};
ghost use Rattle.definitions.specs.Readings.{is_deed, is_entry};
ghost use Rattle.definitions.specs.Register as register;
ghost use Rattle.entries.specs.Asked.{asked};
ghost use Rattle.rules.specs.Given.{RuledCommand, given_as, read_deed, ruled_by};
ghost use Rattle.entries.specs.Written.{written_as};

use crate::readings::{ReadAct, read};
use definitions::{MOST_TICKET, Rules};
use entries::{Command, Entry};
use segments::{Ident, Who};
use std::alloc::{AllocError, Global};
use std::marker::Model;

// What an entry records, as it was read.
#[derive(Drop)]
enum Deed<'a> {
    // The enrolment.
    Enrolled,
    // An interchange, by its bytes.
    Received(&'a [u8]),
    // A clerk's act, under its ticket.
    Performed { ticket: &'a [u8], act: ReadAct<'a> },
}

/// A command that can be given again under the rules of its entry: the one that an entry is of,
/// with what it borrows.
#[derive(Drop)]
pub struct Given<'a> {
    who: Who,
    deed: Deed<'a>,
    rules: Rules,
}

impl<'a> Model for Given<'a> {
    ghost Value = { RuledCommand };

    ghost view = { λ g. (g.rules, given_as g.who (read_deed g.deed)) };

    ghost invariant = { λ g. IsTrue (is_command g.rules (given_as g.who (read_deed g.deed))) };
}

impl<'a> Given<'a> {
    /// The command. It is one that can be given under these rules.
    pub fn command(&self) -> Command<'_>
        ensures same { asked result ≡ self.now.1 }
        ensures can_be_given { is_command self.now.0 (asked result) ≡ true }
    {
        match &self.deed {
            Deed::Enrolled => Command::Enrol(self.who),
            Deed::Received(text) => Command::Interchange(text),
            Deed::Performed { ticket, act } => Command::Clerk {
                who: self.who,
                ticket,
                act: act.act(),
            },
        }
    }

    /// The rules of the entry.
    pub fn rules(&self) -> Rules
        ensures { result ≡ self.now.0 }
    {
        self.rules
    }
}

// A clerk's act under a ticket, where the one is a ticket and the other the canonical text of an
// act under the rules.
fn performed<'a>(
    alloc: Global,
    who: Who,
    ticket: &'a [u8],
    text: &'a [u8],
    rules: Rules,
) -> Result<Option<Given<'a>>, AllocError>
    ensures { IfOk result
        (λ o. (act : register.Act) → is_deed rules (register.Performed ticket.now act) ≡ true
        → text.now ≡ register.canonical act → o ≡ Some (rules, register.Clerk who ticket.now act)) }
{
    if Ident::new(ticket, MOST_TICKET).is_none() {
        return Ok(None);
    }
    let Some(act) = read(alloc, text, rules)? else {
        return Ok(None);
    };
    let deed = Deed::Performed { ticket, act };
    Ok(Some(Given { who, deed, rules }))
}

/// The command that an entry is of, with the entry's rules, by its key: `E` is the depositor's
/// enrolment, `X` and more the interchange that the body is, and `T` and a ticket the act of which
/// the body is the canonical text. None where the entry is of no command that can be given under
/// its rules: of another key, an enrolment with a body, a ticket that is none, or a text that is no
/// act's under them. Want of memory is the one error.
pub fn command_of(alloc: Global, entry: &Entry) -> Result<Option<Given<'_>>, AllocError>
    ensures { IfOk result
        (λ o. (n : ℕ) (e : register.Entry) → entry.now ≡ written_as n e → is_entry e ≡ true
        → o ≡ Some (ruled_by e)) }
{
    let (who, body, rules) = (entry.who(), entry.body(), entry.rules());
    let Some((letter, name)) = entry.key.split_first() else {
        return Ok(None);
    };
    let deed = match *letter {
        b'E' if name.is_empty() && body.is_empty() => Deed::Enrolled,
        b'X' => Deed::Received(body),
        b'T' => return performed(alloc, who, name, body, rules),
        _ => return Ok(None),
    };
    Ok(Some(Given { who, deed, rules }))
}
