ghost use Rattle.std.specs.Prelude.{◌≡◌, ◌&&◌, ◌==◌, nat_lt, bytes_eq, codes, IfOk};
ghost use Rattle.std.specs.List.{starts_with};
ghost use Rattle.definitions.specs.Header.{who_eq};
ghost use Rattle.entries.specs.Written.{Written};

use definitions::Rules;
use segments::{Moment, Who};
use std::alloc::AllocError;
use std::marker::Model;

/// An entry of the register, as it is written down.
#[derive(Clone, Drop)]
pub struct Entry {
    /// The depositor that it is of.
    pub who: Who,
    /// Its key among the depositor's entries: `E` of an enrolment, `X` and ISA13 of an interchange,
    /// `T` and the ticket of an act.
    pub key: Vec<u8>,
    /// Its number among the depositor's entries, from 1; 0 of an enrolment.
    pub n: u32,
    /// When it was accepted.
    pub moment: Moment,
    /// What was accepted: an interchange's bytes, an act's canonical text, nothing of an enrolment.
    pub body: Vec<u8>,
    /// The rules that it is judged by: those of the day on which it was accepted.
    pub rules: Rules,
}

impl Model for Entry {
    ghost Value = { Written };

    ghost view = { λ e. record {
      who = e.who;
      key = e.key.items;
      n = e.n;
      moment = e.moment;
      body = e.body.items;
      rules = e.rules;
    } };
}

impl Entry {
    /// Whose it is.
    pub fn who(&self) -> Who
        ensures { result ≡ self.now.who }
    {
        self.who
    }

    /// When it was accepted.
    pub fn moment(&self) -> Moment
        ensures { result ≡ self.now.moment }
    {
        self.moment
    }

    /// What was accepted.
    pub fn body(&self) -> &[u8]
        ensures { result.now ≡ self.now.body }
    {
        &self.body
    }

    /// The rules that it is judged by.
    pub fn rules(&self) -> Rules
        ensures { result ≡ self.now.rules }
    {
        self.rules
    }

    /// Its number, 0 of an enrolment.
    pub fn number(&self) -> u32
        ensures { result ≡ self.now.n }
    {
        self.n
    }

    /// Whether the entry is the depositor's.
    pub fn is_of(&self, who: &Who) -> bool
        ensures { result ≡ who_eq self.now.who who.now }
    {
        self.who.is(who)
    }

    /// Whether the entry is the depositor's and stands under the mark.
    pub fn is_under(&self, who: &Who, mark: &[u8]) -> bool
        ensures { result ≡ (who_eq self.now.who who.now && bytes_eq self.now.key mark.now) }
    {
        self.who.is(who) && self.key.as_slice() == mark
    }

    /// Whether the entry is one that counts: any but an enrolment.
    pub fn is_numbered(&self) -> bool
        ensures { result ≡ nat_lt 0 self.now.n }
    {
        self.n > 0
    }

    /// Whether the entry is that of a clerk's act: its key is `T` and the ticket.
    pub fn is_ticketed(&self) -> bool
        ensures { result ≡ starts_with (λ a b. a == b) self.now.key (codes "T") }
    {
        self.key.starts_with(b"T")
    }

    /// A copy of it.
    pub fn copy(&self) -> Result<Entry, AllocError>
        ensures { IfOk result (λ entry. entry ≡ self.now) }
    {
        self.clone()
    }
}

/// An entry that is known under a key, and the text that went out for it.
#[derive(Drop)]
pub struct Known {
    /// The entry.
    pub entry: Entry,
    /// Its outgoing text; nothing for an enrolment, and where an interchange asked for no answer.
    pub outgoing: Vec<u8>,
}

impl Model for Known {
    ghost use Rattle.entries.specs.Written.{Recalled};

    ghost Value = { Recalled };

    ghost view = { λ k. record { entry = k.entry; outgoing = k.outgoing.items } };
}

impl Known {
    /// Whether these bytes made the entry.
    pub fn is_of(&self, bytes: &[u8]) -> bool
        ensures { result ≡ bytes_eq self.now.entry.body bytes.now }
    {
        self.entry.body() == bytes
    }

    /// The text that went out.
    pub fn outgoing(&self) -> &[u8]
        ensures { result.now ≡ self.now.outgoing }
    {
        &self.outgoing
    }
}
