//! Why a book at a server refuses what a clerk did, for people. A server says the number of a
//! refusal alone, so it is asked for what its book has of the sheet's pairs.
ghost use Rattle.std.specs.Prelude.{◌≡◌, IfErr, None};
ghost use Rattle.commands.specs.Stops.{HasDeviceFault};
ghost use Rattle.http_client.specs.Carried.{AsksAtMostOnce};

use crate::answers::{HeardAs, heard};
use crate::courier::Courier;
use crate::errand::Errand;
use crate::remote::{Request, ServerAnswer, Unanswered};
use crate::running::get_any;
use command_line::{ClerkWords, Endpoint, Show};
use commands::{CommandError, KeptPair, reason, tell_cause};
use std::alloc::{AllocError, Global};
use std::io;
use store::Refusal;

/// Carries requests as another courier does, and keeps what the last answer came to, as that to a
/// command.
#[derive(Drop)]
pub struct Listening<C: Courier> {
    inner: C,
    last: Option<HeardAs>,
}

impl<C: Courier> Listening<C> {
    /// A courier that has heard nothing yet.
    pub fn new(inner: C) -> Listening<C>
        ensures { (result.inner ≡ inner) × (result.last ≡ None) }
    {
        Listening { inner, last: None }
    }

    // What the last answer refused, if it refused something.
    fn refusal(&self) -> Option<Refusal> {
        match self.last {
            Some(HeardAs::Refused(refusal)) => Some(refusal),
            _ => None,
        }
    }
}

impl<C: Courier> Courier for Listening<C> {
    ghost brings = { λ old verb path body answer new.
        C.brings old.inner verb path body answer new.inner };

    ghost loses = { λ old verb path body new. C.loses old.inner verb path body new.inner };

    fn carry(&mut self, request: &Request<'_>) -> Result<ServerAnswer, Unanswered> {
        let answer = self.inner.carry(request)?;
        self.last = Some(heard(answer.status, answer.is_interchange, &answer.body));
        Ok(answer)
    }
}

// The shortest line of a picking sheet that has a pair: its columns are 20, 12 and 6 wide.
const HELD_LINE: usize = 40;

// A pair of item and lot, and how much of it is reserved, in a line of a picking sheet; None of
// another line.
fn held_in(line: &str) -> Option<KeptPair<'_>> {
    if line.len() < HELD_LINE || line.starts_with(' ') {
        return None;
    }
    let mut words = line.split_ascii_whitespace();
    let (item, lot, reserved) = (words.next()?, words.next()?, words.next()?);
    if words.next().is_some() {
        return None;
    }
    Some(KeptPair {
        item: item.as_bytes(),
        lot: lot.as_bytes(),
        reserved: reserved.parse().ok()?,
        is_counted: true,
    })
}

// A pair of item and lot, and how much of it is reserved, in a record of the stock as CSV; None of
// its headings. That a count named the pair is known where something is on hand, reserved or
// shipped.
fn stocked_in(record: &str) -> Option<KeptPair<'_>> {
    let mut fields = record.split(',');
    let (item, lot) = (fields.next()?, fields.next()?);
    let mut amounts = fields.skip(2);
    let on_hand: u64 = amounts.next()?.parse().ok()?;
    let reserved: u64 = amounts.next()?.parse().ok()?;
    let shipped: u64 = amounts.next()?.parse().ok()?;
    Some(KeptPair {
        item: item.as_bytes(),
        lot: lot.as_bytes(),
        reserved,
        is_counted: on_hand > 0 || reserved > 0 || shipped > 0,
    })
}

// The pairs in a report: a picking sheet, or the stock as CSV.
fn pairs_in<'a>(
    alloc: Global,
    refusal: Refusal,
    report: &'a str,
) -> Result<Vec<KeptPair<'a>>, AllocError> {
    let mut kept = Vec::new(alloc);
    for line in report.split('\n') {
        let pair = match refusal {
            Refusal::NotReserved => held_in(line),
            _ => stocked_in(line),
        };
        if let Some(pair) = pair {
            kept.push(pair)?;
        }
    }
    Ok(kept)
}

// What shows why what a clerk did is refused; None where no line of the sheet is the reason.
fn shown_for<'a>(refusal: Refusal, words: &ClerkWords<'a>) -> Option<Show<'a>> {
    match refusal {
        Refusal::NotReserved => Some(Show::Order {
            who: words.who,
            number: words.number,
            is_csv: false,
        }),
        Refusal::UnknownLot | Refusal::BelowReserved => Some(Show::Stock {
            who: words.who,
            is_csv: true,
        }),
        _ => None,
    }
}

/// Tells why the book at a server refused what a clerk did (26 to 28), by one more request, for the
/// order's picking sheet or the stock. Nothing is told where no line of the sheet is the reason, or
/// the server doesn't show it.
pub fn tell_reason_there<C: Courier, E: io::Write>(
    alloc: Global,
    courier: &mut Listening<C>,
    server: &Endpoint<'_>,
    errand: &Errand<'_>,
    err: &mut E,
) -> Result<(), CommandError>
    ensures asks { AsksAtMostOnce ⟦<Listening<C> as Courier>⟧.brings
        ⟦<Listening<C> as Courier>⟧.loses courier.old courier.new }
    ensures device { IfErr result HasDeviceFault }
{
    let Some(refusal) = courier.refusal() else {
        return Ok(());
    };
    let (words, sheet) = match errand {
        Errand::Deed(words, sheet) | Errand::TryDeed(words, sheet) => (words, sheet),
        _ => return Ok(()),
    };
    let Some(show) = shown_for(refusal, words) else {
        return Ok(());
    };
    let answer = get_any(alloc, courier, server, &show)?;
    if answer.status != 200 {
        return Ok(());
    }
    let Ok(report) = str::from_utf8(&answer.body) else {
        return Ok(());
    };
    let kept = pairs_in(alloc, refusal, report)?;
    if let Some(why) = reason(alloc, refusal, words, sheet, &kept)? {
        tell_cause(err, &why)?;
    }
    Ok(())
}
