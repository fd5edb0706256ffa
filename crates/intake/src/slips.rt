//! What a clerk did, with the sheet that came with it.
ghost use Rattle.std.specs.Prelude.{◌≡◌, true, IsTrue, Ok, Err, IfOk, IfErr};
ghost use Rattle.definitions.specs.Rules.{Today};
ghost use Rattle.definitions.specs.Accepted.{is_command};
ghost use Rattle.store.specs.Asked.{asked, act_of as asked_act};
ghost use Rattle.intake.specs.Answers.{seen};
ghost use Rattle.intake.specs.Calls as meant;
ghost use Rattle.intake.specs.Slips.{IfAnswered, command_of};

use crate::calls::Deed;
use crate::replies::{bad_part, refused};
use crate::response::Response;
use definitions::{MOST_NUMBER, MOST_TICKET};
use sheet_texts::sheet;
use std::alloc::Global;
use store::{Act, Command, Ident, Sheet, SheetKind, Who};
use unready::Unready;

/// What a clerk did, with its sheet: its command can be given.
#[derive(Drop)]
pub(crate) struct Slip<'p> {
    pub(crate) who: Who,
    pub(crate) deed: Deed<'p>,
    pub(crate) sheet: Sheet,
    pub(crate) ghost given: { IsTrue (is_command Today (command_of who deed sheet)) },
}

/// Why a deed and its sheet come to no slip.
#[derive(Drop)]
pub(crate) enum SlipStop {
    /// They are refused, by this response.
    Answered(Response),
    /// A growth was refused.
    OutOfMemory,
}

/// The depositor of what a clerk did, by its name, where that, the ticket and the number can be
/// read: the number is that of the advice or the order, which a recount doesn't have.
pub fn depositor(kind: SheetKind, who: &[u8], ticket: &[u8], number: &[u8]) -> Option<Who>
    ensures { result ≡ meant.depositor_of kind who.now ticket.now number.now }
{
    let depositor = Who::new(who)?;
    Ident::new(ticket, MOST_TICKET)?;
    if !matches!(kind, SheetKind::Recount) {
        Ident::new(number, MOST_NUMBER)?;
    }
    Some(depositor)
}

/// What a deed and its sheet come to.
pub(crate) fn slip_of<'p>(alloc: Global, deed: &Deed<'p>, text: &[u8]) -> Result<Slip<'p>, SlipStop>
    ensures made { IfOk result (λ slip. meant.deed_of deed.now.kind deed.now.who.now
        deed.now.ticket.now deed.now.number.now text.now
        ≡ Ok (command_of slip.who slip.deed slip.sheet)) }
    ensures refused { IfErr result (IfAnswered (λ response. meant.deed_of deed.now.kind
        deed.now.who.now deed.now.ticket.now deed.now.number.now text.now
        ≡ Err (seen response))) }
{
    let Some(who) = depositor(deed.kind, deed.who, deed.ticket, deed.number) else {
        return Err(SlipStop::Answered(bad_part()));
    };
    match sheet(alloc, deed.kind, text) {
        Ok(sheet) => Ok(Slip {
            who,
            deed: *deed,
            sheet,
        }),
        Err(Unready::Refused(refusal)) => {
            Err(SlipStop::Answered(refused(refusal, Vec::new(alloc))))
        }
        Err(Unready::OutOfMemory) => Err(SlipStop::OutOfMemory),
    }
}

/// The act of a sheet's kind, about the advice or the order of this number, which a recount doesn't
/// have.
pub fn act_of<'a>(kind: SheetKind, number: &'a [u8], sheet: &'a Sheet) -> Act<'a>
    ensures { asked_act result ≡ meant.act_of kind number.now sheet.now }
{
    match kind {
        SheetKind::Count => Act::Count {
            shipment: number,
            sheet,
        },
        SheetKind::Pick => Act::Pick {
            order: number,
            sheet,
        },
        SheetKind::Recount => Act::Recount { sheet },
    }
}

/// What a clerk did, as a command.
pub(crate) fn command<'a>(slip: &'a Slip<'_>) -> Command<'a>
    ensures told { asked result ≡ command_of slip.now.who slip.now.deed slip.now.sheet }
    ensures given { is_command Today (asked result) ≡ true }
{
    let deed = slip.deed;
    Command::Clerk {
        who: slip.who,
        ticket: deed.ticket,
        act: act_of(deed.kind, deed.number, &slip.sheet),
    }
}
