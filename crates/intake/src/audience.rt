//! Whom a server answers.
ghost use Rattle.std.specs.Prelude.{◌≡◌};
ghost use Rattle.intake.specs.Admitting as meant;

use peers::Door;
use request_guard::Doors;

/// Who is served.
#[derive(Clone, Copy, PartialEq, Eq)]
pub enum Audience {
    /// Partners: they hand interchanges in, and are shown what they have and what went out to them.
    Partners,
    /// Partners, who may also try an interchange out.
    Testers,
    /// Clerks too: they hand in what they did with its sheet, or try it out, and are shown their
    /// page, picking sheets, exports, what is open, and who is enrolled.
    Clerks,
}

/// Whom a server answers: whose requests it takes, and which of them it turns away.
#[derive(Clone, Copy)]
pub struct Access<'n> {
    /// Who is served.
    pub audience: Audience,
    /// What turns a request away by its head; nothing does where there are none.
    pub doors: Option<Doors<'n>>,
    /// The field by which what stands in front says for which depositor it asks, as `X-Depositor`.
    /// Where it is named, each request has it once, with a depositor as `QQ-ID`, and asks for what
    /// is that depositor's alone, and hands in, or tries out, what that one sent: else it is 403.
    /// The list of depositors and the clerks' page are 403 then.
    pub from: Option<&'n str>,
    /// Whether `GET /health` tells whoever asks that the book serves, and how far it goes. Such a
    /// request doesn't count as a connection.
    pub tells_health: bool,
}

/// Whom a server answers by one of its doors. By the first it is those who have access. By the
/// second it is clerks, who come to an address of their own: nobody in front says for whom they
/// ask. But where partners alone are served, nobody else is by the second either.
pub(crate) fn access_by(access: Access<'_>, door: Door) -> Access<'_>
    ensures { result ≡ meant.access_by access.entry door }
{
    match (door, access.audience) {
        (Door::First, _) | (Door::Second, Audience::Partners) => access,
        (Door::Second, _) => Access {
            audience: Audience::Clerks,
            doors: access.doors,
            from: None,
            tells_health: access.tells_health,
        },
    }
}

/// That of all partners.
pub(crate) const OF_PARTNERS: Access<'static> = Access {
    audience: Audience::Partners,
    doors: None,
    from: None,
    tells_health: false,
};
