//! The moment of a command: the one of its line, or the clock's.
ghost use Rattle.std.specs.Prelude.{◌≡◌, Ok, IfErr, IfNone, IfOk, IfSome};
ghost use Rattle.commands.specs.Clock.{IsCivil, IsMinuteOf};
ghost use Rattle.commands.specs.Stops.{IsUsageStop};

use crate::told::{CommandError, usage};
use jiff::Timestamp;
use jiff::tz::Offset;
use std::rt::Clock;
use std::time::SystemTime;
use store::Moment;

/// What shows the time. What a system's clock shows no contract knows, so of one the relation says
/// nothing; whoever asks through this trait keeps to it, whatever it is.
pub trait TimeSource {
    ghost use Rattle.std.specs.Prelude.{⊤, IfSome};
    ghost use Rattle.jiff.specs.Types.{Timestamp as Instant};

    // Relates it and a time that it showed.
    ghost shows: { Self → Instant → Type 0 } = { λ _ _. ⊤ };

    /// The time that it shows; None where it can't be read, or shows one that can't be told.
    fn time(&self) -> Option<Timestamp>
        ensures { IfSome result (shows self.now) };
}

impl<R: Clock> TimeSource for R {
    fn time(&self) -> Option<Timestamp> {
        Timestamp::try_from(SystemTime::now(self).ok()?).ok()
    }
}

/// The moment of a command: the one that its line says, or the minute that the clock shows. A clock
/// outside the years 2000 to 2099 is a usage fault.
pub fn moment_for<R: TimeSource + AllocGlobal>(
    rt: &R,
    at: Option<Moment>,
) -> Result<Moment, CommandError>
    ensures given { IfSome at (λ moment. result ≡ Ok moment) }
    ensures shown { IfNone at (IfOk result (IsMinuteOf (R.shows rt.now))) }
    ensures unusable { IfErr result IsUsageStop }
{
    if let Some(moment) = at {
        return Ok(moment);
    }
    match now(rt) {
        Some(moment) => Ok(moment),
        None => Err(usage(rt.alloc(), "the clock is not in the years 2000 to 2099\n")),
    }
}

/// The clock's moment in UTC; None where the clock can't be read, or isn't in the years 2000 to
/// 2099.
pub fn now<R: TimeSource>(rt: &R) -> Option<Moment>
    ensures { IfSome result (IsMinuteOf (R.shows rt.now)) }
{
    civil(rt.time()?)
}

// The minute in which an instant lies, in UTC; None where it isn't in the years 2000 to 2099.
fn civil(timestamp: Timestamp) -> Option<Moment>
    ensures { IsCivil timestamp result }
{
    let shown = Offset::UTC.to_datetime(timestamp);
    if shown.year() < 0 {
        return None;
    }
    Moment::new(
        shown.year().unsigned_abs(),
        shown.month().unsigned_abs(),
        shown.day().unsigned_abs(),
        shown.hour().unsigned_abs(),
        shown.minute().unsigned_abs(),
    )
}
