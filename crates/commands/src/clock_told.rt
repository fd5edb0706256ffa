//! A clock that goes wrong, told before a server goes by it.
ghost use Rattle.store.specs.Standing.{IsUnchanged};

use jiff::SignedDuration;
use jiff::civil::{Date, DateTime, Time};
use std::io;
use store::{Keeper, Moment};

// For how many hours after the last entry a clock is believed.
const DAY_HOURS: i64 = 24;

// A moment as a time to reckon with.
fn time_of(moment: Moment) -> Option<DateTime> {
    let year = i16::try_from(moment.year()).ok()?;
    let (month, day) = (
        i8::try_from(moment.month()).ok()?,
        i8::try_from(moment.day()).ok()?,
    );
    let (hour, minute) = (
        i8::try_from(moment.hour()).ok()?,
        i8::try_from(moment.minute()).ok()?,
    );
    let date = Date::new(year, month, day).ok()?;
    Some(DateTime::from_parts(date, Time::new(hour, minute, 0, 0).ok()?))
}

// What is said of a clock beside the last entry, if anything is.
fn said_of(shown: DateTime, last: DateTime) -> Option<&'static str> {
    if shown < last {
        return Some("before");
    }
    if shown.duration_since(last) >= SignedDuration::from_hours(DAY_HOURS) {
        return Some("a day or more after");
    }
    None
}

// Tells a time as moments are told, to the minute.
fn tell_time<E: io::Write>(err: &mut E, before: &str, time: DateTime) -> io::Result<()> {
    let (date, hour, minute) = (time.date(), time.hour(), time.minute());
    write!(err, "{before}{date}T{hour:02}:{minute:02}")
}

/// Tells of a clock, where there is one, that shows a moment before that of the last entry, or a
/// day or more after it. What can't be found out or told is left out.
pub(crate) fn tell_clock<K: Keeper, E: io::Write>(
    book: &mut K,
    has_clock: bool,
    now: Moment,
    err: &mut E,
)
    ensures { IsUnchanged (K.standing book.old) (K.standing book.new) }
{
    if !has_clock {
        return;
    }
    let Ok(extent) = book.extent() else {
        return;
    };
    let Some(entered) = extent.last else {
        return;
    };
    let (Some(shown), Some(last)) = (time_of(now), time_of(entered)) else {
        return;
    };
    if let Some(said) = said_of(shown, last) {
        let _ = tell_time(err, "the clock shows ", shown);
        let _ = write!(err, ", {said} the last entry's ");
        let _ = tell_time(err, "", last);
        let _ = err.write_all(b"\n");
    }
}
