ghost use Rattle.std.specs.Prelude.{◌≡◌, IsTrue, true, false, MatchOption};
ghost use Rattle.definitions.specs.Moments.{Moment as Parts, is_moment, is_day, date8, time4, stamp};

use definitions::zero_filled;
use jiff::civil::Date;
use std::marker::Model;

/// A minute of the years 2000 to 2099, in UTC.
#[derive(Clone, Copy)]
pub struct Moment {
    year: u16,
    month: u8,
    day: u8,
    hour: u8,
    minute: u8,
}

impl Model for Moment {
    ghost Value = { Parts };

    ghost view = { λ m. record {
      year = m.year;
      month = m.month;
      day = m.day;
      hour = m.hour;
      minute = m.minute;
    } };

    ghost invariant = { λ m. IsTrue (is_moment (record {
      year = m.year;
      month = m.month;
      day = m.day;
      hour = m.hour;
      minute = m.minute;
    })) };

    ghost inverse = { λ m. record {
      year = m.year;
      month = m.month;
      day = m.day;
      hour = m.hour;
      minute = m.minute;
    } };
}

/// Whether the Gregorian calendar has the day, of a year 1 to 9999.
pub fn is_day(year: u32, month: u32, day: u32) -> bool
    ensures { result ≡ is_day year month day }
{
    if year == 0 || year > 9999 || month > 12 || day > 31 {
        return false;
    }
    Date::new(year as i16, month as i8, day as i8).is_ok()
}

impl Moment {
    /// The minute with these parts, by the Gregorian calendar; None where the year isn't one of
    /// 2000 to 2099, or there is no such day, hour or minute.
    pub fn new(year: u16, month: u8, day: u8, hour: u8, minute: u8) -> Option<Moment>
        ensures { let m : Parts = record {
          year = year;
          month = month;
          day = day;
          hour = hour;
          minute = minute;
        } in
            MatchOption result (is_moment m ≡ false) (λ r. (is_moment m ≡ true) × (r ≡ m)) }
    {
        if year < 2000 || year > 2099 || hour > 23 || minute > 59 {
            return None;
        }
        if !is_day(u32::from(year), u32::from(month), u32::from(day)) {
            return None;
        }
        Some(Moment {
            year,
            month,
            day,
            hour,
            minute,
        })
    }

    /// The year, 2000 to 2099.
    pub fn year(&self) -> u16
        ensures { result ≡ self.now.year }
    {
        self.year
    }

    /// The month, 1 to 12.
    pub fn month(&self) -> u8
        ensures { result ≡ self.now.month }
    {
        self.month
    }

    /// The day of the month, from 1.
    pub fn day(&self) -> u8
        ensures { result ≡ self.now.day }
    {
        self.day
    }

    /// The hour, 0 to 23.
    pub fn hour(&self) -> u8
        ensures { result ≡ self.now.hour }
    {
        self.hour
    }

    /// The minute, 0 to 59.
    pub fn minute(&self) -> u8
        ensures { result ≡ self.now.minute }
    {
        self.minute
    }

    /// CCYYMMDD; from its third byte on it is YYMMDD.
    pub fn date(&self) -> [u8; 8]
        ensures { result ≡ date8 self.now }
    {
        let year = zero_filled::<4>(u64::from(self.year));
        let month = zero_filled::<2>(u64::from(self.month));
        let day = zero_filled::<2>(u64::from(self.day));
        [
            year[0], year[1], year[2], year[3], month[0], month[1], day[0], day[1],
        ]
    }

    /// HHMM.
    pub fn time(&self) -> [u8; 4]
        ensures { result ≡ time4 self.now }
    {
        let hour = zero_filled::<2>(u64::from(self.hour));
        let minute = zero_filled::<2>(u64::from(self.minute));
        [hour[0], hour[1], minute[0], minute[1]]
    }

    /// CCYYMMDDHHMM, as it is kept.
    pub fn stamp(&self) -> [u8; 12]
        ensures { result ≡ stamp self.now }
    {
        let date = self.date();
        let time = self.time();
        [
            date[0], date[1], date[2], date[3], date[4], date[5], date[6], date[7], time[0],
            time[1], time[2], time[3],
        ]
    }
}
