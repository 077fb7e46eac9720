//! The hours of a month, and where they fall in the week.
ghost use Rattle.std.specs.Prelude.{◌<◌, ◌≤◌};
ghost use Rattle.calendar.specs.Limits.{most_days, hours_of};

use crate::bands::Band;
use crate::calendars::Calendar;
use crate::limits::MOST_DAYS;
use crate::weekdays::Weekday;

/// An hour of a month: how many hours it begins after the first midnight, with the month's length in days and its calendar.
/// None exists whose hour lies outside its month.
#[derive(Clone, Copy)]
pub struct HourStamp {
    hour: u32,
    days: u32,
    calendar: Calendar,
    ghost within: { hour < hours_of days },
    ghost month: { days ≤ most_days },
}

impl HourStamp {
    ghost use Rattle.std.specs.Prelude.{◌≡◌, ℕ, ◌+◌, ◌*◌, ◌%◌, ◌↔◌, IsSome, IfSome};
    ghost use Rattle.calendar.specs.Calendar.{weekday_in, band_in};

    /// The hour of a month of `days` days; none where it lies outside, or where no month is that long.
    pub fn new(hour: u32, days: u32, calendar: Calendar) -> Option<HourStamp>
        ensures exists { IsSome result ↔ ((hour < hours_of days) × (days ≤ most_days)) }
        ensures hour { IfSome result (λ s. s.hour ≡ hour) }
        ensures month { IfSome result (λ s. (s.days ≡ days) × (s.calendar ≡ calendar)) }
    {
        if days <= MOST_DAYS && hour < 24 * days {
            Some(HourStamp {
                hour,
                days,
                calendar,
            })
        } else {
            None
        }
    }

    /// How many hours it begins after the first midnight.
    pub fn hour(&self) -> u32
        ensures { result ≡ self.now.hour }
    {
        self.hour
    }

    /// How many hours it begins after its day's midnight.
    pub fn hour_of_day(&self) -> u32
        ensures { result ≡ self.now.hour % 24 }
    {
        self.hour % 24
    }

    /// Its weekday.
    pub fn weekday(&self) -> Weekday
        ensures { result ≡ weekday_in self.now.calendar self.now.hour }
    {
        self.calendar.weekday_at(self.hour)
    }

    /// Its band.
    pub fn band(&self) -> Band
        ensures { result ≡ band_in self.now.calendar self.now.hour }
    {
        self.calendar.band_at(self.hour)
    }

    /// The place of this hour's entry of the agent at `index`, where entries lie agent after agent.
    pub fn place(&self, index: u32) -> usize
        ensures { result ≡ index * hours_of self.now.days + self.now.hour }
    {
        index as usize * (24 * self.days as usize) + self.hour as usize
    }
}
