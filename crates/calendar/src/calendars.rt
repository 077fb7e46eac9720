//! What the bands of a month follow from.
use crate::bands::Band;
use crate::bands::table::band_of;
use crate::weekdays::Weekday;

/// The figures that a month's bands follow from, whatever they are.
#[derive(Clone, Copy, PartialEq, Eq, Debug)]
pub struct Calendar {
    /// The number of the first day's weekday, from 0 for Monday to 6 for Sunday.
    pub weekday: u32,
}

impl Calendar {
    ghost use Rattle.std.specs.Prelude.{◌≡◌};
    ghost use Rattle.calendar.specs.Calendar.{calendar_fits, weekday_in, band_in};

    /// Whether a month may have these figures.
    pub fn is_within_limits(&self) -> bool
        ensures { result ≡ calendar_fits self.now }
    {
        Weekday::try_from(self.weekday).is_ok()
    }

    /// The weekday of the hour that begins so many hours after the first midnight.
    pub fn weekday_at(&self, hour: u32) -> Weekday
        ensures { result ≡ weekday_in self.now hour }
    {
        Weekday::at_number((self.weekday % 7 + hour / 24) % 7)
    }

    /// The band of that hour.
    pub fn band_at(&self, hour: u32) -> Band
        ensures { result ≡ band_in self.now hour }
    {
        band_of(self.weekday_at(hour), hour % 24)
    }
}
