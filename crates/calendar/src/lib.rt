//! The calendar of a month: its hours, counted from the first midnight, and the bands that they fall into.
#![tactic(auto)]

mod bands;
mod calendars;
mod limits;
mod stamp;
#[cfg(test)]
mod tests;
mod weekdays;

pub use bands::Band;
pub use bands::table::band_of;
pub use calendars::Calendar;
pub use limits::{MOST_DAYS, MOST_HOURS};
pub use stamp::HourStamp;
pub use weekdays::{NoSuchWeekday, Weekday};
