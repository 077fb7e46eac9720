//! The days of the week, by number from 0 for Monday to 6 for Sunday.
use std::error::Error;
use std::fmt;

/// A day of the week.
#[derive(Clone, Copy, PartialEq, Eq, Debug)]
pub enum Weekday {
    Monday,
    Tuesday,
    Wednesday,
    Thursday,
    Friday,
    Saturday,
    Sunday,
}

impl Weekday {
    ghost use Rattle.std.specs.Prelude.{◌≡◌};
    ghost use Rattle.calendar.specs.Weekdays.{number_of, weekday_at};

    /// Its number, from 0 for Monday to 6 for Sunday.
    pub fn number(self) -> u32
        ensures { result ≡ number_of self }
    {
        self as u32
    }

    /// The weekday with this number, which is at most 6.
    pub fn at_number(number: u32) -> Weekday
        ensures { result ≡ weekday_at number }
    {
        match number {
            0 => Weekday::Monday,
            1 => Weekday::Tuesday,
            2 => Weekday::Wednesday,
            3 => Weekday::Thursday,
            4 => Weekday::Friday,
            5 => Weekday::Saturday,
            _ => Weekday::Sunday,
        }
    }
}

impl TryFrom<u32> for Weekday {
    ghost use Rattle.std.specs.Prelude.{◌≡◌};
    ghost use Rattle.calendar.specs.Weekdays.{weekday_or};

    type Error = NoSuchWeekday;

    ghost try_from_gives = { λ number result. result ≡ weekday_or number };

    /// The weekday with this number; none above 6.
    fn try_from(number: u32) -> Result<Weekday, NoSuchWeekday> {
        if number < 7 {
            Ok(Weekday::at_number(number))
        } else {
            Err(NoSuchWeekday { number })
        }
    }
}

/// A number that no weekday has.
#[derive(Clone, Copy, PartialEq, Eq, Debug)]
pub struct NoSuchWeekday {
    pub number: u32,
}

impl fmt::Display for NoSuchWeekday {
    ghost use Rattle.std.specs.Prelude.{Some};
    ghost use Rattle.calendar.specs.Weekdays.{no_such_weekday_text};

    ghost output = { λ refused. Some (no_such_weekday_text refused) };

    fn fmt<W: fmt::Write>(&self, f: &mut fmt::Formatter<W>) -> fmt::Result {
        write!(f, "no weekday has the number {}", self.number)
    }
}

impl Error for NoSuchWeekday {}
