//! One fold and one update for every tally.
ghost use Rattle.std.specs.Prelude.{◌≡◌};
ghost use Rattle.tally.specs.Total.{total, day_in, StaysTotal, JoinsDays};

use crate::traits::{Reversible, Tally};

/// The hours of a day.
const HOURS: usize = 24;

/// All of `items` together.
pub fn fold<T: Tally + Copy>(items: &[T]) -> T
    ensures { result ≡ total T.nothing T.joined items.now }
{
    items.iter().fold(T::neutral(), |sum, item| sum.join(*item))
}

/// The account after one of its items changed from `old` to `new`.
pub fn update<T: Tally + Reversible + Copy>(account: T, old: T, new: T) -> T
    ensures value { result ≡ T.joined (T.joined account (T.undone old)) new }
    ensures keeps { StaysTotal T.nothing T.joined account old new result }
{
    account.join(old.opposite()).join(new)
}

/// All of a day together, counted from 0: the twenty-four items from its first hour on, or as many as there are.
pub fn fold_day<T: Tally + Copy>(month: &[T], day: usize) -> T
    ensures { result ≡ total T.nothing T.joined (day_in day month.now) }
{
    match month.chunks(HOURS).nth(day) {
        Some(hours) => fold(hours),
        None => T::neutral(),
    }
}

/// All of a month together, day by day: the joined days are the joined month.
pub fn fold_days<T: Tally + Copy>(month: &[T]) -> T
    ensures value { result ≡ total T.nothing T.joined month.now }
    ensures by_days { JoinsDays T.nothing T.joined month.now result }
{
    let mut sum = T::neutral();
    for day in month.chunks(HOURS) {
        sum = sum.join(fold(day));
    }
    sum
}
