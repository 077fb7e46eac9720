//! Figures that a journal may give by a word.
ghost use Rattle.std.specs.Prelude.{◌≡◌, ◌+◌, ◌<◌, ◌^◌, length, map};
ghost use Rattle.gibzurg.specs.Choices.{place_among, meant, place_meant};

use crate::numbers::number;
use forms::Delivery;

/// The days of a week, which are counted from 0.
const WEEKDAYS: [&str; 7] = [
    "monday",
    "tuesday",
    "wednesday",
    "thursday",
    "friday",
    "saturday",
    "sunday",
];

/// What an agent may be, counted from 1.
const ROLES: [&str; 3] = ["generator", "distributor", "consumer"];

/// What a line may be, counted from 1.
const CLASSES: [&str; 3] = ["normal", "obligated", "forced"];

/// Where a contract may be delivered, counted from 1.
const PLACES: [&str; 3] = ["market", "seller", "buyer"];

/// A figure that has words of its own.
#[derive(Clone, Copy, Debug, PartialEq)]
pub(crate) enum Choice {
    Weekday,
    Role,
    Class,
}

impl Choice {
    /// The word that stands before the figure.
    pub(crate) fn label(self) -> &'static str {
        match self {
            Choice::Weekday => "weekday",
            Choice::Role => "role",
            Choice::Class => "class",
        }
    }

    /// The words that may be given, for who has given another.
    pub(crate) fn names(self) -> &'static str {
        match self {
            Choice::Weekday => "monday to sunday",
            Choice::Role => "generator, distributor, consumer",
            Choice::Class => "normal, obligated, forced",
        }
    }

    /// The number that a word stands for, or that is written out.
    pub(crate) fn read(self, word: &str) -> Option<u32>
        ensures { result ≡ meant self word.now }
    {
        match self {
            Choice::Weekday => numbered(0, &WEEKDAYS, word),
            Choice::Role => numbered(1, &ROLES, word),
            Choice::Class => numbered(1, &CLASSES, word),
        }
    }
}

/// The place of delivery that a word names, or the number of one. There is no place of any other number.
pub(crate) fn place(word: &str) -> Option<Delivery>
    ensures { result ≡ place_meant word.now }
{
    match numbered(1, &PLACES, word)? {
        1 => Some(Delivery::MarketBar),
        2 => Some(Delivery::SellerNode),
        3 => Some(Delivery::BuyerNode),
        _ => None,
    }
}

/// The number of a word among names that are counted from the first's; any other word is a number written out.
fn numbered(first: u32, names: &[&str], word: &str) -> Option<u32>
    requires { first + length names.now < 2 ^ 32 }
    ensures { result ≡ place_among first (map (λ name. name.now) names.now) word.now }
{
    match names.iter().position(|name| word == *name) {
        Some(place) => Some(first + place as u32),
        None => number(word),
    }
}
