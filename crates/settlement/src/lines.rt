//! The lines of a posting, one for each agent, and the rules that they keep.
ghost use Rattle.std.specs.Prelude.{◌≡◌, ok_or};

use forms::Role;
use thiserror::Error;
use valuation::{LEAST_FACTOR, MOST_ENERGY, MOST_FACTOR, MOST_PRICE};

/// How an agent's energy of an hour came about.
#[derive(Clone, Copy, PartialEq, Eq, Debug)]
pub(crate) enum Class {
    Normal,
    Obligated,
    Forced,
}

/// A number that names no class.
#[derive(Clone, Copy, PartialEq, Eq, Debug, Error)]
#[error("no class of a line has the number {number}")]
pub(crate) struct UnknownClass {
    pub(crate) number: u32,
}

/// An agent's line of a posting as the host fills it in: raw figures, any at all. Energies are in kWh, the node factor in
/// hundred-thousandths, the declared cost in micro-dollars per kWh.
#[derive(Clone, Copy, PartialEq, Eq, Debug)]
pub struct Line {
    // Numbers, class and cause (0 for none), since any figure is answered: one that names no class or no agent is a fault to be told.
    pub class: u32,
    pub cause: u32,
    pub injected: u32,
    pub withdrawn: u32,
    pub gross: u32,
    pub factor: u32,
    pub cost: u32,
}

impl TryFrom<u32> for Class {
    type Error = UnknownClass;

    ghost use Rattle.settlement.specs.Lines.{class_of};

    ghost try_from_gives = { λ number result.
        result ≡ ok_or (class_of number) (record { number = number }) };

    fn try_from(number: u32) -> Result<Class, UnknownClass> {
        match number {
            1 => Ok(Class::Normal),
            2 => Ok(Class::Obligated),
            3 => Ok(Class::Forced),
            _ => Err(UnknownClass { number }),
        }
    }
}

impl Line {
    ghost use Rattle.settlement.specs.Lines.{class_of, line_within, must_run, line_kept};

    /// The class that its number names, if any.
    pub(crate) fn known_class(&self) -> Option<Class>
        ensures { result ≡ class_of self.now.class }
    {
        Class::try_from(self.class).ok()
    }

    /// Whether energies, factor and cost are within their limits.
    pub(crate) fn is_within_limits(&self) -> bool
        ensures { result ≡ line_within self.now }
    {
        self.injected <= MOST_ENERGY
            && self.withdrawn <= MOST_ENERGY
            && self.gross <= MOST_ENERGY
            && self.factor >= LEAST_FACTOR
            && self.factor <= MOST_FACTOR
            && self.cost <= MOST_PRICE
    }

    /// Whether it may be obligated or forced: a generator's line with a gross of at least the injected energy.
    fn may_have_to_run(&self, role: Option<Role>) -> bool
        ensures { result ≡ must_run role self.now }
    {
        match role {
            Some(role) => role.is_generator() && self.gross >= self.injected,
            None => false,
        }
    }

    /// Whether it keeps the rule of its class, as the line of an agent with this role in a book of `count` agents.
    pub(crate) fn keeps_its_class(&self, count: u32, role: Option<Role>) -> bool
        ensures { result ≡ line_kept count role self.now }
    {
        match self.known_class() {
            Some(Class::Normal) => self.gross == 0 && self.cost == 0 && self.cause == 0,
            Some(Class::Obligated) => self.may_have_to_run(role) && self.cause == 0,
            Some(Class::Forced) => self.may_have_to_run(role)
                && self.cause >= 1
                && self.cause <= count,
            None => false,
        }
    }
}
