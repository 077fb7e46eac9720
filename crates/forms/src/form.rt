//! What every contract form answers.
ghost use Rattle.std.specs.Prelude.{◌≡◌, ◌≤◌, true};
ghost use Rattle.forms.specs.Meaning.{Meaning, Keeps};
ghost use Rattle.valuation.specs.Limits.{most_energy};

use crate::hour::ContractHour;
use crate::{Contract, Legs, Parties};

/// A kind of contract. Its answers are three functions, its meaning; to ask changes nothing.
pub trait ContractForm {
    ghost meaning: { Self → Meaning };

    /// Whether it takes these terms between these parties, whatever they are.
    fn takes(&self, terms: Contract, parties: Parties) -> bool
        ensures { result ≡ (meaning self.now).takes terms parties };

    /// The energy of an hour, in kilowatt-hours.
    fn quantity(&self, hour: ContractHour) -> u32
        requires { (meaning self.now).takes hour.terms hour.parties ≡ true }
        ensures { result ≡ (meaning self.now).quantity hour.terms hour.parties hour.facts };

    /// What so much energy of an hour is worth to the parties.
    fn legs(&self, hour: ContractHour, quantity: u32) -> Legs
        requires taken { (meaning self.now).takes hour.terms hour.parties ≡ true }
        requires limit { quantity ≤ most_energy }
        ensures { result ≡ (meaning self.now).legs hour.terms hour.parties hour.facts quantity };

    // Quantities and legs are within their limits, and the legs cancel.
    ghost keeps: { (form : Self) → Keeps (meaning form) };
}
