//! Settling an hour of a contract, whatever its form.
ghost use Rattle.std.specs.Prelude.{◌≡◌, true};
ghost use Rattle.forms.specs.Meaning.{Meaning, Alike, Balanced, hour_legs};

use crate::Legs;
use crate::form::ContractForm;
use crate::hour::ContractHour;

/// The legs of an hour, which are those of its quantity. They are balanced, and forms that are alike give the same.
pub fn settle_hour<F: ContractForm>(form: &F, hour: ContractHour) -> Legs
    requires { (F.meaning form.now).takes hour.terms hour.parties ≡ true }
    ensures value { result ≡ hour_legs (F.meaning form.now) hour.terms hour.parties hour.facts }
    ensures balanced { Balanced result }
    ensures alike { (other : Meaning) → Alike (F.meaning form.now) other →
        result ≡ hour_legs other hour.terms hour.parties hour.facts }
{
    form.legs(hour, form.quantity(hour))
}
