//! The daily profile.
ghost use Rattle.std.specs.Prelude.{◌≡◌};
ghost use Rattle.profile.specs.Profile.{profile, profiled};
ghost use Rattle.profile.specs.Kept.{profile_keeps};

use calendar::Band;
use forms::{Contract, ContractForm, ContractHour, Legs, Parties};
use valuation::cost_amount;

/// A daily profile, kind 3: the base quantity in base hours, a half of it in medium and a quarter in peak hours. The buyer pays
/// the contract's price for it, and the market is left out.
#[derive(Clone, Copy)]
pub struct DailyProfile;

/// The kind of a daily profile.
pub const PROFILE_KIND: u32 = 3;

/// What is left of a base quantity in a band.
fn profiled_quantity(band: Band, base: u32) -> u32
    ensures { result ≡ profiled band base }
{
    match band {
        Band::Peak => base / 4,
        Band::Medium => base / 2,
        Band::Base => base,
    }
}

impl ContractForm for DailyProfile {
    ghost meaning = { λ _. profile };

    ghost keeps = { λ form. profile_keeps };

    fn takes(&self, terms: Contract, _parties: Parties) -> bool {
        terms.kind == PROFILE_KIND && terms.peak == 0 && terms.medium == 0 && terms.margin == 0
    }

    fn quantity(&self, hour: ContractHour) -> u32 {
        profiled_quantity(hour.facts.band, hour.terms.base)
    }

    #[tactic(auto, using(forms::specs::Known::contract_price_le))]
    fn legs(&self, hour: ContractHour, quantity: u32) -> Legs {
        let cost = cost_amount(quantity, hour.terms.price) as i64;
        Legs {
            seller: cost,
            buyer: -cost,
        }
    }
}
