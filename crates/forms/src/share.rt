//! Shares: a distributor's part of a generator's energy.
ghost use Rattle.std.specs.Prelude.{◌≡◌, ◌≤◌};
ghost use Rattle.forms.specs.Kinds.{share, shared_energy};
ghost use Rattle.valuation.specs.Limits.{most_energy};
ghost use Rattle.forms.specs.Kept.{share_keeps};

use crate::form::ContractForm;
use crate::hour::ContractHour;
use crate::market::hour_market_legs;
use crate::roles::Role;
use crate::{Contract, Facts, Legs, Parties};

/// Shares of what a generator injects, kind 2: a distributor's share of it is its share of what all distributors withdraw.
#[derive(Clone, Copy)]
pub struct Share;

/// The kind of a share.
const SHARE_KIND: u32 = 2;

/// The buyer's share of the injected energy.
fn shared_energy(facts: Facts) -> u32
    requires injected_limit { facts.injected ≤ most_energy }
    requires among { facts.withdrawn ≤ facts.distributors_withdrawn }
    ensures { result ≡ shared_energy facts }
{
    if facts.distributors_withdrawn == 0 {
        return 0;
    }
    (u64::from(facts.injected) * u64::from(facts.withdrawn)
        / u64::from(facts.distributors_withdrawn)) as u32
}

impl ContractForm for Share {
    ghost meaning = { λ _. share };

    ghost keeps = { λ form. share_keeps };

    fn takes(&self, terms: Contract, parties: Parties) -> bool {
        terms.kind == SHARE_KIND
            && terms.peak == 0
            && terms.medium == 0
            && terms.base == 0
            && Role::named(parties.seller.role).is_some_and(Role::is_generator)
            && Role::named(parties.buyer.role).is_some_and(Role::is_distributor)
    }

    #[tactic(auto, using(crate::specs::Known::injected_le, crate::specs::Kept::share_among))]
    fn quantity(&self, hour: ContractHour) -> u32 {
        shared_energy(hour.facts)
    }

    fn legs(&self, hour: ContractHour, quantity: u32) -> Legs {
        hour_market_legs(hour, quantity)
    }
}
