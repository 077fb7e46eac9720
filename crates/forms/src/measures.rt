//! Which facts an hour can have.
ghost use Rattle.std.specs.Prelude.{◌≡◌};
ghost use Rattle.forms.specs.Measured.{measured_facts, prices_fit, withdrawn_fits};

use crate::roles::Role;
use crate::{Facts, Parties};
use valuation::{LEAST_FACTOR, MOST_ENERGY, MOST_FACTOR, MOST_PRICE};

/// Whether the price and both node factors are within their limits.
fn do_prices_fit(facts: Facts) -> bool
    ensures { result ≡ prices_fit facts }
{
    facts.price <= MOST_PRICE
        && LEAST_FACTOR <= facts.seller_factor
        && facts.seller_factor <= MOST_FACTOR
        && LEAST_FACTOR <= facts.buyer_factor
        && facts.buyer_factor <= MOST_FACTOR
}

/// Whether all withdrawn energy together is within its limit.
fn does_withdrawn_fit(parties: Parties, facts: Facts) -> bool
    ensures { result ≡ withdrawn_fits parties facts }
{
    let all = u64::from(facts.distributors_withdrawn);
    let most = u64::from(MOST_ENERGY);
    if Role::named(parties.buyer.role).is_some_and(Role::is_distributor) {
        facts.withdrawn <= facts.distributors_withdrawn && all <= most
    } else {
        u64::from(facts.withdrawn) + all <= most
    }
}

/// Whether these can be the facts of an accepted posting, for a contract between these parties.
#[tactic(auto, unfolding(crate::specs::Measured::measured_facts))]
pub fn is_measured(parties: Parties, facts: Facts) -> bool
    ensures { result ≡ measured_facts parties facts }
{
    do_prices_fit(facts) && facts.injected <= MOST_ENERGY && does_withdrawn_fit(parties, facts)
}
