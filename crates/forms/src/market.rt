//! What energy delivered under a contract is worth to its parties.
ghost use Rattle.std.specs.Prelude.{◌≡◌, ◌≤◌};
ghost use Rattle.forms.specs.Market.{factor_at, market_legs};
ghost use Rattle.valuation.specs.Limits.{most_energy, most_price, most_factor};

use crate::hour::ContractHour;
use crate::{Contract, Delivery, Facts, Legs};
use valuation::{amount, cost_amount};

/// The factor of the market bar, in hundred-thousandths.
const BAR_FACTOR: u32 = 100_000;

/// The factor at a place of delivery.
fn factor_at(delivery: Delivery, facts: Facts) -> u32
    ensures { result ≡ factor_at delivery facts }
{
    match delivery {
        Delivery::MarketBar => BAR_FACTOR,
        Delivery::SellerNode => facts.seller_factor,
        Delivery::BuyerNode => facts.buyer_factor,
    }
}

/// The legs of a contract for differences: the seller gets the energy's cost at the contract's price and gives its value at the
/// place of delivery; the buyer the other way round.
pub fn market_legs(terms: Contract, facts: Facts, quantity: u32) -> Legs
    requires contract_price_limit { terms.price ≤ most_price }
    requires price_limit { facts.price ≤ most_price }
    requires seller_factor_limit { facts.seller_factor ≤ most_factor }
    requires buyer_factor_limit { facts.buyer_factor ≤ most_factor }
    requires energy_limit { quantity ≤ most_energy }
    ensures { result ≡ market_legs terms facts quantity }
{
    let value = amount(quantity, factor_at(terms.delivery, facts), facts.price) as i64;
    let cost = cost_amount(quantity, terms.price) as i64;
    Legs {
        seller: cost - value,
        buyer: value - cost,
    }
}

/// The same legs of an hour, whose terms and facts are within their limits.
#[tactic(auto, using(crate::specs::Known::contract_price_le, crate::specs::Known::price_le, crate::specs::Known::seller_factor_le, crate::specs::Known::buyer_factor_le))]
pub fn hour_market_legs(hour: ContractHour, quantity: u32) -> Legs
    requires { quantity ≤ most_energy }
    ensures { result ≡ market_legs hour.terms hour.facts quantity }
{
    market_legs(hour.terms, hour.facts, quantity)
}
