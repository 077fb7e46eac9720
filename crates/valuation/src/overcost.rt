//! The excess of generation that runs at a cost above the price.
ghost use Rattle.std.specs.Prelude.{◌≡◌, ◌≤◌};
ghost use Rattle.valuation.specs.Excess.{excess_of};
ghost use Rattle.valuation.specs.Limits.{most_energy, most_price, most_factor, most_cost_amount};

use crate::pricing::{amount, cost_amount};

/// What `gross` kWh cost beyond what the `injected` kWh earn at the node, in points: 0 where the cost is below the price, and at
/// least 0 elsewhere.
pub fn excess(price: u32, gross: u32, injected: u32, factor: u32, cost: u32) -> u64
    requires price_limit { price ≤ most_price }
    requires gross_limit { gross ≤ most_energy }
    requires injected_limit { injected ≤ most_energy }
    requires factor_limit { factor ≤ most_factor }
    requires cost_limit { cost ≤ most_price }
    ensures value { result ≡ excess_of price gross injected factor cost }
    ensures bound { result ≤ most_cost_amount }
{
    if cost < price {
        0
    } else {
        cost_amount(gross, cost).saturating_sub(amount(injected, factor, price))
    }
}
