//! Amounts and cost amounts, rounded to the nearest point, halves up.
ghost use Rattle.std.specs.Prelude.{◌≡◌, ◌+◌, ◌*◌, ◌/◌, ◌^◌, ◌<◌, ◌≤◌};
ghost use Rattle.valuation.specs.Amounts.{amount_units, cost_units, amount_of, cost_amount_of};
ghost use Rattle.valuation.specs.Limits.{most_energy, most_price, most_factor, most_amount, most_cost_amount};
ghost use Rattle.valuation.specs.Rounding.{rounded, NearestUp};

/// kWh × hundred-thousandths × micro-dollars per kWh in a point.
pub(crate) const AMOUNT_UNITS: u64 = 10_000_000;

/// kWh × micro-dollars per kWh in a point.
pub(crate) const COST_UNITS: u64 = 100;

/// The points in so many units, to the nearest, halves up.
fn to_points(units: u64, per_point: u64) -> u64
    requires nonzero { 0 < per_point }
    requires fits { units + per_point / 2 < 2 ^ 64 }
    ensures { result ≡ rounded units per_point }
{
    (units + per_point / 2) / per_point
}

/// The amount of `energy` kWh at a node factor and a price, in points.
#[tactic(auto, using(crate::proofs::Amounts::product_le, crate::proofs::Amounts::amount_of_le, crate::proofs::Rounding::rounded_nearest))]
pub fn amount(energy: u32, factor: u32, price: u32) -> u64
    requires energy_limit { energy ≤ most_energy }
    requires factor_limit { factor ≤ most_factor }
    requires price_limit { price ≤ most_price }
    ensures value { result ≡ amount_of energy factor price }
    ensures nearest { NearestUp (energy * factor * price) amount_units result }
    ensures bound { result ≤ most_amount }
{
    to_points(
        u64::from(energy) * u64::from(factor) * u64::from(price),
        AMOUNT_UNITS,
    )
}

/// The cost amount of `energy` kWh at a cost, in points.
#[tactic(auto, using(crate::proofs::Amounts::cost_product_le, crate::proofs::Amounts::cost_amount_of_le, crate::proofs::Rounding::rounded_nearest))]
pub fn cost_amount(energy: u32, cost: u32) -> u64
    requires energy_limit { energy ≤ most_energy }
    requires cost_limit { cost ≤ most_price }
    ensures value { result ≡ cost_amount_of energy cost }
    ensures nearest { NearestUp (energy * cost) cost_units result }
    ensures bound { result ≤ most_cost_amount }
{
    to_points(u64::from(energy) * u64::from(cost), COST_UNITS)
}
