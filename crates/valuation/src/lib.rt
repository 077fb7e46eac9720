//! What energy is worth, and how points are shared.
//!
//! Money is counted in points of 1/10,000 US dollar.
#![tactic(auto)]

mod limits;
mod overcost;
mod pricing;
mod split;
#[cfg(test)]
mod tests;

pub use limits::{
    LEAST_FACTOR, MOST_AMOUNT, MOST_COST_AMOUNT, MOST_ENERGY, MOST_FACTOR, MOST_PRICE,
};
pub use overcost::excess;
pub use pricing::{amount, cost_amount};
pub use split::share;
