//! Tallies: values that join, in any order, into one total.
//!
//! A statement, an hour and an account are all tallies, so that one fold and one update serve them all.
#![tactic(auto)]

pub mod energy;
pub mod folds;
pub mod money;
pub mod pair;
pub mod peak;
pub mod traits;

pub use energy::Energy;
pub use folds::{fold, fold_day, fold_days, update};
pub use money::{Money, MoneyLine};
pub use pair::Pair;
pub use peak::Peak;
pub use traits::{Reversible, Tally};

#[cfg(test)]
mod tests;
