//! A contract form of another shape, written outside `forms`: a fixed daily profile, sold at the contract's price.
//!
//! It stands for the forms that others write: its meaning and what that keeps in specs/, its three answers here.
#![tactic(auto)]

mod daily;
mod range;
#[cfg(test)]
mod tests;

pub use daily::DailyProfile;
pub use range::{Range, whole_range};
