//! The limits of what is valued.
use crate::pricing::{AMOUNT_UNITS, COST_UNITS};

/// The most energy of an hour, in kWh.
pub const MOST_ENERGY: u32 = 4_000_000;

/// The highest price or cost, in micro-dollars per kWh.
pub const MOST_PRICE: u32 = 2_000_000;

/// The least node factor, in hundred-thousandths.
pub const LEAST_FACTOR: u32 = 50_000;

/// The highest node factor, in hundred-thousandths.
pub const MOST_FACTOR: u32 = 150_000;

/// The largest amount, in points: a whole number of them.
pub const MOST_AMOUNT: u64 = MOST_ENERGY as u64 * MOST_FACTOR as u64 * MOST_PRICE as u64
    / AMOUNT_UNITS;

/// The largest cost amount, in points: a whole number of them.
pub const MOST_COST_AMOUNT: u64 = MOST_ENERGY as u64 * MOST_PRICE as u64 / COST_UNITS;
