//! How long a month may be.

/// The most days of a month.
pub const MOST_DAYS: u32 = 31;

/// The most hours of a month.
pub const MOST_HOURS: u32 = 24 * MOST_DAYS;
