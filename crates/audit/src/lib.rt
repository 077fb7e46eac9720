//! The audit of a list of calls: three books are settled in memory that the host lends, and compared. One hears the list, one the list without
//! its calls about contracts, and one only what stands in the first at the end. The first can be settled alone, for its totals.
#![tactic(auto)]

mod again;
mod audits;
mod cases;
mod comparisons;
mod findings;
mod settling;
mod totals;

pub use audits::{Report, audit};
pub use comparisons::{Comparison, is_alike, is_stranger};
pub use findings::Findings;
pub use runs::{Answer, Call, Lent, Month, State, Told, answer, is_accepted};
pub use totals::{Totals, settle};
