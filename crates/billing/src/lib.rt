//! The billing of a power pool, for C: `gibzurg.h` declares what this static library exports.
#![tactic(auto)]

mod answers;
mod meters;
mod statements;

pub use answers::Answer;
pub use meters::gibzurg_meter_day;
pub use statements::gibzurg_check_statement;
