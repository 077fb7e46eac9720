//! The calls of a host on a book, one after another: what each is told, every agent's statement at the end, and that memory holds what stands.
#![tactic(auto)]

mod answers;
mod calls;
mod lent;
mod months;
mod runs;
mod totals;

pub use answers::{Answer, Told, is_accepted, is_done};
pub use calls::Call;
pub use lent::Lent;
pub use months::Month;
pub use runs::{answer, replay};
pub use settlement::State;
pub use totals::{balances_together, fill_statements};
