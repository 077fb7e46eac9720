//! The book of a month in a power pool, kept in memory that the host lends.
//!
//! Every call answers, whatever figures and memory it is given; a refusal names its fault and
//! leaves all memory as it was.
#![tactic(auto)]

mod closing;
mod entering;
mod memory;
mod months;
mod opening;
mod posting;
mod rewrites;
mod statements;
mod views;

pub use calendar::Calendar;
pub use closing::close;
pub use entering::{NumberedContract, cancel, enter};
pub use memory::{Ledger, Pool, View};
pub use months::{ClosedMonth, MonthFigures, OpenMonth};
pub use opening::open;
pub use posting::{post, post_packet, withdraw};
pub use settlement::{Agent, BookFault, Holding, Line, LineFault, Posting};
pub use statements::Statement;
pub use views::{day_total, final_statement, provisional};
