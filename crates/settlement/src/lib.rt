//! An hour of the market: who takes part, what is wrong with a posting or a contract, and what an hour gives each agent.
//!
//! Nothing here knows how a book keeps what it is told; the book and the law over whole runs are built on the same words.
#![tactic(auto)]

mod admissions;
mod agents;
mod carrying;
mod faults;
mod holdings;
mod hours;
mod legs;
mod lines;
mod packet_postings;
mod postings;
mod power;
mod priced;
mod settings;
mod states;

pub use admissions::Admission;
pub use agents::Agent;
pub use faults::{BookFault, LineFault};
pub use holdings::Holding;
pub use legs::does_cover;
pub use lines::Line;
pub use packet_postings::PacketPosting;
pub use postings::{CheckedPosting, Posting, check_hour};
pub use power::{charge_power, check_power};
pub use settings::Setting;
pub use states::State;
