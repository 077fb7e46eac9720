//! Packets: an hour or a statement as bytes.
#![tactic(auto)]

mod faults;
mod hours;
mod numbers;
mod rows;
mod statements;
#[cfg(test)]
mod tests;

pub use faults::{ByteFault, PacketFault};
pub use hours::{HourHeading, HourPacket, PacketLine, read_hour, write_hour};
pub use statements::{StatementFigures, read_statement, write_statement};
