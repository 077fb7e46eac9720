//! Trials of the book on memory of a wrong size or with damaged figures, which no journal can reach, and of packets, contracts, closings and
//! final statements.
#![tactic(auto)]

#[cfg(test)]
mod closings;
#[cfg(test)]
mod contracts;
#[cfg(test)]
mod days;
#[cfg(test)]
mod desk;
#[cfg(test)]
mod hour_packets;
#[cfg(test)]
mod legs;
#[cfg(test)]
mod slices;
#[cfg(test)]
mod tests;
#[cfg(test)]
mod trials;
