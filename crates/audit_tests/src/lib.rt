//! Lists of calls, audited: what they come to, and which lists come to the same. And the law of an audit for a contract form that is written
//! outside `forms`.
#![tactic(auto)]

#[cfg(test)]
mod answers;
#[cfg(test)]
mod desk;
#[cfg(test)]
mod fitting;
#[cfg(test)]
mod hours;
#[cfg(test)]
mod months;
#[cfg(test)]
mod orders;
#[cfg(test)]
mod packet_steps;
#[cfg(test)]
mod pool;
mod profiles;
#[cfg(test)]
mod reports;
#[cfg(test)]
mod sold;
#[cfg(test)]
mod totals;

pub use profiles::audit_profiles;
