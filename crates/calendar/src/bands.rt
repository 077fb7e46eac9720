//! The bands that the hours of a week fall into.
pub mod table;

/// A band of hours.
#[derive(Clone, Copy, PartialEq, Eq, Debug)]
pub enum Band {
    Peak,
    Medium,
    Base,
}
