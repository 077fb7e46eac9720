//! The state of a month.

/// A month is open, or it is closed.
#[derive(Clone, Copy, PartialEq, Eq, Debug)]
pub enum State {
    Open,
    Closed,
}
