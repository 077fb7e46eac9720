//! The month of a book.
ghost use Rattle.std.specs.Prelude.{◌≡◌, ◌↔◌, IsTrue};

use book::{ClosedMonth, MonthFigures, OpenMonth};
use settlement::State;

/// A month, open or closed. It is moved, and cannot be copied or let go.
pub enum Month {
    Open(OpenMonth),
    Closed(ClosedMonth),
}

impl Month {
    ghost use Rattle.settlement.specs.declared.states.State.TheVariants.{Closed};
    ghost use Rattle.runs.specs.Reading.{state_of, figures_in};

    /// The figures that it was opened with.
    pub fn figures(&self) -> MonthFigures
        ensures { result ≡ figures_in self.now }
    {
        match self {
            Month::Open(month) => month.figures(),
            Month::Closed(month) => month.figures(),
        }
    }

    /// Whether it is open or closed.
    pub fn state(&self) -> State
        ensures { result ≡ state_of self.now }
    {
        match self {
            Month::Open(_) => State::Open,
            Month::Closed(_) => State::Closed,
        }
    }

    /// Whether it is closed.
    pub fn is_closed(&self) -> bool
        ensures { IsTrue result ↔ (state_of self.now ≡ Closed) }
    {
        self.state() == State::Closed
    }

    /// Gives the month up, and its figures back.
    pub fn retire(self) -> MonthFigures
        ensures { result ≡ figures_in self }
    {
        match self {
            Month::Open(month) => month.retire(),
            Month::Closed(month) => month.retire(),
        }
    }
}
