//! The statement of an agent.
use settlement::Holding;
use tally::{Energy, Money, Peak, Tally};

/// An agent's month: its lines, their sum, the energies, and the hour of its highest withdrawal.
#[derive(Clone, Copy, PartialEq, Eq, Debug)]
pub struct Statement {
    pub lines: Money,
    pub balance: i64,
    pub energy: Energy,
    pub peak: Peak,
}

impl Statement {
    ghost use Rattle.std.specs.Prelude.{◌≡◌};
    ghost use Rattle.tally.specs.Peak.{no_peak};
    ghost use Rattle.settlement.specs.Holdings.{no_holding};
    ghost use Rattle.book.specs.Statements.{statement_of};

    /// The statement of an account, with the peak of its month.
    pub(crate) fn of(account: Holding, peak: Peak) -> Statement
        ensures { result ≡ statement_of account peak }
    {
        let lines = account.first;
        Statement {
            lines,
            balance: lines.balance(),
            energy: account.second,
            peak,
        }
    }

    /// The statement of an agent of whom nothing stands.
    pub fn blank() -> Statement
        ensures { result ≡ statement_of no_holding no_peak }
    {
        Statement {
            lines: Money::neutral(),
            balance: 0,
            energy: Energy::neutral(),
            peak: Peak::neutral(),
        }
    }
}
