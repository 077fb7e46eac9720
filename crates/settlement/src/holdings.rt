//! What an agent has come to: money and energy together.
ghost use Rattle.std.specs.Prelude.{◌≡◌};
ghost use Rattle.settlement.specs.Holdings.{points_alone};

use tally::{Energy, Money, MoneyLine, Pair, Tally};

/// What an hour gave an agent, or its month so far.
pub type Holding = Pair<Money, Energy>;

/// So many points on one line of money, and nothing else.
pub(crate) fn points_alone(line: MoneyLine, points: i64) -> Holding
    ensures { result ≡ points_alone line points }
{
    Pair {
        first: Money::alone(line, points),
        second: Energy::neutral(),
    }
}
