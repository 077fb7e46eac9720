//! A line at the price of its hour.
ghost use Rattle.std.specs.Prelude.{◌≡◌, ◌<◌, ◌≤◌, true, pos};
ghost use Rattle.forms.specs.Limits.{most_agents};
ghost use Rattle.valuation.specs.Limits.{most_price, most_cost_amount};
ghost use Rattle.settlement.specs.Limits.{most_excess};
ghost use Rattle.settlement.specs.Holdings.{entry_of};
ghost use Rattle.settlement.specs.Hour.{excess_on, obligated_on, caused_on, figures_with};
ghost use Rattle.settlement.specs.Lines.{line_within};

use crate::holdings::Holding;
use crate::lines::{Class, Line};
use tally::{Energy, Money, MoneyLine, Pair, Tally};
use valuation::{amount, excess};

/// A line with its hour's price, both within their limits.
#[derive(Clone, Copy)]
pub(crate) struct PricedLine<'a> {
    pub(crate) price: u32,
    pub(crate) line: &'a Line,
    ghost price_within: { price ≤ most_price },
    ghost figures_within: { line_within line.now ≡ true },
}

impl PricedLine<'_> {
    /// The excess of a line that had to run; 0 in a normal one.
    pub(crate) fn excess(&self) -> u64
        ensures value { result ≡ excess_on self.now.price self.now.line.now }
        ensures bound { result ≤ most_cost_amount }
    {
        let line = self.line;
        match line.known_class() {
            Some(Class::Obligated | Class::Forced) => excess(
                self.price,
                line.gross,
                line.injected,
                line.factor,
                line.cost,
            ),
            Some(Class::Normal) | None => 0,
        }
    }

    /// The excess of a line if it is obligated.
    pub(crate) fn obligated(&self) -> u64
        ensures value { result ≡ obligated_on self.now.price self.now.line.now }
        ensures bound { result ≤ most_cost_amount }
    {
        match self.line.known_class() {
            Some(Class::Obligated) => self.excess(),
            Some(Class::Normal | Class::Forced) | None => 0,
        }
    }

    /// The excess of a line if it is forced, and the agent at place `index` is its cause.
    pub(crate) fn caused_by(&self, index: usize) -> u64
        requires index_small { index < most_agents }
        ensures value { result ≡ caused_on self.now.price index self.now.line.now }
        ensures bound { result ≤ most_cost_amount }
    {
        match self.line.known_class() {
            Some(Class::Forced) if self.line.cause as usize == index + 1 => self.excess(),
            Some(_) | None => 0,
        }
    }

    /// The entry of the line's agent, contracts aside: from the line, and the excess that the agent caused and carries.
    pub(crate) fn entry(&self, caused: u64, carried: u64) -> Holding
        requires caused_within { caused ≤ most_excess }
        requires carried_within { carried ≤ most_excess }
        ensures { let figures = figures_with self.now.price self.now.line.now (pos 0) in
            result ≡ entry_of (figures caused carried) }
    {
        let line = self.line;
        let earned = amount(line.injected, line.factor, self.price) as i64;
        let spent = amount(line.withdrawn, line.factor, self.price) as i64;
        let overcost = self.excess() as i64 - (caused + carried) as i64;
        Pair {
            first: Money::alone(MoneyLine::Market, earned - spent).join(Money::alone(
                MoneyLine::Overcost,
                overcost,
            )),
            second: Energy {
                injected: u64::from(line.injected),
                withdrawn: u64::from(line.withdrawn),
            },
        }
    }
}
