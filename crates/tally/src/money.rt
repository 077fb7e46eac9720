//! Sums of money, line by line, modulo 2^64.
ghost use Rattle.std.specs.Prelude.{◌^◌, ◌<◌};
ghost use Rattle.std.specs.Int.Signed.{mag};

use crate::traits::{Reversible, Tally};

/// What an agent is owed (positive) or owes, in whole units, by the kind of line.
#[derive(Clone, Copy, PartialEq, Eq, Debug)]
pub struct Money {
    pub market: i64,
    pub contract: i64,
    pub overcost: i64,
    pub power: i64,
    ghost market_fits: { mag market < 2 ^ 63 },
    ghost contract_fits: { mag contract < 2 ^ 63 },
    ghost overcost_fits: { mag overcost < 2 ^ 63 },
    ghost power_fits: { mag power < 2 ^ 63 },
}

/// The lines of money, by name.
#[derive(Clone, Copy, PartialEq, Eq, Debug)]
pub enum MoneyLine {
    Market,
    Contract,
    Overcost,
    Power,
}

impl MoneyLine {
    /// Each line once, in the order of a statement.
    pub const ALL: [MoneyLine; 4] = [
        MoneyLine::Market,
        MoneyLine::Contract,
        MoneyLine::Overcost,
        MoneyLine::Power,
    ];
}

#[tactic(auto, using(crate::specs::MoneyLaws::money_each, std::proofs::lemmas::Int::wraps))]
impl Money {
    ghost use Rattle.std.specs.Prelude.{◌≡◌};
    ghost use Rattle.std.specs.Int.{int_wrap, w64};
    ghost use Rattle.tally.specs.Lines.{line_on, alone, balance_of};
    ghost use Rattle.tally.specs.Money.{money_of, lines_of};

    /// What stands on one line.
    pub fn on(&self, line: MoneyLine) -> i64
        ensures { result ≡ line_on line (lines_of self.now) }
    {
        match line {
            MoneyLine::Market => self.market,
            MoneyLine::Contract => self.contract,
            MoneyLine::Overcost => self.overcost,
            MoneyLine::Power => self.power,
        }
    }

    /// So many points on one line, and nothing on the others.
    pub fn alone(line: MoneyLine, points: i64) -> Money
        ensures { result ≡ money_of (alone line points) }
    {
        let mut money = Money::neutral();
        match line {
            MoneyLine::Market => money.market = points,
            MoneyLine::Contract => money.contract = points,
            MoneyLine::Overcost => money.overcost = points,
            MoneyLine::Power => money.power = points,
        }
        money
    }

    /// All lines together, modulo 2^64.
    pub fn balance(&self) -> i64
        ensures { result ≡ int_wrap w64 (balance_of (lines_of self.now)) }
    {
        self.market
            .wrapping_add(self.contract)
            .wrapping_add(self.overcost)
            .wrapping_add(self.power)
    }
}

#[tactic(auto, using(crate::specs::MoneyLaws::money_each, std::proofs::lemmas::Int::wraps))]
impl Tally for Money {
    ghost use Rattle.tally.specs.Money.{no_money, money_joined};
    ghost use Rattle.tally.specs.MoneyLaws.{money_lawful};

    ghost nothing = { no_money };

    ghost joined = { money_joined };

    ghost lawful = { money_lawful };

    fn neutral() -> Money {
        Money {
            market: 0,
            contract: 0,
            overcost: 0,
            power: 0,
        }
    }

    fn join(self, other: Money) -> Money {
        Money {
            market: self.market.wrapping_add(other.market),
            contract: self.contract.wrapping_add(other.contract),
            overcost: self.overcost.wrapping_add(other.overcost),
            power: self.power.wrapping_add(other.power),
        }
    }
}

impl Reversible for Money {
    ghost use Rattle.tally.specs.Money.{money_undone};

    ghost undone = { money_undone };

    fn opposite(self) -> Money {
        Money {
            market: self.market.wrapping_neg(),
            contract: self.contract.wrapping_neg(),
            overcost: self.overcost.wrapping_neg(),
            power: self.power.wrapping_neg(),
        }
    }
}
