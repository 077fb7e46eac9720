//! What power comes to when a month is closed.
ghost use Rattle.std.specs.Prelude.{◌≡◌, ◌*◌, ◌≤◌, map, length, pos, ◌-ℤ◌};
ghost use Rattle.std.specs.Result.{result_err};
ghost use Rattle.valuation.specs.Sharing.{parts_of};
ghost use Rattle.settlement.specs.Faults.{met_if};
ghost use Rattle.settlement.specs.Holdings.{holding_joined, withdrawn_on, all_withdrawn, power_points};
ghost use Rattle.forms.specs.Limits.{most_agents};
ghost use Rattle.settlement.specs.Limits.{points_per_kw, most_month_energy, most_credit, most_points};
ghost use Rattle.settlement.specs.Power.{power_due, power_weight, power_weights, power_uncarried, accounts_charged};

use crate::agents::Agent;
use crate::carrying::{Carried, PLACES, fill_parts, is_uncarried};
use crate::faults::BookFault;
use crate::holdings::{Holding, points_alone};
use tally::{MoneyLine, Tally};

/// What a kW of remunerable power is credited, in points.
const POINTS_PER_KW: u64 = 57_000;

/// What an agent is credited for its power.
fn power_credit(agent: &Agent) -> u64
    ensures value { result ≡ points_per_kw * agent.now.power }
    ensures bound { result ≤ most_credit }
{
    POINTS_PER_KW * u64::from(agent.power)
}

/// The agents of a book with their accounts of a month, which hold no more withdrawn energy than the month's hours can.
#[derive(Clone, Copy)]
struct MonthPower<'a> {
    agents: &'a [Agent],
    accounts: &'a [Holding],
    ghost few: { length agents.now ≤ most_agents },
    ghost accounts_long: { length accounts.now ≡ length agents.now },
    ghost within: { all_withdrawn accounts.now ≤ most_month_energy },
}

/// The power due, which is carried over the month's withdrawn energy.
impl Carried for MonthPower<'_> {
    ghost agents = { λ month. length month.agents.now };

    ghost weight = { λ month. power_weight month.agents.now (withdrawn_on month.accounts.now) };

    ghost points = { λ month. power_due month.agents.now };

    fn agents(&self) -> usize {
        self.agents.len()
    }

    fn weight(&self, index: usize) -> u32 {
        self.agents[index].weight(self.accounts[index].second.withdrawn as u32)
    }

    fn points(&self) -> u64 {
        self.agents.iter().map(power_credit).sum()
    }
}

/// Refuses power that is due and that no withdrawn energy carries.
pub fn check_power(agents: &[Agent], accounts: &[Holding]) -> Result<(), BookFault>
    requires few { length agents.now ≤ most_agents }
    requires accounts_long { length accounts.now ≡ length agents.now }
    requires within { all_withdrawn accounts.now ≤ most_month_energy }
    ensures { let lacks = power_uncarried agents.now (withdrawn_on accounts.now) in
        result_err result ≡ met_if lacks BookFault.NoPowerCarrier }
{
    if is_uncarried(&MonthPower { agents, accounts }) {
        return Err(BookFault::NoPowerCarrier);
    }
    Ok(())
}

/// A credit less a debit, on the power line.
fn power_points(credit: u64, debit: u64) -> Holding
    requires credit_within { credit ≤ most_points }
    requires debit_within { debit ≤ most_points }
    ensures { result ≡ power_points (pos credit -ℤ pos debit) }
{
    points_alone(MoneyLine::Power, credit as i64 - debit as i64)
}

/// Puts a credit less a debit on the power line of an account.
fn put_power(account: &mut Holding, credit: u64, debit: u64)
    requires credit_within { credit ≤ most_points }
    requires debit_within { debit ≤ most_points }
    ensures { account.new ≡ holding_joined account.old (power_points (pos credit -ℤ pos debit)) }
{
    *account = account.join(power_points(credit, debit));
}

/// Puts every agent's credit less the part that it carries on its account.
fn charge_parts(agents: &[Agent], parts: &[u64], accounts: &mut [Holding])
    requires accounts_long { length accounts.old ≡ length agents.now }
    requires parts_long { length parts.now ≡ length agents.now }
    requires shared { let weights = power_weights agents.now (withdrawn_on accounts.old) in
        parts.now ≡ parts_of (power_due agents.now) weights }
    requires due_within { power_due agents.now ≤ most_points }
    ensures { accounts.new ≡ accounts_charged agents.now accounts.old }
{
    for (i, agent) in agents.iter().enumerate() {
        put_power(&mut accounts[i], power_credit(agent), parts[i]);
    }
}

/// Credits every agent's power on its account, and debits the sum over the month's withdrawn energy.
pub fn charge_power(agents: &[Agent], accounts: &mut [Holding])
    requires few { length agents.now ≤ most_agents }
    requires accounts_long { length accounts.old ≡ length agents.now }
    requires within { all_withdrawn accounts.old ≤ most_month_energy }
    ensures { accounts.new ≡ accounts_charged agents.now accounts.old }
{
    let mut parts = [0u64; PLACES];
    let parts = &mut parts[..agents.len()];
    fill_parts(&MonthPower { agents, accounts }, parts);
    charge_parts(agents, parts, accounts);
}
