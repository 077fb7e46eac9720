//! The memory of a book: the host lends it, and every call is given it and looks it over.
ghost use Rattle.std.specs.Prelude.{◌≡◌, ◌≤◌, true, length, IfOk};
ghost use Rattle.std.specs.List.{list_all};
ghost use Rattle.std.specs.Result.{result_err};
ghost use Rattle.settlement.specs.Agents.{agent_fits};
ghost use Rattle.forms.specs.Limits.{most_agents};
ghost use Rattle.settlement.specs.Holdings.{all_withdrawn};
ghost use Rattle.settlement.specs.Limits.{most_month_energy};
ghost use Rattle.book.specs.Memory.{mark_fits, energy_within};

use crate::months::{Extent, MonthFigures};
use calendar::MOST_HOURS;
use forms::{Contract, ContractForm, MOST_CONTRACTS};
use settlement::{Agent, BookFault, Holding};
use valuation::MOST_ENERGY;

/// The most energy of an account, and of all withdrawn energy together, in kWh.
const MOST_MONTH_ENERGY: u64 = MOST_HOURS as u64 * MOST_ENERGY as u64;

/// Who takes part in a month, and the contract places: looked into by every call, and written only
/// by those on contracts.
#[derive(Clone, Copy)]
pub struct Pool<'p> {
    pub agents: &'p [Agent],
    pub contracts: &'p [Option<Contract>],
}

/// What postings write: an account per agent, a mark per hour, 0 or 1, and an entry per agent and
/// hour, agent after agent.
#[derive(Drop)]
pub struct Ledger<'l> {
    pub accounts: &'l mut [Holding],
    pub marks: &'l mut [u8],
    pub entries: &'l mut [Holding],
}

/// All memory of a book, to be looked into.
#[derive(Clone, Copy)]
pub struct View<'p, 'l> {
    pub pool: Pool<'p>,
    pub accounts: &'l [Holding],
    pub marks: &'l [u8],
    pub entries: &'l [Holding],
}

/// Whether every agent's figures are within their limits.
fn agents_fit(agents: &[Agent]) -> bool
    ensures { result ≡ list_all agent_fits agents.now }
{
    agents.iter().all(Agent::is_within_limits)
}

/// Whether every mark is 0 or 1.
fn marks_fit(marks: &[u8]) -> bool
    ensures { result ≡ list_all mark_fits marks.now }
{
    marks.iter().all(|mark| *mark <= 1)
}

/// Whether the energies of every holding are at most so many kWh.
fn energies_fit(most: u64, holdings: &[Holding]) -> bool
    ensures { result ≡ list_all (energy_within most) holdings.now }
{
    holdings.iter().all(|holding| holding.second.injected <= most
        && holding.second.withdrawn <= most)
}

/// The withdrawn energy of all accounts.
fn all_withdrawn(accounts: &[Holding]) -> u64
    requires few { length accounts.now ≤ most_agents }
    requires fit { list_all (energy_within most_month_energy) accounts.now ≡ true }
    ensures { result ≡ all_withdrawn accounts.now }
{
    accounts
        .iter()
        .map(|account| account.second.withdrawn)
        .sum()
}

impl Ledger<'_> {
    ghost use Rattle.book.specs.Lent.{memory_in, memory_seen};

    /// All memory: the ledger with the pool that it belongs to.
    pub fn view<'p, 'l>(&'l self, pool: &Pool<'p>) -> View<'p, 'l>
        ensures { memory_seen result ≡ memory_in pool.now self.now }
    {
        View {
            pool: *pool,
            accounts: self.accounts,
            marks: self.marks,
            entries: self.entries,
        }
    }
}

impl View<'_, '_> {
    ghost use Rattle.calendar.specs.Limits.{most_days};
    ghost use Rattle.settlement.specs.ContractFaults.{place_fits};
    ghost use Rattle.book.specs.Lent.{memory_seen};
    ghost use Rattle.book.specs.Memory.{setting_in, sized, stored_fits, size_fault, memory_fault};
    ghost use Rattle.book.specs.Months.{figures_in};
    ghost use Rattle.book.specs.Opening.{open_fault};

    /// Whether it has the size of a book of these figures.
    fn is_sized(&self, figures: MonthFigures) -> bool
        requires few_agents { figures.agents ≤ most_agents }
        requires few_days { figures.days ≤ most_days }
        ensures { result ≡ sized figures (memory_seen self.now) }
    {
        let count = figures.agents as usize;
        let hours = 24 * figures.days as usize;
        self.pool.agents.len() == count
            && self.accounts.len() == count
            && self.pool.contracts.len() == MOST_CONTRACTS as usize
            && self.marks.len() == hours
            && self.entries.len() == count * hours
    }

    /// Whether what is in each contract place may stand there.
    fn contracts_fit<F: ContractForm>(&self, form: &F, month: Extent) -> bool
        ensures { let memory = memory_seen self.now in
            let setting = setting_in (F.meaning form.now) (figures_in month) memory in
            result ≡ list_all (place_fits setting) memory.contracts }
    {
        let Pool { agents, contracts } = self.pool;
        month.setting(form, agents, contracts).may_all_stand()
    }

    /// Whether all stored figures are within their limits.
    fn is_within_limits<F: ContractForm>(&self, form: &F, month: Extent) -> bool
        requires few { length self.now.accounts.now ≤ most_agents }
        ensures { let memory = memory_seen self.now in
            result ≡ stored_fits (F.meaning form.now) (figures_in month) memory }
    {
        agents_fit(self.pool.agents)
            && marks_fit(self.marks)
            && energies_fit(u64::from(MOST_ENERGY), self.entries)
            && energies_fit(MOST_MONTH_ENERGY, self.accounts)
            && all_withdrawn(self.accounts) <= MOST_MONTH_ENERGY
            && self.contracts_fit(form, month)
    }

    /// Refuses memory of another size than the month's.
    pub(crate) fn check_size(&self, month: Extent) -> Result<(), BookFault>
        ensures { result_err result ≡ size_fault (figures_in month) (memory_seen self.now) }
    {
        if !self.is_sized(month.figures()) {
            return Err(BookFault::WrongSize);
        }
        Ok(())
    }

    /// Refuses memory of another size than the month's, or with a stored figure outside its limit.
    pub(crate) fn check<F: ContractForm>(&self, form: &F, month: Extent) -> Result<(), BookFault>
        ensures { let memory = memory_seen self.now in
            result_err result ≡ memory_fault (F.meaning form.now) (figures_in month) memory }
    {
        self.check_size(month)?;
        if !self.is_within_limits(form, month) {
            return Err(BookFault::StoredOutside);
        }
        Ok(())
    }

    /// The month that can be opened with these figures, or a refusal of figures or agents outside
    /// their limits, or of memory of another size.
    pub(crate) fn extent_of(&self, figures: MonthFigures) -> Result<Extent, BookFault>
        ensures fault { result_err result ≡ open_fault figures (memory_seen self.now) }
        ensures figures { IfOk result (λ month. figures_in month ≡ figures) }
    {
        if !figures.is_size_known() {
            return Err(BookFault::OutsideBook);
        }
        if !self.is_sized(figures) {
            return Err(BookFault::WrongSize);
        }
        let MonthFigures {
            agents,
            days,
            calendar,
        } = figures;
        if !calendar.is_within_limits() || !agents_fit(self.pool.agents) {
            return Err(BookFault::OutsideBook);
        }
        Ok(Extent {
            agents,
            days,
            calendar,
        })
    }

    /// Refuses what an opening with these figures would refuse, and changes nothing.
    pub fn check_opening(&self, figures: MonthFigures) -> Result<(), BookFault>
        ensures { result_err result ≡ open_fault figures (memory_seen self.now) }
    {
        self.extent_of(figures)?;
        Ok(())
    }
}
