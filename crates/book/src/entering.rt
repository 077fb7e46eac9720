//! Entering and cancelling a contract.
ghost use Rattle.std.specs.Prelude.{◌≡◌, ◌-◌, ◌<◌, ◌≤◌, not, length, IfOk};
ghost use Rattle.std.specs.Result.{result_err};
ghost use Rattle.calendar.specs.Limits.{most_hours};
ghost use Rattle.forms.specs.Limits.{most_contracts};
ghost use Rattle.settlement.specs.ContractFaults.{number_known, taken_fault, contract_fault, covered_fault};
ghost use Rattle.settlement.specs.Faults.{met_if};
ghost use Rattle.book.specs.Entering.{enter_fault, entered, cancel_fault, cancelled};
ghost use Rattle.book.specs.Lent.{memory_seen, memory_with};
ghost use Rattle.book.specs.Memory.{setting_in, is_posted};
ghost use Rattle.book.specs.Months.{figures_in, figures_of};
ghost use Rattle.book.specs.Outcomes.{outcome_of};

use crate::memory::{Ledger, Pool, View};
use crate::months::{Extent, OpenMonth};
use crate::posting::FREE;
use forms::{Contract, ContractForm, MOST_CONTRACTS};
use settlement::{Agent, BookFault};

/// A contract, and the number that it is to stand under.
#[derive(Clone, Copy, PartialEq, Eq, Debug)]
pub struct NumberedContract {
    pub number: u32,
    pub contract: Contract,
}

/// The contract place of a number, or a refusal of one that contracts cannot have.
fn place_of(number: u32) -> Result<usize, BookFault>
    ensures fault { let outside = not (number_known number) in
        result_err result ≡ met_if outside BookFault.ContractNumber }
    ensures place { IfOk result (λ place. place ≡ number - 1) }
    ensures within { IfOk result (λ place. place < most_contracts) }
{
    if number < 1 || number > MOST_CONTRACTS {
        return Err(BookFault::ContractNumber);
    }
    Ok(number as usize - 1)
}

/// The contract place of a number that is free, or a refusal of one that is taken or that contracts
/// cannot have.
fn free_place(number: u32, contracts: &[Option<Contract>]) -> Result<usize, BookFault>
    requires { length contracts.now ≡ most_contracts }
    ensures fault { result_err result ≡ taken_fault contracts.now number }
    ensures place { IfOk result (λ place. place ≡ number - 1) }
    ensures within { IfOk result (λ place. place < most_contracts) }
{
    let place = place_of(number)?;
    if contracts[place].is_some() {
        return Err(BookFault::ContractNumber);
    }
    Ok(place)
}

/// Refuses a contract that covers an hour at which a posting stands.
fn check_covered(contract: Contract, marks: &[u8]) -> Result<(), BookFault>
    requires within { contract.last < length marks.now }
    requires few { length marks.now ≤ most_hours }
    ensures { result_err result ≡ covered_fault (is_posted marks.now) contract }
{
    for hour in contract.first..contract.last + 1 {
        if marks[hour as usize] != FREE {
            return Err(BookFault::CoveredHour(hour));
        }
    }
    Ok(())
}

/// Refuses a contract that may not stand in the month.
fn check_terms<F: ContractForm>(
    month: Extent,
    form: &F,
    contract: Contract,
    view: &View<'_, '_>,
) -> Result<(), BookFault>
    ensures { let memory = memory_seen view.now in
        let setting = setting_in (F.meaning form.now) (figures_in month) memory in
        result_err result ≡ contract_fault setting contract }
{
    let Pool { agents, contracts } = view.pool;
    month
        .setting(form, agents, contracts)
        .check_contract(contract)
}

/// The place of a contract that may be entered under its number: the number is free, and no hour
/// that the contract covers stands.
fn place_to_enter<F: ContractForm>(
    month: Extent,
    form: &F,
    numbered: NumberedContract,
    view: &View<'_, '_>,
) -> Result<usize, BookFault>
    ensures fault { let f = figures_in month in
        let memory = memory_seen view.now in
        result_err result
        ≡ enter_fault (F.meaning form.now) f numbered.number numbered.contract memory }
    ensures place { IfOk result (λ place. place ≡ numbered.number - 1) }
    ensures within { IfOk result (λ place. place < length view.now.pool.contracts.now) }
{
    view.check(form, month)?;
    let place = free_place(numbered.number, view.pool.contracts)?;
    check_terms(month, form, numbered.contract, view)?;
    check_covered(numbered.contract, view.marks)?;
    Ok(place)
}

/// The place of the contract that may be cancelled under a number: one stands there, and no hour
/// that it covers stands.
fn place_to_cancel<F: ContractForm>(
    month: Extent,
    form: &F,
    number: u32,
    view: &View<'_, '_>,
) -> Result<usize, BookFault>
    ensures fault { let memory = memory_seen view.now in
        result_err result ≡ cancel_fault (F.meaning form.now) (figures_in month) number memory }
    ensures place { IfOk result (λ place. place ≡ number - 1) }
    ensures within { IfOk result (λ place. place < length view.now.pool.contracts.now) }
{
    view.check(form, month)?;
    let place = place_of(number)?;
    let Some(contract) = view.pool.contracts[place] else {
        return Err(BookFault::ContractNumber);
    };
    check_covered(contract, view.marks)?;
    Ok(place)
}

/// Enters a contract under a number, 1 to 64, that is free. No hour that it covers may stand.
pub fn enter<F: ContractForm>(
    month: &OpenMonth,
    form: &F,
    numbered: NumberedContract,
    agents: &[Agent],
    contracts: &mut [Option<Contract>],
    ledger: &Ledger<'_>,
) -> Result<(), BookFault>
    ensures { let f = figures_of month.now in
        let before = memory_with agents.now contracts.old ledger.now in
        outcome_of result (memory_with agents.now contracts.new ledger.now)
        ≡ entered (F.meaning form.now) f numbered.number numbered.contract before }
{
    let pool = Pool { agents, contracts };
    let place = place_to_enter(month.extent(), form, numbered, &ledger.view(&pool))?;
    contracts[place] = Some(numbered.contract);
    Ok(())
}

/// Cancels the contract under a number. No hour that it covers may stand.
pub fn cancel<F: ContractForm>(
    month: &OpenMonth,
    form: &F,
    number: u32,
    agents: &[Agent],
    contracts: &mut [Option<Contract>],
    ledger: &Ledger<'_>,
) -> Result<(), BookFault>
    ensures { let before = memory_with agents.now contracts.old ledger.now in
        outcome_of result (memory_with agents.now contracts.new ledger.now)
        ≡ cancelled (F.meaning form.now) (figures_of month.now) number before }
{
    let pool = Pool { agents, contracts };
    let place = place_to_cancel(month.extent(), form, number, &ledger.view(&pool))?;
    contracts[place] = None;
    Ok(())
}
