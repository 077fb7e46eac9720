//! What hours are settled with, and which contracts may stand in them.
ghost use Rattle.std.specs.Prelude.{◌≤◌};
ghost use Rattle.calendar.specs.Limits.{most_days};

use crate::admissions::Admission;
use crate::agents::Agent;
use crate::faults::BookFault;
use calendar::Calendar;
use forms::{Contract, ContractForm};

/// What the hours of a month are settled with: the form that contracts are asked of, the month, the agents, and the contract places.
#[derive(Drop)]
pub struct Setting<'a, F> {
    pub form: &'a F,
    pub calendar: Calendar,
    pub days: u32,
    pub agents: &'a [Agent],
    pub contracts: &'a [Option<Contract>],
    pub ghost few_days: { days ≤ most_days },
}

impl<F: ContractForm> Setting<'_, F> {
    ghost use Rattle.std.specs.Prelude.{◌≡◌};
    ghost use Rattle.std.specs.List.{list_all};
    ghost use Rattle.std.specs.Result.{result_err};
    ghost use Rattle.calendar.specs.Limits.{hours_of};
    ghost use Rattle.settlement.specs.ContractFaults.{contract_fault, contract_fits, place_fits};
    ghost use Rattle.settlement.specs.Setting.{setting_of};

    /// What decides which contracts may stand in the month.
    fn admission(&self) -> Admission<'_, F>
        ensures form { result.form.now ≡ self.now.form.now }
        ensures hours { result.hours ≡ hours_of self.now.days }
        ensures agents { result.agents.now ≡ self.now.agents.now }
    {
        Admission {
            form: self.form,
            hours: 24 * self.days,
            agents: self.agents,
        }
    }

    /// Refuses a contract that may not stand: by its parties, its hours, or its other figures and the form's terms.
    pub fn check_contract(&self, contract: Contract) -> Result<(), BookFault>
        ensures { let setting = setting_of (F.meaning self.now.form.now) self.now in
            result_err result ≡ contract_fault setting contract }
    {
        self.admission().check_contract(contract)
    }

    /// Whether a contract may stand.
    pub fn may_stand(&self, contract: Contract) -> bool
        ensures { let setting = setting_of (F.meaning self.now.form.now) self.now in
            result ≡ contract_fits setting contract }
    {
        self.admission().may_stand(contract)
    }

    /// Whether what is in each contract place may stand there.
    pub fn may_all_stand(&self) -> bool
        ensures { let setting = setting_of (F.meaning self.now.form.now) self.now in
            result ≡ list_all (place_fits setting) self.now.contracts.now }
    {
        self.admission().may_all_stand(self.contracts)
    }
}
