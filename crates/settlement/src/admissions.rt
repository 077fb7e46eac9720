//! Which contracts may stand: asked of a form, for so many hours, between these agents.
ghost use Rattle.std.specs.Prelude.{◌≡◌, length};
ghost use Rattle.settlement.specs.ContractFaults.{PartiesKnown, parties_of};

use crate::agents::Agent;
use crate::faults::BookFault;
use calendar::MOST_HOURS;
use forms::{Contract, ContractForm, Parties, Party, do_figures_fit, do_hours_fit, do_parties_fit};

/// The two parties to a contract, both agents of the book.
pub(crate) fn parties(agents: &[Agent], contract: Contract) -> Parties
    requires { PartiesKnown (length agents.now) contract }
    ensures { result ≡ parties_of agents.now contract }
{
    Parties {
        seller: Party::from(&agents[contract.seller as usize - 1]),
        buyer: Party::from(&agents[contract.buyer as usize - 1]),
    }
}

/// What decides which contracts may stand: the form that they are asked of, how many hours there are, any number, and the agents.
#[derive(Drop)]
pub struct Admission<'a, F> {
    pub form: &'a F,
    pub hours: u32,
    pub agents: &'a [Agent],
}

impl<F: ContractForm> Admission<'_, F> {
    ghost use Rattle.std.specs.List.{list_all};
    ghost use Rattle.std.specs.Result.{result_err};
    ghost use Rattle.settlement.specs.ContractFaults.{in_book, contract_fault_in, contract_fits_in, place_fits_in};

    /// Whether a number is that of an agent of the book.
    fn is_in_book(&self, number: u32) -> bool
        ensures { result ≡ in_book self.now.agents.now number }
    {
        1 <= number && number as usize <= self.agents.len()
    }

    /// Refuses a contract that may not stand: by its parties, its hours, or its other figures and the form's terms.
    pub fn check_contract(&self, contract: Contract) -> Result<(), BookFault>
        ensures { let form = F.meaning self.now.form.now in
            result_err result ≡ contract_fault_in form self.now.hours self.now.agents.now contract }
    {
        if !self.is_in_book(contract.seller) || !self.is_in_book(contract.buyer) {
            return Err(BookFault::ContractTerms);
        }
        let parties = parties(self.agents, contract);
        if !do_parties_fit(contract, parties) {
            return Err(BookFault::ContractTerms);
        }
        if !do_hours_fit(contract, self.hours.min(MOST_HOURS)) {
            return Err(BookFault::ContractTerms);
        }
        if !do_figures_fit(contract) || !self.form.takes(contract, parties) {
            return Err(BookFault::ContractTerms);
        }
        Ok(())
    }

    /// Whether a contract may stand.
    pub fn may_stand(&self, contract: Contract) -> bool
        ensures { let form = F.meaning self.now.form.now in
            result ≡ contract_fits_in form self.now.hours self.now.agents.now contract }
    {
        self.check_contract(contract).is_ok()
    }

    /// Whether what is in a contract place may stand there.
    fn is_place_fit(&self, place: &Option<Contract>) -> bool
        ensures { let form = F.meaning self.now.form.now in
            result ≡ place_fits_in form self.now.hours self.now.agents.now place.now }
    {
        match place {
            Some(contract) => self.may_stand(*contract),
            None => true,
        }
    }

    /// Whether what is in each contract place may stand there.
    pub fn may_all_stand(&self, contracts: &[Option<Contract>]) -> bool
        ensures { let fits = place_fits_in (F.meaning self.now.form.now) self.now.hours in
            result ≡ list_all (fits self.now.agents.now) contracts.now }
    {
        contracts.iter().all(|place| self.is_place_fit(place))
    }
}
