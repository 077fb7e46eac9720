//! An hour of a contract, as forms are asked of it.
ghost use Rattle.std.specs.Prelude.{◌≡◌, ◌&&◌, is_some, IfSome};
ghost use Rattle.forms.specs.Terms.{Valid, valid_terms};
ghost use Rattle.forms.specs.Measured.{Measured, measured_facts};

use crate::measures::is_measured;
use crate::terms::is_valid;
use crate::{Contract, Facts, Parties};

/// An hour of a contract: terms that can stand in some book, between these parties, and the measured facts of the hour.
#[derive(Clone, Copy)]
pub struct ContractHour {
    pub terms: Contract,
    pub parties: Parties,
    pub facts: Facts,
    pub ghost valid: { Valid terms parties },
    pub ghost measured: { Measured parties facts },
}

impl ContractHour {
    /// The hour of these terms and facts.
    pub fn new(terms: Contract, parties: Parties, facts: Facts) -> Self
        requires valid { Valid terms parties }
        requires measured { Measured parties facts }
        ensures terms { result.terms ≡ terms }
        ensures parties { result.parties ≡ parties }
        ensures facts { result.facts ≡ facts }
    {
        ContractHour {
            terms,
            parties,
            facts,
        }
    }

    /// The hour of these terms and facts; none, if the terms are not valid or the facts not measured.
    pub fn checked(terms: Contract, parties: Parties, facts: Facts) -> Option<Self>
        ensures tests { is_some result ≡
            (valid_terms terms parties && measured_facts parties facts) }
        ensures terms { IfSome result (λ hour. hour.terms ≡ terms) }
        ensures parties { IfSome result (λ hour. hour.parties ≡ parties) }
        ensures facts { IfSome result (λ hour. hour.facts ≡ facts) }
    {
        if is_valid(terms, parties) && is_measured(parties, facts) {
            Some(ContractHour::new(terms, parties, facts))
        } else {
            None
        }
    }
}
