//! Two forms as one.
ghost use Rattle.forms.specs.Layers.{by_kind};
ghost use Rattle.forms.specs.Kept.{by_kind_keeps};

use crate::form::ContractForm;
use crate::hour::ContractHour;
use crate::{Contract, Legs, Parties};

/// Two forms as one: terms of the named kind go to the first, all others to the second.
#[derive(Clone, Copy)]
pub struct ByKind<A, B> {
    pub kind: u32,
    pub first: A,
    pub second: B,
}

impl<A: ContractForm, B: ContractForm> ContractForm for ByKind<A, B> {
    ghost meaning = { λ pair. by_kind pair.kind (A.meaning pair.first) (B.meaning pair.second) };

    ghost keeps = { λ pair. by_kind_keeps pair.kind (A.keeps pair.first) (B.keeps pair.second) };

    fn takes(&self, terms: Contract, parties: Parties) -> bool {
        if terms.kind == self.kind {
            self.first.takes(terms, parties)
        } else {
            self.second.takes(terms, parties)
        }
    }

    fn quantity(&self, hour: ContractHour) -> u32 {
        if hour.terms.kind == self.kind {
            self.first.quantity(hour)
        } else {
            self.second.quantity(hour)
        }
    }

    fn legs(&self, hour: ContractHour, quantity: u32) -> Legs {
        if hour.terms.kind == self.kind {
            self.first.legs(hour, quantity)
        } else {
            self.second.legs(hour, quantity)
        }
    }
}
