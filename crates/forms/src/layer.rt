//! A layer over a form: it lowers quantities, and passes terms and legs through.
ghost use Rattle.std.specs.Prelude.{◌≡◌};
ghost use Rattle.forms.specs.Layers.{Rule, NeverRaises, layered};
ghost use Rattle.forms.specs.Kept.{layered_keeps};

use crate::form::ContractForm;
use crate::hour::ContractHour;
use crate::{Contract, Legs, Parties};

/// A rule that lowers quantities.
pub trait Lowering {
    ghost rule: { Self → Rule };

    /// What the rule leaves of an hour's quantity.
    fn lower(&self, hour: ContractHour, quantity: u32) -> u32
        ensures { result ≡ rule self.now hour.terms hour.parties quantity };

    // It never raises one.
    ghost never_raises: { (lowering : Self) → NeverRaises (rule lowering) };
}

/// A form whose quantities are lowered by a rule.
#[derive(Clone, Copy)]
pub struct Layer<L, F> {
    pub lowering: L,
    pub form: F,
}

impl<L: Lowering, F: ContractForm> ContractForm for Layer<L, F> {
    ghost meaning = { λ layer. layered (L.rule layer.lowering) (F.meaning layer.form) };

    ghost keeps = { λ layer. layered_keeps (L.never_raises layer.lowering) (F.keeps layer.form) };

    fn takes(&self, terms: Contract, parties: Parties) -> bool {
        self.form.takes(terms, parties)
    }

    fn quantity(&self, hour: ContractHour) -> u32 {
        self.lowering.lower(hour, self.form.quantity(hour))
    }

    fn legs(&self, hour: ContractHour, quantity: u32) -> Legs {
        self.form.legs(hour, quantity)
    }
}
