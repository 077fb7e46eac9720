//! Quantities lowered by the contract's margin.
ghost use Rattle.std.proofs.Common.{rules};
ghost use Rattle.forms.specs.Layers.{less_margin};

use crate::hour::ContractHour;
use crate::layer::{Layer, Lowering};

/// Lowers by the contract's margin, not below 0.
#[derive(Clone, Copy)]
pub struct ByMargin;

/// A form whose quantities are lowered by the contract's margin.
pub type Margin<F> = Layer<ByMargin, F>;

impl Lowering for ByMargin {
    ghost rule = { λ _. less_margin };

    ghost never_raises = { Prim.search rules };

    fn lower(&self, hour: ContractHour, quantity: u32) -> u32 {
        quantity.saturating_sub(hour.terms.margin)
    }
}
