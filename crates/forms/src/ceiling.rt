//! Quantities lowered to the seller's capacity.
ghost use Rattle.std.proofs.Common.{rules};
ghost use Rattle.forms.specs.Layers.{up_to_capacity};

use crate::hour::ContractHour;
use crate::layer::{Layer, Lowering};

/// Lowers to the seller's capacity.
#[derive(Clone, Copy)]
pub struct ToCapacity;

/// A form whose quantities are lowered to the seller's capacity.
pub type Ceiling<F> = Layer<ToCapacity, F>;

impl Lowering for ToCapacity {
    ghost rule = { λ _. up_to_capacity };

    ghost never_raises = { Prim.search rules };

    fn lower(&self, hour: ContractHour, quantity: u32) -> u32 {
        quantity.min(hour.parties.seller.capacity)
    }
}
