//! The product: blocks and shares.
ghost use Rattle.std.specs.Prelude.{◌≡◌};
ghost use Rattle.forms.specs.Layers.{product_meaning};
ghost use Rattle.forms.specs.Kept.{product_keeps};

use crate::block::{BLOCK_KIND, Block};
use crate::by_kind::ByKind;
use crate::ceiling::{Ceiling, ToCapacity};
use crate::form::ContractForm;
use crate::hour::ContractHour;
use crate::layer::Layer;
use crate::margin::{ByMargin, Margin};
use crate::share::Share;
use crate::{Contract, Legs, Parties};

/// The product's form: blocks of kind 1 up to the seller's capacity; shares of kind 2, lowered by their margin, up to it. It takes
/// no other kind.
#[derive(Clone, Copy)]
pub struct Product;

/// The forms that the product is made of.
fn parts() -> ByKind<Ceiling<Block>, Ceiling<Margin<Share>>>
    ensures { result.kind ≡ 1 }
{
    ByKind {
        kind: BLOCK_KIND,
        first: Layer {
            lowering: ToCapacity,
            form: Block,
        },
        second: Layer {
            lowering: ToCapacity,
            form: Layer {
                lowering: ByMargin,
                form: Share,
            },
        },
    }
}

impl ContractForm for Product {
    ghost meaning = { λ _. product_meaning };

    ghost keeps = { λ form. product_keeps };

    fn takes(&self, terms: Contract, parties: Parties) -> bool {
        parts().takes(terms, parties)
    }

    fn quantity(&self, hour: ContractHour) -> u32 {
        parts().quantity(hour)
    }

    fn legs(&self, hour: ContractHour, quantity: u32) -> Legs {
        parts().legs(hour, quantity)
    }
}
