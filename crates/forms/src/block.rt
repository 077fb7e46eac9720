//! Blocks: a quantity for each band.
ghost use Rattle.std.specs.Prelude.{◌≡◌};
ghost use Rattle.forms.specs.Kinds.{block, quantity_in};
ghost use Rattle.forms.specs.Kept.{block_keeps};

use crate::form::ContractForm;
use crate::hour::ContractHour;
use crate::market::hour_market_legs;
use crate::{Contract, Legs, Parties};
use calendar::Band;

/// Blocks of energy, kind 1: no margin, and in each band a quantity up to the seller's capacity.
#[derive(Clone, Copy)]
pub struct Block;

/// The kind of a block.
pub(crate) const BLOCK_KIND: u32 = 1;

/// The contract's quantity in a band.
fn quantity_in(band: Band, terms: Contract) -> u32
    ensures { result ≡ quantity_in band terms }
{
    match band {
        Band::Peak => terms.peak,
        Band::Medium => terms.medium,
        Band::Base => terms.base,
    }
}

impl ContractForm for Block {
    ghost meaning = { λ _. block };

    ghost keeps = { λ form. block_keeps };

    fn takes(&self, terms: Contract, parties: Parties) -> bool {
        let capacity = parties.seller.capacity;
        terms.kind == BLOCK_KIND
            && terms.margin == 0
            && terms.peak <= capacity
            && terms.medium <= capacity
            && terms.base <= capacity
    }

    fn quantity(&self, hour: ContractHour) -> u32 {
        quantity_in(hour.facts.band, hour.terms)
    }

    fn legs(&self, hour: ContractHour, quantity: u32) -> Legs {
        hour_market_legs(hour, quantity)
    }
}
