//! Contracts between agents, and the contract forms: what a contract's terms mean for an hour.
//!
//! A form answers three questions: whether it takes terms, how much energy an hour has under them, and what the parties owe
//! each other for it. Whoever writes a new form implements `ContractForm`.
#![tactic(auto)]

mod block;
mod by_kind;
mod ceiling;
mod form;
mod hour;
mod layer;
mod limits;
mod margin;
mod market;
mod measures;
mod products;
mod roles;
mod settling;
mod share;
mod terms;
#[cfg(test)]
mod tests;

pub use block::Block;
pub use by_kind::ByKind;
use calendar::Band;
pub use ceiling::{Ceiling, ToCapacity};
pub use form::ContractForm;
pub use hour::ContractHour;
pub use layer::{Layer, Lowering};
pub use limits::{MOST_AGENTS, MOST_CONTRACTS};
pub use margin::{ByMargin, Margin};
pub use market::{hour_market_legs, market_legs};
pub use measures::is_measured;
pub use products::Product;
pub use roles::{Role, UnknownRole};
pub use settling::settle_hour;
pub use share::Share;
pub use terms::{do_figures_fit, do_hours_fit, do_parties_fit, is_valid};
use valuation::MOST_ENERGY;

/// Where the energy of a contract is delivered.
#[derive(Clone, Copy, PartialEq, Eq, Debug)]
pub enum Delivery {
    MarketBar,
    SellerNode,
    BuyerNode,
}

/// A contract as it is entered: raw figures, any at all. The three quantities are kilowatt-hours in an hour of the band.
#[derive(Clone, Copy, PartialEq, Eq, Debug)]
pub struct Contract {
    pub delivery: Delivery,
    pub kind: u32,
    pub seller: u32,
    pub buyer: u32,
    pub first: u32,
    pub last: u32,
    pub price: u32,
    pub peak: u32,
    pub medium: u32,
    pub base: u32,
    pub margin: u32,
}

impl Contract {
    ghost use Rattle.std.specs.Prelude.{◌≡◌};
    ghost use Rattle.forms.specs.Parties.{party_numbers};

    /// The numbers of its parties, in their order.
    pub fn party_numbers(&self) -> [u32; 2]
        ensures { result ≡ party_numbers self.now }
    {
        [self.seller, self.buyer]
    }
}

/// A party to a contract: its role (1 generator, 2 distributor, 3 large consumer) and its capacity in kilowatt-hours of an hour.
#[derive(Clone, Copy)]
pub struct Party {
    pub role: u32,
    pub capacity: u32,
}

impl Party {
    ghost use Rattle.std.specs.Prelude.{◌≡◌};
    ghost use Rattle.forms.specs.Terms.{party_fits};

    /// Whether it is such as an agent may be: with a known role, and a capacity within its limit.
    pub fn is_within_limits(&self) -> bool
        ensures { result ≡ party_fits self.now }
    {
        Role::named(self.role).is_some() && self.capacity <= MOST_ENERGY
    }
}

/// The two parties to a contract.
#[derive(Clone, Copy)]
pub struct Parties {
    pub seller: Party,
    pub buyer: Party,
}

/// What a contract is settled by in an hour: the hour's band and price, the node factors of both parties, the energy that the
/// seller injected and the buyer withdrew, and the energy that all distributors withdrew.
#[derive(Clone, Copy)]
pub struct Facts {
    pub band: Band,
    pub price: u32,
    pub seller_factor: u32,
    pub buyer_factor: u32,
    pub injected: u32,
    pub withdrawn: u32,
    pub distributors_withdrawn: u32,
}

/// What an hour of a contract is worth to its parties, in points: above 0 what a party gets, below 0 what it pays.
#[derive(Clone, Copy, PartialEq, Eq, Debug)]
pub struct Legs {
    pub seller: i64,
    pub buyer: i64,
}
