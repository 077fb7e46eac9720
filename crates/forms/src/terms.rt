//! Which terms a book may hold.
ghost use Rattle.std.specs.Prelude.{◌≡◌};
ghost use Rattle.forms.specs.Roles.{roles_fit};
ghost use Rattle.forms.specs.Terms.{valid_terms, number_fits, parties_fit, hours_fit, figures_fit};

use crate::limits::MOST_AGENTS;
use crate::roles::Role;
use crate::{Contract, Parties};
use calendar::MOST_HOURS;
use valuation::{MOST_ENERGY, MOST_PRICE};

/// Whether an agent of some book has this number.
fn does_number_fit(number: u32) -> bool
    ensures { result ≡ number_fits number }
{
    1 <= number && number <= MOST_AGENTS
}

/// Whether the seller's role may sell to the buyer's.
fn do_roles_fit(parties: Parties) -> bool
    ensures { result ≡ roles_fit parties.seller.role parties.buyer.role }
{
    match (
        Role::named(parties.seller.role),
        Role::named(parties.buyer.role),
    ) {
        (Some(seller), Some(buyer)) => seller.may_sell_to(buyer),
        _ => false,
    }
}

/// Whether the parties are agents of some book, apart from one another, in roles that go together.
pub fn do_parties_fit(terms: Contract, parties: Parties) -> bool
    ensures { result ≡ parties_fit terms parties }
{
    does_number_fit(terms.seller)
        && does_number_fit(terms.buyer)
        && terms.seller != terms.buyer
        && parties.seller.is_within_limits()
        && parties.buyer.is_within_limits()
        && do_roles_fit(parties)
}

/// Whether the hours are in order, and within a month of so many.
pub fn do_hours_fit(terms: Contract, hours: u32) -> bool
    ensures { result ≡ hours_fit hours terms }
{
    terms.first <= terms.last && terms.last < hours
}

/// Whether the price, the quantities and the margin are within their limits.
pub fn do_figures_fit(terms: Contract) -> bool
    ensures { result ≡ figures_fit terms }
{
    terms.price <= MOST_PRICE
        && terms.peak <= MOST_ENERGY
        && terms.medium <= MOST_ENERGY
        && terms.base <= MOST_ENERGY
        && terms.margin <= MOST_ENERGY
}

/// Whether these terms, between these parties, can stand in some book: its month and its agents are for the book to compare.
#[tactic(auto, unfolding(crate::specs::Terms::valid_terms))]
pub fn is_valid(terms: Contract, parties: Parties) -> bool
    ensures { result ≡ valid_terms terms parties }
{
    do_parties_fit(terms, parties) && do_hours_fit(terms, MOST_HOURS) && do_figures_fit(terms)
}
