// The limits of terms and facts, on both sides.
use super::{BLOCK, FACTS, between};
use crate::{Contract, Facts, is_measured, is_valid};

#[test]
fn terms_that_are_valid(rt: HostRuntime) {
    for (seller, buyer, valid) in [
        (1, 1, false),
        (1, 2, true),
        (1, 3, true),
        (1, 4, false),
        (2, 1, false),
        (2, 2, false),
        (2, 3, true),
        (3, 2, false),
        (0, 2, false),
    ] {
        assert_eq!(rt; is_valid(BLOCK, between(seller, buyer, 4_000_000)), valid);
    }
    // parties, hours, price, quantity, the seller's capacity; whether they are valid
    let cases: [(u32, u32, u32, u32, u32, u32, u32, bool); 12] = [
        (64, 1, 743, 743, 2_000_000, 4_000_000, 4_000_000, true),
        (65, 1, 743, 743, 2_000_000, 4_000_000, 4_000_000, false),
        (0, 1, 743, 743, 2_000_000, 4_000_000, 4_000_000, false),
        (1, 64, 0, 0, 0, 0, 0, true),
        (1, 65, 0, 0, 0, 0, 0, false),
        (1, 0, 0, 0, 0, 0, 0, false),
        (1, 2, 1, 0, 0, 0, 0, false),
        (1, 2, 0, 744, 0, 0, 0, false),
        (1, 2, 0, 743, 2_000_001, 0, 0, false),
        (1, 2, 0, 743, 0, 4_000_001, 0, false),
        (1, 2, 0, 743, 0, 0, 4_000_001, false),
        (1, 2, 0, 743, 0, 1, 0, true),
    ];
    for (seller, buyer, first, last, price, quantity, capacity, valid) in cases {
        let terms = Contract {
            seller,
            buyer,
            first,
            last,
            price,
            peak: quantity,
            margin: quantity,
            ..BLOCK
        };
        assert_eq!(rt; is_valid(terms, between(1, 2, capacity)), valid);
    }
}

// An agent is no other's party to itself, whatever roles it is said to have: only one number of two is changed, to its neighbours
// and to the other's.
#[test]
fn contracts_of_an_agent_with_itself(rt: HostRuntime) {
    for (seller, buyer, valid) in [
        (1, 1, false),
        (1, 2, true),
        (2, 1, true),
        (2, 2, false),
        (64, 64, false),
        (63, 64, true),
        (64, 63, true),
    ] {
        let terms = Contract {
            seller,
            buyer,
            ..BLOCK
        };
        assert_eq!(rt; is_valid(terms, between(1, 2, 100)), valid);
    }
}

// Each figure alone is 1 above its limit, and the others are at theirs.
#[test]
fn terms_with_a_figure_too_high(rt: HostRuntime) {
    let highest = Contract {
        price: 2_000_000,
        peak: 4_000_000,
        medium: 4_000_000,
        base: 4_000_000,
        margin: 4_000_000,
        ..BLOCK
    };
    let parties = between(1, 2, 4_000_000);
    assert!(rt; is_valid(highest, parties));
    for terms in [
        Contract {
            price: 2_000_001,
            ..highest
        },
        Contract {
            peak: 4_000_001,
            ..highest
        },
        Contract {
            medium: 4_000_001,
            ..highest
        },
        Contract {
            base: 4_000_001,
            ..highest
        },
        Contract {
            margin: 4_000_001,
            ..highest
        },
    ] {
        assert!(rt; !is_valid(terms, parties), "{terms:?}");
    }
}

#[test]
fn facts_that_are_measured(rt: HostRuntime) {
    // the buyer's role, price, factor, injected, withdrawn by the buyer and by all distributors; whether they are measured
    let cases: [(u32, u32, u32, u32, u32, u32, bool); 12] = [
        (2, 2_000_000, 50_000, 4_000_000, 900, 4_000_000, true),
        (2, 2_000_001, 50_000, 4_000_000, 900, 4_000_000, false),
        (2, 2_000_000, 49_999, 4_000_000, 900, 4_000_000, false),
        (2, 2_000_000, 150_000, 4_000_000, 900, 4_000_000, true),
        (2, 2_000_000, 150_001, 4_000_000, 900, 4_000_000, false),
        (2, 2_000_000, 50_000, 4_000_001, 900, 4_000_000, false),
        (2, 2_000_000, 50_000, 4_000_000, 900, 4_000_001, false),
        (2, 0, 50_000, 0, 900, 900, true),
        (2, 0, 50_000, 0, 901, 900, false),
        (3, 0, 50_000, 0, 901, 900, true),
        (3, 0, 50_000, 0, 3_999_100, 900, true),
        (3, 0, 50_000, 0, 3_999_101, 900, false),
    ];
    for (role, price, factor, injected, withdrawn, distributors_withdrawn, measured) in cases {
        let facts = Facts {
            price,
            seller_factor: factor,
            injected,
            withdrawn,
            distributors_withdrawn,
            ..FACTS
        };
        assert_eq!(rt; is_measured(between(1, role, 0), facts), measured);
    }
}

#[test]
fn the_buyers_factor_is_limited(rt: HostRuntime) {
    for (buyer_factor, measured) in [
        (49_999, false),
        (50_000, true),
        (150_000, true),
        (150_001, false),
    ] {
        let facts = Facts {
            buyer_factor,
            ..FACTS
        };
        assert_eq!(rt; is_measured(between(1, 2, 0), facts), measured);
    }
}
