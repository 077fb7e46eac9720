// Worked figures of blocks and shares.
mod limits;

use crate::{
    Contract, ContractForm, ContractHour, Delivery, Facts, Legs, Parties, Party, Product, Role,
    UnknownRole, settle_hour,
};
use calendar::Band;
use std::test::Fail;

/// A block of 100, 80 and 60 kWh at the market bar, between agents 1 and 2, for a whole month.
const BLOCK: Contract = Contract {
    delivery: Delivery::MarketBar,
    kind: 1,
    seller: 1,
    buyer: 2,
    first: 0,
    last: 743,
    price: 50_000,
    peak: 100,
    medium: 80,
    base: 60,
    margin: 0,
};

/// An hour at price 60,000 in which 1,000 kWh were injected, and 300 of the distributors' 900 withdrawn.
const FACTS: Facts = Facts {
    band: Band::Peak,
    price: 60_000,
    seller_factor: 95_000,
    buyer_factor: 102_000,
    injected: 1_000,
    withdrawn: 300,
    distributors_withdrawn: 900,
};

fn share(margin: u32) -> Contract {
    Contract {
        kind: 2,
        peak: 0,
        medium: 0,
        base: 0,
        margin,
        ..BLOCK
    }
}

fn between(seller_role: u32, buyer_role: u32, seller_capacity: u32) -> Parties {
    let seller = Party {
        role: seller_role,
        capacity: seller_capacity,
    };
    let buyer = Party {
        role: buyer_role,
        capacity: 0,
    };
    Parties { seller, buyer }
}

/// The quantity and the legs of an hour; none where the form, the terms or the facts are refused.
fn settled<F: ContractForm>(
    form: &F,
    terms: Contract,
    parties: Parties,
    facts: Facts,
) -> Option<(u32, Legs)> {
    let hour = ContractHour::checked(terms, parties, facts)?;
    if form.takes(terms, parties) {
        Some((form.quantity(hour), settle_hour(form, hour)))
    } else {
        None
    }
}

fn settled_quantity(terms: Contract, capacity: u32, facts: Facts) -> Option<u32> {
    settled(&Product, terms, between(1, 2, capacity), facts).map(|(quantity, _)| quantity)
}

#[test]
fn quantities_of_blocks(rt: HostRuntime) {
    for (band, quantity) in [(Band::Peak, 100), (Band::Medium, 80), (Band::Base, 60)] {
        assert_eq!(rt;
            settled_quantity(BLOCK, 100, Facts { band, ..FACTS }),
            Some(quantity)
        );
    }
    assert_eq!(rt; settled_quantity(BLOCK, 99, FACTS), None);
}

#[test]
fn quantities_of_shares(rt: HostRuntime) {
    // margin, the seller's capacity, withdrawn by the buyer and by all distributors; the quantity
    let cases: [(u32, u32, u32, u32, u32); 8] = [
        (0, 1_000, 300, 900, 333),
        (33, 1_000, 300, 900, 300),
        (333, 1_000, 300, 900, 0),
        (400, 1_000, 300, 900, 0),
        (33, 300, 300, 900, 300),
        (33, 299, 300, 900, 299),
        (0, 1_000, 900, 900, 1_000),
        (0, 1_000, 0, 0, 0),
    ];
    for (margin, capacity, withdrawn, distributors_withdrawn, quantity) in cases {
        let facts = Facts {
            withdrawn,
            distributors_withdrawn,
            ..FACTS
        };
        assert_eq!(rt;
            settled_quantity(share(margin), capacity, facts),
            Some(quantity)
        );
    }
}

#[test]
fn legs_at_each_place(rt: HostRuntime) -> Result<(), Fail> {
    // place, the contract's price, the hour's price; what the seller gets
    let cases: [(Delivery, u32, u32, i64); 6] = [
        (Delivery::MarketBar, 50_000, 60_000, -10_000),
        (Delivery::SellerNode, 50_000, 60_000, -7_000),
        (Delivery::BuyerNode, 50_000, 60_000, -11_200),
        (Delivery::MarketBar, 60_000, 60_000, 0),
        (Delivery::MarketBar, 70_000, 60_000, 10_000),
        (Delivery::BuyerNode, 0, 2_000_000, -2_040_000),
    ];
    for (delivery, contract_price, price, seller) in cases {
        let terms = Contract {
            delivery,
            price: contract_price,
            ..BLOCK
        };
        let facts = Facts { price, ..FACTS };
        let Some((_, legs)) = settled(&Product, terms, between(1, 2, 100), facts) else {
            return Err(Fail::new("refused"));
        };
        assert_eq!(rt; legs.seller, seller);
        assert_eq!(rt; legs.buyer.wrapping_add(seller), 0);
    }
    Ok(())
}

#[test]
fn terms_that_are_taken(rt: HostRuntime) {
    // kind, quantity, margin, roles, the seller's capacity; whether the product takes them
    let cases: [(u32, u32, u32, u32, u32, u32, bool); 12] = [
        (1, 100, 0, 1, 2, 100, true),
        (1, 101, 0, 1, 2, 100, false),
        (1, 100, 1, 1, 2, 100, false),
        (1, 100, 0, 2, 3, 100, true),
        (2, 0, 0, 1, 2, 100, true),
        (2, 0, 4_000_000, 1, 2, 0, true),
        (2, 1, 0, 1, 2, 100, false),
        (2, 0, 0, 1, 3, 100, false),
        (2, 0, 0, 2, 2, 100, false),
        (0, 0, 0, 1, 2, 100, false),
        (3, 0, 0, 1, 2, 100, false),
        (3, 100, 0, 1, 2, 100, false),
    ];
    for (kind, quantity, margin, seller, buyer, capacity, taken) in cases {
        let terms = Contract {
            kind,
            peak: quantity,
            medium: quantity,
            base: quantity,
            margin,
            ..BLOCK
        };
        assert_eq!(rt;
            Product.takes(terms, between(seller, buyer, capacity)),
            taken
        );
    }
}

#[test]
fn roles_by_number(rt: HostRuntime) -> Result<(), Fail> {
    // whether a role is a generator's, and whether it carries what the pool pays
    for (number, role, generates, carries) in [
        (1, Role::Generator, true, false),
        (2, Role::Distributor, false, true),
        (3, Role::Consumer, false, true),
    ] {
        assert_eq!(rt; Role::try_from(number), Ok(role));
        assert_eq!(rt; role.is_generator(), generates);
        assert_eq!(rt; role.is_carrier(), carries);
    }
    for number in [0, 4] {
        assert_eq!(rt; Role::try_from(number), Err(UnknownRole(number)));
    }
    let text = format!(in rt.alloc(); "{}", UnknownRole(4))?;
    assert_eq!(rt; text.as_str(), "no role has number 4");
    Ok(())
}
