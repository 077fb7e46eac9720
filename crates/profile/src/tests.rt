// Daily profiles, alone and beside the product.
use crate::{DailyProfile, whole_range};
use calendar::Band;
use forms::{Contract, ContractForm, ContractHour, Delivery, Facts, Parties, Party, settle_hour};

const PROFILE: Contract = Contract {
    delivery: Delivery::MarketBar,
    kind: 3,
    seller: 1,
    buyer: 2,
    first: 0,
    last: 743,
    price: 50_000,
    peak: 0,
    medium: 0,
    base: 102,
    margin: 0,
};

const PARTIES: Parties = Parties {
    seller: Party {
        role: 1,
        capacity: 200,
    },
    buyer: Party {
        role: 2,
        capacity: 0,
    },
};

const FACTS: Facts = Facts {
    band: Band::Base,
    price: 60_000,
    seller_factor: 95_000,
    buyer_factor: 102_000,
    injected: 0,
    withdrawn: 0,
    distributors_withdrawn: 0,
};

/// What the seller gets in an hour; none where the form, the terms or the facts are refused.
fn sold<F: ContractForm>(form: &F, terms: Contract, facts: Facts) -> Option<i64> {
    let hour = ContractHour::checked(terms, PARTIES, facts)?;
    if form.takes(terms, PARTIES) {
        Some(settle_hour(form, hour).seller)
    } else {
        None
    }
}

#[test]
fn profiles(rt: HostRuntime) {
    for (band, points) in [
        (Band::Peak, 12_500),
        (Band::Medium, 25_500),
        (Band::Base, 51_000),
    ] {
        assert_eq!(rt;
            sold(&DailyProfile, PROFILE, Facts { band, ..FACTS }),
            Some(points)
        );
    }
    assert_eq!(rt;
        sold(
            &DailyProfile,
            Contract {
                margin: 1,
                ..PROFILE
            },
            FACTS,
        ),
        None
    );
}

#[test]
fn kinds_beside_each_other(rt: HostRuntime) {
    // kind, points of a seller of 102 kWh in a base hour
    for (kind, points) in [(1, Some(-10_200)), (2, None), (3, Some(51_000)), (4, None)] {
        assert_eq!(rt;
            sold(&whole_range(), Contract { kind, ..PROFILE }, FACTS),
            points
        );
    }
}
