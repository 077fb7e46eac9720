//! A small month of two daily profiles.
use crate::audit_profiles;
use crate::desk::{Desk, Loan, Outcome, Step, calls_of, monday};
use crate::pool::{PAIR, PLAIN};
use audit::{Call, Comparison, Report};
use forms::{Contract, Delivery};
use std::test::Fail;

/// A profile of 102 kWh in base hours, 51 in medium and 25 in peak hours, all day.
const PROFILE: Contract = Contract {
    delivery: Delivery::MarketBar,
    kind: 3,
    seller: 1,
    buyer: 2,
    first: 0,
    last: 23,
    price: 50_000,
    peak: 0,
    medium: 0,
    base: 102,
    margin: 0,
};

/// Another of 40 kWh, 20 and 10.
const SMALL_PROFILE: Contract = Contract {
    price: 30_000,
    base: 40,
    ..PROFILE
};

/// An audit of calls on a book of the pair, in which contracts are daily profiles.
fn audited(desk: &mut Desk, calls: &[Call]) -> Outcome {
    let Loan {
        mut lent,
        mut findings,
    } = desk.lend();
    let outcome = audit_profiles(monday(&PAIR), calls, &mut lent, &mut findings);
    outcome.map_err(|fault| fault.number())
}

/// What the month comes to: two profiles stand, and a medium and a peak hour.
const SOLD: Report = Report {
    balances: -47_280,
    balances_without: -47_280,
    balances_again: -47_280,
    residue: 47_280,
    repeated: true,
    comparison: Comparison {
        heard: 2,
        alike: 2,
        strangers: 0,
        strangers_same: 0,
        same: 2,
    },
};

// The profiles bring 25,500 and 6,000 points in hour 8, and 12,500 and 3,000 in hour 17.
#[test]
fn two_profiles(rt: HostRuntime) -> Result<(), Fail> {
    let steps = [
        Step::Enter(1, PROFILE),
        Step::Enter(9, SMALL_PROFILE),
        Step::Enter(2, Contract { kind: 1, ..PROFILE }),
        Step::Post(8, 60_000, &PLAIN),
        Step::Post(17, 60_000, &PLAIN),
    ];
    let calls = calls_of(rt.alloc(), &steps)?;
    let mut desk = Desk::new(rt.alloc(), &PAIR, 5)?;
    assert_eq!(rt; audited(&mut desk, &calls), Ok(SOLD));
    for (statement, (contract, balance)) in desk
        .statements
        .iter()
        .zip([(47_000, 1_187_000), (-47_000, -1_234_280)])
    {
        assert_eq!(rt; statement.lines.contract, contract);
        assert_eq!(rt; statement.balance, balance);
    }
    Ok(())
}
