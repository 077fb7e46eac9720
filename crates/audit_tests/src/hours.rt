//! Hours of a generator and a distributor, worked by hand: a plain one, and one in which the distributor carries the generator's excess.
use crate::desk::{Audited, Desk, Said, Step, all_said, calls_of, monday};
use crate::pool::{IDLE, PAIR, PLAIN};
use book::{Line, Statement};
use std::alloc::Global;
use std::test::Fail;
use tally::{Energy, Money, Peak, Tally};

/// The plain hour with the generator at another node factor.
const OTHER_FACTOR: [Line; 2] = [
    Line {
        injected: 1_000,
        factor: 99_000,
        ..IDLE
    },
    Line {
        withdrawn: 970,
        factor: 102_000,
        ..IDLE
    },
];

/// The generator is obligated to run at a cost above the price, and the distributor carries the excess.
const OBLIGATED: [Line; 2] = [
    Line {
        class: 2,
        injected: 95,
        gross: 100,
        cost: 80_000,
        ..IDLE
    },
    Line {
        withdrawn: 90,
        ..IDLE
    },
];

/// Audits a list of calls on the pair.
fn audited(heap: Global, steps: &[Step<'_>]) -> Result<Audited, Fail> {
    let calls = calls_of(heap, steps)?;
    let mut desk = Desk::new(heap, &PAIR, calls.len())?;
    match desk.audit(monday(&PAIR), &calls) {
        Ok(report) => Ok(Audited { report, desk }),
        Err(_) => Err(Fail::new("the audit is refused")),
    }
}

/// An agent's statement, whose contract and power lines are 0.
fn statement(
    [market, overcost, balance]: [i64; 3],
    [injected, withdrawn]: [u64; 2],
    peak: Peak,
) -> Statement {
    Statement {
        lines: Money {
            market,
            contract: 0,
            overcost,
            power: 0,
        },
        balance,
        energy: Energy {
            injected,
            withdrawn,
        },
        peak,
    }
}

// Calls; what all balances and the residue come to; and the statements.
#[test]
fn an_hour_of_two_agents(rt: HostRuntime) -> Result<(), Fail> {
    let plain = Step::Post(7, 60_000, &PLAIN);
    let obligated = Step::Post(23, 50_000, &OBLIGATED);
    let nothing = [Statement::blank(), Statement::blank()];
    let traded = [
        statement([570_000, 0, 570_000], [1_000, 0], Peak::neutral()),
        statement([-593_640, 0, -593_640], [0, 970], Peak::of(970, 7)),
    ];
    let carried = [
        statement([47_500, 32_500, 80_000], [95, 0], Peak::neutral()),
        statement([-45_000, -32_500, -77_500], [0, 90], Peak::of(90, 23)),
    ];
    let cases: [(&[Step<'_>], i64, i64, [Statement; 2]); 4] = [
        (&[], 0, 0, nothing),
        (&[plain], -23_640, 23_640, traded),
        (&[obligated], 2_500, -2_500, carried),
        (&[plain, Step::Withdraw(7)], 0, 0, nothing),
    ];
    for (steps, balances, residue, statements) in cases {
        let Audited { report, desk } = audited(rt.alloc(), steps)?;
        assert_eq!(rt; report.balances, balances);
        assert_eq!(rt; report.residue, residue);
        assert_eq!(rt; desk.statements.as_slice(), statements.as_slice());
    }
    Ok(())
}

#[test]
fn the_same_postings_of_two_agents(rt: HostRuntime) -> Result<(), Fail> {
    let plain = Step::Post(0, 60_000, &PLAIN);
    let moved = Step::Post(0, 60_000, &OTHER_FACTOR);
    let obligated = Step::Post(5, 50_000, &OBLIGATED);
    let free = Step::Withdraw(0);
    let (outside, dear) = (
        Step::Post(24, 60_000, &PLAIN),
        Step::Post(5, 2_000_001, &PLAIN),
    );
    let wanted = audited(rt.alloc(), &[plain, obligated])?;
    assert_eq!(rt; wanted.report.residue, 21_140);
    let others: [&[Step<'_>]; 4] = [
        &[obligated, plain],
        // corrected with another node factor, and back
        &[plain, obligated, moved, plain],
        // withdrawn and posted again
        &[plain, free, obligated, plain],
        // with refusals between
        &[free, plain, outside, obligated, dear],
    ];
    for steps in others {
        let found = audited(rt.alloc(), steps)?;
        assert_eq!(rt; found.report.residue, 21_140);
        assert_eq!(rt;
            found.desk.statements.as_slice(),
            wanted.desk.statements.as_slice()
        );
    }
    Ok(())
}

#[test]
fn each_call_on_two_agents_is_answered(rt: HostRuntime) -> Result<(), Fail> {
    let steps = [
        Step::Withdraw(3),
        Step::Post(24, 60_000, &PLAIN),
        Step::Post(3, 2_000_001, &PLAIN),
        Step::Post(3, 60_000, &PLAIN),
        Step::Statement(2),
        Step::Statement(3),
        Step::Withdraw(3),
        Step::Statement(2),
    ];
    let said = [
        Said::Refused(9, 3),
        Said::Refused(4, 24),
        Said::Refused(5, 0),
        Said::Done,
        Said::Stated(-593_640),
        Said::Refused(3, 0),
        Said::Done,
        Said::Stated(0),
    ];
    let Audited { report, desk } = audited(rt.alloc(), &steps)?;
    assert_eq!(rt;
        all_said(rt.alloc(), &desk.answers)?.as_slice(),
        said.as_slice()
    );
    assert_eq!(rt; report.balances, 0);
    Ok(())
}
