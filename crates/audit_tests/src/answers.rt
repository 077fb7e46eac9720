//! What each kind of call is answered in the first book, and in the second, which does not hear of contracts.
use crate::desk::Said::{Done, Refused, Skipped, Stated};
use crate::desk::{Said, Step, all_said};
use crate::pool::{BLOCK, IDLE, OBLIGATED, QUIET, RESOLD, SHARE, TRADE, audited};
use audit::Report;
use book::Line;
use forms::Contract;
use std::alloc::{AllocError, Global};
use std::process::Abort;
use std::test::Fail;

/// A step, and what its call is answered in the first book and in the second.
pub(crate) type Case<'a> = (Step<'a>, Said, Said);

/// One answer, or the same for each hour of a day.
fn push_said(told: &mut Vec<Said>, step: Step<'_>, said: Said) -> Result<(), AllocError> {
    let count = if matches!(step, Step::PostDay(..)) {
        24
    } else {
        1
    };
    for _ in 0..count {
        told.push(said)?;
    }
    Ok(())
}

/// What the first book answers in these cases, and the second.
fn wanted(heap: Global, cases: &[Case<'_>]) -> Result<(Vec<Said>, Vec<Said>), AllocError> {
    let mut first = Vec::new(heap);
    let mut second = Vec::new(heap);
    for (step, one, other) in cases {
        push_said(&mut first, *step, *one)?;
        push_said(&mut second, *step, *other)?;
    }
    Ok((first, second))
}

/// Makes the calls of a table of cases, compares each answer in both books, and gives the report.
pub(crate) fn try_report(
    rt: &impl Abort,
    heap: Global,
    cases: &[Case<'_>],
) -> Result<Report, Fail> {
    let steps: Vec<Step<'_>> = cases.iter().map(|case| case.0).collect(heap)?;
    let found = audited(heap, &steps)?;
    let (first, second) = wanted(heap, cases)?;
    assert_eq!(rt;
        all_said(heap, &found.desk.answers)?.as_slice(),
        first.as_slice()
    );
    assert_eq!(rt;
        all_said(heap, &found.desk.answers_without)?.as_slice(),
        second.as_slice()
    );
    let comparison = found.report.comparison;
    assert_eq!(rt; comparison.alike, comparison.heard);
    Ok(found.report)
}

/// Makes the calls of a table of cases, and compares each answer in both books.
fn try_cases(rt: &impl Abort, heap: Global, cases: &[Case<'_>]) -> Result<(), Fail> {
    try_report(rt, heap, cases)?;
    Ok(())
}

/// The trade with another line in the place of the second.
fn with(line: Line) -> [Line; 4] {
    [TRADE[0], line, IDLE, IDLE]
}

// The hour, the price and the lines, and the number and the place of the fault.
#[test]
fn postings_that_are_refused(rt: HostRuntime) -> Result<(), Fail> {
    let factor = with(Line {
        factor: 150_001,
        ..IDLE
    });
    let class = with(Line { class: 2, ..IDLE });
    let together = with(Line {
        injected: 3_999_001,
        ..IDLE
    });
    let uncarried = [OBLIGATED[0], IDLE, IDLE, IDLE];
    let cases: [(u32, u32, &[Line], u32, u32); 7] = [
        (24, 60_000, &TRADE, 4, 24),
        (3, 2_000_001, &TRADE, 5, 0),
        (3, 60_000, &[IDLE; 3], 5, 0),
        (3, 60_000, &factor, 5, 2),
        (3, 60_000, &class, 6, 2),
        (3, 60_000, &together, 7, 0),
        (3, 50_000, &uncarried, 8, 0),
    ];
    for (hour, price, lines, number, place) in cases {
        let refused = Refused(number, place);
        let lined = (Step::Post(hour, price, lines), refused, refused);
        let packed = (Step::Packet(hour, price, lines), refused, refused);
        try_cases(&rt, rt.alloc(), &[lined, packed])?;
    }
    Ok(())
}

/// An hour that is posted, corrected and withdrawn, with refusals in between.
const CORRECTIONS: [Case<'static>; 10] = [
    (Step::Withdraw(3), Refused(9, 3), Refused(9, 3)),
    (Step::Withdraw(24), Refused(4, 24), Refused(4, 24)),
    (Step::Post(3, 60_000, &TRADE), Done, Done),
    (
        Step::Post(3, 2_000_001, &TRADE),
        Refused(5, 0),
        Refused(5, 0),
    ),
    (Step::Statement(2), Stated(-367_200), Stated(-367_200)),
    (Step::Post(3, 30_000, &TRADE), Done, Done),
    (Step::Statement(2), Stated(-183_600), Stated(-183_600)),
    (Step::Withdraw(3), Done, Done),
    (Step::Statement(2), Stated(0), Stated(0)),
    (Step::Withdraw(3), Refused(9, 3), Refused(9, 3)),
];

/// Contracts entered and cancelled under their numbers.
const NUMBERS: [Case<'static>; 21] = [
    (Step::Cancel(1), Refused(12, 0), Skipped),
    (Step::Enter(0, BLOCK), Refused(12, 0), Skipped),
    (Step::Enter(65, BLOCK), Refused(12, 0), Skipped),
    (Step::Cancel(0), Refused(12, 0), Skipped),
    (Step::Cancel(65), Refused(12, 0), Skipped),
    (Step::Enter(64, BLOCK), Done, Skipped),
    (Step::Enter(64, SHARE), Refused(12, 0), Skipped),
    (Step::Enter(1, SHARE), Done, Skipped),
    (Step::Post(8, 60_000, &TRADE), Done, Done),
    (Step::Enter(2, RESOLD), Refused(14, 8), Skipped),
    (Step::Cancel(64), Refused(14, 8), Skipped),
    (Step::Post(6, 60_000, &TRADE), Done, Done),
    (Step::Cancel(64), Refused(14, 6), Skipped),
    (Step::Statement(1), Stated(920_000), Stated(1_140_000)),
    (Step::Withdraw(6), Done, Done),
    (Step::Withdraw(8), Done, Done),
    (Step::Cancel(64), Done, Skipped),
    (Step::Cancel(64), Refused(12, 0), Skipped),
    (Step::Enter(64, RESOLD), Done, Skipped),
    (Step::Post(8, 60_000, &TRADE), Done, Done),
    (Step::Statement(3), Stated(-212_000), Stated(-222_000)),
];

/// Terms that the product does not take, or that the pool may not hold.
const REFUSED_TERMS: [Contract; 12] = [
    Contract { buyer: 1, ..BLOCK },
    Contract { seller: 0, ..BLOCK },
    Contract { buyer: 5, ..BLOCK },
    Contract { buyer: 4, ..BLOCK },
    Contract { first: 9, ..BLOCK },
    Contract { last: 24, ..BLOCK },
    Contract { kind: 3, ..BLOCK },
    Contract { margin: 1, ..BLOCK },
    Contract {
        price: 2_000_001,
        ..BLOCK
    },
    Contract {
        seller: 4,
        peak: 501,
        ..BLOCK
    },
    Contract { buyer: 3, ..SHARE },
    Contract { base: 1, ..SHARE },
];

/// Terms at the edge of what may stand.
const TAKEN_TERMS: [Contract; 4] = [
    Contract {
        seller: 4,
        peak: 500,
        ..BLOCK
    },
    Contract { buyer: 3, ..BLOCK },
    Contract { last: 23, ..SHARE },
    Contract {
        margin: 4_000_000,
        ..SHARE
    },
];

/// Enters a contract under number 1, which only the first book hears of.
fn try_terms(rt: &impl Abort, heap: Global, terms: Contract, said: Said) -> Result<(), Fail> {
    try_cases(rt, heap, &[(Step::Enter(1, terms), said, Skipped)])
}

#[test]
fn terms_that_may_stand_or_not(rt: HostRuntime) -> Result<(), Fail> {
    for terms in REFUSED_TERMS {
        try_terms(&rt, rt.alloc(), terms, Refused(13, 0))?;
    }
    for terms in TAKEN_TERMS {
        try_terms(&rt, rt.alloc(), terms, Done)?;
    }
    Ok(())
}

/// Closings that are refused, one that is done, and calls after it.
const CLOSINGS: [Case<'static>; 18] = [
    (Step::Close, Refused(10, 0), Refused(10, 0)),
    (Step::Enter(1, BLOCK), Done, Skipped),
    (Step::PostDay(60_000, &QUIET), Done, Done),
    (Step::Close, Refused(11, 0), Refused(11, 0)),
    (Step::Withdraw(7), Done, Done),
    (Step::Close, Refused(10, 7), Refused(10, 7)),
    (Step::Post(7, 60_000, &TRADE), Done, Done),
    (Step::Statement(1), Stated(530_000), Stated(570_000)),
    (Step::Close, Done, Done),
    (Step::Post(7, 60_000, &TRADE), Skipped, Skipped),
    (Step::Post(24, 60_000, &TRADE), Skipped, Skipped),
    (Step::Withdraw(7), Skipped, Skipped),
    (Step::Enter(2, SHARE), Skipped, Skipped),
    (Step::Cancel(1), Skipped, Skipped),
    (Step::Close, Skipped, Skipped),
    (Step::Statement(1), Stated(644_000), Stated(684_000)),
    (Step::Statement(0), Refused(3, 0), Refused(3, 0)),
    (Step::Statement(5), Refused(3, 0), Refused(3, 0)),
];

#[test]
fn lists_of_calls(rt: HostRuntime) -> Result<(), Fail> {
    let heap = rt.alloc();
    try_cases(&rt, heap, &CORRECTIONS)?;
    try_cases(&rt, heap, &NUMBERS)?;
    try_cases(&rt, heap, &CLOSINGS)
}
