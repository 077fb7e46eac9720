//! What audits report, counted and added up by hand.
use crate::desk::Step;
use crate::pool::{BLOCK, OBLIGATED, QUIET, RESOLD, SHARE, TRADE, audited};
use audit::{Comparison, Report};
use forms::Contract;
use std::alloc::Global;
use std::process::Abort;
use std::test::Fail;

/// The report where the residue is so much, both books heard so many calls, and so many of the four agents are strangers to all contracts: all
/// balances together are minus the residue, and all that is compared is the same.
pub(crate) fn report(residue: i64, heard: usize, strangers: usize) -> Report {
    let balances = 0_i64.wrapping_sub(residue);
    Report {
        balances,
        balances_without: balances,
        balances_again: balances,
        residue,
        repeated: true,
        comparison: Comparison {
            heard,
            alike: heard,
            strangers,
            strangers_same: strangers,
            same: 4,
        },
    }
}

/// Audits each of these lists, and compares the report.
fn try_lists(rt: &impl Abort, heap: Global, cases: &[(&[Step<'_>], Report)]) -> Result<(), Fail> {
    for (steps, wanted) in cases {
        assert_eq!(rt; audited(heap, steps)?.report, *wanted);
    }
    Ok(())
}

#[test]
fn without_contracts(rt: HostRuntime) -> Result<(), Fail> {
    let post = Step::Post(8, 60_000, &TRADE);
    let cases: [(&[Step<'_>], Report); 8] = [
        (&[], report(0, 0, 4)),
        (&[post], report(19_200, 1, 4)),
        (&[post, Step::Post(8, 30_000, &TRADE)], report(9_600, 2, 4)),
        (&[post, Step::Post(9, 30_000, &TRADE)], report(28_800, 2, 4)),
        (
            &[post, Step::Withdraw(8), Step::Withdraw(8)],
            report(0, 3, 4),
        ),
        (
            &[Step::Post(0, 50_000, &OBLIGATED), Step::Close],
            report(-2_500, 2, 4),
        ),
        (
            &[Step::Statement(1), Step::Statement(5), post],
            report(19_200, 3, 4),
        ),
        (
            &[post, Step::Post(8, 2_000_001, &TRADE)],
            report(19_200, 2, 4),
        ),
    ];
    try_lists(&rt, rt.alloc(), &cases)
}

#[test]
fn contracts_that_stand(rt: HostRuntime) -> Result<(), Fail> {
    let own = Contract { seller: 4, ..BLOCK };
    let (block, share) = (Step::Enter(1, BLOCK), Step::Enter(1, SHARE));
    let (resold, own) = (Step::Enter(64, RESOLD), Step::Enter(3, own));
    let post = Step::Post(8, 60_000, &TRADE);
    let cases: [(&[Step<'_>], Report); 6] = [
        (&[block], report(0, 0, 2)),
        (&[block, post], report(19_200, 1, 2)),
        (&[resold, post], report(19_200, 1, 2)),
        (&[share, own, post], report(19_200, 1, 1)),
        (&[own, resold, share, post], report(19_200, 1, 0)),
        (&[block, post, Step::Withdraw(8)], report(0, 2, 2)),
    ];
    try_lists(&rt, rt.alloc(), &cases)
}

#[test]
fn contracts_refused_and_cancelled(rt: HostRuntime) -> Result<(), Fail> {
    let evening = Contract {
        first: 23,
        last: 23,
        ..BLOCK
    };
    let (block, share) = (Step::Enter(1, BLOCK), Step::Enter(1, SHARE));
    let (evening, resold) = (Step::Enter(2, evening), Step::Enter(3, RESOLD));
    let (cancel, withdraw) = (Step::Cancel(1), Step::Withdraw(8));
    let post = Step::Post(8, 60_000, &TRADE);
    let cheap = Step::Post(8, 30_000, &TRADE);
    let cases: [(&[Step<'_>], Report); 5] = [
        (&[Step::Enter(0, BLOCK), cancel], report(0, 0, 4)),
        (&[post, evening, resold], report(19_200, 1, 2)),
        (&[share, block, post, cheap], report(9_600, 2, 2)),
        (&[block, cancel, resold, post], report(19_200, 1, 2)),
        (
            &[block, post, cancel, withdraw, cancel, post],
            report(19_200, 3, 4),
        ),
    ];
    try_lists(&rt, rt.alloc(), &cases)
}

#[test]
fn closed_months(rt: HostRuntime) -> Result<(), Fail> {
    let (block, share) = (Step::Enter(1, BLOCK), Step::Enter(2, SHARE));
    let (resold, cancel) = (Step::Enter(3, RESOLD), Step::Cancel(1));
    let (day, close) = (Step::PostDay(60_000, &TRADE), Step::Close);
    let (free, idle) = (Step::Withdraw(23), Step::Post(23, 60_000, &QUIET));
    let quiet = Step::PostDay(60_000, &QUIET);
    let cases: [(&[Step<'_>], Report); 6] = [
        (&[day, close], report(460_800, 25, 4)),
        (&[block, resold, day, close], report(460_800, 25, 1)),
        (&[share, day, close, cancel, free], report(460_800, 26, 2)),
        (&[day, free, close, idle, close], report(441_600, 28, 4)),
        (
            &[block, day, close, close, Step::Statement(2)],
            report(460_800, 27, 2),
        ),
        (&[quiet, close], report(0, 25, 4)),
    ];
    try_lists(&rt, rt.alloc(), &cases)
}
