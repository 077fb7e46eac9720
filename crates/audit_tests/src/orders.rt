//! Lists that leave the same standing, by other ways and under other numbers, and lists that do not.
use crate::desk::{Audited, Step};
use crate::pool::{BLOCK, QUIET, RESOLD, SHARE, TRADE, audited};
use book::Statement;
use std::alloc::Global;
use std::process::Abort;
use std::test::Fail;

/// The statements of an audit's first book and of its third.
fn statements(found: &Audited) -> (&[Statement], &[Statement]) {
    (&found.desk.statements, &found.desk.statements_again)
}

/// Audits two lists, and sees whether all their statements are the same.
pub(crate) fn compare(
    rt: &impl Abort,
    heap: Global,
    one: &[Step<'_>],
    other: &[Step<'_>],
    same: bool,
) -> Result<(), Fail> {
    let one = audited(heap, one)?;
    let other = audited(heap, other)?;
    assert_eq!(rt; statements(&one) == statements(&other), same);
    Ok(())
}

#[test]
fn other_orders_and_numbers(rt: HostRuntime) -> Result<(), Fail> {
    let (block, moved) = (Step::Enter(1, BLOCK), Step::Enter(7, BLOCK));
    let (share, late) = (Step::Enter(2, SHARE), Step::Enter(64, SHARE));
    let again = Step::Enter(2, BLOCK);
    let post = Step::Post(8, 60_000, &TRADE);
    let other = Step::Post(6, 30_000, &TRADE);
    let with = [block, share, post, other];
    let twice = [block, again, post, other];
    let heap = rt.alloc();
    compare(&rt, heap, &[post, other], &[other, post], true)?;
    compare(&rt, heap, &with, &[late, moved, other, late, post], true)?;
    compare(&rt, heap, &twice, &[moved, block, other, post], true)
}

#[test]
fn other_ways_to_the_same_standing(rt: HostRuntime) -> Result<(), Fail> {
    let (block, share) = (Step::Enter(1, BLOCK), Step::Enter(1, SHARE));
    let (resold, cancel) = (Step::Enter(1, RESOLD), Step::Cancel(1));
    let (post, withdraw) = (Step::Post(8, 60_000, &TRADE), Step::Withdraw(8));
    let other = Step::Post(8, 1, &QUIET);
    let (day, close) = (Step::PostDay(60_000, &TRADE), Step::Close);
    let empty = [block, post, withdraw, cancel, close];
    let cancelled = [share, cancel, resold, cancel, block, other, post];
    let back = [share, post, withdraw, cancel, block, post];
    let closed = [close, block, other, day, withdraw, post, close, withdraw];
    let heap = rt.alloc();
    compare(&rt, heap, &[post], &[other, post], true)?;
    compare(&rt, heap, &[], &empty, true)?;
    compare(&rt, heap, &[block, post], &cancelled, true)?;
    compare(&rt, heap, &[block, post], &back, true)?;
    compare(&rt, heap, &[block, day, close], &closed, true)
}

#[test]
fn another_standing_gives_other_statements(rt: HostRuntime) -> Result<(), Fail> {
    let (block, again) = (Step::Enter(1, BLOCK), Step::Enter(2, BLOCK));
    let post = Step::Post(8, 60_000, &TRADE);
    let later = Step::Post(9, 60_000, &TRADE);
    let cheaper = Step::Post(8, 30_000, &TRADE);
    let day = Step::PostDay(60_000, &TRADE);
    let heap = rt.alloc();
    compare(&rt, heap, &[post], &[later], false)?;
    compare(&rt, heap, &[post], &[cheaper], false)?;
    compare(&rt, heap, &[post], &[block, post], false)?;
    compare(&rt, heap, &[block, post], &[block, again, post], false)?;
    compare(&rt, heap, &[day], &[day, Step::Close], false)
}

// Contracts, refused ones and cancelled ones among them, a correction and a withdrawn hour: what is left in memory is what stands.
#[test]
fn the_third_book_is_left_in_memory(rt: HostRuntime) -> Result<(), Fail> {
    let steps = [
        Step::Enter(64, BLOCK),
        Step::Enter(2, RESOLD),
        Step::Enter(2, SHARE),
        Step::Enter(9, SHARE),
        Step::Cancel(9),
        Step::Post(8, 1, &QUIET),
        Step::Post(8, 60_000, &TRADE),
        Step::Post(6, 60_000, &TRADE),
        Step::Withdraw(6),
    ];
    let desk = audited(rt.alloc(), &steps)?.desk;
    for (place, contract) in desk.contracts.iter().enumerate() {
        let wanted = match place {
            1 => Some(RESOLD),
            63 => Some(BLOCK),
            _ => None,
        };
        assert_eq!(rt; *contract, wanted, "place {place}");
    }
    for (hour, mark) in desk.marks.iter().enumerate() {
        assert_eq!(rt; *mark == 1, hour == 8, "hour {hour}");
    }
    Ok(())
}
