//! Lists in which hours are posted from lines and by packet.
use crate::answers::{Case, try_report};
use crate::desk::Said::{Done, Refused, Skipped, Stated};
use crate::desk::Step;
use crate::orders::compare;
use crate::pool::{BLOCK, IDLE, QUIET, SHARE, TRADE};
use crate::reports::report;
use std::alloc::Global;
use std::process::Abort;
use std::test::Fail;

/// Hour 8 at 60,000 with the lines of the trade: the heading, and the four lines.
const HOUR: [u8; 44] = [
    0x08, 0xE0, 0xD4, 0x03, 0x04, //
    0x01, 0x00, 0xE8, 0x07, 0x00, 0x00, 0x98, 0xE6, 0x05, 0x00, //
    0x01, 0x00, 0x00, 0xD8, 0x04, 0x00, 0xF0, 0x9C, 0x06, 0x00, //
    0x01, 0x00, 0x00, 0xF2, 0x02, 0x00, 0xA0, 0x8D, 0x06, 0x00, //
    0x01, 0x00, 0x00, 0x00, 0x00, 0xA0, 0x8D, 0x06, 0x00,
];

/// Makes the calls of a table of cases. Besides each answer, it compares the report where the residue is so much, both books heard so many calls,
/// and so many agents are strangers to all contracts.
fn try_list(
    rt: &impl Abort,
    heap: Global,
    cases: &[Case<'_>],
    [residue, heard, strangers]: [u32; 3],
) -> Result<(), Fail> {
    let wanted = report(i64::from(residue), heard as usize, strangers as usize);
    assert_eq!(rt; try_report(rt, heap, cases)?, wanted);
    Ok(())
}

/// An hour that is posted by packet, and corrected by lines.
const PACKET_THEN_LINES: [Case<'static>; 4] = [
    (Step::Packet(8, 60_000, &TRADE), Done, Done),
    (Step::Statement(2), Stated(-367_200), Stated(-367_200)),
    (Step::Post(8, 30_000, &TRADE), Done, Done),
    (Step::Statement(2), Stated(-183_600), Stated(-183_600)),
];

/// The other way round.
const LINES_THEN_PACKET: [Case<'static>; 4] = [
    (Step::Post(8, 30_000, &TRADE), Done, Done),
    (Step::Statement(2), Stated(-183_600), Stated(-183_600)),
    (Step::Bytes(&HOUR), Done, Done),
    (Step::Statement(2), Stated(-367_200), Stated(-367_200)),
];

/// Packets and lines of other hours.
const OTHER_HOURS: [Case<'static>; 8] = [
    (Step::Bytes(&HOUR), Done, Done),
    (Step::Post(9, 30_000, &TRADE), Done, Done),
    (Step::Packet(0, 60_000, &TRADE), Done, Done),
    (Step::Packet(8, 30_000, &TRADE), Done, Done),
    (Step::Packet(23, 60_000, &TRADE), Done, Done),
    (Step::Withdraw(23), Done, Done),
    (Step::Withdraw(23), Refused(9, 23), Refused(9, 23)),
    (Step::Statement(2), Stated(-734_400), Stated(-734_400)),
];

/// Packets whose figures are refused.
const REFUSED_FIGURES: [Case<'static>; 6] = [
    (Step::Bytes(&HOUR), Done, Done),
    (
        Step::Packet(24, 2_000_001, &TRADE),
        Refused(4, 24),
        Refused(4, 24),
    ),
    (
        Step::Packet(8, 2_000_001, &TRADE),
        Refused(5, 0),
        Refused(5, 0),
    ),
    (
        Step::Packet(8, 30_000, &[IDLE; 3]),
        Refused(5, 0),
        Refused(5, 0),
    ),
    (
        Step::Packet(8, 30_000, &[IDLE; 64]),
        Refused(5, 0),
        Refused(5, 0),
    ),
    (Step::Statement(2), Stated(-367_200), Stated(-367_200)),
];

/// Packets and lines of an hour that a contract covers.
const UNDER_A_CONTRACT: [Case<'static>; 10] = [
    (Step::Enter(1, BLOCK), Done, Skipped),
    (Step::Bytes(&HOUR), Done, Done),
    (Step::Statement(1), Stated(560_000), Stated(570_000)),
    (Step::Statement(2), Stated(-357_200), Stated(-367_200)),
    (Step::Cancel(1), Refused(14, 8), Skipped),
    (Step::Post(8, 30_000, &TRADE), Done, Done),
    (Step::Statement(1), Stated(305_000), Stated(285_000)),
    (Step::Packet(8, 60_000, &TRADE), Done, Done),
    (Step::Enter(2, SHARE), Refused(14, 8), Skipped),
    (Step::Statement(1), Stated(560_000), Stated(570_000)),
];

// Each list with the residue, the calls that both books heard, and the agents that are strangers to all contracts.
#[test]
fn lists_with_packets(rt: HostRuntime) -> Result<(), Fail> {
    let heap = rt.alloc();
    try_list(&rt, heap, &PACKET_THEN_LINES, [9_600, 4, 4])?;
    try_list(&rt, heap, &LINES_THEN_PACKET, [19_200, 4, 4])?;
    try_list(&rt, heap, &OTHER_HOURS, [38_400, 8, 4])?;
    try_list(&rt, heap, &REFUSED_FIGURES, [19_200, 6, 4])?;
    try_list(&rt, heap, &UNDER_A_CONTRACT, [19_200, 7, 2])
}

/// A packet that stands, and after it bytes that are none, whose fault starts at this place.
fn try_damaged(rt: &impl Abort, heap: Global, bytes: &[u8], place: u32) -> Result<(), Fail> {
    let refused = Refused(17, place);
    let cases = [
        (Step::Bytes(bytes), refused, refused),
        (Step::Enter(1, SHARE), Done, Skipped),
        (Step::Bytes(&HOUR), Done, Done),
        (Step::Bytes(bytes), refused, refused),
        (Step::Statement(3), Stated(-222_000), Stated(-222_000)),
    ];
    try_list(rt, heap, &cases, [19_200, 4, 2])
}

#[test]
fn bytes_that_are_no_packet(rt: HostRuntime) -> Result<(), Fail> {
    let mut first = HOUR;
    first[0] = 0x88;
    let mut last = HOUR;
    last[43] = 0x80;
    let mut over = [0; 45];
    over[..44].copy_from_slice(&HOUR);
    // the bytes, and where what is wrong starts
    let cases: [(&[u8], u32); 6] = [
        (&[], 0),
        (&[0x88, 0x00], 0),
        (&first, 16),
        (&HOUR[..43], 43),
        (&last, 43),
        (&over, 44),
    ];
    for (bytes, place) in cases {
        try_damaged(&rt, rt.alloc(), bytes, place)?;
    }
    Ok(())
}

// The block covers four hours of the day, each at 10,000 points.
#[test]
fn packets_after_the_closing(rt: HostRuntime) -> Result<(), Fail> {
    let cases = [
        (Step::Enter(1, BLOCK), Done, Skipped),
        (Step::PostDay(60_000, &QUIET), Done, Done),
        (Step::Bytes(&HOUR), Done, Done),
        (Step::Close, Done, Done),
        (Step::Packet(8, 30_000, &TRADE), Skipped, Skipped),
        (Step::Packet(24, 30_000, &TRADE), Skipped, Skipped),
        (Step::Bytes(&HOUR[..43]), Skipped, Skipped),
        (Step::Statement(1), Stated(644_000), Stated(684_000)),
    ];
    try_list(&rt, rt.alloc(), &cases, [19_200, 30, 2])
}

#[test]
fn packets_leave_the_statements_of_their_lines(rt: HostRuntime) -> Result<(), Fail> {
    let block = Step::Enter(1, BLOCK);
    let lined = Step::Post(8, 60_000, &TRADE);
    let packed = Step::Packet(8, 60_000, &TRADE);
    let other = Step::Packet(8, 1, &QUIET);
    let bytes = Step::Bytes(&HOUR);
    let heap = rt.alloc();
    compare(&rt, heap, &[lined], &[packed], true)?;
    compare(&rt, heap, &[packed], &[bytes], true)?;
    compare(&rt, heap, &[block, lined], &[block, other, bytes], true)?;
    compare(&rt, heap, &[block, lined], &[block, other, lined], true)?;
    compare(&rt, heap, &[lined], &[lined, other], false)?;
    compare(&rt, heap, &[packed], &[block, packed], false)
}
