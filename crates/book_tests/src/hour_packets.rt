//! Hours that are posted by packet: their faults in order, and that memory comes out as lines would have left it.
use crate::days::posted_to_two;
use crate::desk::{
    ACCEPTED, BLOCK, IDLE, LINES, Memory, RIGHT, Refusal, SHARE, Sizes, Told, open_on, post_on,
    post_packet_on, refused,
};
use crate::trials::{Damage, LAST_HOUR, Trial, tried};
use book::{Line, OpenMonth, Posting};
use forms::Contract;
use packets::{PacketLine, write_hour};
use std::process::Abort;

/// An hour packet: the first so many of these bytes, which have room for 64 idle lines.
#[derive(Clone, Copy)]
struct Packet {
    bytes: [u8; 600],
    size: usize,
}

/// A line as a packet carries it.
fn packet_line(line: &Line) -> PacketLine {
    let Line {
        class,
        cause,
        injected,
        withdrawn,
        gross,
        factor,
        cost,
    } = *line;
    PacketLine {
        class,
        cause,
        injected,
        withdrawn,
        gross,
        factor,
        cost,
    }
}

/// How an hour comes.
#[derive(Clone, Copy, Debug)]
enum Way {
    Lines,
    Packet,
}

impl Packet {
    /// The packet of a posting, which has at most 64 lines.
    fn of(posting: &Posting<'_>) -> Packet {
        let mut lines = [PacketLine::NONE; 64];
        for (place, line) in lines.iter_mut().zip(posting.lines) {
            *place = packet_line(line);
        }
        let lines = &lines[..posting.lines.len().min(64)];
        let mut bytes = [0; 600];
        let size = write_hour(posting.hour, posting.price, lines, &mut bytes).unwrap_or(0);
        Packet { bytes, size }
    }

    fn bytes(&self) -> &[u8] {
        &self.bytes[..self.size.min(600)]
    }
}

/// Posts an hour in a book that is open.
fn post_by(way: Way, memory: &mut Memory, month: &OpenMonth, posting: &Posting<'_>) -> Told {
    match way {
        Way::Lines => post_on(memory, month, posting),
        Way::Packet => post_packet_on(memory, month, Packet::of(posting).bytes()),
    }
}

/// Hour 6, in which agent 1 injects and agent 2 withdraws.
const TRADE: Posting<'static> = Posting {
    hour: 6,
    price: 60_000,
    lines: &LINES,
};

/// The trade with other lines.
fn with(lines: &[Line]) -> Posting<'_> {
    Posting { lines, ..TRADE }
}

/// The lines of the trade with another at a place, counted from 0.
fn at(place: usize, line: Line) -> [Line; 5] {
    let mut lines = LINES;
    if let Some(old) = lines.get_mut(place) {
        *old = line;
    }
    lines
}

/// A line with a node factor above its limit.
const FAR: Line = Line {
    factor: 150_001,
    ..IDLE
};

/// A line of no class.
const UNKNOWN: Line = Line { class: 4, ..IDLE };

/// A line of a distributor, which no agent but a generator may have.
const OBLIGATED: Line = Line {
    class: 2,
    injected: 95,
    gross: 100,
    cost: 80_000,
    ..IDLE
};

#[test]
fn the_size_comes_before_the_bytes_and_the_bytes_before_the_rest(rt: HostRuntime) {
    let small = Sizes { marks: 23, ..RIGHT };
    let large = Sizes {
        entries: 121,
        ..RIGHT
    };
    let mark = Some(Damage::LastMark(2));
    let outside = Packet::of(&Posting { hour: 24, ..TRADE });
    // the memory that is lent, what is damaged there, and the bytes
    let cases: [(Sizes, Option<Damage>, &[u8], Told); 9] = [
        (small, None, &[], refused(1, 0)),
        (large, None, &[0x80], refused(1, 0)),
        (small, mark, &[0x80], refused(1, 0)),
        (small, mark, outside.bytes(), refused(1, 0)),
        (RIGHT, mark, &[0x80], refused(17, 0)),
        (RIGHT, mark, &LAST_HOUR[..49], refused(17, 49)),
        (RIGHT, mark, outside.bytes(), refused(2, 0)),
        (RIGHT, None, outside.bytes(), refused(4, 24)),
        (RIGHT, None, &LAST_HOUR, ACCEPTED),
    ];
    for (sizes, damage, bytes, told) in cases {
        assert_eq!(rt; tried(&rt, sizes, damage, Trial::Packet(bytes)), told);
    }
}

#[test]
fn bytes_that_are_no_packet(rt: HostRuntime) {
    let mut first = LAST_HOUR;
    first[0] = 0x80;
    let mut last = LAST_HOUR;
    last[49] = 0x80;
    let mut over = [0; 52];
    over[..50].copy_from_slice(&LAST_HOUR);
    // the bytes, and where what is wrong starts
    let cases: [(&[u8], u32); 9] = [
        (&[], 0),
        (&[0x80], 0),
        (&[0x97, 0x00], 0),
        (&[0xFF, 0xFF, 0xFF, 0xFF, 0x10], 0),
        (&first, 15),
        (&LAST_HOUR[..49], 49),
        (&last, 49),
        (&over[..51], 50),
        (&over, 50),
    ];
    for (bytes, place) in cases {
        let told = tried(&rt, RIGHT, None, Trial::Packet(bytes));
        assert_eq!(rt; told, refused(17, place));
    }
}

/// Posts an hour that is refused, from lines and by packet. Both leave all memory as it was.
fn refuse(
    rt: &impl Abort,
    memory: &mut Memory,
    month: &OpenMonth,
    posting: &Posting<'_>,
    told: Told,
) {
    let before = *memory;
    for way in [Way::Lines, Way::Packet] {
        assert_eq!(rt; post_by(way, memory, month, posting), told, "{way:?}");
        assert!(rt; *memory == before);
    }
}

// Hour 6 is posted, under a block.
#[test]
fn hours_that_are_refused(rt: HostRuntime) -> Result<(), Refusal> {
    let class = at(1, OBLIGATED);
    let together = at(
        1,
        Line {
            injected: 3_999_001,
            ..IDLE
        },
    );
    let uncarried = [OBLIGATED, IDLE, IDLE, IDLE, IDLE];
    // the hour, the price and the lines, and the number and the place of the fault
    let cases: [(u32, u32, &[Line], u32, u32); 15] = [
        (24, 60_000, &LINES, 4, 24),
        (u32::MAX, 2_000_001, &LINES, 4, u32::MAX),
        (6, 2_000_001, &class, 5, 0),
        (6, u32::MAX, &LINES, 5, 0),
        (6, 60_000, &[IDLE; 4], 5, 0),
        (6, 60_000, &[IDLE; 6], 5, 0),
        (6, 60_000, &[IDLE; 64], 5, 0),
        (6, 60_000, &at(0, FAR), 5, 1),
        (6, 60_000, &at(1, FAR), 5, 2),
        (6, 60_000, &at(4, FAR), 5, 5),
        (6, 60_000, &at(0, UNKNOWN), 6, 1),
        (6, 60_000, &class, 6, 2),
        (6, 60_000, &at(4, UNKNOWN), 6, 5),
        (6, 60_000, &together, 7, 0),
        (6, 60_000, &uncarried, 8, 0),
    ];
    let mut memory = Memory::new();
    let month = open_on(&mut memory, RIGHT)?;
    memory.contracts[0] = Some(BLOCK);
    assert_eq!(rt; post_on(&mut memory, &month, &TRADE), ACCEPTED);
    for (hour, price, lines, number, place) in cases {
        let posting = Posting { hour, price, lines };
        refuse(&rt, &mut memory, &month, &posting, refused(number, place));
    }
    let _ = month.retire();
    Ok(())
}

#[test]
fn a_packet_has_a_line_for_each_agent_of_the_book(rt: HostRuntime) {
    // how many idle lines a packet has, and what a book of two agents answers
    let cases = [
        (1, refused(5, 0)),
        (2, ACCEPTED),
        (3, refused(5, 0)),
        (64, refused(5, 0)),
    ];
    let lines = [IDLE; 64];
    for (count, told) in cases {
        assert!(rt; count <= 64);
        let packet = Packet::of(&with(&lines[..count]));
        assert_eq!(rt; posted_to_two(packet.bytes()), told, "{count} lines");
    }
}

/// Posts hours one after another.
fn post_all(memory: &mut Memory, month: &OpenMonth, hours: &[(Posting<'_>, Way)]) -> Told {
    for (posting, way) in hours {
        post_by(*way, memory, month, posting)?;
    }
    Ok(())
}

/// All memory after these hours were posted, where this contract stands.
fn posted(contract: Option<Contract>, hours: &[(Posting<'_>, Way)]) -> Result<Memory, Refusal> {
    let mut memory = Memory::new();
    let month = open_on(&mut memory, RIGHT)?;
    memory.contracts[63] = contract;
    let said = post_all(&mut memory, &month, hours);
    let _ = month.retire();
    said?;
    Ok(memory)
}

/// No contract, a block and a share.
const STANDING: [Option<Contract>; 3] = [None, Some(BLOCK), Some(SHARE)];

#[test]
fn a_packet_leaves_what_its_lines_would(rt: HostRuntime) -> Result<(), Refusal> {
    let idle = Posting {
        hour: 23,
        ..with(&[IDLE; 5])
    };
    for contract in STANDING {
        let lines = posted(contract, &[(TRADE, Way::Lines), (idle, Way::Lines)])?;
        let packets = posted(contract, &[(TRADE, Way::Packet), (idle, Way::Packet)])?;
        assert!(rt; packets == lines);
    }
    Ok(())
}

/// The trade with other figures.
const DEARER: Posting<'static> = Posting {
    price: 80_000,
    lines: &[
        Line {
            injected: 500,
            ..IDLE
        },
        Line {
            withdrawn: 400,
            ..IDLE
        },
        IDLE,
        IDLE,
        IDLE,
    ],
    ..TRADE
};

/// Posts the trade and corrects it where this contract stands, one of the two by packet at least.
fn correct(rt: &impl Abort, contract: Option<Contract>) -> Result<(), Refusal> {
    let lines = posted(contract, &[(TRADE, Way::Lines), (DEARER, Way::Lines)])?;
    assert!(rt; lines != posted(contract, &[(TRADE, Way::Lines)])?);
    for (first, then) in [
        (Way::Packet, Way::Packet),
        (Way::Packet, Way::Lines),
        (Way::Lines, Way::Packet),
    ] {
        let memory = posted(contract, &[(TRADE, first), (DEARER, then)])?;
        assert!(rt; memory == lines, "{first:?}, then {then:?}");
    }
    Ok(())
}

#[test]
fn a_correction_leaves_the_same_each_way(rt: HostRuntime) -> Result<(), Refusal> {
    for contract in STANDING {
        correct(&rt, contract)?;
    }
    Ok(())
}
