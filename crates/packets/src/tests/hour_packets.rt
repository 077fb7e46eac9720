//! Hour packets. A line has class, cause, injected, withdrawn, gross, factor and cost, in this order.
ghost use Rattle.std.specs.Prelude.{◌≤◌};

use super::BEFORE;
use crate::{ByteFault, HourHeading, HourPacket, PacketFault, PacketLine, read_hour, write_hour};

/// What stands in places for lines before they are read into.
pub(super) const OLD: PacketLine = PacketLine {
    class: 7,
    cause: 7,
    injected: 7,
    withdrawn: 7,
    gross: 7,
    factor: 7,
    cost: 7,
};

pub(super) const FIRST: PacketLine = PacketLine {
    class: 1,
    cause: 0,
    injected: 1000,
    withdrawn: 0,
    gross: 0,
    factor: 95_000,
    cost: 0,
};

const SECOND: PacketLine = PacketLine {
    class: 3,
    cause: 2,
    injected: 128,
    withdrawn: 4_294_967_295,
    gross: 127,
    factor: 300,
    cost: 2_000_000,
};

/// A line of the largest figures.
const MOST: PacketLine = PacketLine {
    class: u32::MAX,
    cause: u32::MAX,
    injected: u32::MAX,
    withdrawn: u32::MAX,
    gross: u32::MAX,
    factor: u32::MAX,
    cost: u32::MAX,
};

/// Hour 8 at 60,000: the heading, and the two lines.
pub(super) const HOUR: [u8; 30] = [
    0x08, 0xE0, 0xD4, 0x03, 0x02, //
    0x01, 0x00, 0xE8, 0x07, 0x00, 0x00, 0x98, 0xE6, 0x05, 0x00, //
    0x03, 0x02, 0x80, 0x01, 0xFF, 0xFF, 0xFF, 0xFF, 0x0F, 0x7F, 0xAC, 0x02, 0x80, 0x89, 0x7A,
];

/// The longest packet: 64 lines, and all other numbers as large as they may be.
pub(super) fn longest() -> [u8; 2251] {
    let mut bytes = [0xFF; 2251];
    bytes[4] = 0x0F;
    bytes[9] = 0x0F;
    bytes[10] = 64;
    for number in 0..448 {
        bytes[15 + 5 * number] = 0x0F;
    }
    bytes
}

/// What reading answers, and what it leaves of 64 places.
pub(super) fn read(bytes: &[u8]) -> (Result<HourHeading, PacketFault>, [PacketLine; 64]) {
    let mut places = [OLD; 64];
    let answer = read_hour(bytes, &mut places);
    (answer, places)
}

/// The heading of the hour with so many lines.
fn heading_of(count: usize) -> HourHeading {
    HourHeading {
        hour: 8,
        price: 60_000,
        count,
    }
}

#[test]
fn an_hour_reads(rt: HostRuntime) {
    let (answer, places) = read(&HOUR);
    assert_eq!(rt; answer, Ok(heading_of(2)));
    assert_eq!(rt; &places[..2], [FIRST, SECOND].as_slice());
    assert_eq!(rt; &places[2..], [OLD; 62].as_slice());
    let packet = HourPacket::read(&HOUR).expect(&rt, "the hour is a packet");
    assert_eq!(rt; (packet.hour(), packet.price()), (8, 60_000));
    assert_eq!(rt; packet.lines(), [FIRST, SECOND].as_slice());
    assert_eq!(rt;
        HourPacket::read(&HOUR[..29]).err(),
        Some(ByteFault::Malformed(27))
    );
}

// An output of so many bytes, and what writing the hour there answers.
#[test]
fn an_hour_is_written(rt: HostRuntime) {
    let short = Err(PacketFault::WrongSize);
    let cases = [
        (0, short),
        (29, short),
        (30, Ok(30)),
        (31, Ok(30)),
        (40, Ok(30)),
    ];
    for (long, answer) in cases {
        assert!(rt; long <= 40);
        let mut output = [BEFORE; 40];
        assert_eq!(rt;
            write_hour(8, 60_000, &[FIRST, SECOND], &mut output[..long]),
            answer
        );
        let written = answer.unwrap_or(0);
        assert!(rt; written <= 30);
        assert_eq!(rt; &output[..written], &HOUR[..written]);
        assert_eq!(rt; &output[written..], &[BEFORE; 40][written..]);
    }
    let fault = PacketFault::WrongSize;
    assert_eq!(rt; (fault.number(), fault.place()), (1, 0));
}

// So many lines, how many bytes their packet has, and an output with no room and one with room.
#[test]
fn lines_are_counted(rt: HostRuntime) {
    let lines = [FIRST; 64];
    for (count, size) in [(1, 15), (2, 25), (64, 645)] {
        assert!(rt; count <= 64 && size <= 650);
        let lines = &lines[..count];
        assert_eq!(rt;
            write_hour(8, 60_000, lines, &mut []),
            Err(PacketFault::WrongSize)
        );
        let mut output = [BEFORE; 650];
        assert_eq!(rt; write_hour(8, 60_000, lines, &mut output), Ok(size));
        assert_eq!(rt; &output[size..], &[BEFORE; 650][size..]);
        let (answer, places) = read(&output[..size]);
        assert_eq!(rt; answer, Ok(heading_of(count)));
        assert_eq!(rt; &places[..count], lines);
        assert_eq!(rt; &places[count..], &[OLD; 64][count..]);
    }
}

/// What reading answers that is lent so many places, and what it leaves of 66.
fn read_into(bytes: &[u8], count: usize) -> (Result<HourHeading, PacketFault>, [PacketLine; 66])
    requires { count ≤ 66 }
{
    let mut places = [OLD; 66];
    let answer = read_hour(bytes, &mut places[..count]);
    (answer, places)
}

// With too few places for lines all is refused, also bytes that are no packet. With more than enough, those past the lines stay.
#[test]
fn numbers_of_places(rt: HostRuntime) {
    let full = longest();
    let mut two = [OLD; 66];
    two[0] = FIRST;
    two[1] = SECOND;
    let mut all = [MOST; 66];
    all[64] = OLD;
    all[65] = OLD;
    for count in [0, 1, 2, 63] {
        assert!(rt; count <= 66);
        for bytes in [HOUR.as_slice(), &full, &[]] {
            let (answer, places) = read_into(bytes, count);
            assert_eq!(rt; answer, Err(PacketFault::WrongSize));
            assert_eq!(rt; places, [OLD; 66]);
        }
    }
    for count in [64, 65, 66] {
        assert!(rt; count <= 66);
        let (answer, places) = read_into(&[], count);
        assert_eq!(rt; answer, Err(PacketFault::Bytes(ByteFault::Malformed(0))));
        assert_eq!(rt; places, [OLD; 66]);
        let (answer, places) = read_into(&HOUR, count);
        assert_eq!(rt; answer, Ok(heading_of(2)));
        assert_eq!(rt; places, two);
        let (answer, places) = read_into(&full, count);
        assert_eq!(rt; answer.map(|heading| heading.count), Ok(64));
        assert_eq!(rt; places, all);
    }
}

// An hour and a price, and where the number of lines then starts. An output with no room is no reason to say otherwise.
#[test]
fn no_lines_and_too_many(rt: HostRuntime) {
    let lines = [FIRST; 65];
    let cases = [
        (0, 0, 2),
        (128, 127, 3),
        (8, 60_000, 4),
        (u32::MAX, u32::MAX, 10),
    ];
    for (hour, price, place) in cases {
        let fault = Err(PacketFault::Bytes(ByteFault::Malformed(place)));
        for count in [0, 65] {
            assert!(rt; count <= 65);
            let lines = &lines[..count];
            let mut output = [BEFORE; 700];
            assert_eq!(rt; write_hour(hour, price, lines, &mut output), fault);
            assert_eq!(rt; output, [BEFORE; 700]);
            assert_eq!(rt; write_hour(hour, price, lines, &mut []), fault);
        }
    }
}

#[test]
fn the_longest_hour(rt: HostRuntime) {
    let bytes = longest();
    let mut written = [BEFORE; 2255];
    written[..2251].copy_from_slice(&bytes);
    let mut output = [BEFORE; 2255];
    assert_eq!(rt;
        write_hour(u32::MAX, u32::MAX, &[MOST; 64], &mut output[..2250]),
        Err(PacketFault::WrongSize)
    );
    assert_eq!(rt;
        write_hour(u32::MAX, u32::MAX, &[MOST; 64], &mut output),
        Ok(2251)
    );
    assert_eq!(rt; output, written);
    let (answer, places) = read(&bytes);
    let heading = HourHeading {
        hour: u32::MAX,
        price: u32::MAX,
        count: 64,
    };
    assert_eq!(rt; answer, Ok(heading));
    assert_eq!(rt; places, [MOST; 64]);
}
