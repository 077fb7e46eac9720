use crate::{DUMP_BYTES, Hour, MeterFault, OUTPUT_BYTES, read_day};
use std::process::Abort;

/// What lies in an output before anything is written.
const BLANK: u8 = 0xaa;

/// Writes a number, the highest byte first, where it has room.
fn put_number(bytes: &mut [u8], at: usize, number: u32) {
    if at < bytes.len() && bytes.len() - at >= 4 {
        bytes[at..at + 4].copy_from_slice(&number.to_be_bytes());
    }
}

/// The number that begins at a place.
fn number_at(bytes: &[u8], at: usize) -> Option<u32> {
    if bytes.len() < at {
        return None;
    }
    let [a, b, c, d, ..] = &bytes[at..] else {
        return None;
    };
    Some(u32::from_be_bytes([*a, *b, *c, *d]))
}

/// Writes the channels of a quarter: gross delivered and received, and net delivered and received.
fn put_quarter(dump: &mut [u8], place: usize, channels: [u32; 4]) {
    if place < 96 {
        for (i, kwh) in channels.iter().enumerate() {
            put_number(dump, 16 * place + 4 * i, *kwh);
        }
    }
}

/// A dump in which all quarters but one are zero.
fn day_with(place: usize, channels: [u32; 4]) -> [u8; DUMP_BYTES] {
    let mut dump = [0; DUMP_BYTES];
    put_quarter(&mut dump, place, channels);
    dump
}

/// An hour that an output tells.
fn hour_in(output: &[u8], hour: usize) -> Option<Hour> {
    if hour >= 24 {
        return None;
    }
    let at = 16 * hour;
    Some(Hour {
        gross: number_at(output, at)?,
        net: number_at(output, at + 4)?,
        external: number_at(output, at + 8)?,
        auxiliaries: number_at(output, at + 12)?,
    })
}

fn hour(gross: u32, net: u32, external: u32, auxiliaries: u32) -> Hour {
    Hour {
        gross,
        net,
        external,
        auxiliaries,
    }
}

/// A day with one quarter that is not zero is read, that hour has its energies, and every other hour is zero.
fn expect_hour(rt: &impl Abort, place: usize, channels: [u32; 4], at: usize, wanted: Hour) {
    let mut output = [BLANK; OUTPUT_BYTES];
    assert_eq!(rt; read_day(&day_with(place, channels), &mut output), Ok(()));
    for i in 0..24 {
        let expected = if i == at { wanted } else { hour(0, 0, 0, 0) };
        assert_eq!(rt; hour_in(&output, i), Some(expected));
    }
}

/// A day whose only quarter that is not zero is not sound is refused there, and nothing is written.
fn expect_refused(rt: &impl Abort, place: u32, channels: [u32; 4]) {
    let mut output = [BLANK; OUTPUT_BYTES];
    let answer = read_day(&day_with(place as usize, channels), &mut output);
    assert_eq!(rt; answer, Err(MeterFault::Quarter(place)));
    assert_eq!(rt; output, [BLANK; OUTPUT_BYTES]);
}

// The channels of a quarter, and its energies: gross, net, external auxiliaries and auxiliaries.
#[test]
fn quarters_are_told(rt: HostRuntime) {
    let cases = [
        // Gross energy of 10, and net channels that received 5 more than they delivered.
        ([10, 0, 0, 5], hour(10, 0, 5, 15)),
        ([110, 100, 20, 25], hour(10, 0, 5, 15)),
        ([10, 0, 4, 1], hour(10, 3, 0, 7)),
        // No gross energy, and all of it net.
        ([7, 7, 0, 0], hour(0, 0, 0, 0)),
        ([9, 1, 8, 0], hour(8, 8, 0, 0)),
        // Each channel at its limit.
        ([1_000_000, 0, 0, 0], hour(1_000_000, 0, 0, 1_000_000)),
        ([1_000_000, 1_000_000, 0, 0], hour(0, 0, 0, 0)),
        (
            [1_000_000, 0, 1_000_000, 0],
            hour(1_000_000, 1_000_000, 0, 0),
        ),
        (
            [1_000_000, 0, 0, 1_000_000],
            hour(1_000_000, 0, 1_000_000, 2_000_000),
        ),
    ];
    for (channels, wanted) in cases {
        expect_hour(&rt, 0, channels, 0, wanted);
        expect_hour(&rt, 95, channels, 23, wanted);
    }
}

// A quarter, and the hour that it counts in.
#[test]
fn quarters_count_in_their_own_hours(rt: HostRuntime) {
    let cases = [
        (0, 0),
        (3, 0),
        (4, 1),
        (7, 1),
        (88, 22),
        (91, 22),
        (92, 23),
        (95, 23),
    ];
    for (place, at) in cases {
        expect_hour(&rt, place, [258, 0, 3, 0], at, hour(258, 3, 0, 255));
    }
}

// Quarter q has gross energy of 1,000 + q and net energy of q.
#[test]
fn four_quarters_are_summed(rt: HostRuntime) {
    let mut dump = [0; DUMP_BYTES];
    for q in 0..96 {
        put_quarter(&mut dump, q as usize, [1_000 + q, 0, q, 0]);
    }
    let mut output = [BLANK; OUTPUT_BYTES];
    assert_eq!(rt; read_day(&dump, &mut output), Ok(()));
    let cases = [
        (0, 4_006, 6),
        (1, 4_022, 22),
        (11, 4_182, 182),
        (23, 4_374, 374),
    ];
    for (at, gross, net) in cases {
        assert_eq!(rt; hour_in(&output, at), Some(hour(gross, net, 0, 4_000)));
    }
}

#[test]
fn quarters_are_refused(rt: HostRuntime) {
    let cases = [
        // Each channel above its limit.
        [1_000_001, 1, 0, 0],
        [1_000_000, 1_000_001, 0, 0],
        [1_000_000, 0, 1_000_001, 1],
        [1_000_000, 0, 0, 1_000_001],
        [u32::MAX, 0, 0, 0],
        [10, 0, 0, u32::MAX],
        // Gross energy below 0, and net above gross.
        [0, 1, 0, 1],
        [6, 7, 0, 9],
        [8, 1, 8, 0],
        [0, 0, 1, 0],
    ];
    for channels in cases {
        expect_refused(&rt, 0, channels);
        expect_refused(&rt, 95, channels);
    }
}

// Of two quarters that are not sound the first is told.
#[test]
fn first_quarter_is_told(rt: HostRuntime) {
    let mut dump = day_with(95, [0, 1, 0, 0]);
    let mut output = [BLANK; OUTPUT_BYTES];
    for place in [94, 4, 3, 0] {
        put_quarter(&mut dump, place as usize, [1_000_001, 0, 0, 0]);
        assert_eq!(rt;
            read_day(&dump, &mut output),
            Err(MeterFault::Quarter(place))
        );
    }
    assert_eq!(rt; output, [BLANK; OUTPUT_BYTES]);
}

// The lengths of a dump and of an output, and the fault that is met: of a dump of zeros, and of one whose first quarter, if it has one, is not sound.
#[test]
fn lengths_are_checked(rt: HostRuntime) {
    let long = [0; 1_537];
    let mut unsound = [0; 1_537];
    put_quarter(&mut unsound, 0, [0, 1, 0, 0]);
    let short = Some(MeterFault::OutputTooShort);
    let wrong = Some(MeterFault::WrongLength);
    let cases = [
        (0, 0, short, short),
        (0, 383, short, short),
        (1_536, 0, short, short),
        (1_536, 383, short, short),
        (1_537, 383, short, short),
        (0, 384, wrong, wrong),
        (16, 400, wrong, wrong),
        (1_535, 384, wrong, wrong),
        (1_537, 384, wrong, wrong),
        (1_536, 384, None, Some(MeterFault::Quarter(0))),
        (1_536, 400, None, Some(MeterFault::Quarter(0))),
    ];
    for (dump, room, fault, fault_of_unsound) in cases {
        assert!(rt; dump <= 1_537);
        expect_lengths(&rt, &long[..dump], room, fault);
        expect_lengths(&rt, &unsound[..dump], room, fault_of_unsound);
    }
}

/// Reads a dump of zeros, or one that is refused, into an output of so many places: hours of zeros are written where it is read, and the rest stays.
fn expect_lengths(rt: &impl Abort, dump: &[u8], room: usize, fault: Option<MeterFault>) {
    let mut output = [BLANK; 400];
    assert!(rt; room <= 400);
    assert_eq!(rt; read_day(dump, &mut output[..room]).err(), fault);
    let hours = if fault.is_none() { OUTPUT_BYTES } else { 0 };
    assert!(rt; output[..hours].iter().all(|byte| *byte == 0));
    assert!(rt; output[hours..].iter().all(|byte| *byte == BLANK));
}

// Each fault, its number and its place.
#[test]
fn faults_are_numbered(rt: HostRuntime) {
    let cases = [
        (MeterFault::OutputTooShort, 1, 0),
        (MeterFault::WrongLength, 15, 0),
        (MeterFault::Quarter(0), 16, 0),
        (MeterFault::Quarter(95), 16, 95),
    ];
    for (fault, number, place) in cases {
        assert_eq!(rt; (fault.number(), fault.place()), (number, place));
    }
}
