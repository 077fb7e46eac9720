//! Bytes that are no hour packet, and damaged ones.
use super::hour_packets::{HOUR, OLD, longest, read};
use super::{BEFORE, NO_NUMBERS, NUMBERS, with_number};
use crate::{HourHeading, PacketLine, write_hour};
use std::test::Fail;

/// Where the number starts that each byte is a part of.
const STARTS: [u32; 30] = [
    0, 1, 1, 1, 4, //
    5, 6, 7, 7, 9, 10, 11, 11, 11, 14, //
    15, 16, 17, 17, 19, 19, 19, 19, 19, 24, 25, 25, 27, 27, 27,
];

/// A packet of one line, each of whose numbers is a byte.
const SMALL: [u8; 10] = [0, 0, 1, 0, 0, 0, 0, 0, 0, 0];

/// The number and the place of the fault that a packet is refused with, and whether all places stayed as they were.
fn fault_of(bytes: &[u8]) -> Option<(u32, u32, bool)> {
    let (answer, places) = read(bytes);
    let fault = answer.err()?;
    Some((fault.number(), fault.place(), places == [OLD; 64]))
}

// Cut off at a byte, no number that ends from there on, and bytes left over.
#[test]
fn broken_at_each_byte(rt: HostRuntime) {
    for i in 0..30 {
        let fault = Some((17, STARTS[i], true));
        assert_eq!(rt; fault_of(&HOUR[..i]), fault);
        let mut endless = HOUR;
        endless[i..].fill(0xFF);
        assert_eq!(rt; fault_of(&endless), fault);
    }
    let mut longer = [0; 33];
    longer[..30].copy_from_slice(&HOUR);
    for long in 31..=33 {
        assert_eq!(rt; fault_of(&longer[..long]), Some((17, 30, true)));
    }
}

/// The small packet's figures, with a number in place of one of them.
fn small_with(place: usize, number: u32) -> (HourHeading, PacketLine) {
    let mut heading = HourHeading {
        hour: 0,
        price: 0,
        count: 1,
    };
    let mut line = PacketLine::NONE;
    match place {
        0 => heading.hour = number,
        1 => heading.price = number,
        2 => heading.count = number as usize,
        3 => line.class = number,
        4 => line.cause = number,
        5 => line.injected = number,
        6 => line.withdrawn = number,
        7 => line.gross = number,
        8 => line.factor = number,
        _ => line.cost = number,
    }
    (heading, line)
}

// Each number in each place of the small packet, in which each number starts at its own place. None of them is 1 to 64, as the number of lines has to be.
#[test]
fn numbers_in_each_place(rt: HostRuntime) -> Result<(), Fail> {
    for (number, _, spelled) in NUMBERS {
        for place in 0..10 {
            let bytes = with_number(rt.alloc(), &SMALL, place, spelled)?;
            if place == 2 || number > u64::from(u32::MAX) {
                assert_eq!(rt;
                    fault_of(&bytes),
                    Some((17, place as u32, true)),
                    "{number}"
                );
                continue;
            }
            let (heading, line) = small_with(place, number as u32);
            let (answer, places) = read(&bytes);
            assert_eq!(rt; answer, Ok(heading), "{number} at {place}");
            assert_eq!(rt; places[0], line, "{number} at {place}");
            let mut output = [BEFORE; 14];
            let size = write_hour(heading.hour, heading.price, &[line], &mut output);
            assert_eq!(rt; size, Ok(bytes.len()));
            assert!(rt; bytes.len() <= 14);
            assert_eq!(rt; &output[..bytes.len()], bytes.as_slice());
        }
    }
    Ok(())
}

#[test]
fn no_number_in_each_place(rt: HostRuntime) -> Result<(), Fail> {
    for spelled in NO_NUMBERS {
        for place in 0..10 {
            let bytes = with_number(rt.alloc(), &SMALL, place, spelled)?;
            assert_eq!(rt;
                fault_of(&bytes),
                Some((17, place as u32, true)),
                "{spelled:?}"
            );
        }
    }
    Ok(())
}

// The number of lines, and where the fault of a packet of one line is: more lines than there are begin where they are missed.
#[test]
fn counts_of_lines(rt: HostRuntime) -> Result<(), Fail> {
    for (count, place) in [(0, 2), (2, 10), (64, 10), (65, 2), (127, 2)] {
        let bytes = with_number(rt.alloc(), &SMALL, 2, &[count])?;
        assert_eq!(rt; fault_of(&bytes), Some((17, place, true)), "{count}");
    }
    Ok(())
}

// A byte of the longest packet, what it is changed to, and where the number starts that is wrong then.
#[test]
fn faults_in_the_longest_hour(rt: HostRuntime) {
    let cases = [
        // 2 ^ 32
        (4, 0x10, 0),
        (9, 0x10, 5),
        (15, 0x10, 11),
        (2245, 0x10, 2241),
        (2250, 0x10, 2246),
        // a number of lines that is not 1 to 64
        (10, 0, 10),
        (10, 65, 10),
        // a line is left over
        (10, 63, 2216),
        // one group too many, and cut off
        (2250, 0x00, 2246),
        (2250, 0x8F, 2246),
    ];
    for (at, byte, place) in cases {
        assert!(rt; at < 2251);
        let mut bytes = longest();
        bytes[at] = byte;
        assert_eq!(rt; fault_of(&bytes), Some((17, place, true)), "{byte} at {at}");
    }
    let bytes = longest();
    for long in 2246..2251 {
        assert_eq!(rt; fault_of(&bytes[..long]), Some((17, 2246, true)));
    }
    let mut longer = [0; 2252];
    longer[..2251].copy_from_slice(&bytes);
    assert_eq!(rt; fault_of(&longer), Some((17, 2251, true)));
}

// Whatever one byte is changed to, the packet is refused, from the number on that the byte is a part of, or it reads to other figures, which are written in these very bytes.
#[test]
fn damaged_at_each_byte(rt: HostRuntime) {
    let good = read(&HOUR);
    for i in 0..30 {
        for change in 1..=255 {
            let mut damaged = HOUR;
            damaged[i] ^= change;
            let (answer, places) = read(&damaged);
            match answer {
                Ok(heading) => {
                    assert!(rt; (answer, places) != good);
                    assert!(rt; heading.count <= 64);
                    let mut output = [BEFORE; 30];
                    assert_eq!(rt;
                        write_hour(
                            heading.hour,
                            heading.price,
                            &places[..heading.count],
                            &mut output
                        ),
                        Ok(30)
                    );
                    assert_eq!(rt; output, damaged);
                }
                Err(fault) => {
                    assert_eq!(rt; fault.number(), 17);
                    assert!(rt; STARTS[i] <= fault.place() && fault.place() <= 30);
                    assert_eq!(rt; places, [OLD; 64]);
                }
            }
        }
    }
}
