//! Bytes that are no statement packet, and damaged ones.
use super::statement_packets::{BYTES, LONGEST_BYTES, SMALL, SMALL_BYTES, STATEMENT};
use super::{BEFORE, NO_NUMBERS, NUMBERS, with_number};
use crate::{StatementFigures, read_statement, write_statement};
use std::test::Fail;

/// Where the number starts that each byte is a part of.
const STARTS: [u32; 19] = [
    0, 1, 2, 2, 2, 5, 5, 5, 8, 9, 10, 10, 10, 13, 14, 14, 16, 16, 18,
];

/// The number and the place of the fault that a packet is refused with.
fn fault_of(bytes: &[u8]) -> Option<(u32, u32)> {
    let fault = read_statement(bytes).err()?;
    Some((fault.number(), fault.place()))
}

// Cut off at a byte, no number that ends from there on, and bytes left over.
#[test]
fn broken_at_each_byte(rt: HostRuntime) {
    for i in 0..19 {
        let fault = Some((17, STARTS[i]));
        assert_eq!(rt; fault_of(&BYTES[..i]), fault);
        let mut endless = BYTES;
        endless[i..].fill(0xFF);
        assert_eq!(rt; fault_of(&endless), fault);
    }
    let mut longer = [0; 22];
    longer[..19].copy_from_slice(&BYTES);
    for long in 20..=22 {
        assert_eq!(rt; fault_of(&longer[..long]), Some((17, 19)));
    }
}

/// The small packet's figures, with a number in place of one of them. A line makes the balance.
fn small_with(place: usize, number: u64, signed: i64) -> StatementFigures {
    let line = StatementFigures {
        balance: signed,
        ..SMALL
    };
    match place {
        2 => StatementFigures {
            market: signed,
            ..line
        },
        3 => StatementFigures {
            contract: signed,
            ..line
        },
        4 => StatementFigures {
            overcost: signed,
            ..line
        },
        5 => StatementFigures {
            power: signed,
            ..line
        },
        7 => StatementFigures {
            injected: number,
            ..SMALL
        },
        8 => StatementFigures {
            withdrawn: number,
            ..SMALL
        },
        9 => StatementFigures {
            peak_kwh: number,
            ..SMALL
        },
        10 => StatementFigures {
            peak_hour: number,
            ..SMALL
        },
        _ => SMALL,
    }
}

// Each number in each place of the small packet, in which each number starts at its own place. None of them is 1 to 64, as the agent has to be.
#[test]
fn numbers_in_each_place(rt: HostRuntime) -> Result<(), Fail> {
    for (number, signed, spelled) in NUMBERS {
        for place in 0..11 {
            let mut bytes = with_number(rt.alloc(), &SMALL_BYTES, place, spelled)?;
            let fits = match place {
                0 | 6 => number == 0,
                1 => false,
                2..=5 => {
                    let balanced = with_number(rt.alloc(), &SMALL_BYTES, 6, spelled)?;
                    bytes = with_number(rt.alloc(), &balanced, place, spelled)?;
                    true
                }
                _ => true,
            };
            if !fits {
                assert_eq!(rt; fault_of(&bytes), Some((17, place as u32)), "{number}");
                continue;
            }
            let figures = small_with(place, number, signed);
            assert_eq!(rt; read_statement(&bytes), Ok(figures), "{number} at {place}");
            let mut output = [BEFORE; 29];
            let size = bytes.len();
            assert_eq!(rt; write_statement(&figures, &mut output), Ok(size));
            assert!(rt; size <= 29);
            assert_eq!(rt; &output[..size], bytes.as_slice());
        }
    }
    Ok(())
}

#[test]
fn no_number_in_each_place(rt: HostRuntime) -> Result<(), Fail> {
    for spelled in NO_NUMBERS {
        for place in 0..11 {
            let bytes = with_number(rt.alloc(), &SMALL_BYTES, place, spelled)?;
            assert_eq!(rt; fault_of(&bytes), Some((17, place as u32)), "{spelled:?}");
        }
    }
    Ok(())
}

// A place of the small packet, a number there, and where the fault is: a line that is changed makes the balance wrong.
#[test]
fn limits_of_the_numbers(rt: HostRuntime) -> Result<(), Fail> {
    let cases = [
        (0, 1, None),
        (0, 2, Some((17, 0))),
        (1, 0, Some((17, 1))),
        (1, 64, None),
        (1, 65, Some((17, 1))),
        (2, 1, Some((17, 6))),
        (5, 2, Some((17, 6))),
        (6, 1, Some((17, 6))),
        (6, 2, Some((17, 6))),
    ];
    for (place, number, fault) in cases {
        let bytes = with_number(rt.alloc(), &SMALL_BYTES, place, &[number])?;
        assert_eq!(rt; fault_of(&bytes), fault, "{number} at {place}");
    }
    Ok(())
}

// A byte of the longest packet, what it is changed to, and where the number starts that is wrong then.
#[test]
fn faults_in_the_longest_statement(rt: HostRuntime) {
    let cases = [
        (0, 0x02, 0),
        (1, 0x41, 1),
        // 2 ^ 64 and more
        (11, 0x02, 2),
        (51, 0x02, 42),
        (91, 0x02, 82),
        // another line, and another balance
        (2, 0xFD, 42),
        (42, 0x82, 42),
        // one group too many, and cut off
        (91, 0x00, 82),
        (91, 0x81, 82),
    ];
    for (at, byte, place) in cases {
        assert!(rt; at < 92);
        let mut bytes = LONGEST_BYTES;
        bytes[at] = byte;
        assert_eq!(rt; fault_of(&bytes), Some((17, place)), "{byte} at {at}");
    }
    for long in 82..92 {
        assert_eq!(rt; fault_of(&LONGEST_BYTES[..long]), Some((17, 82)));
    }
    let mut longer = [0; 93];
    longer[..92].copy_from_slice(&LONGEST_BYTES);
    assert_eq!(rt; fault_of(&longer), Some((17, 92)));
}

// Whatever one byte is changed to, the packet is refused, from the number on that the byte is a part of, or it reads to other figures, which are written in these very bytes.
#[test]
fn damaged_at_each_byte(rt: HostRuntime) {
    for i in 0..19 {
        for change in 1..=255 {
            let mut damaged = BYTES;
            damaged[i] ^= change;
            match read_statement(&damaged) {
                Ok(figures) => {
                    assert!(rt; figures != STATEMENT);
                    let mut output = [BEFORE; 19];
                    assert_eq!(rt; write_statement(&figures, &mut output), Ok(19));
                    assert_eq!(rt; output, damaged);
                }
                Err(fault) => {
                    assert_eq!(rt; fault.number(), 17);
                    assert!(rt; STARTS[i] <= fault.place() && fault.place() <= 19);
                }
            }
        }
    }
}
