//! Statement packets.
use super::BEFORE;
use crate::{ByteFault, PacketFault, StatementFigures, read_statement, write_statement};

pub(super) const STATEMENT: StatementFigures = StatementFigures {
    state: 1,
    agent: 2,
    market: -593_640,
    contract: 10_000,
    overcost: 0,
    power: -1,
    balance: -583_641,
    injected: 0,
    withdrawn: 970,
    peak_kwh: 970,
    peak_hour: 8,
};

/// The same: state and agent, the lines, the balance, the energies and the peak.
pub(super) const BYTES: [u8; 19] = [
    0x01, 0x02, //
    0xCF, 0xBB, 0x48, 0xA0, 0x9C, 0x01, 0x00, 0x01, //
    0xB1, 0x9F, 0x47, //
    0x00, 0xCA, 0x07, 0xCA, 0x07, 0x08,
];

/// The figures at their ends, with a sum that wraps.
const WIDE: StatementFigures = StatementFigures {
    state: 0,
    agent: 64,
    market: i64::MAX,
    contract: 1,
    overcost: 0,
    power: 0,
    balance: i64::MIN,
    injected: u64::MAX,
    withdrawn: 0,
    peak_kwh: u64::MAX,
    peak_hour: 743,
};

const WIDE_BYTES: [u8; 48] = [
    0x00, 0x40, //
    0xFE, 0xFF, 0xFF, 0xFF, 0xFF, 0xFF, 0xFF, 0xFF, 0xFF, 0x01, 0x02, 0x00, 0x00, //
    0xFF, 0xFF, 0xFF, 0xFF, 0xFF, 0xFF, 0xFF, 0xFF, 0xFF, 0x01, //
    0xFF, 0xFF, 0xFF, 0xFF, 0xFF, 0xFF, 0xFF, 0xFF, 0xFF, 0x01, 0x00, //
    0xFF, 0xFF, 0xFF, 0xFF, 0xFF, 0xFF, 0xFF, 0xFF, 0xFF, 0x01, 0xE7, 0x05,
];

/// The longest packet: each number past the agent has ten bytes.
const LONGEST: StatementFigures = StatementFigures {
    state: 1,
    agent: 64,
    market: i64::MIN,
    contract: i64::MIN,
    overcost: i64::MAX,
    power: 4_611_686_018_427_387_904,
    balance: -4_611_686_018_427_387_905,
    injected: u64::MAX,
    withdrawn: u64::MAX,
    peak_kwh: u64::MAX,
    peak_hour: u64::MAX,
};

pub(super) const LONGEST_BYTES: [u8; 92] = [
    0x01, 0x40, //
    0xFF, 0xFF, 0xFF, 0xFF, 0xFF, 0xFF, 0xFF, 0xFF, 0xFF, 0x01, //
    0xFF, 0xFF, 0xFF, 0xFF, 0xFF, 0xFF, 0xFF, 0xFF, 0xFF, 0x01, //
    0xFE, 0xFF, 0xFF, 0xFF, 0xFF, 0xFF, 0xFF, 0xFF, 0xFF, 0x01, //
    0x80, 0x80, 0x80, 0x80, 0x80, 0x80, 0x80, 0x80, 0x80, 0x01, //
    0x81, 0x80, 0x80, 0x80, 0x80, 0x80, 0x80, 0x80, 0x80, 0x01, //
    0xFF, 0xFF, 0xFF, 0xFF, 0xFF, 0xFF, 0xFF, 0xFF, 0xFF, 0x01, //
    0xFF, 0xFF, 0xFF, 0xFF, 0xFF, 0xFF, 0xFF, 0xFF, 0xFF, 0x01, //
    0xFF, 0xFF, 0xFF, 0xFF, 0xFF, 0xFF, 0xFF, 0xFF, 0xFF, 0x01, //
    0xFF, 0xFF, 0xFF, 0xFF, 0xFF, 0xFF, 0xFF, 0xFF, 0xFF, 0x01,
];

/// The packet of the fewest bytes: each of its numbers is one.
pub(super) const SMALL: StatementFigures = StatementFigures {
    state: 0,
    agent: 1,
    market: 0,
    contract: 0,
    overcost: 0,
    power: 0,
    balance: 0,
    injected: 0,
    withdrawn: 0,
    peak_kwh: 0,
    peak_hour: 0,
};

pub(super) const SMALL_BYTES: [u8; 11] = [0, 1, 0, 0, 0, 0, 0, 0, 0, 0, 0];

// An output of so many bytes, and what writing the statement there answers.
#[test]
fn a_statement_is_written_and_read(rt: HostRuntime) {
    assert_eq!(rt; read_statement(&BYTES), Ok(STATEMENT));
    let short = Err(PacketFault::WrongSize);
    let cases = [
        (0, short),
        (18, short),
        (19, Ok(19)),
        (20, Ok(19)),
        (30, Ok(19)),
    ];
    for (long, answer) in cases {
        assert!(rt; long <= 30);
        let mut output = [BEFORE; 30];
        assert_eq!(rt; write_statement(&STATEMENT, &mut output[..long]), answer);
        let written = answer.unwrap_or(0);
        assert!(rt; written <= 19);
        assert_eq!(rt; &output[..written], &BYTES[..written]);
        assert_eq!(rt; &output[written..], &[BEFORE; 30][written..]);
    }
}

#[test]
fn the_ends_are_written_and_read(rt: HostRuntime) {
    let cases = [
        (SMALL, SMALL_BYTES.as_slice()),
        (WIDE, &WIDE_BYTES),
        (LONGEST, &LONGEST_BYTES),
    ];
    for (figures, bytes) in cases {
        let size = bytes.len();
        assert!(rt; 1 <= size && size <= 92);
        assert_eq!(rt; read_statement(bytes), Ok(figures));
        let mut output = [BEFORE; 95];
        assert_eq!(rt;
            write_statement(&figures, &mut output[..size - 1]),
            Err(PacketFault::WrongSize)
        );
        assert_eq!(rt; write_statement(&figures, &mut output), Ok(size));
        assert_eq!(rt; &output[..size], bytes);
        assert_eq!(rt; &output[size..], &[BEFORE; 95][size..]);
    }
}

// Figures that no packet can hold, and the place of the first of them; an output with no room is no reason to say otherwise.
#[test]
fn figures_that_no_packet_holds(rt: HostRuntime) {
    let cases = [
        (
            StatementFigures {
                state: 2,
                agent: 0,
                ..STATEMENT
            },
            0,
        ),
        (
            StatementFigures {
                state: u32::MAX,
                ..STATEMENT
            },
            0,
        ),
        (
            StatementFigures {
                agent: 0,
                balance: 0,
                ..STATEMENT
            },
            1,
        ),
        (
            StatementFigures {
                agent: 65,
                ..STATEMENT
            },
            1,
        ),
        (
            StatementFigures {
                balance: -583_640,
                ..STATEMENT
            },
            10,
        ),
        (
            StatementFigures {
                balance: -583_642,
                ..STATEMENT
            },
            10,
        ),
        (
            StatementFigures {
                power: 0,
                ..STATEMENT
            },
            10,
        ),
        (
            StatementFigures {
                agent: u32::MAX,
                ..LONGEST
            },
            1,
        ),
        (
            StatementFigures {
                balance: 1,
                ..SMALL
            },
            6,
        ),
        (
            StatementFigures {
                balance: 4_611_686_018_427_387_904,
                ..LONGEST
            },
            42,
        ),
        (
            StatementFigures {
                balance: i64::MAX,
                ..WIDE
            },
            15,
        ),
        (
            StatementFigures {
                overcost: -1,
                ..WIDE
            },
            15,
        ),
    ];
    for (figures, place) in cases {
        let mut output = [BEFORE; 50];
        assert_eq!(rt;
            write_statement(&figures, &mut output),
            Err(PacketFault::Bytes(ByteFault::Malformed(place)))
        );
        assert_eq!(rt; output, [BEFORE; 50]);
        assert_eq!(rt;
            write_statement(&figures, &mut []),
            Err(PacketFault::Bytes(ByteFault::Malformed(place)))
        );
    }
}
