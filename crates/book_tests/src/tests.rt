use crate::days::day_of;
use crate::desk::{ACCEPTED, BLOCK, RIGHT, Refusal, SHARE, Sizes, Told};
use crate::trials::{Damage, LAST_HOUR, Trial, opened, opened_over, tried};
use book::{Agent, BookFault, LineFault};
use forms::Contract;
use packets::ByteFault;
use std::process::Abort;
use std::test::Fail;
use tally::Energy;

const CALLS: [Trial<'static>; 9] = [
    Trial::Post,
    Trial::Packet(&LAST_HOUR),
    Trial::Withdraw,
    Trial::Enter,
    Trial::Cancel,
    Trial::Close,
    Trial::Statement,
    Trial::Final,
    Trial::Day,
];

const WRONG_SIZE: Told = Err(Refusal {
    number: 1,
    place: 0,
});

/// The answer for a day or an agent that the book does not have.
const OUTSIDE_BOOK: Result<Energy, Refusal> = Err(Refusal {
    number: 3,
    place: 0,
});

const STORED: Told = Err(Refusal {
    number: 2,
    place: 0,
});

/// One place too few or too many of each part of the memory.
const WRONG_SIZES: [Sizes; 10] = [
    Sizes { agents: 4, ..RIGHT },
    Sizes { agents: 6, ..RIGHT },
    Sizes {
        accounts: 4,
        ..RIGHT
    },
    Sizes {
        accounts: 6,
        ..RIGHT
    },
    Sizes {
        contracts: 63,
        ..RIGHT
    },
    Sizes {
        contracts: 65,
        ..RIGHT
    },
    Sizes { marks: 23, ..RIGHT },
    Sizes { marks: 25, ..RIGHT },
    Sizes {
        entries: 119,
        ..RIGHT
    },
    Sizes {
        entries: 121,
        ..RIGHT
    },
];

/// Each call answers so on this much of the memory, with this figure damaged.
fn try_calls(rt: &impl Abort, sizes: Sizes, damage: Option<Damage>, told: Told) {
    for trial in CALLS {
        assert_eq!(rt; tried(rt, sizes, damage, trial), told);
    }
}

// A wrong size is answered before a stored figure.
#[test]
fn memory_of_any_size(rt: HostRuntime) {
    assert_eq!(rt; opened(RIGHT), ACCEPTED);
    try_calls(&rt, RIGHT, None, ACCEPTED);
    for sizes in WRONG_SIZES {
        assert_eq!(rt; opened(sizes), WRONG_SIZE);
        try_calls(&rt, sizes, None, WRONG_SIZE);
    }
    let small = Sizes { marks: 23, ..RIGHT };
    try_calls(&rt, small, Some(Damage::LastMark(2)), WRONG_SIZE);
}

/// Figures just outside their limits.
const OUTSIDE: [Damage; 11] = [
    Damage::LastAgent(Agent {
        role: 0,
        capacity: 0,
        power: 0,
    }),
    Damage::LastAgent(Agent {
        role: 4,
        capacity: 0,
        power: 0,
    }),
    Damage::LastAgent(Agent {
        role: 2,
        capacity: 4_000_001,
        power: 0,
    }),
    Damage::LastAgent(Agent {
        role: 1,
        capacity: 0,
        power: 1_000_001,
    }),
    Damage::LastAgent(Agent {
        role: 3,
        capacity: 0,
        power: 1,
    }),
    Damage::LastMark(2),
    Damage::LastEntry {
        injected: 4_000_001,
        withdrawn: 0,
    },
    Damage::LastEntry {
        injected: 0,
        withdrawn: 4_000_001,
    },
    Damage::Accounts {
        injected: 2_976_000_001,
        first: 0,
        second: 0,
    },
    Damage::Accounts {
        injected: 0,
        first: 2_976_000_001,
        second: 0,
    },
    Damage::Accounts {
        injected: 0,
        first: 2_976_000_000,
        second: 1,
    },
];

/// Figures at their limits.
const WITHIN: [Damage; 5] = [
    Damage::LastAgent(Agent {
        role: 1,
        capacity: 4_000_000,
        power: 1_000_000,
    }),
    Damage::LastAgent(Agent {
        role: 3,
        capacity: 4_000_000,
        power: 0,
    }),
    Damage::LastMark(1),
    Damage::LastEntry {
        injected: 4_000_000,
        withdrawn: 4_000_000,
    },
    Damage::Accounts {
        injected: 2_976_000_000,
        first: 2_975_999_999,
        second: 1,
    },
];

#[test]
fn stored_figures_and_their_limits(rt: HostRuntime) {
    for damage in OUTSIDE {
        try_calls(&rt, RIGHT, Some(damage), STORED);
    }
    for damage in WITHIN {
        try_calls(&rt, RIGHT, Some(damage), ACCEPTED);
    }
}

/// Contracts that may not stand, those of a generator and of a distributor with itself among them.
const WRONG_CONTRACTS: [Contract; 15] = [
    Contract { buyer: 1, ..BLOCK },
    Contract { seller: 2, ..BLOCK },
    Contract { seller: 0, ..BLOCK },
    Contract { seller: 6, ..BLOCK },
    Contract { buyer: 0, ..BLOCK },
    Contract { buyer: 6, ..BLOCK },
    Contract { buyer: 5, ..BLOCK },
    Contract { first: 8, ..BLOCK },
    Contract { last: 24, ..BLOCK },
    Contract {
        price: 2_000_001,
        ..BLOCK
    },
    Contract { kind: 3, ..BLOCK },
    Contract { margin: 1, ..BLOCK },
    Contract {
        seller: 2,
        buyer: 3,
        peak: 101,
        ..BLOCK
    },
    Contract { base: 1, ..SHARE },
    Contract { buyer: 3, ..SHARE },
];

/// Contracts that may stand.
const RIGHT_CONTRACTS: [Contract; 3] = [
    Contract {
        first: 0,
        last: 23,
        price: 2_000_000,
        peak: 4_000_000,
        ..BLOCK
    },
    Contract {
        seller: 2,
        buyer: 3,
        ..BLOCK
    },
    Contract {
        buyer: 4,
        margin: 4_000_000,
        ..SHARE
    },
];

#[test]
fn stored_contracts(rt: HostRuntime) {
    for contract in WRONG_CONTRACTS {
        try_calls(&rt, RIGHT, Some(Damage::LastContract(contract)), STORED);
    }
    for contract in RIGHT_CONTRACTS {
        try_calls(&rt, RIGHT, Some(Damage::LastContract(contract)), ACCEPTED);
    }
}

#[test]
fn an_opening_takes_any_stored_contract_and_mark(rt: HostRuntime) {
    assert_eq!(rt; opened_over(Damage::LastMark(2)), ACCEPTED);
    for contract in WRONG_CONTRACTS {
        assert_eq!(rt; opened_over(Damage::LastContract(contract)), ACCEPTED);
    }
}

/// The energies of a day.
fn energy(injected: u64, withdrawn: u64) -> Result<Energy, Refusal> {
    Ok(Energy {
        injected,
        withdrawn,
    })
}

// An agent and a day, and what the day comes to: of the hours posted, its own first and last alone.
#[test]
fn days_are_totals_of_their_own_hours(rt: HostRuntime) {
    let cases = [
        (1, 1, energy(42, 0)),
        (2, 1, energy(0, 21)),
        (1, 2, energy(8_600, 0)),
        (2, 2, energy(0, 4_300)),
        (0, 1, OUTSIDE_BOOK),
        (3, 1, OUTSIDE_BOOK),
        (u32::MAX, 1, OUTSIDE_BOOK),
        (1, 0, OUTSIDE_BOOK),
        (2, 3, OUTSIDE_BOOK),
        (1, u32::MAX, OUTSIDE_BOOK),
    ];
    for (agent, day, total) in cases {
        assert_eq!(rt; day_of(agent, day), total, "agent {agent}, day {day}");
    }
}

/// Each fault, in words.
const FAULT_WORDS: [(BookFault, &str); 15] = [
    (BookFault::WrongSize, "memory of the wrong size"),
    (
        BookFault::StoredOutside,
        "a stored figure is outside its limit",
    ),
    (
        BookFault::OutsideBook,
        "a figure of the opening or the statement's agent is outside the book's limits",
    ),
    (
        BookFault::Posting(LineFault::Packet(ByteFault::Malformed(49))),
        "no number that the format allows starts at byte 49, or bytes are left over from there on",
    ),
    (
        BookFault::Posting(LineFault::HourOutside(24)),
        "the hour is outside the month",
    ),
    (
        BookFault::Posting(LineFault::OutsideLimit(1)),
        "the line count, the price or a figure of the line is outside its limit",
    ),
    (
        BookFault::Posting(LineFault::BreaksRule(1)),
        "the line breaks a rule on class, cause, gross or cost",
    ),
    (
        BookFault::Posting(LineFault::TooMuchTogether),
        "all injected or all withdrawn energy together is above the limit",
    ),
    (
        BookFault::NoCarrier,
        "obligated excess and no withdrawn energy carries it",
    ),
    (BookFault::FreeHour(3), "the hour is free"),
    (BookFault::MissingHour(3), "an hour of the month is missing"),
    (
        BookFault::NoPowerCarrier,
        "power is due and no withdrawn energy carries it",
    ),
    (
        BookFault::ContractNumber,
        "the contract number is outside 1 to 64, taken or not standing",
    ),
    (
        BookFault::ContractTerms,
        "the contract's parties, hours, figures or terms do not fit",
    ),
    (BookFault::CoveredHour(3), "a covered hour stands"),
];

#[test]
fn faults_are_told_in_words(rt: HostRuntime) -> Result<(), Fail> {
    for (fault, words) in FAULT_WORDS {
        assert_eq!(rt; fault.to_string(rt.alloc())?.as_str(), words);
    }
    Ok(())
}
