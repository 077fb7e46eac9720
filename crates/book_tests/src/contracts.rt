//! Contracts entered in a book and cancelled.
use crate::desk::{
    ACCEPTED, BLOCK, DISTRIBUTOR, GENERATOR, Loan, Memory, RIGHT, Refusal, SHARE, Told, open_on,
    refused,
};
use book::{BookFault, NumberedContract, OpenMonth, cancel, enter};
use forms::{Contract, Product};
use settlement::Admission;
use std::process::Abort;

/// Enters a contract.
fn enter_in(
    memory: &mut Memory,
    month: &OpenMonth,
    numbered: NumberedContract,
) -> Result<(), BookFault> {
    let Loan {
        agents,
        contracts,
        ledger,
    } = memory.lend(RIGHT);
    enter(month, &Product, numbered, agents, contracts, &ledger)
}

/// Cancels the contract under a number.
fn cancel_in(memory: &mut Memory, month: &OpenMonth, number: u32) -> Result<(), BookFault> {
    let Loan {
        agents,
        contracts,
        ledger,
    } = memory.lend(RIGHT);
    cancel(month, &Product, number, agents, contracts, &ledger)
}

/// Enters a contract. A refusal leaves all memory as it was.
fn enter_on(
    rt: &impl Abort,
    memory: &mut Memory,
    month: &OpenMonth,
    number: u32,
    contract: Contract,
) -> Told {
    let before = *memory;
    let said = enter_in(memory, month, NumberedContract { number, contract });
    assert!(rt; said.is_ok() || *memory == before, "at number {number}");
    Ok(said?)
}

/// Cancels the contract under a number. A refusal leaves all memory as it was.
fn cancel_on(rt: &impl Abort, memory: &mut Memory, month: &OpenMonth, number: u32) -> Told {
    let before = *memory;
    let said = cancel_in(memory, month, number);
    assert!(rt; said.is_ok() || *memory == before, "at number {number}");
    Ok(said?)
}

/// Enters a contract in a book in which these hours are posted and the block stands under number 9.
fn entered(rt: &impl Abort, posted: &[usize], number: u32, contract: Contract) -> Told {
    let mut memory = Memory::new();
    let month = open_on(&mut memory, RIGHT)?;
    memory.contracts[8] = Some(BLOCK);
    memory.mark(posted, 1);
    let told = enter_on(rt, &mut memory, &month, number, contract);
    let _ = month.retire();
    told
}

// Parties by number: agents 1 and 5 are generators, 2 and 4 distributors, 3 a large consumer.

/// Sellers and buyers that may contract.
const RIGHT_PARTIES: [(u32, u32); 3] = [(1, 2), (1, 3), (2, 3)];

/// Those that may not: unknown ones, roles that do not go together, and an agent with itself.
const WRONG_PARTIES: [(u32, u32); 14] = [
    (0, 2),
    (6, 2),
    (1, 0),
    (1, 6),
    (u32::MAX, 2),
    (1, u32::MAX),
    (1, 1),
    (2, 2),
    (3, 3),
    (1, 5),
    (2, 1),
    (2, 4),
    (3, 1),
    (3, 2),
];

/// First and last hours that a contract may have.
const RIGHT_HOURS: [(u32, u32); 3] = [(0, 0), (0, 23), (23, 23)];

/// Those that it may not.
const WRONG_HOURS: [(u32, u32); 6] = [
    (23, 22),
    (0, 24),
    (24, 24),
    (0, 744),
    (u32::MAX, 23),
    (0, u32::MAX),
];

/// Terms that are taken.
const RIGHT_TERMS: [Contract; 6] = [
    Contract {
        price: 2_000_000,
        ..BLOCK
    },
    Contract {
        peak: 4_000_000,
        medium: 4_000_000,
        base: 4_000_000,
        ..BLOCK
    },
    Contract {
        seller: 2,
        buyer: 3,
        ..BLOCK
    },
    SHARE,
    Contract { buyer: 4, ..SHARE },
    Contract {
        margin: 4_000_000,
        ..SHARE
    },
];

/// Blocks that may not stand: agent 1 sells up to 4,000,000 kWh in an hour, agent 2 up to 100.
const WRONG_BLOCKS: [Contract; 11] = [
    Contract { kind: 0, ..BLOCK },
    Contract { kind: 3, ..BLOCK },
    Contract { margin: 1, ..BLOCK },
    Contract {
        price: 2_000_001,
        ..BLOCK
    },
    Contract {
        price: u32::MAX,
        ..BLOCK
    },
    Contract {
        peak: 4_000_001,
        ..BLOCK
    },
    Contract {
        medium: 4_000_001,
        ..BLOCK
    },
    Contract {
        base: 4_000_001,
        ..BLOCK
    },
    Contract {
        seller: 2,
        buyer: 3,
        peak: 101,
        ..BLOCK
    },
    Contract {
        seller: 2,
        buyer: 3,
        medium: 101,
        ..BLOCK
    },
    Contract {
        seller: 2,
        buyer: 3,
        base: 101,
        ..BLOCK
    },
];

/// Shares that may not stand.
const WRONG_SHARES: [Contract; 7] = [
    Contract { peak: 1, ..SHARE },
    Contract { medium: 1, ..SHARE },
    Contract { base: 1, ..SHARE },
    Contract { buyer: 3, ..SHARE },
    Contract {
        seller: 2,
        buyer: 3,
        ..SHARE
    },
    Contract {
        margin: 4_000_001,
        ..SHARE
    },
    Contract {
        price: 2_000_001,
        ..SHARE
    },
];

/// Enters a contract under number 1 in a book in which no hour is posted, and compares the answer.
fn try_contract(rt: &impl Abort, contract: Contract, told: Told) {
    assert_eq!(rt; entered(rt, &[], 1, contract), told, "{contract:?}");
}

/// The block between these parties.
fn between((seller, buyer): (u32, u32)) -> Contract {
    Contract {
        seller,
        buyer,
        ..BLOCK
    }
}

/// The block for these hours.
fn during((first, last): (u32, u32)) -> Contract {
    Contract {
        first,
        last,
        ..BLOCK
    }
}

#[test]
fn contracts_that_are_taken(rt: HostRuntime) {
    for parties in RIGHT_PARTIES {
        try_contract(&rt, between(parties), ACCEPTED);
    }
    for hours in RIGHT_HOURS {
        try_contract(&rt, during(hours), ACCEPTED);
    }
    for terms in RIGHT_TERMS {
        try_contract(&rt, terms, ACCEPTED);
    }
}

#[test]
fn contracts_that_are_refused(rt: HostRuntime) {
    for parties in WRONG_PARTIES {
        try_contract(&rt, between(parties), refused(13, 0));
    }
    for hours in WRONG_HOURS {
        try_contract(&rt, during(hours), refused(13, 0));
    }
    for terms in WRONG_BLOCKS {
        try_contract(&rt, terms, refused(13, 0));
    }
    for terms in WRONG_SHARES {
        try_contract(&rt, terms, refused(13, 0));
    }
}

/// Whether the block may stand from hour 5 to this one, where there are so many hours: asked alone, and as what is in a place.
fn stands_until(hours: u32, last: u32) -> [bool; 3] {
    let agents = [GENERATOR, DISTRIBUTOR];
    let admission = Admission {
        form: &Product,
        hours,
        agents: &agents,
    };
    let contract = Contract { last, ..BLOCK };
    [
        admission.check_contract(contract).is_ok(),
        admission.may_stand(contract),
        admission.may_all_stand(&[None, Some(contract)]),
    ]
}

// How many hours there are, whole days or not, the last one of the contract, and whether it may stand: in no month after hour 743.
#[test]
fn contracts_and_any_number_of_hours(rt: HostRuntime) {
    let cases = [
        (0, 5, false),
        (5, 5, false),
        (6, 5, true),
        (25, 24, true),
        (25, 25, false),
        (100, 99, true),
        (100, 100, false),
        (744, 743, true),
        (744, 744, false),
        (1_000, 743, true),
        (1_000, 744, false),
        (u32::MAX, 743, true),
        (u32::MAX, 744, false),
        (u32::MAX, u32::MAX, false),
    ];
    for (hours, last, stands) in cases {
        assert_eq!(rt;
            stands_until(hours, last),
            [stands; 3],
            "{hours} hours, until hour {last}"
        );
    }
}

// The hours that are posted, the number, the contract and the answer. A refused number comes before terms, and terms before covered hours; the
// block is for hours 5 to 7.
#[test]
fn numbers_and_covered_hours_at_entry(rt: HostRuntime) {
    let wrong = Contract { kind: 3, ..BLOCK };
    let cases: [(&[usize], u32, Contract, Told); 20] = [
        (&[], 0, BLOCK, refused(12, 0)),
        (&[], 1, BLOCK, ACCEPTED),
        (&[], 8, BLOCK, ACCEPTED),
        (&[], 9, BLOCK, refused(12, 0)),
        (&[], 10, BLOCK, ACCEPTED),
        (&[], 64, BLOCK, ACCEPTED),
        (&[], 65, BLOCK, refused(12, 0)),
        (&[], u32::MAX, BLOCK, refused(12, 0)),
        (&[4], 1, BLOCK, ACCEPTED),
        (&[5], 1, BLOCK, refused(14, 5)),
        (&[6], 1, BLOCK, refused(14, 6)),
        (&[7], 1, BLOCK, refused(14, 7)),
        (&[8], 1, BLOCK, ACCEPTED),
        (&[4, 6, 7, 8], 1, BLOCK, refused(14, 6)),
        (&[0, 1, 2, 3, 4, 8, 9, 23], 1, BLOCK, ACCEPTED),
        (&[5, 6, 7], 65, wrong, refused(12, 0)),
        (&[5, 6, 7], 9, wrong, refused(12, 0)),
        (&[5, 6, 7], 9, BLOCK, refused(12, 0)),
        (&[5, 6, 7], 1, wrong, refused(13, 0)),
        (&[5, 6, 7], 1, BLOCK, refused(14, 5)),
    ];
    for (posted, number, contract, told) in cases {
        assert_eq!(rt;
            entered(&rt, posted, number, contract),
            told,
            "number {number}, posted {posted:?}"
        );
    }
}

/// Cancels what is under a number in a book in which these hours are posted and the block stands under numbers 1, 9 and 64.
fn cancelled(rt: &impl Abort, posted: &[usize], number: u32) -> Told {
    let mut memory = Memory::new();
    let month = open_on(&mut memory, RIGHT)?;
    for place in [0, 8, 63] {
        memory.contracts[place] = Some(BLOCK);
    }
    memory.mark(posted, 1);
    let told = cancel_on(rt, &mut memory, &month, number);
    let _ = month.retire();
    told
}

// The hours that are posted, the number and the answer.
#[test]
fn numbers_and_covered_hours_at_cancelling(rt: HostRuntime) {
    let cases: [(&[usize], u32, Told); 14] = [
        (&[4, 8], 0, refused(12, 0)),
        (&[4, 8], 1, ACCEPTED),
        (&[4, 8], 2, refused(12, 0)),
        (&[4, 8], 9, ACCEPTED),
        (&[4, 8], 63, refused(12, 0)),
        (&[4, 8], 64, ACCEPTED),
        (&[4, 8], 65, refused(12, 0)),
        (&[4, 8], u32::MAX, refused(12, 0)),
        (&[4], 1, ACCEPTED),
        (&[5], 1, refused(14, 5)),
        (&[7], 1, refused(14, 7)),
        (&[8], 1, ACCEPTED),
        (&[4, 6, 7, 8], 1, refused(14, 6)),
        (&[5, 6, 7], 2, refused(12, 0)),
    ];
    for (posted, number, told) in cases {
        assert_eq!(rt;
            cancelled(&rt, posted, number),
            told,
            "number {number}, posted {posted:?}"
        );
    }
}

#[test]
fn a_cancelled_number_is_free_again(rt: HostRuntime) -> Result<(), Refusal> {
    let mut memory = Memory::new();
    let month = open_on(&mut memory, RIGHT)?;
    let empty = memory;
    assert_eq!(rt; enter_on(&rt, &mut memory, &month, 3, BLOCK), ACCEPTED);
    assert_eq!(rt; memory.contracts[2], Some(BLOCK));
    assert_eq!(rt;
        enter_on(&rt, &mut memory, &month, 3, SHARE),
        refused(12, 0)
    );
    assert_eq!(rt; cancel_on(&rt, &mut memory, &month, 3), ACCEPTED);
    assert!(rt; memory == empty);
    assert_eq!(rt; cancel_on(&rt, &mut memory, &month, 3), refused(12, 0));
    assert_eq!(rt; enter_on(&rt, &mut memory, &month, 3, SHARE), ACCEPTED);
    assert_eq!(rt; memory.contracts[2], Some(SHARE));
    let _ = month.retire();
    Ok(())
}
