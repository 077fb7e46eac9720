//! Pools of four and of two agents, their postings and contracts, and audits of lists of calls on the larger over a Monday.
use crate::desk::{Audited, Desk, Step, calls_of, monday};
use book::{Agent, Line};
use forms::{Contract, Delivery};
use std::alloc::Global;
use std::test::Fail;

const GENERATOR: Agent = Agent {
    role: 1,
    capacity: 4_000_000,
    power: 2,
};

const DISTRIBUTOR: Agent = Agent {
    role: 2,
    capacity: 4_000_000,
    power: 0,
};

const CONSUMER: Agent = Agent {
    role: 3,
    capacity: 0,
    power: 0,
};

const SMALL_GENERATOR: Agent = Agent {
    role: 1,
    capacity: 500,
    power: 0,
};

/// A generator with 2 kW of power, a distributor, a large consumer and another generator.
pub(crate) const AGENTS: [Agent; 4] = [GENERATOR, DISTRIBUTOR, CONSUMER, SMALL_GENERATOR];

/// A line of an agent that does nothing.
pub(crate) const IDLE: Line = Line {
    class: 1,
    cause: 0,
    injected: 0,
    withdrawn: 0,
    gross: 0,
    factor: 100_000,
    cost: 0,
};

/// Nobody does anything.
pub(crate) const QUIET: [Line; 4] = [IDLE; 4];

/// Agent 1 injects 1,000 kWh, agent 2 withdraws 600 and agent 3 withdraws 370.
pub(crate) const TRADE: [Line; 4] = [
    Line {
        injected: 1_000,
        factor: 95_000,
        ..IDLE
    },
    Line {
        withdrawn: 600,
        factor: 102_000,
        ..IDLE
    },
    Line {
        withdrawn: 370,
        ..IDLE
    },
    IDLE,
];

/// Agent 1 is obligated to run at a cost above the price, and agent 2 carries the excess.
pub(crate) const OBLIGATED: [Line; 4] = [
    Line {
        class: 2,
        injected: 95,
        gross: 100,
        cost: 80_000,
        ..IDLE
    },
    Line {
        withdrawn: 90,
        ..IDLE
    },
    IDLE,
    IDLE,
];

/// A generator and a distributor.
pub(crate) const PAIR: [Agent; 2] = [
    Agent {
        role: 1,
        capacity: 4_000_000,
        power: 0,
    },
    Agent {
        role: 2,
        capacity: 4_000_000,
        power: 0,
    },
];

/// The generator injects 1,000 kWh at factor 95,000, and the distributor withdraws 970 at 102,000.
pub(crate) const PLAIN: [Line; 2] = [
    Line {
        injected: 1_000,
        factor: 95_000,
        ..IDLE
    },
    Line {
        withdrawn: 970,
        factor: 102_000,
        ..IDLE
    },
];

/// A block of 100 kWh in every band at the market bar, from agent 1 to agent 2, for the hours 5 to 8.
pub(crate) const BLOCK: Contract = Contract {
    delivery: Delivery::MarketBar,
    kind: 1,
    seller: 1,
    buyer: 2,
    first: 5,
    last: 8,
    price: 50_000,
    peak: 100,
    medium: 100,
    base: 100,
    margin: 0,
};

/// The same from agent 2 to agent 3.
pub(crate) const RESOLD: Contract = Contract {
    seller: 2,
    buyer: 3,
    ..BLOCK
};

/// A share of what agent 1 injects, for agent 2, in the hours of the block.
pub(crate) const SHARE: Contract = Contract {
    kind: 2,
    peak: 0,
    medium: 0,
    base: 0,
    ..BLOCK
};

/// Audits a list of calls on the pool of four.
pub(crate) fn audited(heap: Global, steps: &[Step<'_>]) -> Result<Audited, Fail> {
    let calls = calls_of(heap, steps)?;
    let mut desk = Desk::new(heap, &AGENTS, calls.len())?;
    match desk.audit(monday(&AGENTS), &calls) {
        Ok(report) => Ok(Audited { report, desk }),
        Err(_) => Err(Fail::new("the audit is refused")),
    }
}
