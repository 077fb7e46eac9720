//! Memory for a book of five agents and one day, with a place more of each kind, and what is done on it.
use book::{
    Agent, BookFault, ClosedMonth, Holding, Ledger, Line, MonthFigures, OpenMonth, Pool, Posting,
    Statement, close, final_statement, open, post, post_packet, provisional, withdraw,
};
use calendar::Calendar;
use forms::{Contract, Delivery, Product};
use tally::{Energy, Money, Pair, Tally};

/// How much of the memory is lent to the call.
#[derive(Clone, Copy)]
pub(crate) struct Sizes {
    pub(crate) agents: usize,
    pub(crate) accounts: usize,
    pub(crate) contracts: usize,
    pub(crate) marks: usize,
    pub(crate) entries: usize,
}

/// The sizes that a book of five agents and one day has.
pub(crate) const RIGHT: Sizes = Sizes {
    agents: 5,
    accounts: 5,
    contracts: 64,
    marks: 24,
    entries: 120,
};

/// Five agents, one day, from a Sunday on.
const FIGURES: MonthFigures = MonthFigures {
    agents: 5,
    days: 1,
    calendar: Calendar { weekday: 6 },
};

/// A generator at every limit.
pub(crate) const GENERATOR: Agent = Agent {
    role: 1,
    capacity: 4_000_000,
    power: 1_000_000,
};

pub(crate) const DISTRIBUTOR: Agent = Agent {
    role: 2,
    capacity: 100,
    power: 0,
};

const CONSUMER: Agent = Agent {
    role: 3,
    capacity: 0,
    power: 0,
};

const SMALL_GENERATOR: Agent = Agent {
    role: 1,
    capacity: 0,
    power: 0,
};

/// A line of an agent that does nothing.
pub(crate) const IDLE: Line = Line {
    class: 1,
    cause: 0,
    injected: 0,
    withdrawn: 0,
    gross: 0,
    factor: 100_000,
    cost: 0,
};

/// A generator's injection, a distributor's withdrawal, and three agents that do nothing.
pub(crate) const LINES: [Line; 5] = [
    Line {
        injected: 1_000,
        factor: 95_000,
        ..IDLE
    },
    Line {
        withdrawn: 970,
        factor: 102_000,
        ..IDLE
    },
    IDLE,
    IDLE,
    IDLE,
];

/// A block of 100 kWh in every band at the market bar, from agent 1 to agent 2, for three hours of the day.
pub(crate) const BLOCK: Contract = Contract {
    delivery: Delivery::MarketBar,
    kind: 1,
    seller: 1,
    buyer: 2,
    first: 5,
    last: 7,
    price: 50_000,
    peak: 100,
    medium: 100,
    base: 100,
    margin: 0,
};

/// A share of what agent 1 injects, for agent 2, in the hours of the block.
pub(crate) const SHARE: Contract = Contract {
    kind: 2,
    peak: 0,
    medium: 0,
    base: 0,
    ..BLOCK
};

/// All memory of the book, with a place more of each kind.
#[derive(Clone, Copy, PartialEq, Eq)]
pub(crate) struct Memory {
    pub(crate) agents: [Agent; 6],
    pub(crate) accounts: [Holding; 6],
    pub(crate) contracts: [Option<Contract>; 65],
    pub(crate) marks: [u8; 25],
    pub(crate) entries: [Holding; 121],
}

/// What the memory lends to a call.
#[derive(Drop)]
pub(crate) struct Loan<'m> {
    pub(crate) agents: &'m [Agent],
    pub(crate) contracts: &'m mut [Option<Contract>],
    pub(crate) ledger: Ledger<'m>,
}

/// A refusal, by its number and place.
#[derive(Clone, Copy, PartialEq, Eq, Debug)]
pub(crate) struct Refusal {
    pub(crate) number: u32,
    pub(crate) place: u32,
}

impl From<BookFault> for Refusal {
    fn from(fault: BookFault) -> Refusal {
        Refusal {
            number: fault.number(),
            place: fault.place(),
        }
    }
}

/// How a call was answered.
pub(crate) type Told = Result<(), Refusal>;

pub(crate) const ACCEPTED: Told = Ok(());

/// The answer of a call that is refused.
pub(crate) fn refused(number: u32, place: u32) -> Told {
    Err(Refusal { number, place })
}

/// A holding of energies alone.
pub(crate) fn energy_alone(injected: u64, withdrawn: u64) -> Holding {
    Pair {
        first: Money::neutral(),
        second: Energy {
            injected,
            withdrawn,
        },
    }
}

impl Memory {
    /// Memory of a book that is not opened yet.
    pub(crate) fn new() -> Memory {
        let nothing: Holding = Pair::neutral();
        Memory {
            agents: [
                GENERATOR,
                DISTRIBUTOR,
                CONSUMER,
                DISTRIBUTOR,
                SMALL_GENERATOR,
                DISTRIBUTOR,
            ],
            accounts: [nothing; 6],
            contracts: [None; 65],
            marks: [1u8; 25],
            entries: [nothing; 121],
        }
    }

    /// Sets the marks of hours.
    pub(crate) fn mark(&mut self, hours: &[usize], new: u8) {
        for hour in hours {
            if let Some(mark) = self.marks.get_mut(*hour) {
                *mark = new;
            }
        }
    }

    /// So much of it, lent to a call.
    pub(crate) fn lend(&mut self, sizes: Sizes) -> Loan<'_> {
        let Memory {
            agents,
            accounts,
            contracts,
            marks,
            entries,
        } = self;
        Loan {
            agents: &agents[0..sizes.agents.min(6)],
            contracts: &mut contracts[0..sizes.contracts.min(65)],
            ledger: Ledger {
                accounts: &mut accounts[0..sizes.accounts.min(6)],
                marks: &mut marks[0..sizes.marks.min(25)],
                entries: &mut entries[0..sizes.entries.min(121)],
            },
        }
    }
}

/// Opens the book on so much of its memory.
pub(crate) fn open_on(memory: &mut Memory, sizes: Sizes) -> Result<OpenMonth, BookFault> {
    let Loan {
        agents,
        contracts,
        mut ledger,
    } = memory.lend(sizes);
    open(FIGURES, agents, contracts, &mut ledger)
}

/// Posts an hour in a book that is open.
pub(crate) fn post_on(memory: &mut Memory, month: &OpenMonth, posting: &Posting<'_>) -> Told {
    let Loan {
        agents,
        contracts,
        mut ledger,
    } = memory.lend(RIGHT);
    let pool = Pool { agents, contracts };
    post(month, &Product, posting, &pool, &mut ledger)?;
    Ok(())
}

/// Posts an hour by packet in a book that is open.
pub(crate) fn post_packet_on(memory: &mut Memory, month: &OpenMonth, bytes: &[u8]) -> Told {
    let Loan {
        agents,
        contracts,
        mut ledger,
    } = memory.lend(RIGHT);
    let pool = Pool { agents, contracts };
    post_packet(month, &Product, bytes, &pool, &mut ledger)?;
    Ok(())
}

/// Withdraws an hour in a book that is open.
pub(crate) fn withdraw_on(memory: &mut Memory, month: &OpenMonth, hour: u32) -> Told {
    let Loan {
        agents,
        contracts,
        mut ledger,
    } = memory.lend(RIGHT);
    let pool = Pool { agents, contracts };
    withdraw(month, &Product, hour, &pool, &mut ledger)?;
    Ok(())
}

/// The provisional statement of an agent.
pub(crate) fn state_on(
    memory: &mut Memory,
    month: &OpenMonth,
    agent: u32,
) -> Result<Statement, Refusal> {
    let Loan {
        agents,
        contracts,
        ledger,
    } = memory.lend(RIGHT);
    let pool = Pool { agents, contracts };
    Ok(provisional(month, &Product, agent, &ledger.view(&pool))?)
}

/// Closes the month on so much of its memory.
pub(crate) fn close_on(
    memory: &mut Memory,
    month: OpenMonth,
    sizes: Sizes,
) -> Result<ClosedMonth, (OpenMonth, BookFault)> {
    let Loan {
        agents,
        contracts,
        mut ledger,
    } = memory.lend(sizes);
    let pool = Pool { agents, contracts };
    close(month, &Product, &pool, &mut ledger)
}

/// Closes the month on so much of its memory, and gives it up.
pub(crate) fn close_and_retire(memory: &mut Memory, month: OpenMonth, sizes: Sizes) -> Told {
    match close_on(memory, month, sizes) {
        Ok(closed) => {
            let _ = closed.retire();
            Ok(())
        }
        Err((open, fault)) => {
            let _ = open.retire();
            Err(fault.into())
        }
    }
}

/// The final statement of an agent, on so much of the memory.
pub(crate) fn state_finally_on(
    memory: &mut Memory,
    month: &ClosedMonth,
    sizes: Sizes,
    agent: u32,
) -> Result<Statement, Refusal> {
    let Loan {
        agents,
        contracts,
        ledger,
    } = memory.lend(sizes);
    let pool = Pool { agents, contracts };
    Ok(final_statement(month, &Product, agent, &ledger.view(&pool))?)
}
