//! A book of two agents and two days: its days, and packets that are posted to it.
use crate::desk::{DISTRIBUTOR, GENERATOR, IDLE, Loan, Refusal, Told};
use book::{
    Agent, BookFault, Holding, Ledger, Line, MonthFigures, OpenMonth, Pool, Posting, day_total,
    open, post, post_packet,
};
use calendar::Calendar;
use forms::{Contract, Product};
use tally::{Energy, Pair, Tally};

/// Two agents, two days, from a Sunday on.
const FIGURES: MonthFigures = MonthFigures {
    agents: 2,
    days: 2,
    calendar: Calendar { weekday: 6 },
};

const AGENTS: [Agent; 2] = [GENERATOR, DISTRIBUTOR];

/// All memory of the book but its agents.
#[derive(Drop)]
struct Memory {
    accounts: [Holding; 2],
    contracts: [Option<Contract>; 64],
    marks: [u8; 48],
    entries: [Holding; 96],
}

impl Memory {
    /// Memory of a book that is not opened yet.
    fn new() -> Memory {
        let nothing: Holding = Pair::neutral();
        Memory {
            accounts: [nothing; 2],
            contracts: [None; 64],
            marks: [0; 48],
            entries: [nothing; 96],
        }
    }

    /// All of it.
    fn lend(&mut self) -> Loan<'_> {
        let Memory {
            accounts,
            contracts,
            marks,
            entries,
        } = self;
        Loan {
            agents: &AGENTS,
            contracts: &mut contracts[..],
            ledger: Ledger {
                accounts: &mut accounts[..],
                marks: &mut marks[..],
                entries: &mut entries[..],
            },
        }
    }
}

/// Posts the first and the last hour of each day, in which the first agent injects twice what the second withdraws.
fn post_two_days(
    month: &OpenMonth,
    pool: &Pool<'_>,
    ledger: &mut Ledger<'_>,
) -> Result<(), BookFault> {
    for (hour, withdrawn) in [(23, 20), (0, 1), (47, 4_000), (24, 300)] {
        let injection = Line {
            injected: 2 * withdrawn,
            ..IDLE
        };
        let withdrawal = Line { withdrawn, ..IDLE };
        let posting = Posting {
            hour,
            price: 50_000,
            lines: &[injection, withdrawal],
        };
        post(month, &Product, &posting, pool, ledger)?;
    }
    Ok(())
}

/// The energies of an agent's day, in a book of two agents and two days.
pub(crate) fn day_of(agent: u32, day: u32) -> Result<Energy, Refusal> {
    let mut memory = Memory::new();
    let Loan {
        agents,
        contracts,
        mut ledger,
    } = memory.lend();
    let month = open(FIGURES, agents, contracts, &mut ledger)?;
    let pool = Pool { agents, contracts };
    let posted = post_two_days(&month, &pool, &mut ledger);
    let total = day_total(&month, &Product, agent, day, &ledger.view(&pool));
    let _ = month.retire();
    posted?;
    Ok(total?.second)
}

/// Posts an hour by packet to a book of two agents and two days.
pub(crate) fn posted_to_two(bytes: &[u8]) -> Told {
    let mut memory = Memory::new();
    let Loan {
        agents,
        contracts,
        mut ledger,
    } = memory.lend();
    let month = open(FIGURES, agents, contracts, &mut ledger)?;
    let pool = Pool { agents, contracts };
    let said = post_packet(&month, &Product, bytes, &pool, &mut ledger);
    let _ = month.retire();
    Ok(said?)
}
