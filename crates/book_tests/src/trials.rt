//! One call on memory of a wrong size, or with a damaged figure.
use crate::desk::{
    BLOCK, IDLE, Loan, Memory, RIGHT, Sizes, Told, close_and_retire, close_on, energy_alone,
    open_on, state_finally_on,
};
use crate::slices::{Host, post_in};
use book::{
    Agent, BookFault, Ledger, Line, NumberedContract, OpenMonth, Pool, Posting, cancel, day_total,
    enter, post_packet, provisional, withdraw,
};
use forms::{Contract, Product};
use std::process::Abort;

/// A stored figure, changed between the opening and the call.
#[derive(Clone, Copy)]
pub(crate) enum Damage {
    LastAgent(Agent),
    LastContract(Contract),
    LastMark(u8),
    LastEntry {
        injected: u64,
        withdrawn: u64,
    },
    Accounts {
        injected: u64,
        first: u64,
        second: u64,
    },
}

/// The call that is tried.
#[derive(Clone, Copy, PartialEq, Eq)]
pub(crate) enum Trial<'a> {
    Post,
    Packet(&'a [u8]),
    Withdraw,
    Enter,
    Cancel,
    Close,
    Statement,
    Final,
    Day,
}

/// A line of ten kilowatt-hours in and out.
const LINE: Line = Line {
    injected: 10,
    withdrawn: 10,
    ..IDLE
};

/// Hour 23 at 50,000, in which each of five agents has that line: the heading, and the lines.
pub(crate) const LAST_HOUR: [u8; 50] = [
    0x17, 0xD0, 0x86, 0x03, 0x05, //
    0x01, 0x00, 0x0A, 0x0A, 0x00, 0xA0, 0x8D, 0x06, 0x00, //
    0x01, 0x00, 0x0A, 0x0A, 0x00, 0xA0, 0x8D, 0x06, 0x00, //
    0x01, 0x00, 0x0A, 0x0A, 0x00, 0xA0, 0x8D, 0x06, 0x00, //
    0x01, 0x00, 0x0A, 0x0A, 0x00, 0xA0, 0x8D, 0x06, 0x00, //
    0x01, 0x00, 0x0A, 0x0A, 0x00, 0xA0, 0x8D, 0x06, 0x00,
];

impl Memory {
    /// What the call needs: a contract to cancel, an hour to withdraw, and a month to close.
    fn prepare(&mut self, trial: Trial<'_>) {
        self.contracts[0] = Some(BLOCK);
        self.marks[0] = 1;
        if trial == Trial::Close || trial == Trial::Final {
            self.marks.fill(1);
            self.accounts[1] = energy_alone(0, 1);
        }
    }

    /// Changes a stored figure, if any is named.
    fn damage(&mut self, damage: Option<Damage>) {
        match damage {
            None => {}
            Some(Damage::LastAgent(agent)) => self.agents[4] = agent,
            Some(Damage::LastContract(contract)) => self.contracts[63] = Some(contract),
            Some(Damage::LastMark(mark)) => self.marks[23] = mark,
            Some(
                Damage::LastEntry {
                    injected,
                    withdrawn,
                },
            ) => self.entries[119] = energy_alone(injected, withdrawn),
            Some(
                Damage::Accounts {
                    injected,
                    first,
                    second,
                },
            ) => {
                self.accounts[0] = energy_alone(injected, first);
                self.accounts[1] = energy_alone(0, second);
            }
        }
    }
}

/// A call that enters the block under number 2, or cancels the contract under number 1.
fn call_on_contracts(
    month: &OpenMonth,
    trial: Trial<'_>,
    agents: &[Agent],
    contracts: &mut [Option<Contract>],
    ledger: &Ledger<'_>,
) -> Result<(), BookFault> {
    if trial == Trial::Cancel {
        return cancel(month, &Product, 1, agents, contracts, ledger);
    }
    let block = NumberedContract {
        number: 2,
        contract: BLOCK,
    };
    enter(month, &Product, block, agents, contracts, ledger)
}

/// Posts the last hour of the day.
fn post_last(month: &OpenMonth, pool: &Pool<'_>, ledger: &mut Ledger<'_>) -> Result<(), BookFault> {
    let host = Host {
        month,
        form: &Product,
        agents: pool.agents,
        contracts: pool.contracts,
    };
    let posting = Posting {
        hour: 23,
        price: 50_000,
        lines: &[LINE; 5],
    };
    post_in(
        &host,
        &posting,
        ledger.accounts,
        ledger.marks,
        ledger.entries,
    )
}

/// A call that writes hours, or looks into an open month.
fn call_on_hours(
    month: &OpenMonth,
    trial: Trial<'_>,
    pool: &Pool<'_>,
    ledger: &mut Ledger<'_>,
) -> Result<(), BookFault> {
    match trial {
        Trial::Packet(bytes) => post_packet(month, &Product, bytes, pool, ledger),
        Trial::Withdraw => withdraw(month, &Product, 0, pool, ledger),
        Trial::Statement => {
            provisional(month, &Product, 5, &ledger.view(pool))?;
            Ok(())
        }
        Trial::Day => {
            day_total(month, &Product, 5, 1, &ledger.view(pool))?;
            Ok(())
        }
        _ => post_last(month, pool, ledger),
    }
}

/// A call on an open month.
fn call(
    month: &OpenMonth,
    trial: Trial<'_>,
    memory: &mut Memory,
    sizes: Sizes,
) -> Result<(), BookFault> {
    let Loan {
        agents,
        contracts,
        mut ledger,
    } = memory.lend(sizes);
    if trial == Trial::Enter || trial == Trial::Cancel {
        return call_on_contracts(month, trial, agents, contracts, &ledger);
    }
    let pool = Pool { agents, contracts };
    call_on_hours(month, trial, &pool, &mut ledger)
}

/// Closes the month on memory that is right, damages it, and asks for a final statement on so much of it.
fn final_tried(
    month: OpenMonth,
    memory: &mut Memory,
    sizes: Sizes,
    damage: Option<Damage>,
) -> Told {
    match close_on(memory, month, RIGHT) {
        Ok(closed) => {
            memory.damage(damage);
            let said = state_finally_on(memory, &closed, sizes, 5);
            let _ = closed.retire();
            said?;
            Ok(())
        }
        Err((open, fault)) => {
            let _ = open.retire();
            Err(fault.into())
        }
    }
}

/// Opens a book, damages its memory, lends so much of it to a call, and tells how the call was answered. A call on an open month that is refused
/// leaves all memory as it was.
pub(crate) fn tried(
    rt: &impl Abort,
    sizes: Sizes,
    damage: Option<Damage>,
    trial: Trial<'_>,
) -> Told {
    let mut memory = Memory::new();
    let month = open_on(&mut memory, RIGHT)?;
    memory.prepare(trial);
    if trial == Trial::Final {
        return final_tried(month, &mut memory, sizes, damage);
    }
    memory.damage(damage);
    if trial == Trial::Close {
        return close_and_retire(&mut memory, month, sizes);
    }
    let before = memory;
    let said = call(&month, trial, &mut memory, sizes);
    let _ = month.retire();
    assert!(rt; said.is_ok() || memory == before);
    Ok(said?)
}

/// Opens a book on so much of the memory, and tells how the opening was answered.
pub(crate) fn opened(sizes: Sizes) -> Told {
    let mut memory = Memory::new();
    let month = open_on(&mut memory, sizes)?;
    let _ = month.retire();
    Ok(())
}

/// Opens a book on memory that is damaged, and tells how the opening was answered.
pub(crate) fn opened_over(damage: Damage) -> Told {
    let mut memory = Memory::new();
    memory.damage(Some(damage));
    let month = open_on(&mut memory, RIGHT)?;
    let _ = month.retire();
    Ok(())
}
