//! The memory that the program lends a book.
use audit::Lent;
use book::{Agent, Holding, Ledger, MonthFigures};
use forms::{Contract, MOST_CONTRACTS};
use std::alloc::{AllocError, Global};
use tally::{Pair, Tally};

/// All memory of a book but its agents.
#[derive(Drop)]
pub(crate) struct Buffers {
    pub(crate) contracts: Vec<Option<Contract>>,
    accounts: Vec<Holding>,
    marks: Vec<u8>,
    entries: Vec<Holding>,
}

impl Buffers {
    /// The memory of a book with these figures; no account, mark or entry where no book has as many agents and days.
    pub(crate) fn new(heap: Global, figures: MonthFigures) -> Result<Buffers, AllocError> {
        let (agents, hours) = if figures.is_size_known() {
            (figures.agents as usize, 24 * figures.days as usize)
        } else {
            (0, 0)
        };
        let nothing: Holding = Pair::neutral();
        Ok(Buffers {
            contracts: vec![in heap; None; MOST_CONTRACTS as usize]?,
            accounts: vec![in heap; nothing; agents]?,
            marks: vec![in heap; 0; hours]?,
            entries: vec![in heap; nothing; agents * hours]?,
        })
    }

    /// All of it, lent to a call with the agents.
    pub(crate) fn lend<'m>(&'m mut self, agents: &'m [Agent]) -> Lent<'m> {
        Lent {
            agents,
            contracts: &mut self.contracts,
            ledger: Ledger {
                accounts: &mut self.accounts,
                marks: &mut self.marks,
                entries: &mut self.entries,
            },
        }
    }
}
