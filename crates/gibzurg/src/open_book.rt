//! A book that was opened, with the memory that the program lends it.
use crate::buffers::Buffers;
use crate::record::{Heard, Opening, Record};
use crate::words::Sheet;
use audit::{Call, Lent, Month, Told};
use book::Statement;
use forms::Product;
use std::alloc::Global;

/// A book that was opened, and the calls that it has heard.
pub(crate) struct OpenBook {
    month: Month,
    buffers: Buffers,
    record: Record,
}

impl OpenBook {
    /// Opens a book in memory of its own.
    pub(crate) fn open(heap: Global, opening: Opening) -> Heard<OpenBook> {
        let mut buffers = Buffers::new(heap, opening.figures)?;
        let Lent {
            agents,
            contracts,
            mut ledger,
        } = buffers.lend(&opening.agents);
        let opened = book::open(opening.figures, agents, contracts, &mut ledger);
        Ok(opened.map(|month| OpenBook {
            month: Month::Open(month),
            buffers,
            record: Record::new(heap, opening),
        }))
    }

    /// Makes a call, and notes it.
    pub(crate) fn call(self, call: Call) -> (OpenBook, Heard<Told>) {
        let OpenBook {
            month,
            mut buffers,
            mut record,
        } = self;
        let (month, answer) = audit::answer(
            month,
            &Product,
            &call,
            &mut buffers.lend(&record.opening.agents),
        );
        let noted = record.calls.push(call);
        let book = OpenBook {
            month,
            buffers,
            record,
        };
        match noted {
            Ok(()) => (book, Ok(answer)),
            Err(failed) => (book, Err(failed.into())),
        }
    }

    /// How many agents the book has.
    pub(crate) fn count(&self) -> u32 {
        self.record.opening.figures.agents
    }

    /// The statement of an agent, as it is printed.
    pub(crate) fn sheet(&self, agent: u32, statement: Statement) -> Sheet {
        Sheet {
            agent,
            role: self.record.opening.role(agent),
            state: self.month.state(),
            statement,
        }
    }

    /// The calls so far.
    pub(crate) fn record(&self) -> &Record {
        &self.record
    }

    /// Lets the book go.
    pub(crate) fn retire(self) {
        let OpenBook {
            month,
            buffers: _,
            record: _,
        } = self;
        let _ = month.retire();
    }
}
