//! A book's opening with the calls after it, what they come to, and what an audit finds of them.
use crate::buffers::Buffers;
use crate::expected::Expected;
use audit::{Answer, Call, Findings, Report, Told, Totals};
use book::{Agent, BookFault, MonthFigures, Statement};
use forms::{Contract, Product, Role};
use std::alloc::{AllocError, Global};

/// What the book answered, where there was memory for it. Without memory the run ends; a fault is an answer to print.
pub(crate) type Heard<T> = Result<Result<T, BookFault>, AllocError>;

/// A book to open, with the agents that have been read so far.
#[derive(Drop)]
pub(crate) struct Opening {
    pub(crate) figures: MonthFigures,
    pub(crate) agents: Vec<Agent>,
}

impl Opening {
    /// The number of the agent that comes next.
    pub(crate) fn next(&self) -> usize {
        self.agents.len().saturating_add(1)
    }

    /// Whether the last agent has been read.
    pub(crate) fn is_complete(&self) -> bool {
        self.agents.len() >= self.figures.agents as usize
    }

    /// The agent line that the opening waits for.
    pub(crate) fn awaited(&self) -> Expected {
        Expected::AgentLine(self.next(), self.figures.agents)
    }

    /// The role of an agent, where the book has the agent and its number names a role.
    pub(crate) fn role(&self, agent: u32) -> Option<Role> {
        let place = (agent as usize).checked_sub(1)?;
        let found = self.agents.get(place)?;
        Role::try_from(found.role).ok()
    }
}

/// A book's opening, and the calls that it has heard since.
#[derive(Drop)]
pub(crate) struct Record {
    pub(crate) opening: Opening,
    pub(crate) calls: Vec<Call>,
}

/// Places for what an audit finds: the answers of two books, and the statements of three.
#[derive(Drop)]
pub(crate) struct Places {
    pub(crate) answers: Vec<Answer>,
    pub(crate) answers_without: Vec<Answer>,
    pub(crate) statements: Vec<Statement>,
    pub(crate) statements_without: Vec<Statement>,
    pub(crate) statements_again: Vec<Statement>,
}

impl Places {
    /// A place for each answer and each statement.
    fn new(heap: Global, calls: usize, agents: usize) -> Result<Places, AllocError> {
        let skipped: Answer = Ok(Told::Skipped);
        let blank = Statement::blank();
        Ok(Places {
            answers: vec![in heap; skipped; calls]?,
            answers_without: vec![in heap; skipped; calls]?,
            statements: vec![in heap; blank; agents]?,
            statements_without: vec![in heap; blank; agents]?,
            statements_again: vec![in heap; blank; agents]?,
        })
    }

    /// All of them, lent to an audit.
    fn lend(&mut self) -> Findings<'_> {
        Findings {
            answers: &mut self.answers,
            answers_without: &mut self.answers_without,
            statements: &mut self.statements,
            statements_without: &mut self.statements_without,
            statements_again: &mut self.statements_again,
        }
    }
}

/// What an audit found: what it reports, the answers and statements, and the contracts that stand at the end.
#[derive(Drop)]
pub(crate) struct Audited {
    pub(crate) report: Report,
    pub(crate) found: Places,
    pub(crate) contracts: Vec<Option<Contract>>,
}

impl Record {
    /// An opening after which nothing has been asked yet.
    pub(crate) fn new(heap: Global, opening: Opening) -> Record {
        Record {
            opening,
            calls: Vec::new(heap),
        }
    }

    /// Settles one book, in memory of its own, for what all statements come to together.
    pub(crate) fn totals(&self, heap: Global) -> Heard<Totals> {
        let figures = self.opening.figures;
        let agents = &self.opening.agents;
        let skipped: Answer = Ok(Told::Skipped);
        let mut buffers = Buffers::new(heap, figures)?;
        let mut answers = vec![in heap; skipped; self.calls.len()]?;
        let mut statements = vec![in heap; Statement::blank(); agents.len()]?;
        Ok(audit::settle(
            figures,
            &Product,
            &self.calls,
            &mut buffers.lend(agents),
            &mut answers,
            &mut statements,
        ))
    }

    /// Settles the three books of an audit, in memory of its own.
    pub(crate) fn audit(&self, heap: Global) -> Heard<Audited> {
        let figures = self.opening.figures;
        let agents = &self.opening.agents;
        let mut buffers = Buffers::new(heap, figures)?;
        let mut found = Places::new(heap, self.calls.len(), agents.len())?;
        let report = audit::audit(
            figures,
            &Product,
            &self.calls,
            &mut buffers.lend(agents),
            &mut found.lend(),
        );
        Ok(report.map(|report| Audited {
            report,
            found,
            contracts: buffers.contracts,
        }))
    }
}
