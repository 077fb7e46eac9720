//! Memory for a book of one day and places for what an audit of it finds, and the calls that tables of cases have.
use audit::{Answer, Call, Findings, Lent, Report, Told, audit};
use book::{Agent, BookFault, Holding, Ledger, Line, MonthFigures, Statement};
use calendar::Calendar;
use forms::{Contract, Delivery, Product};
use packets::{PacketLine, write_hour};
use std::alloc::{AllocError, Global};
use tally::{Pair, Tally};

/// Calls, as a table of cases has them, which are copied.
#[derive(Clone, Copy)]
pub(crate) enum Step<'a> {
    /// Post an hour.
    Post(u32, u32, &'a [Line]),
    /// Post an hour by packet.
    Packet(u32, u32, &'a [Line]),
    /// Post an hour by packet, from these bytes.
    Bytes(&'a [u8]),
    /// Post each hour of the day, all alike.
    PostDay(u32, &'a [Line]),
    Withdraw(u32),
    Enter(u32, Contract),
    Cancel(u32),
    Close,
    Statement(u32),
}

/// A posting, as a call.
fn posting(heap: Global, hour: u32, price: u32, lines: &[Line]) -> Result<Call, AllocError> {
    Ok(Call::Post {
        hour,
        price,
        lines: Vec::from_slice(heap, lines)?,
    })
}

/// A line as a packet carries it.
fn packet_line(line: &Line) -> PacketLine {
    let Line {
        class,
        cause,
        injected,
        withdrawn,
        gross,
        factor,
        cost,
    } = *line;
    PacketLine {
        class,
        cause,
        injected,
        withdrawn,
        gross,
        factor,
        cost,
    }
}

/// How many bytes a packet has at most: hour, price and the number of lines, and 64 lines of seven numbers.
const LONGEST: usize = 2_251;

/// A posting by packet, as a call.
fn packet(heap: Global, hour: u32, price: u32, lines: &[Line]) -> Result<Call, AllocError> {
    let lines: Vec<PacketLine> = lines.iter().map(packet_line).collect(heap)?;
    let mut bytes = vec![in heap; 0; LONGEST]?;
    let size = write_hour(hour, price, &lines, &mut bytes).unwrap_or(0);
    bytes.truncate(size);
    Ok(Call::Packet(bytes))
}

impl Step<'_> {
    /// Its call, of those that are one.
    fn call(&self, heap: Global) -> Result<Call, AllocError> {
        match self {
            Step::Post(hour, price, lines) => posting(heap, *hour, *price, lines),
            Step::Packet(hour, price, lines) => packet(heap, *hour, *price, lines),
            Step::Bytes(bytes) => Ok(Call::Packet(Vec::from_slice(heap, bytes)?)),
            Step::PostDay(price, lines) => posting(heap, 0, *price, lines),
            Step::Withdraw(hour) => Ok(Call::Withdraw(*hour)),
            Step::Enter(number, contract) => Ok(Call::Enter {
                number: *number,
                contract: *contract,
            }),
            Step::Cancel(number) => Ok(Call::Cancel(*number)),
            Step::Close => Ok(Call::Close),
            Step::Statement(agent) => Ok(Call::Statement(*agent)),
        }
    }
}

/// Adds the postings of each hour of the day.
fn push_day(
    heap: Global,
    calls: &mut Vec<Call>,
    price: u32,
    lines: &[Line],
) -> Result<(), AllocError> {
    for hour in 0..24 {
        calls.push(posting(heap, hour, price, lines)?)?;
    }
    Ok(())
}

/// The calls of these steps.
pub(crate) fn calls_of(heap: Global, steps: &[Step<'_>]) -> Result<Vec<Call>, AllocError> {
    let mut calls = Vec::new(heap);
    for step in steps {
        match step {
            Step::PostDay(price, lines) => push_day(heap, &mut calls, *price, lines)?,
            step => calls.push(step.call(heap)?)?,
        }
    }
    Ok(calls)
}

/// What a call was answered: of a statement its balance, and of a refusal its number and place.
#[derive(Clone, Copy, PartialEq, Eq, Debug)]
pub(crate) enum Said {
    Done,
    Stated(i64),
    Skipped,
    Refused(u32, u32),
}

fn told_of(answer: &Answer) -> Said {
    match answer {
        Ok(Told::Accepted) => Said::Done,
        Ok(Told::Stated(statement)) => Said::Stated(statement.balance),
        Ok(Told::Skipped) => Said::Skipped,
        Err(fault) => Said::Refused(fault.number(), fault.place()),
    }
}

/// What calls were answered.
pub(crate) fn all_said(heap: Global, answers: &[Answer]) -> Result<Vec<Said>, AllocError> {
    answers.iter().map(told_of).collect(heap)
}

/// What an audit comes to, or the number of the fault for which it is refused.
pub(crate) type Outcome = Result<Report, u32>;

/// The memory of a book, and places for what an audit finds.
#[derive(Drop)]
pub(crate) struct Desk {
    pub(crate) agents: Vec<Agent>,
    pub(crate) accounts: Vec<Holding>,
    pub(crate) contracts: Vec<Option<Contract>>,
    pub(crate) marks: Vec<u8>,
    pub(crate) entries: Vec<Holding>,
    pub(crate) answers: Vec<Answer>,
    pub(crate) answers_without: Vec<Answer>,
    pub(crate) statements: Vec<Statement>,
    pub(crate) statements_without: Vec<Statement>,
    pub(crate) statements_again: Vec<Statement>,
}

/// What a desk lends to an audit.
#[derive(Drop)]
pub(crate) struct Loan<'d> {
    pub(crate) lent: Lent<'d>,
    pub(crate) findings: Findings<'d>,
}

/// A contract that no book takes, in memory before an opening.
pub(crate) const STALE_CONTRACT: Contract = Contract {
    delivery: Delivery::BuyerNode,
    kind: 9,
    seller: 9,
    buyer: 9,
    first: 9,
    last: 9,
    price: 9,
    peak: 9,
    medium: 9,
    base: 9,
    margin: 9,
};

/// What is in the places for answers before an audit.
pub(crate) const STALE_ANSWER: Answer = Err(BookFault::NoPowerCarrier);

/// What is in the places for statements before an audit.
pub(crate) fn stale_statement() -> Statement {
    Statement {
        balance: 9,
        ..Statement::blank()
    }
}

/// What is in accounts and entries before an opening.
pub(crate) fn stale_entry() -> Holding {
    let mut entry: Holding = Pair::neutral();
    entry.first.market = 9;
    entry
}

impl Desk {
    /// Memory for a book of these agents, and places for what an audit of so many calls finds, all of it used before.
    pub(crate) fn new(heap: Global, agents: &[Agent], calls: usize) -> Result<Desk, AllocError> {
        let count = agents.len().min(64);
        Ok(Desk {
            agents: Vec::from_slice(heap, agents)?,
            accounts: vec![in heap; stale_entry(); count]?,
            contracts: vec![in heap; Some(STALE_CONTRACT); 64]?,
            marks: vec![in heap; 9; 24]?,
            entries: vec![in heap; stale_entry(); 24 * count]?,
            answers: vec![in heap; STALE_ANSWER; calls]?,
            answers_without: vec![in heap; STALE_ANSWER; calls]?,
            statements: vec![in heap; stale_statement(); count]?,
            statements_without: vec![in heap; stale_statement(); count]?,
            statements_again: vec![in heap; stale_statement(); count]?,
        })
    }

    /// All of it, lent to an audit.
    pub(crate) fn lend(&mut self) -> Loan<'_> {
        Loan {
            lent: Lent {
                agents: &self.agents,
                contracts: &mut self.contracts,
                ledger: Ledger {
                    accounts: &mut self.accounts,
                    marks: &mut self.marks,
                    entries: &mut self.entries,
                },
            },
            findings: Findings {
                answers: &mut self.answers,
                answers_without: &mut self.answers_without,
                statements: &mut self.statements,
                statements_without: &mut self.statements_without,
                statements_again: &mut self.statements_again,
            },
        }
    }

    /// Audits calls on a book of the product's contracts.
    pub(crate) fn audit(&mut self, figures: MonthFigures, calls: &[Call]) -> Outcome {
        let Loan {
            mut lent,
            mut findings,
        } = self.lend();
        let outcome = audit(figures, &Product, calls, &mut lent, &mut findings);
        outcome.map_err(|fault| fault.number())
    }
}

/// An audit that was accepted, with all that it found.
#[derive(Drop)]
pub(crate) struct Audited {
    pub(crate) report: Report,
    pub(crate) desk: Desk,
}

/// The figures of a book of these agents, of one day from a Monday on.
pub(crate) fn monday(agents: &[Agent]) -> MonthFigures {
    MonthFigures {
        agents: agents.len().min(65) as u32,
        days: 1,
        calendar: Calendar { weekday: 0 },
    }
}
