//! What the program says of the calls that it makes.
use crate::dollars::Dollars;
use audit::Call;
use book::{BookFault, Statement};
use forms::Role;
use settlement::State;
use std::fmt;
use tally::MoneyLine;
use thiserror::Error;

/// A call, as its answer names it, which outlives the call.
#[derive(Clone, Copy, Debug, PartialEq)]
pub(crate) enum Heading {
    Open,
    Contract(u32),
    Post(u32),
    Packet,
    Withdraw(u32),
    Cancel(u32),
    Close,
    Statement(u32),
    Statements,
}

impl From<&Call> for Heading {
    fn from(call: &Call) -> Heading {
        match call {
            Call::Post { hour, .. } => Heading::Post(*hour),
            Call::Packet(_) => Heading::Packet,
            Call::Withdraw(hour) => Heading::Withdraw(*hour),
            Call::Enter { number, .. } => Heading::Contract(*number),
            Call::Cancel(number) => Heading::Cancel(*number),
            Call::Close => Heading::Close,
            Call::Statement(agent) => Heading::Statement(*agent),
        }
    }
}

impl fmt::Display for Heading {
    fn fmt<W: fmt::Write>(&self, f: &mut fmt::Formatter<W>) -> fmt::Result {
        match self {
            Heading::Open => write!(f, "open"),
            Heading::Contract(number) => write!(f, "contract {number}"),
            Heading::Post(hour) => write!(f, "post hour {hour}"),
            Heading::Packet => write!(f, "packet"),
            Heading::Withdraw(hour) => write!(f, "withdraw hour {hour}"),
            Heading::Cancel(number) => write!(f, "cancel {number}"),
            Heading::Close => write!(f, "close"),
            Heading::Statement(agent) => write!(f, "statement {agent}"),
            Heading::Statements => write!(f, "statements"),
        }
    }
}

/// Why a call was not done.
#[derive(Clone, Copy, Debug, Error)]
pub(crate) enum Undone {
    /// The book refused it.
    #[error("refused, fault {} at {}, {}", .0.number(), .0.place(), .0)]
    Refused(BookFault),
    /// There was no book to make the call on.
    #[error("skipped, no book is open")]
    NoBook,
    /// The month was closed already.
    #[error("skipped, the month is closed")]
    Closed,
}

/// The line that answers a call: the journal's line, the call and how it went.
#[derive(Clone, Copy)]
pub(crate) struct Reply {
    pub(crate) line: usize,
    pub(crate) heading: Heading,
    pub(crate) outcome: Result<(), Undone>,
}

impl fmt::Display for Reply {
    fn fmt<W: fmt::Write>(&self, f: &mut fmt::Formatter<W>) -> fmt::Result {
        let Reply {
            line,
            heading,
            outcome,
        } = self;
        match outcome {
            Ok(()) => write!(f, "Line {line}, {heading}: accepted."),
            Err(undone) => write!(f, "Line {line}, {heading}: {undone}."),
        }
    }
}

/// The word for a role.
fn role_word(role: Role) -> &'static str {
    match role {
        Role::Generator => "generator",
        Role::Distributor => "distributor",
        Role::Consumer => "consumer",
    }
}

/// The word for a statement of a month in this state.
fn state_word(state: State) -> &'static str {
    match state {
        State::Open => "provisional",
        State::Closed => "final",
    }
}

/// The word for a money line, which begins its line of a statement.
pub(crate) fn line_word(line: MoneyLine) -> &'static str {
    match line {
        MoneyLine::Market => "Market",
        MoneyLine::Contract => "Contracts",
        MoneyLine::Overcost => "Overcost",
        MoneyLine::Power => "Power",
    }
}

/// A statement, with the agent that it is of.
#[derive(Clone, Copy)]
pub(crate) struct Sheet {
    pub(crate) agent: u32,
    pub(crate) role: Option<Role>,
    pub(crate) state: State,
    pub(crate) statement: Statement,
}

impl fmt::Display for Sheet {
    fn fmt<W: fmt::Write>(&self, f: &mut fmt::Formatter<W>) -> fmt::Result {
        let agent = self.agent;
        let role = self.role.map_or("unknown role", role_word);
        let state = state_word(self.state);
        let lines = self.statement.lines;
        let energy = self.statement.energy;
        let peak = self.statement.peak;
        writeln!(f, "Statement of agent {agent}, {role}, {state}.")?;
        for line in MoneyLine::ALL {
            writeln!(f, "{}: {}.", line_word(line), Dollars::from(lines.on(line)))?;
        }
        writeln!(f, "Balance: {}.", Dollars::from(self.statement.balance))?;
        writeln!(f, "Injected: {} kilowatt-hours.", energy.injected)?;
        writeln!(f, "Withdrawn: {} kilowatt-hours.", energy.withdrawn)?;
        writeln!(
            f,
            "Peak: {} kilowatt-hours in hour {}.",
            peak.kwh, peak.hour
        )?;
        write!(f, "End of statement.")
    }
}

/// What all statements of a book come to together.
#[derive(Clone, Copy)]
pub(crate) struct Totals {
    pub(crate) balances: i64,
    pub(crate) residue: i64,
}

impl From<audit::Totals> for Totals {
    fn from(settled: audit::Totals) -> Totals {
        Totals {
            balances: settled.balances,
            residue: settled.residue,
        }
    }
}

impl fmt::Display for Totals {
    fn fmt<W: fmt::Write>(&self, f: &mut fmt::Formatter<W>) -> fmt::Result {
        let Totals { balances, residue } = *self;
        writeln!(f, "Sum of balances: {}.", Dollars::from(balances))?;
        writeln!(
            f,
            "Residue of the standing hours: {}.",
            Dollars::from(residue)
        )?;
        if balances.checked_neg() == Some(residue) {
            write!(f, "The sum of balances is minus the residue.")
        } else {
            write!(f, "The sum of balances is NOT minus the residue.")
        }
    }
}
