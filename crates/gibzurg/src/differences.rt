//! What differs between the books of an audit. Nothing ever should.
use crate::record::{Audited, Places};
use crate::words::{Heading, line_word};
use audit::{Call, is_alike, is_stranger};
use book::Statement;
use std::alloc::{AllocError, Global};
use std::fmt;
use tally::MoneyLine;

/// The two books that are compared.
#[derive(Clone, Copy, Debug, PartialEq)]
pub(crate) enum Books {
    FirstAndSecond,
    FirstAndThird,
}

impl fmt::Display for Books {
    fn fmt<W: fmt::Write>(&self, f: &mut fmt::Formatter<W>) -> fmt::Result {
        match self {
            Books::FirstAndSecond => write!(f, "the first and the second book"),
            Books::FirstAndThird => write!(f, "the first and the third book"),
        }
    }
}

/// What differs.
#[derive(Clone, Copy, Debug, PartialEq)]
pub(crate) enum Difference {
    /// The answer to a call of this journal line, in the first and the second book.
    Answer {
        line: usize,
        heading: Heading,
    },
    /// A line of an agent's statement.
    Statement {
        books: Books,
        agent: u32,
        line: &'static str,
    },
}

impl fmt::Display for Difference {
    fn fmt<W: fmt::Write>(&self, f: &mut fmt::Formatter<W>) -> fmt::Result {
        match self {
            Difference::Answer { line, heading } => {
                let books = Books::FirstAndSecond;
                write!(
                    f,
                    "Difference between {books}: line {line}, {heading}, the answer."
                )
            }
            Difference::Statement { books, agent, line } => {
                write!(f, "Difference between {books}: agent {agent}, {line}.")
            }
        }
    }
}

/// What differs between the answers of the first and the second book, of the calls that both heard.
fn differing_answers(
    heap: Global,
    calls: &[Call],
    lines: &[usize],
    found: &Places,
) -> Result<Vec<Difference>, AllocError> {
    let mut differences = Vec::new(heap);
    let answers = found.answers.iter().zip(&found.answers_without);
    for ((call, line), (one, other)) in calls.iter().zip(lines).zip(answers) {
        if !call.is_about_contracts() && !is_alike(one, other) {
            differences.push(Difference::Answer {
                line: *line,
                heading: Heading::from(call),
            })?;
        }
    }
    Ok(differences)
}

/// Adds what differs between two statements of an agent, by the words that begin a statement's lines.
pub(crate) fn compare(
    differences: &mut Vec<Difference>,
    books: Books,
    agent: u32,
    one: &Statement,
    other: &Statement,
) -> Result<(), AllocError> {
    for money_line in MoneyLine::ALL {
        if one.lines.on(money_line) != other.lines.on(money_line) {
            let line = line_word(money_line);
            differences.push(Difference::Statement { books, agent, line })?;
        }
    }
    let others = [
        ("Balance", one.balance == other.balance),
        ("Injected", one.energy.injected == other.energy.injected),
        ("Withdrawn", one.energy.withdrawn == other.energy.withdrawn),
        ("Peak", one.peak == other.peak),
    ];
    for (line, is_same) in others {
        if !is_same {
            differences.push(Difference::Statement { books, agent, line })?;
        }
    }
    Ok(())
}

impl Audited {
    /// Whatever differs: answers by the lines of the journal, and statements by the agents and their lines.
    pub(crate) fn differences(
        &self,
        heap: Global,
        calls: &[Call],
        lines: &[usize],
    ) -> Result<Vec<Difference>, AllocError> {
        let mut differences = differing_answers(heap, calls, lines, &self.found)?;
        self.compare_strangers(&mut differences)?;
        self.compare_again(&mut differences)?;
        Ok(differences)
    }

    /// Adds what differs in the second book for the agents that are party to no standing contract.
    fn compare_strangers(&self, differences: &mut Vec<Difference>) -> Result<(), AllocError> {
        let found = &self.found;
        let statements = found.statements.iter().zip(&found.statements_without);
        for (agent, (one, other)) in (1u32..).zip(statements) {
            if is_stranger(agent.saturating_sub(1), &self.contracts) {
                compare(differences, Books::FirstAndSecond, agent, one, other)?;
            }
        }
        Ok(())
    }

    /// Adds what differs in the third book.
    fn compare_again(&self, differences: &mut Vec<Difference>) -> Result<(), AllocError> {
        let found = &self.found;
        let statements = found.statements.iter().zip(&found.statements_again);
        for (agent, (one, other)) in (1u32..).zip(statements) {
            compare(differences, Books::FirstAndThird, agent, one, other)?;
        }
        Ok(())
    }
}
