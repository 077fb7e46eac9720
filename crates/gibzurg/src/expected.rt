//! What a journal line should have had where it went wrong.
use crate::choices::Choice;
use thiserror::Error;

/// What was expected.
#[derive(Clone, Copy, Debug, Error, PartialEq)]
pub(crate) enum Expected {
    /// One of the words that begin a line.
    #[error("expected a line that begins with open, agent, contract, post, line, packet, withdraw, cancel, close, statement or statements")]
    Call,
    /// A label and a number.
    #[error("expected the word \"{0}\" and a number from 0 to 4294967295")]
    Figure(&'static str),
    /// A label and a word or a number.
    #[error("expected the word \"{}\" and one of {}, or a number", .0.label(), .0.names())]
    Named(Choice),
    /// The place of delivery of a contract.
    #[error("expected the word \"place\" and one of market, seller, buyer, or a number from 1 to 3")]
    Place,
    /// The number of an agent.
    #[error("expected the number of an agent")]
    Agent,
    /// The number of a contract.
    #[error("expected the number of a contract")]
    Contract,
    /// The bytes of a packet.
    #[error("expected hexadecimal digits, two for each byte")]
    Digits,
    /// No word more.
    #[error("expected the end of the line")]
    End,
    /// The agent line of this number, of so many after an opening.
    #[error("expected agent line {0} of {1}")]
    AgentLine(usize, u32),
    /// Another line than an agent's.
    #[error("expected no agent line here, since they stand right after an open line")]
    NoAgentLine,
    /// Another line than a posting's.
    #[error("expected no posting line here, since they stand right after a post line")]
    NoPostingLine,
}
