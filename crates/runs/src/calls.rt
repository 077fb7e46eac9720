//! The calls on a book.
ghost use Rattle.std.specs.Prelude.{◌≡◌};

use book::Line;
use forms::Contract;

/// A call on a book.
#[derive(Drop)]
pub enum Call {
    /// Post an hour, or correct it where it is posted: its price, and a line for each agent.
    Post {
        hour: u32,
        price: u32,
        lines: Vec<Line>,
    },
    /// Post an hour, or correct it, from the bytes of an hour packet.
    Packet(Vec<u8>),
    /// Withdraw the posting of an hour.
    Withdraw(u32),
    /// Enter a contract under a number.
    Enter {
        number: u32,
        contract: Contract,
    },
    /// Cancel the contract under a number.
    Cancel(u32),
    /// Close the month.
    Close,
    /// Give the statement of an agent, counted from 1: provisional while the month is open, final once it is closed.
    Statement(u32),
}

impl Call {
    ghost use Rattle.law.specs.Requests.{about_contracts};
    ghost use Rattle.runs.specs.Reading.{request_of};

    /// Whether it enters or cancels a contract.
    pub fn is_about_contracts(&self) -> bool
        ensures { result ≡ about_contracts (request_of self.now) }
    {
        matches!(self, Call::Enter { .. } | Call::Cancel(_))
    }
}
