//! Why a call is refused, and the number and the place of each fault.
ghost use Rattle.std.specs.Prelude.{◌≡◌};
ghost use Rattle.settlement.specs.declared.faults.BookFault.TheVariants.{Posting};
ghost use Rattle.settlement.specs.declared.faults.LineFault.TheVariants.{Packet};

use packets::ByteFault;
use thiserror::Error;

/// What is wrong with a posting's own figures, or with the bytes that it came as.
#[derive(Clone, Copy, PartialEq, Eq, Debug, Error)]
pub enum LineFault {
    /// The bytes of a posting are no packet.
    #[error(transparent)]
    Packet(ByteFault),
    /// The hour lies outside the month.
    #[error("the hour is outside the month")]
    HourOutside(u32),
    /// A figure of the line at this place, from 1, is outside its limit; at place 0 the price, or the number of lines.
    #[error("the line count, the price or a figure of the line is outside its limit")]
    OutsideLimit(u32),
    /// The line at this place, from 1, breaks a rule on class, cause, gross or cost.
    #[error("the line breaks a rule on class, cause, gross or cost")]
    BreaksRule(u32),
    /// All injected or all withdrawn energy of the hour is above the limit.
    #[error("all injected or all withdrawn energy together is above the limit")]
    TooMuchTogether,
}

/// Why the book refuses a call.
#[derive(Clone, Copy, PartialEq, Eq, Debug, Error)]
pub enum BookFault {
    /// Memory of the wrong size.
    #[error("memory of the wrong size")]
    WrongSize,
    /// A stored agent, contract, mark or energy is outside its limit.
    #[error("a stored figure is outside its limit")]
    StoredOutside,
    /// A figure of the opening, or a statement's agent, lies outside the book.
    #[error("a figure of the opening or the statement's agent is outside the book's limits")]
    OutsideBook,
    /// A fault of the posting's own figures, or of the bytes that it came as.
    #[error(transparent)]
    Posting(LineFault),
    /// There is obligated excess, and no withdrawn energy carries it.
    #[error("obligated excess and no withdrawn energy carries it")]
    NoCarrier,
    /// The hour to withdraw is free.
    #[error("the hour is free")]
    FreeHour(u32),
    /// The month cannot be closed: nothing stands at this hour, the first of them.
    #[error("an hour of the month is missing")]
    MissingHour(u32),
    /// Power is due, and no withdrawn energy carries it.
    #[error("power is due and no withdrawn energy carries it")]
    NoPowerCarrier,
    /// The contract number is outside 1 to 64, taken at entry, or not standing at cancelling.
    #[error("the contract number is outside 1 to 64, taken or not standing")]
    ContractNumber,
    /// The contract may not stand: its parties, hours or figures, or the form does not take its terms.
    #[error("the contract's parties, hours, figures or terms do not fit")]
    ContractTerms,
    /// A posting stands at this hour, the first of those that the contract covers.
    #[error("a covered hour stands")]
    CoveredHour(u32),
}

impl LineFault {
    ghost use Rattle.settlement.specs.Faults.{line_number, line_place};

    /// The fault's number.
    pub fn number(&self) -> u32
        ensures { result ≡ line_number self.now }
    {
        match self {
            LineFault::Packet(fault) => fault.number(),
            LineFault::HourOutside(_) => 4,
            LineFault::OutsideLimit(_) => 5,
            LineFault::BreaksRule(_) => 6,
            LineFault::TooMuchTogether => 7,
        }
    }

    /// The byte from 0, the hour, or the line from 1; 0 where there is none.
    pub fn place(&self) -> u32
        ensures { result ≡ line_place self.now }
    {
        match self {
            LineFault::Packet(fault) => fault.place(),
            LineFault::HourOutside(hour) => *hour,
            LineFault::OutsideLimit(line) | LineFault::BreaksRule(line) => *line,
            LineFault::TooMuchTogether => 0,
        }
    }
}

impl BookFault {
    ghost use Rattle.settlement.specs.Faults.{number_of, place_of};

    /// The fault's number.
    pub fn number(&self) -> u32
        ensures { result ≡ number_of self.now }
    {
        match self {
            BookFault::WrongSize => 1,
            BookFault::StoredOutside => 2,
            BookFault::OutsideBook => 3,
            BookFault::Posting(fault) => fault.number(),
            BookFault::NoCarrier => 8,
            BookFault::FreeHour(_) => 9,
            BookFault::MissingHour(_) => 10,
            BookFault::NoPowerCarrier => 11,
            BookFault::ContractNumber => 12,
            BookFault::ContractTerms => 13,
            BookFault::CoveredHour(_) => 14,
        }
    }

    /// The byte from 0, the hour, or the line from 1; 0 where there is none.
    pub fn place(&self) -> u32
        ensures { result ≡ place_of self.now }
    {
        match self {
            BookFault::WrongSize
            | BookFault::StoredOutside
            | BookFault::OutsideBook
            | BookFault::NoCarrier
            | BookFault::NoPowerCarrier
            | BookFault::ContractNumber
            | BookFault::ContractTerms => 0,
            BookFault::Posting(fault) => fault.place(),
            BookFault::FreeHour(hour)
            | BookFault::MissingHour(hour)
            | BookFault::CoveredHour(hour) => *hour,
        }
    }
}

/// A fault of the bytes is carried whole.
impl From<ByteFault> for LineFault {
    ghost from_gives = { λ fault r. r ≡ Packet fault };

    fn from(fault: ByteFault) -> LineFault {
        LineFault::Packet(fault)
    }
}

/// A posting's own fault is carried whole.
impl From<LineFault> for BookFault {
    ghost from_gives = { λ fault r. r ≡ Posting fault };

    fn from(fault: LineFault) -> BookFault {
        BookFault::Posting(fault)
    }
}
