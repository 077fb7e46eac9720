//! What a call is answered.
ghost use Rattle.std.specs.Prelude.{◌≡◌, ◌↔◌, IsTrue};
ghost use Rattle.law.specs.Replies.{accepted, is_done};
ghost use Rattle.runs.specs.Reading.{reply_of};

use book::{BookFault, Statement};

/// What a call that is not refused is told.
#[derive(Clone, Copy)]
pub enum Told {
    /// It was done.
    Accepted,
    /// The statement that was asked for.
    Stated(Statement),
    /// There was no way to make the call: the month is closed, or the run does not hear of contracts.
    Skipped,
}

/// What a call is answered: where it is refused, the fault, and nothing was done.
pub type Answer = Result<Told, BookFault>;

/// Whether something was done in the book.
pub fn is_accepted(answer: &Answer) -> bool
    ensures { IsTrue result ↔ (reply_of answer.now ≡ accepted) }
{
    matches!(answer, Ok(Told::Accepted))
}

/// Whether the call was done, a statement given too.
pub fn is_done(answer: &Answer) -> bool
    ensures { result ≡ is_done (reply_of answer.now) }
{
    matches!(answer, Ok(Told::Accepted | Told::Stated(_)))
}
