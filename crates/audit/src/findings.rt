//! What an audit finds.
ghost use Rattle.std.specs.Prelude.{◌≡◌};

use book::Statement;
use runs::Answer;

/// Places that a host lends for what an audit finds: the answers of the two books that hear calls, and every agent's statement in all three.
#[derive(Drop)]
pub struct Findings<'f> {
    pub answers: &'f mut [Answer],
    pub answers_without: &'f mut [Answer],
    pub statements: &'f mut [Statement],
    pub statements_without: &'f mut [Statement],
    pub statements_again: &'f mut [Statement],
}

impl Findings<'_> {
    ghost use Rattle.audit.specs.Found.{found_in, places_fit};

    /// Whether there is a place for each answer, and one for each statement.
    pub(crate) fn fits(&self, calls: usize, agents: usize) -> bool
        ensures { result ≡ places_fit calls agents (found_in self.now) }
    {
        self.answers.len() == calls
            && self.answers_without.len() == calls
            && self.statements.len() == agents
            && self.statements_without.len() == agents
            && self.statements_again.len() == agents
    }

    /// The answers of the first book.
    pub(crate) fn first_answers(&self) -> &[Answer]
        ensures { result.now ≡ self.now.answers.now }
    {
        self.answers
    }
}
