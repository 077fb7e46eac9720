//! A journal settled: each call is made on the book, and answered.
use crate::open_book::OpenBook;
use crate::record::Opening;
use crate::session::{Desk, run};
use crate::trouble::Trouble;
use crate::words::{Heading, Reply, Totals, Undone};
use audit::{Call, Told};

/// A desk that answers, with the book that calls are made on.
struct Clerk<'a> {
    rt: &'a HostRuntime,
    book: Option<OpenBook>,
}

/// Runs a journal, and prints the answers.
pub(crate) fn settle(rt: &HostRuntime, text: &str) -> Result<(), Trouble> {
    let mut clerk = Clerk { rt, book: None };
    let outcome = run(rt.alloc(), text, &mut clerk);
    let Clerk { rt: _, book } = clerk;
    retire(book);
    outcome
}

/// Lets a book go.
fn retire(book: Option<OpenBook>) {
    if let Some(book) = book {
        book.retire();
    }
}

impl Desk for Clerk<'_> {
    fn open(&mut self, line: usize, opening: Opening) -> Result<(), Trouble> {
        retire(self.book.take());
        let outcome = OpenBook::open(self.rt.alloc(), opening)?
            .map(|book| retire(self.book.replace(book)))
            .map_err(Undone::Refused);
        self.say(line, Heading::Open, outcome)
    }

    fn call(&mut self, line: usize, call: Call) -> Result<(), Trouble> {
        let heading = Heading::from(&call);
        let outcome = self.hear(call)?;
        self.say(line, heading, outcome.map(|_| ()))?;
        match (heading, outcome) {
            (Heading::Statement(agent), Ok(told)) => self.show(agent, told),
            _ => Ok(()),
        }
    }

    fn statements(&mut self, line: usize) -> Result<(), Trouble> {
        let Some(book) = &self.book else {
            return self.say(line, Heading::Statements, Err(Undone::NoBook));
        };
        let count = book.count();
        self.say(line, Heading::Statements, Ok(()))?;
        for agent in 1..=count {
            match self.hear(Call::Statement(agent))? {
                Ok(told) => self.show(agent, told)?,
                Err(undone) => self.say(line, Heading::Statement(agent), Err(undone))?,
            }
        }
        self.add_up(line)
    }
}

impl Clerk<'_> {
    /// Says how a call went.
    fn say(
        &self,
        line: usize,
        heading: Heading,
        outcome: Result<(), Undone>,
    ) -> Result<(), Trouble> {
        let reply = Reply {
            line,
            heading,
            outcome,
        };
        Ok(self.rt.println(reply)?)
    }

    /// Makes a call on the open book.
    fn hear(&mut self, call: Call) -> Result<Result<Told, Undone>, Trouble> {
        let Some(book) = self.book.take() else {
            return Ok(Err(Undone::NoBook));
        };
        let (book, answer) = book.call(call);
        retire(self.book.replace(book));
        Ok(match answer? {
            Ok(Told::Skipped) => Err(Undone::Closed),
            Ok(told) => Ok(told),
            Err(fault) => Err(Undone::Refused(fault)),
        })
    }

    /// Prints the statement that was told of an agent.
    fn show(&self, agent: u32, told: Told) -> Result<(), Trouble> {
        match (&self.book, told) {
            (Some(book), Told::Stated(statement)) => Ok(
                self.rt.println(book.sheet(agent, statement))?,
            ),
            _ => Ok(()),
        }
    }

    /// Prints what the statements of all agents come to together.
    fn add_up(&self, line: usize) -> Result<(), Trouble> {
        let Some(book) = &self.book else {
            return Ok(());
        };
        match book.record().totals(self.rt.alloc())? {
            Ok(totals) => Ok(self.rt.println(Totals::from(totals))?),
            Err(fault) => self.say(line, Heading::Statements, Err(Undone::Refused(fault))),
        }
    }
}
