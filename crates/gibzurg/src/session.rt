//! A journal, read line by line into the calls that it asks for.
use crate::expected::Expected;
use crate::journal;
use crate::journal::{Entry, Request};
use crate::record::Opening;
use crate::trouble::Trouble;
use audit::Call;
use book::{Agent, Line};
use std::alloc::Global;

/// Who makes the calls of a journal. Each comes with the number of the line that asks for it.
pub(crate) trait Desk {
    /// Opens a book in the place of the one before.
    fn open(&mut self, line: usize, opening: Opening) -> Result<(), Trouble>;

    /// Makes a call on the open book.
    fn call(&mut self, line: usize, call: Call) -> Result<(), Trouble>;

    /// Asks for the statements of all agents.
    fn statements(&mut self, line: usize) -> Result<(), Trouble>;
}

/// What the journal has begun, by the number of its line, and its next lines go on with.
#[derive(Drop)]
enum Begun {
    /// An opening whose agents are being read.
    Opening(usize, Opening),
    /// A posting whose lines are being read.
    Posting {
        line: usize,
        hour: u32,
        price: u32,
        lines: Vec<Line>,
    },
}

/// The reading of one journal.
#[derive(Drop)]
struct Session<'d, D> {
    heap: Global,
    begun: Option<Begun>,
    desk: &'d mut D,
}

/// Reads a journal to its end, and has each call made as soon as it is read.
pub(crate) fn run<D: Desk>(heap: Global, text: &str, desk: &mut D) -> Result<(), Trouble> {
    let mut session = Session {
        heap,
        begun: None,
        desk,
    };
    let mut last: usize = 0;
    for (line, text) in (1..).zip(text.split_terminator('\n')) {
        last = line;
        session.hear(line, text)?;
    }
    session.finish(last.saturating_add(1))
}

impl<D: Desk> Session<'_, D> {
    /// Reads one line. A posting is called before the first line that is none of its own.
    fn hear(&mut self, line: usize, text: &str) -> Result<(), Trouble> {
        if !journal::goes_on(text) {
            self.post()?;
        }
        match journal::read(text) {
            Ok(None) => Ok(()),
            Ok(Some(Entry::Agent(number, agent))) => self.add_agent(line, number, agent),
            Ok(Some(Entry::Line(figures))) => self.add_line(line, figures),
            Ok(Some(Entry::Call(request))) => {
                self.no_opening(line)?;
                self.begin(line, request)
            }
            Err(expected) => Err(Trouble::Malformed(line, expected)),
        }
    }

    /// The journal's end, which calls a posting and may not leave an opening short of agents.
    fn finish(&mut self, line: usize) -> Result<(), Trouble> {
        self.post()?;
        self.no_opening(line)
    }

    /// Begins or makes a call.
    fn begin(&mut self, line: usize, request: Request<'_>) -> Result<(), Trouble> {
        let call = match request {
            Request::Open(figures) => {
                let opening = Opening {
                    figures,
                    agents: Vec::new(self.heap),
                };
                return self.open_if_complete(line, opening);
            }
            Request::Post { hour, price } => {
                self.begun = Some(Begun::Posting {
                    line,
                    hour,
                    price,
                    lines: Vec::new(self.heap),
                });
                return Ok(());
            }
            Request::Statements => return self.desk.statements(line),
            Request::Enter { number, contract } => Call::Enter { number, contract },
            Request::Packet(digits) => Call::Packet(self.packet(line, digits)?),
            Request::Withdraw { hour } => Call::Withdraw(hour),
            Request::Cancel { number } => Call::Cancel(number),
            Request::Close => Call::Close,
            Request::Statement { agent } => Call::Statement(agent),
        };
        self.desk.call(line, call)
    }

    /// The bytes of a packet, two digits for each.
    fn packet(&self, line: usize, digits: &str) -> Result<Vec<u8>, Trouble> {
        let mut bytes = vec![in self.heap; 0; digits.len() / 2]?;
        match hex::decode_to_slice(digits, &mut bytes) {
            Ok(()) => Ok(bytes),
            Err(_) => Err(Trouble::Malformed(line, Expected::Digits)),
        }
    }

    /// That no opening waits for agents.
    fn no_opening(&self, line: usize) -> Result<(), Trouble> {
        match &self.begun {
            Some(Begun::Opening(_, opening)) => Err(Trouble::Malformed(line, opening.awaited())),
            _ => Ok(()),
        }
    }

    /// Adds the next agent to the opening, and opens the book with the last.
    fn add_agent(&mut self, line: usize, number: u32, agent: Agent) -> Result<(), Trouble> {
        let Some(Begun::Opening(begun, mut opening)) = self.begun.take() else {
            return Err(Trouble::Malformed(line, Expected::NoAgentLine));
        };
        if number as usize != opening.next() {
            return Err(Trouble::Malformed(line, opening.awaited()));
        }
        opening.agents.push(agent)?;
        self.open_if_complete(begun, opening)
    }

    /// Adds a line to the posting.
    fn add_line(&mut self, line: usize, figures: Line) -> Result<(), Trouble> {
        match &mut self.begun {
            None => Err(Trouble::Malformed(line, Expected::NoPostingLine)),
            Some(Begun::Opening(_, opening)) => Err(Trouble::Malformed(line, opening.awaited())),
            Some(Begun::Posting { lines, .. }) => Ok(lines.push(figures)?),
        }
    }

    /// Opens the book once the last agent has been read, and waits for the next until then.
    fn open_if_complete(&mut self, line: usize, opening: Opening) -> Result<(), Trouble> {
        if opening.is_complete() {
            return self.desk.open(line, opening);
        }
        self.begun = Some(Begun::Opening(line, opening));
        Ok(())
    }

    /// Calls the posting, where one has been begun.
    fn post(&mut self) -> Result<(), Trouble> {
        match self.begun.take() {
            Some(
                Begun::Posting {
                    line,
                    hour,
                    price,
                    lines,
                },
            ) => self.desk.call(line, Call::Post { hour, price, lines }),
            begun => {
                self.begun = begun;
                Ok(())
            }
        }
    }
}
