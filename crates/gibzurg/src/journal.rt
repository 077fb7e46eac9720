//! One line of a journal, read into the call or the record that it gives.
use crate::choices::Choice;
use crate::expected::Expected;
use crate::fields::Fields;
use book::{Agent, Line, MonthFigures};
use calendar::Calendar;
use forms::Contract;

/// What one journal line says.
#[derive(Clone, Copy, Debug, PartialEq)]
pub(crate) enum Entry<'a> {
    /// A call to make.
    Call(Request<'a>),
    /// An agent of the book that is being opened, with its number.
    Agent(u32, Agent),
    /// A line of the posting that is being read.
    Line(Line),
}

/// A call that a journal asks for. The agents of an opening and the lines of a posting follow it.
#[derive(Clone, Copy, Debug, PartialEq)]
pub(crate) enum Request<'a> {
    Open(MonthFigures),
    Enter { number: u32, contract: Contract },
    Post { hour: u32, price: u32 },
    /// A packet to post, by its hexadecimal digits.
    Packet(&'a str),
    Withdraw { hour: u32 },
    Cancel { number: u32 },
    Close,
    Statement { agent: u32 },
    Statements,
}

/// Whether the lines of a posting go on at this line: one of them, or a line that is passed over.
pub(crate) fn goes_on(line: &str) -> bool {
    Fields::new(line)
        .word()
        .is_none_or(|first| first == "line" || first.starts_with('#'))
}

/// Reads one line, without its end; a blank line or a comment says nothing.
pub(crate) fn read(line: &str) -> Result<Option<Entry<'_>>, Expected> {
    let mut fields = Fields::new(line);
    match fields.word() {
        Some(first) if !first.starts_with('#') => {
            let entry = entry_of(first, &mut fields)?;
            fields.end()?;
            Ok(Some(entry))
        }
        _ => Ok(None),
    }
}

/// Reads what stands after a line's first word.
fn entry_of<'a>(first: &str, fields: &mut Fields<'a>) -> Result<Entry<'a>, Expected> {
    match first {
        "agent" => Ok(Entry::Agent(fields.agent()?, agent(fields)?)),
        "line" => Ok(Entry::Line(posting_line(fields)?)),
        _ => Ok(Entry::Call(call_named(first, fields)?)),
    }
}

/// The figures of an agent, after its number.
fn agent(fields: &mut Fields) -> Result<Agent, Expected> {
    Ok(Agent {
        role: fields.choice(Choice::Role)?,
        capacity: fields.figure("capacity")?,
        power: fields.figure("power")?,
    })
}

/// The figures of a posting's line.
fn posting_line(fields: &mut Fields) -> Result<Line, Expected> {
    Ok(Line {
        class: fields.choice(Choice::Class)?,
        cause: fields.figure("cause")?,
        injected: fields.figure("injected")?,
        withdrawn: fields.figure("withdrawn")?,
        gross: fields.figure("gross")?,
        factor: fields.figure("factor")?,
        cost: fields.figure("cost")?,
    })
}

/// The terms of a contract, after its number.
fn contract(fields: &mut Fields) -> Result<Contract, Expected> {
    Ok(Contract {
        kind: fields.figure("kind")?,
        seller: fields.figure("seller")?,
        buyer: fields.figure("buyer")?,
        delivery: fields.place()?,
        first: fields.figure("first")?,
        last: fields.figure("last")?,
        price: fields.figure("price")?,
        peak: fields.figure("peak")?,
        medium: fields.figure("medium")?,
        base: fields.figure("base")?,
        margin: fields.figure("margin")?,
    })
}

/// The call that a line's first word names.
fn call_named<'a>(first: &str, fields: &mut Fields<'a>) -> Result<Request<'a>, Expected> {
    Ok(match first {
        "open" => Request::Open(MonthFigures {
            agents: fields.figure("agents")?,
            days: fields.figure("days")?,
            calendar: Calendar {
                weekday: fields.choice(Choice::Weekday)?,
            },
        }),
        "contract" => Request::Enter {
            number: fields.contract()?,
            contract: contract(fields)?,
        },
        "post" => Request::Post {
            hour: fields.figure("hour")?,
            price: fields.figure("price")?,
        },
        "packet" => Request::Packet(fields.digits()?),
        "withdraw" => Request::Withdraw {
            hour: fields.figure("hour")?,
        },
        "cancel" => Request::Cancel {
            number: fields.contract()?,
        },
        "close" => Request::Close,
        "statement" => Request::Statement {
            agent: fields.agent()?,
        },
        "statements" => Request::Statements,
        _ => return Err(Expected::Call),
    })
}
