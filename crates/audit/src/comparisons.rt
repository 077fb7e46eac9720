//! What the audit compares: answers of the first two books, and statements of all three.
ghost use Rattle.std.specs.Prelude.{◌≡◌, ◌<◌, ◌≤◌};
ghost use Rattle.tally.specs.Money.{lines_of};
ghost use Rattle.law.specs.Parties.{is_party, is_stranger};
ghost use Rattle.audit.specs.Compared.{same_answer, heard_in, alike_in, same_lines, same_statement, same_in, strangers_in, strangers_same, Compared};
ghost use Rattle.audit.specs.Found.{found_in};

use crate::findings::Findings;
use book::Statement;
use forms::Contract;
use runs::{Answer, Call, Told, is_done};
use tally::{Money, MoneyLine};

/// How the three books of an audit compare.
#[derive(Clone, Copy, PartialEq, Eq, Debug)]
pub struct Comparison {
    /// How many calls the first two both heard, and how many of those were answered alike.
    pub heard: usize,
    pub alike: usize,
    /// How many agents are party to no contract standing in the first, and how many of those have the same statement in the first and the second.
    pub strangers: usize,
    pub strangers_same: usize,
    /// How many agents have the same statement in the first and the third.
    pub same: usize,
}

/// Whether two calls were answered alike: both done, both refused with the same number and place, or both skipped.
pub fn is_alike(one: &Answer, other: &Answer) -> bool
    ensures { result ≡ same_answer one.now other.now }
{
    match one {
        Ok(Told::Accepted | Told::Stated(_)) => is_done(other),
        Ok(Told::Skipped) => matches!(other, Ok(Told::Skipped)),
        Err(fault) => match other {
            Err(another) => fault.number() == another.number() && fault.place() == another.place(),
            Ok(_) => false,
        },
    }
}

/// Whether two statements have the same lines.
fn are_lines_same(one: &Money, other: &Money) -> bool
    ensures { result ≡ same_lines (lines_of one.now) (lines_of other.now) }
{
    MoneyLine::ALL
        .iter()
        .all(|line| one.on(*line) == other.on(*line))
}

/// Whether two statements are the same.
fn is_same(one: &Statement, other: &Statement) -> bool
    ensures { result ≡ same_statement one.now other.now }
{
    are_lines_same(&one.lines, &other.lines)
        && one.balance == other.balance
        && one.energy.injected == other.energy.injected
        && one.energy.withdrawn == other.energy.withdrawn
        && one.peak.kwh == other.peak.kwh
        && one.peak.hour == other.peak.hour
}

/// Whether the agent at place `index`, counted from 0, is a party to what is in a contract place.
fn is_party(index: u32, place: &Option<Contract>) -> bool
    ensures { result ≡ is_party index place.now }
{
    match place {
        Some(contract) => contract
            .party_numbers()
            .iter()
            .any(|number| number.checked_sub(1) == Some(index)),
        None => false,
    }
}

/// Whether the agent at place `index`, counted from 0, is party to no standing contract.
pub fn is_stranger(index: u32, places: &[Option<Contract>]) -> bool
    ensures { result ≡ is_stranger index places.now }
{
    places.iter().all(|place| !is_party(index, place))
}

/// How many calls both books heard.
fn count_heard(calls: &[Call]) -> usize
    ensures { result ≡ heard_in calls.now }
{
    calls
        .iter()
        .filter(|call| !call.is_about_contracts())
        .count()
}

/// How many calls both books heard and answered alike.
fn count_alike(calls: &[Call], answers: &[Answer], without: &[Answer]) -> usize
    ensures { result ≡ alike_in calls.now answers.now without.now }
{
    let heard = calls.iter().zip(answers.iter().zip(without));
    heard
        .filter(|(call, (one, other))| !call.is_about_contracts() && is_alike(one, other))
        .count()
}

/// How many agents have the same statement in two books.
fn count_same(one: &[Statement], other: &[Statement]) -> usize
    ensures { result ≡ same_in one.now other.now }
{
    one.iter()
        .zip(other)
        .filter(|(one, other)| is_same(one, other))
        .count()
}

/// How many of so many agents are party to no standing contract.
fn count_strangers(agents: u32, places: &[Option<Contract>]) -> usize
    ensures { result ≡ strangers_in agents places.now }
{
    (0..agents)
        .filter(|index| is_stranger(*index, places))
        .count()
}

/// How many of those have the same statement in two books.
fn count_strangers_same(
    agents: u32,
    places: &[Option<Contract>],
    one: &[Statement],
    other: &[Statement],
) -> usize
    ensures { result ≡ strangers_same agents places.now one.now other.now }
{
    (0..agents)
        .zip(one.iter().zip(other))
        .filter(|(index, (one, other))| is_stranger(*index, places) && is_same(one, other))
        .count()
}

/// Compares what was found of so many agents: the answers of the first two books, over the contracts standing in the first, and the statements of
/// all three.
pub(crate) fn compare(
    agents: u32,
    calls: &[Call],
    places: &[Option<Contract>],
    found: &Findings<'_>,
) -> Comparison
    ensures { Compared agents calls.now places.now (found_in found.now) result }
{
    let first = &*found.statements;
    let second = &*found.statements_without;
    let third = &*found.statements_again;
    Comparison {
        heard: count_heard(calls),
        alike: count_alike(calls, found.answers, found.answers_without),
        strangers: count_strangers(agents, places),
        strangers_same: count_strangers_same(agents, places, first, second),
        same: count_same(first, third),
    }
}
