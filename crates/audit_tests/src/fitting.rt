//! Audits that do not fit, and that nothing is written then.
use crate::desk::{
    Desk, STALE_ANSWER, STALE_CONTRACT, Said, Step, all_said, calls_of, monday, stale_entry,
    stale_statement,
};
use crate::pool::{AGENTS, BLOCK, TRADE};
use book::{Agent, MonthFigures};
use calendar::Calendar;
use std::alloc::{AllocError, Global};
use std::process::Abort;
use std::test::Fail;

/// A part that is lent to an audit.
#[derive(Clone, Copy, Debug)]
pub(crate) enum Part {
    Answers,
    AnswersWithout,
    Statements,
    StatementsWithout,
    StatementsAgain,
    Agents,
    Accounts,
    Contracts,
    Marks,
    Entries,
}

const PARTS: [Part; 10] = [
    Part::Answers,
    Part::AnswersWithout,
    Part::Statements,
    Part::StatementsWithout,
    Part::StatementsAgain,
    Part::Agents,
    Part::Accounts,
    Part::Contracts,
    Part::Marks,
    Part::Entries,
];

/// Takes a place from a part.
pub(crate) fn shorten(desk: &mut Desk, part: Part) {
    let _ = match part {
        Part::Answers => desk.answers.pop().is_some(),
        Part::AnswersWithout => desk.answers_without.pop().is_some(),
        Part::Statements => desk.statements.pop().is_some(),
        Part::StatementsWithout => desk.statements_without.pop().is_some(),
        Part::StatementsAgain => desk.statements_again.pop().is_some(),
        Part::Agents => desk.agents.pop().is_some(),
        Part::Accounts => desk.accounts.pop().is_some(),
        Part::Contracts => desk.contracts.pop().is_some(),
        Part::Marks => desk.marks.pop().is_some(),
        Part::Entries => desk.entries.pop().is_some(),
    };
}

/// Adds a place to a part.
fn lengthen(desk: &mut Desk, part: Part) -> Result<(), AllocError> {
    match part {
        Part::Answers => desk.answers.push(STALE_ANSWER)?,
        Part::AnswersWithout => desk.answers_without.push(STALE_ANSWER)?,
        Part::Statements => desk.statements.push(stale_statement())?,
        Part::StatementsWithout => desk.statements_without.push(stale_statement())?,
        Part::StatementsAgain => desk.statements_again.push(stale_statement())?,
        Part::Agents => desk.agents.push(AGENTS[3])?,
        Part::Accounts => desk.accounts.push(stale_entry())?,
        Part::Contracts => desk.contracts.push(Some(STALE_CONTRACT))?,
        Part::Marks => desk.marks.push(9)?,
        Part::Entries => desk.entries.push(stale_entry())?,
    }
    Ok(())
}

impl Desk {
    /// Whether memory is as it was before an audit.
    pub(crate) fn has_old_memory(&self) -> bool {
        self.accounts
            .iter()
            .all(|account| *account == stale_entry())
            && self.entries.iter().all(|entry| *entry == stale_entry())
            && self
                .contracts
                .iter()
                .all(|place| *place == Some(STALE_CONTRACT))
            && self.marks.iter().all(|mark| *mark == 9)
    }

    /// Whether every statement is as it was before an audit.
    pub(crate) fn has_old_statements(&self) -> bool {
        self.statements.iter().all(|one| *one == stale_statement())
            && self
                .statements_without
                .iter()
                .all(|one| *one == stale_statement())
            && self
                .statements_again
                .iter()
                .all(|one| *one == stale_statement())
    }

    /// Whether every answer is as it was before an audit.
    pub(crate) fn has_old_answers(&self, heap: Global) -> Result<bool, AllocError> {
        let first = all_said(heap, &self.answers)?;
        let second = all_said(heap, &self.answers_without)?;
        let stale = Said::Refused(11, 0);
        Ok(first.iter().all(|said| *said == stale) && second.iter().all(|said| *said == stale))
    }

    /// The fault for which an audit of three calls is refused, and whether nothing is written: none where it is accepted.
    fn refusal(
        &mut self,
        heap: Global,
        figures: MonthFigures,
    ) -> Result<Option<(u32, bool)>, AllocError> {
        let steps = [
            Step::Enter(1, BLOCK),
            Step::Post(7, 60_000, &TRADE),
            Step::Close,
        ];
        let calls = calls_of(heap, &steps)?;
        let Err(number) = self.audit(figures, &calls) else {
            return Ok(None);
        };
        let same = self.has_old_memory()
            && self.has_old_statements()
            && self.has_old_answers(heap)?;
        Ok(Some((number, same)))
    }
}

/// The figures of an opening: agents, days and weekday.
pub(crate) fn figures_of((agents, days, weekday): (u32, u32, u32)) -> MonthFigures {
    MonthFigures {
        agents,
        days,
        calendar: Calendar { weekday },
    }
}

/// An audit that lacks a place of this part, and one that has a place of it too many, are refused alike, and write nothing.
fn try_part(
    rt: &impl Abort,
    heap: Global,
    part: Part,
    figures: MonthFigures,
    number: u32,
) -> Result<(), Fail> {
    let mut short = Desk::new(heap, &AGENTS, 3)?;
    shorten(&mut short, part);
    assert_eq!(rt;
        short.refusal(heap, figures)?,
        Some((number, true)),
        "{part:?}"
    );
    let mut long = Desk::new(heap, &AGENTS, 3)?;
    lengthen(&mut long, part)?;
    assert_eq!(rt;
        long.refusal(heap, figures)?,
        Some((number, true)),
        "{part:?}"
    );
    Ok(())
}

// The figures of an opening, and the fault that an audit meets which lacks a place or has one too many: agents or days come before it, and a weekday
// after it.
#[test]
fn parts_with_a_place_too_few_or_too_many(rt: HostRuntime) -> Result<(), Fail> {
    let cases = [
        ((4, 1, 0), 1),
        ((4, 1, 6), 1),
        ((4, 1, 7), 1),
        ((4, 1, u32::MAX), 1),
        ((1, 1, 7), 1),
        ((64, 31, 7), 1),
        ((0, 1, 0), 3),
        ((65, 1, 0), 3),
        ((4, 0, 0), 3),
        ((4, 32, 0), 3),
        ((0, 32, 7), 3),
    ];
    for (figures, number) in cases {
        for part in PARTS {
            try_part(&rt, rt.alloc(), part, figures_of(figures), number)?;
        }
    }
    Ok(())
}

// The agents, the days and the weekday of an opening, and the fault that it meets.
#[test]
fn figures_outside_the_book_are_refused(rt: HostRuntime) -> Result<(), Fail> {
    let cases = [
        ((4, 1, 0), None),
        ((4, 1, 6), None),
        ((0, 1, 0), Some(3)),
        ((65, 1, 0), Some(3)),
        ((u32::MAX, 1, 0), Some(3)),
        ((4, 0, 0), Some(3)),
        ((4, 32, 0), Some(3)),
        ((4, u32::MAX, 0), Some(3)),
        ((4, 1, 7), Some(3)),
        ((4, 1, u32::MAX), Some(3)),
        ((3, 1, 0), Some(1)),
        ((5, 1, 0), Some(1)),
        ((4, 2, 0), Some(1)),
        ((4, 2, 7), Some(1)),
        ((64, 1, 0), Some(1)),
        ((4, 31, 0), Some(1)),
    ];
    for (figures, number) in cases {
        let mut desk = Desk::new(rt.alloc(), &AGENTS, 3)?;
        let refused = desk.refusal(rt.alloc(), figures_of(figures))?;
        assert_eq!(rt; refused, number.map(|number| (number, true)), "{figures:?}");
    }
    Ok(())
}

// The role, the capacity and the power of the last agent, and whether the opening is refused; with a place too few it is refused for that.
#[test]
fn agents_outside_their_limits_are_refused(rt: HostRuntime) -> Result<(), Fail> {
    let cases = [
        (1, 4_000_000, 1_000_000, None),
        (2, 0, 0, None),
        (3, 4_000_000, 0, None),
        (0, 0, 0, Some(3)),
        (4, 0, 0, Some(3)),
        (1, 4_000_001, 0, Some(3)),
        (1, 0, 1_000_001, Some(3)),
        (2, 0, 1, Some(3)),
        (3, 0, 1, Some(3)),
    ];
    for (role, capacity, power, number) in cases {
        let last = Agent {
            role,
            capacity,
            power,
        };
        let agents = [AGENTS[0], AGENTS[1], AGENTS[2], last];
        let mut desk = Desk::new(rt.alloc(), &agents, 3)?;
        let refused = desk.refusal(rt.alloc(), monday(&agents))?;
        assert_eq!(rt; refused, number.map(|number| (number, true)), "{last:?}");
        let mut short = Desk::new(rt.alloc(), &agents, 3)?;
        shorten(&mut short, Part::Answers);
        let refused = short.refusal(rt.alloc(), monday(&agents))?;
        assert_eq!(rt; refused, Some((1, true)), "{last:?}");
    }
    Ok(())
}
