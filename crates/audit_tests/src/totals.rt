//! One book settled: what it comes to, and the faults for which it is refused.
use crate::desk::{Desk, Loan, Step, calls_of, monday};
use crate::fitting::{Part, figures_of, shorten};
use crate::pool::{AGENTS, BLOCK, TRADE};
use audit::{Call, Findings, Totals, settle};
use book::MonthFigures;
use forms::Product;
use std::test::Fail;

impl Desk {
    /// Settles one book of the product's contracts, or gives the number of the fault for which it is refused.
    fn settle(&mut self, figures: MonthFigures, calls: &[Call]) -> Result<Totals, u32> {
        let Loan { mut lent, findings } = self.lend();
        let Findings {
            answers,
            statements,
            ..
        } = findings;
        let outcome = settle(figures, &Product, calls, &mut lent, answers, statements);
        outcome.map_err(|fault| fault.number())
    }
}

// Two hours, of which one is corrected and the other withdrawn and posted again, under a contract, and a refused posting.
#[test]
fn one_book_comes_to(rt: HostRuntime) -> Result<(), Fail> {
    let steps = [
        Step::Enter(1, BLOCK),
        Step::Post(8, 60_000, &TRADE),
        Step::Post(9, 60_000, &TRADE),
        Step::Post(8, 30_000, &TRADE),
        Step::Post(8, 2_000_001, &TRADE),
        Step::Withdraw(9),
        Step::Packet(9, 60_000, &TRADE),
        Step::Statement(2),
    ];
    let calls = calls_of(rt.alloc(), &steps)?;
    let mut desk = Desk::new(rt.alloc(), &AGENTS, calls.len())?;
    let totals = Totals {
        balances: -28_800,
        residue: 28_800,
    };
    assert_eq!(rt; desk.settle(monday(&AGENTS), &calls), Ok(totals));
    Ok(())
}

// The figures of an opening, a part that lacks a place, and the fault: nothing is written then.
#[test]
fn one_book_refused(rt: HostRuntime) -> Result<(), Fail> {
    let cases = [
        ((0, 1, 7), Part::Answers, 3),
        ((4, 32, 7), Part::Entries, 3),
        ((4, 1, 7), Part::Answers, 1),
        ((4, 1, 7), Part::Statements, 1),
        ((4, 1, 7), Part::Entries, 1),
        ((4, 1, 7), Part::StatementsAgain, 3),
    ];
    let calls = calls_of(rt.alloc(), &[Step::Post(7, 60_000, &TRADE)])?;
    for (figures, part, number) in cases {
        let mut desk = Desk::new(rt.alloc(), &AGENTS, 1)?;
        shorten(&mut desk, part);
        let refused = desk.settle(figures_of(figures), &calls);
        assert_eq!(rt; refused, Err(number), "{part:?}");
        let same = desk.has_old_memory()
            && desk.has_old_statements()
            && desk.has_old_answers(rt.alloc())?;
        assert!(rt; same, "{part:?}");
    }
    Ok(())
}
