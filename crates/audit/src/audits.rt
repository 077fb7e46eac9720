//! The audit: three books settled over the same agents, days and form, and what they come to.
ghost use Rattle.std.specs.Prelude.{◌≡◌, true, length, None, IfOk, OnErr, OnOk};
ghost use Rattle.std.specs.Result.{result_err};
ghost use Rattle.book.specs.Opening.{open_fault};
ghost use Rattle.runs.specs.Lent.{memory_in, SameLoan};
ghost use Rattle.audit.specs.Audits.{audit_fault, AllRan, SettledIn};
ghost use Rattle.audit.specs.Cases.{case_of, again, ended};
ghost use Rattle.audit.specs.Compared.{Agrees};
ghost use Rattle.audit.specs.Found.{found_in, places_fit, SamePlaces};
ghost use Rattle.audit.specs.Reading.{case_in};

use crate::again::{Left, Rerun};
use crate::cases::Case;
use crate::comparisons::{Comparison, compare};
use crate::findings::Findings;
use crate::settling::{conclude, hear_standing, settle_calls};
use book::{BookFault, MonthFigures};
use forms::ContractForm;
use runs::{Call, Lent};

/// What an audit comes to. Sums are in points.
#[derive(Clone, Copy, PartialEq, Eq, Debug)]
pub struct Report {
    /// All balances together, of the book that heard the calls.
    pub balances: i64,
    /// Of the one that heard none about contracts.
    pub balances_without: i64,
    /// Of the one that heard only what stands in the first at the end.
    pub balances_again: i64,
    /// The residue of the standing hours, from their postings alone.
    pub residue: i64,
    /// Whether the third did all that it was asked.
    pub repeated: bool,
    pub comparison: Comparison,
}

/// Settles the three books of a month that can be opened.
fn settle_books<F: ContractForm>(
    case: &Case<'_, F>,
    lent: &mut Lent<'_>,
    findings: &mut Findings<'_>,
) -> Report
    requires opens { open_fault case.now.figures (memory_in lent.old) ≡ None }
    requires agents { case.now.agents.now ≡ lent.old.agents.now }
    requires places { let found = found_in findings.old in
        places_fit (length case.now.calls.now) (length case.now.agents.now) found ≡ true }
    ensures lent { SameLoan lent.old lent.new }
    ensures places { SamePlaces findings.old findings.new }
    ensures memory { let case = case_in (F.meaning case.now.form.now) case.now in
        memory_in lent.new ≡ (ended true (again case) (memory_in lent.old)).memory }
    ensures ran { let case = case_in (F.meaning case.now.form.now) case.now in
        AllRan case (memory_in lent.old) (found_in findings.new) }
    ensures settled { let case = case_in (F.meaning case.now.form.now) case.now in
        SettledIn case (memory_in lent.old) (found_in findings.new) result }
    ensures agrees { Agrees (case_in (F.meaning case.now.form.now) case.now) result }
{
    let first = settle_calls(true, case, lent, findings.answers, findings.statements);
    let residue = case.residue(findings.first_answers());
    let mut places = [None; 64];
    places.copy_from_slice(lent.view().pool.contracts);
    let second = settle_calls(
        false,
        case,
        lent,
        findings.answers_without,
        findings.statements_without,
    );
    let left = Left {
        answers: findings.first_answers(),
        places: &places,
        state: first.state,
    };
    let Rerun { month, done } = hear_standing(case, &left, lent);
    let third = conclude(month, case.form, lent, findings.statements_again);
    let comparison = compare(case.figures.agents, case.calls, &places, findings);
    Report {
        balances: first.balances,
        balances_without: second.balances,
        balances_again: third.balances,
        residue,
        repeated: done,
        comparison,
    }
}

/// Settles three books alike opened: the first hears the calls, the second the calls without those about contracts, and the third only what stands in
/// the first at the end, which is left in memory. It is refused, and nothing is written, if there is not a place for each answer and each
/// statement, or if the month cannot be opened.
pub fn audit<F: ContractForm>(
    figures: MonthFigures,
    form: &F,
    calls: &[Call],
    lent: &mut Lent<'_>,
    findings: &mut Findings<'_>,
) -> Result<Report, BookFault>
    ensures lent { SameLoan lent.old lent.new }
    ensures places { SamePlaces findings.old findings.new }
    ensures fault { let found = found_in findings.old in
        result_err result ≡ audit_fault figures (length calls.now) (memory_in lent.old) found }
    ensures untouched { OnErr result (memory_in lent.new ≡ memory_in lent.old) }
    ensures unwritten { OnErr result (found_in findings.new ≡ found_in findings.old) }
    // only what stands in the first book at the end is left in memory
    ensures memory { let agents = lent.old.agents.now in
        let case = case_of (F.meaning form.now) figures agents calls.now in
        OnOk result (memory_in lent.new ≡ (ended true (again case) (memory_in lent.old)).memory) }
    ensures ran { let agents = lent.old.agents.now in
        let case = case_of (F.meaning form.now) figures agents calls.now in
        OnOk result (AllRan case (memory_in lent.old) (found_in findings.new)) }
    ensures settled { let agents = lent.old.agents.now in
        let case = case_of (F.meaning form.now) figures agents calls.now in
        IfOk result (SettledIn case (memory_in lent.old) (found_in findings.new)) }
    ensures agrees { let agents = lent.old.agents.now in
        let case = case_of (F.meaning form.now) figures agents calls.now in
        IfOk result (Agrees case) }
{
    if !figures.is_size_known() {
        return Err(BookFault::OutsideBook);
    }
    if !findings.fits(calls.len(), lent.agents.len()) {
        return Err(BookFault::WrongSize);
    }
    lent.view().check_opening(figures)?;
    let case = Case {
        figures,
        form,
        agents: lent.agents,
        calls,
    };
    Ok(settle_books(&case, lent, findings))
}
