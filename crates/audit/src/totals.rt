//! One book of a list of calls, settled, and what it comes to.
ghost use Rattle.std.specs.Prelude.{◌≡◌, true, length, IfOk, OnErr, OnOk};
ghost use Rattle.std.specs.Result.{result_err};
ghost use Rattle.runs.specs.Lent.{memory_in, SameLoan};
ghost use Rattle.audit.specs.Audits.{RanOnMemory};
ghost use Rattle.audit.specs.Cases.{case_of, ended};
ghost use Rattle.audit.specs.Totals.{settle_fault, SettledOne};

use crate::cases::Case;
use crate::settling::settle_calls;
use book::{BookFault, MonthFigures, Statement};
use forms::ContractForm;
use runs::{Answer, Call, Lent};

/// What a settled book comes to. Sums are in points.
#[derive(Clone, Copy, PartialEq, Eq, Debug)]
pub struct Totals {
    /// All balances together.
    pub balances: i64,
    /// The residue of the standing hours, from their postings alone.
    pub residue: i64,
}

/// Settles the book that hears the calls, and writes each call's answer and each agent's statement to its place. It is refused, and nothing is written,
/// if there is not a place for each answer and each statement, or if the month cannot be opened.
pub fn settle<F: ContractForm>(
    figures: MonthFigures,
    form: &F,
    calls: &[Call],
    lent: &mut Lent<'_>,
    answers: &mut [Answer],
    statements: &mut [Statement],
) -> Result<Totals, BookFault>
    ensures lent { SameLoan lent.old lent.new }
    ensures fault { let m = memory_in lent.old in
        result_err result
        ≡ settle_fault figures (length calls.now) m answers.old statements.old }
    ensures untouched { OnErr result (memory_in lent.new ≡ memory_in lent.old) }
    ensures unanswered { OnErr result (answers.new ≡ answers.old) }
    ensures unstated { OnErr result (statements.new ≡ statements.old) }
    ensures memory { let agents = lent.old.agents.now in
        let case = case_of (F.meaning form.now) figures agents calls.now in
        OnOk result (memory_in lent.new ≡ (ended true case (memory_in lent.old)).memory) }
    ensures ran { let agents = lent.old.agents.now in
        let case = case_of (F.meaning form.now) figures agents calls.now in
        OnOk result (RanOnMemory true case (memory_in lent.old) answers.new statements.new) }
    ensures settled { let agents = lent.old.agents.now in
        let case = case_of (F.meaning form.now) figures agents calls.now in
        IfOk result (SettledOne case (memory_in lent.old) answers.new statements.new) }
{
    if !figures.is_size_known() {
        return Err(BookFault::OutsideBook);
    }
    if answers.len() != calls.len() || statements.len() != lent.agents.len() {
        return Err(BookFault::WrongSize);
    }
    lent.view().check_opening(figures)?;
    let case = Case {
        figures,
        form,
        agents: lent.agents,
        calls,
    };
    let settled = settle_calls(true, &case, lent, answers, statements);
    Ok(Totals {
        balances: settled.balances,
        residue: case.residue(answers),
    })
}
