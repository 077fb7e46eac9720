//! A book settled from its opening on: calls made, statements given, balances added up.
ghost use Rattle.std.specs.Prelude.{◌≡◌, true, length, None};
ghost use Rattle.book.specs.Opening.{open_fault};
ghost use Rattle.runs.specs.Lent.{memory_in, SameLoan};
ghost use Rattle.runs.specs.Reading.{state_of, figures_in};
ghost use Rattle.runs.specs.Runs.{kept_of, kept_in, all_done, statements_fault};
ghost use Rattle.audit.specs.Cases.{again, begun, ended, answered};
ghost use Rattle.audit.specs.Reading.{case_in};
ghost use Rattle.audit.specs.Settlings.{Came, FirstLeft};

use crate::again::{Left, Rerun};
use crate::cases::Case;
use book::{MonthFigures, Statement, open};
use forms::ContractForm;
use runs::{Answer, Lent, Month, State, balances_together, fill_statements, replay};

/// What a book came to: whether its month is open or closed, and all balances together.
#[derive(Clone, Copy)]
pub(crate) struct Settlement {
    pub(crate) state: State,
    pub(crate) balances: i64,
}

/// Opens a month that can be opened.
fn begin(figures: MonthFigures, lent: &mut Lent<'_>) -> Month
    requires { open_fault figures (memory_in lent.old) ≡ None }
    ensures lent { SameLoan lent.old lent.new }
    ensures figures { figures_in result ≡ figures }
    ensures kept { kept_in result lent.new ≡ begun (memory_in lent.old) }
{
    Month::Open(open(figures, lent.agents, lent.contracts, &mut lent.ledger).unwrap())
}

/// Writes every agent's statement to its place, adds up their balances, and gives the month up.
pub(crate) fn conclude<F: ContractForm>(
    month: Month,
    form: &F,
    lent: &Lent<'_>,
    statements: &mut [Statement],
) -> Settlement
    requires { let places = length statements.old in
        let m = memory_in lent.now in
        statements_fault (F.meaning form.now) (figures_in month) places m ≡ None }
    ensures { let kept = kept_of (state_of month) (memory_in lent.now) in
        Came (figures_in month) kept statements.new result }
{
    fill_statements(&month, form, lent, statements).unwrap();
    let balances = balances_together(statements);
    let state = month.state();
    let _ = month.retire();
    Settlement { state, balances }
}

/// Opens a month, makes the calls that the book hears of, and writes each answer and each agent's statement to its place.
pub(crate) fn settle_calls<F: ContractForm>(
    hears_contracts: bool,
    case: &Case<'_, F>,
    lent: &mut Lent<'_>,
    answers: &mut [Answer],
    statements: &mut [Statement],
) -> Settlement
    requires opens { open_fault case.now.figures (memory_in lent.old) ≡ None }
    requires answers_long { length answers.old ≡ length case.now.calls.now }
    requires statements_long { length statements.old ≡ length lent.old.agents.now }
    ensures lent { SameLoan lent.old lent.new }
    ensures told { let case = case_in (F.meaning case.now.form.now) case.now in
        answers.new ≡ answered hears_contracts case (memory_in lent.old) }
    ensures came { let case = case_in (F.meaning case.now.form.now) case.now in
        Came case.figures (ended hears_contracts case (memory_in lent.old)) statements.new result }
    ensures memory { let case = case_in (F.meaning case.now.form.now) case.now in
        memory_in lent.new ≡ (ended hears_contracts case (memory_in lent.old)).memory }
{
    let month = begin(case.figures, lent);
    let month = replay(hears_contracts, month, case.form, case.calls, lent, answers);
    conclude(month, case.form, lent, statements)
}

/// Opens a month, and asks it only for what stands in the first book.
pub(crate) fn hear_standing<F: ContractForm>(
    case: &Case<'_, F>,
    left: &Left<'_>,
    lent: &mut Lent<'_>,
) -> Rerun
    requires opens { open_fault case.now.figures (memory_in lent.old) ≡ None }
    requires left { FirstLeft (case_in (F.meaning case.now.form.now) case.now) left.now }
    ensures lent { SameLoan lent.old lent.new }
    ensures figures { figures_in result.month ≡ case.now.figures }
    ensures kept { let case = case_in (F.meaning case.now.form.now) case.now in
        kept_in result.month lent.new ≡ ended true (again case) (memory_in lent.old) }
    ensures done { let case = case_in (F.meaning case.now.form.now) case.now in
        result.done ≡ all_done (answered true (again case) (memory_in lent.old)) }
{
    let month = begin(case.figures, lent);
    let rerun = Rerun { month, done: true };
    rerun.repeat(case, left, lent)
}
