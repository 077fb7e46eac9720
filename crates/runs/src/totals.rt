//! The statements of all agents, and their balances together.
ghost use Rattle.std.specs.Prelude.{◌≡◌, ◌-◌, length, IfOk, OnOk, OnErr};
ghost use Rattle.std.specs.Result.{result_err};
ghost use Rattle.calendar.specs.Limits.{hours_of};
ghost use Rattle.book.specs.Statements.{statement_in, statement_fault};
ghost use Rattle.runs.specs.Lent.{memory_in};
ghost use Rattle.runs.specs.Reading.{figures_in};
ghost use Rattle.runs.specs.Runs.{statements_in, statements_fault, together};

use crate::lent::Lent;
use crate::months::Month;
use book::{BookFault, Statement, final_statement, provisional};
use forms::ContractForm;

/// The statement of an agent, counted from 1: provisional while the month is open, final once it is closed.
fn statement_of<F: ContractForm>(
    month: &Month,
    form: &F,
    agent: u32,
    lent: &Lent<'_>,
) -> Result<Statement, BookFault>
    ensures fault { result_err result
        ≡ statement_fault (F.meaning form.now) (figures_in month.now) agent (memory_in lent.now) }
    ensures statement { let f = figures_in month.now in
        IfOk result (λ st. st ≡ statement_in (hours_of f.days) (agent - 1) (memory_in lent.now)) }
{
    match month {
        Month::Open(open) => provisional(open, form, agent, &lent.view()),
        Month::Closed(closed) => final_statement(closed, form, agent, &lent.view()),
    }
}

/// Writes the statement of every agent to its place. It is refused, and nothing is written, if there is not a place for each, or if the first
/// statement is.
pub fn fill_statements<F: ContractForm>(
    month: &Month,
    form: &F,
    lent: &Lent<'_>,
    statements: &mut [Statement],
) -> Result<(), BookFault>
    ensures fault { let places = length statements.old in
        result_err result
        ≡ statements_fault (F.meaning form.now) (figures_in month.now) places (memory_in lent.now) }
    ensures stated { let f = figures_in month.now in
        OnOk result (statements.new ≡ statements_in f (memory_in lent.now)) }
    ensures untouched { OnErr result (statements.new ≡ statements.old) }
{
    if statements.len() != month.figures().agents as usize {
        return Err(BookFault::WrongSize);
    }
    // where the first can be given, so can the others
    statement_of(month, form, 1, lent)?;
    for (i, statement) in statements.iter_mut().enumerate() {
        *statement = statement_of(month, form, i as u32 + 1, lent).unwrap();
    }
    Ok(())
}

/// The balances of all statements together, modulo 2 ^ 64.
pub fn balances_together(statements: &[Statement]) -> i64
    ensures { result ≡ together statements.now }
{
    let mut sum: i64 = 0;
    for statement in statements {
        sum = sum.wrapping_add(statement.balance);
    }
    sum
}
