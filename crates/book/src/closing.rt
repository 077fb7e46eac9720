//! Closing a month.
ghost use Rattle.std.specs.Prelude.{◌≡◌, ◌≤◌, length, IfErr};
ghost use Rattle.std.specs.Result.{result_err};
ghost use Rattle.calendar.specs.Limits.{most_hours};
ghost use Rattle.book.specs.Closing.{missing_fault, close_fault, closed};
ghost use Rattle.book.specs.Lent.{memory_in, memory_seen, SameLoan};
ghost use Rattle.book.specs.Months.{figures_in, figures_of, closed_as};
ghost use Rattle.book.specs.Outcomes.{outcome_of};

use crate::memory::{Ledger, Pool, View};
use crate::months::{ClosedMonth, Extent, OpenMonth};
use crate::posting::FREE;
use forms::ContractForm;
use settlement::{BookFault, charge_power, check_power};

/// Refuses a month of which an hour is missing.
fn check_hours(marks: &[u8]) -> Result<(), BookFault>
    requires { length marks.now ≤ most_hours }
    ensures { result_err result ≡ missing_fault (length marks.now) marks.now }
{
    match marks.iter().position(|mark| *mark == FREE) {
        Some(hour) => Err(BookFault::MissingHour(hour as u32)),
        None => Ok(()),
    }
}

/// Refuses to close a month of which an hour is missing, or whose power nothing carries.
fn check_closing<F: ContractForm>(
    month: Extent,
    form: &F,
    view: &View<'_, '_>,
) -> Result<(), BookFault>
    ensures { let memory = memory_seen view.now in
        result_err result ≡ close_fault (F.meaning form.now) (figures_in month) memory }
{
    view.check(form, month)?;
    check_hours(view.marks)?;
    check_power(view.pool.agents, view.accounts)
}

/// Closes a month of which every hour is posted: power is credited, and its sum debited over the
/// month's withdrawn energy. A refused closing gives the open month back.
pub fn close<F: ContractForm>(
    month: OpenMonth,
    form: &F,
    pool: &Pool<'_>,
    ledger: &mut Ledger<'_>,
) -> Result<ClosedMonth, (OpenMonth, BookFault)>
    ensures lent { SameLoan ledger.old ledger.new }
    ensures value { outcome_of (closed_as result) (memory_in pool.now ledger.new)
        ≡ closed (F.meaning form.now) (figures_of month) (memory_in pool.now ledger.old) }
    ensures back { IfErr result (λ back. figures_of back.0 ≡ figures_of month) }
{
    if let Err(fault) = check_closing(month.extent(), form, &ledger.view(pool)) {
        return Err((month, fault));
    }
    charge_power(pool.agents, ledger.accounts);
    Ok(month.closed())
}
