//! What a month shows: the statement of an agent, provisional or final, and a day of it.
ghost use Rattle.std.specs.Prelude.{◌≡◌, ℕ, ◌+◌, ◌≤◌, map, length, slice_index_or};
ghost use Rattle.std.specs.List.{range_with_len};
ghost use Rattle.tally.specs.Peak.{peak_of};
ghost use Rattle.calendar.specs.Limits.{most_hours};
ghost use Rattle.settlement.specs.Holdings.{no_holding};
ghost use Rattle.book.specs.Lent.{memory_seen};
ghost use Rattle.book.specs.Months.{figures_in, figures_of, closed_figures_of};
ghost use Rattle.book.specs.Statements.{stated, day_stated, peak_over};

use crate::memory::View;
use crate::months::{ClosedMonth, Extent, OpenMonth};
use crate::statements::Statement;
use calendar::MOST_HOURS;
use forms::ContractForm;
use settlement::{BookFault, Holding};
use tally::{Peak, Tally, fold};

/// The hours of a day.
const HOURS: usize = 24;

/// Writes the peak of each hour of an agent's month to its place.
fn fill_peaks(month: &[Holding], peaks: &mut [Peak])
    requires same { length peaks.old ≡ length month.now }
    requires few { length month.now ≤ most_hours }
    ensures { let kwh = λ (hour : ℕ). (slice_index_or month.now hour no_holding).second.withdrawn in
        peaks.new ≡ map (λ hour. peak_of (kwh hour) hour) (range_with_len 0 (length month.now)) }
{
    for (hour, entry) in month.iter().enumerate() {
        peaks[hour] = Peak::of(entry.second.withdrawn, hour as u32);
    }
}

/// The peak of the `hours` entries from `first` on.
fn month_peak(entries: &[Holding], first: usize, hours: usize) -> Peak
    requires within { first + hours ≤ length entries.now }
    requires few { hours ≤ most_hours }
    ensures { let entry = λ (hour : ℕ). slice_index_or entries.now (first + hour) no_holding in
        result ≡ peak_over hours entry }
{
    let mut peaks = [Peak::neutral(); MOST_HOURS as usize];
    let peaks = &mut peaks[..hours];
    fill_peaks(&entries[first..first + hours], peaks);
    fold(peaks)
}

/// The statement of an agent, counted from 1, in a month that is open or closed.
fn statement_in<F: ContractForm>(
    month: Extent,
    form: &F,
    agent: u32,
    view: &View<'_, '_>,
) -> Result<Statement, BookFault>
    ensures { let memory = memory_seen view.now in
        result ≡ stated (F.meaning form.now) (figures_in month) agent memory }
{
    view.check(form, month)?;
    if agent == 0 || agent > month.agents {
        return Err(BookFault::OutsideBook);
    }
    let index = (agent - 1) as usize;
    let hours = month.hours() as usize;
    let peak = month_peak(view.entries, index * hours, hours);
    Ok(Statement::of(view.accounts[index], peak))
}

/// The provisional statement of an agent of an open month, counted from 1.
pub fn provisional<F: ContractForm>(
    month: &OpenMonth,
    form: &F,
    agent: u32,
    view: &View<'_, '_>,
) -> Result<Statement, BookFault>
    ensures { let memory = memory_seen view.now in
        result ≡ stated (F.meaning form.now) (figures_of month.now) agent memory }
{
    statement_in(month.extent(), form, agent, view)
}

/// The final statement of an agent of a closed month, counted from 1.
pub fn final_statement<F: ContractForm>(
    closed: &ClosedMonth,
    form: &F,
    agent: u32,
    view: &View<'_, '_>,
) -> Result<Statement, BookFault>
    ensures { let memory = memory_seen view.now in
        result ≡ stated (F.meaning form.now) (closed_figures_of closed.now) agent memory }
{
    statement_in(closed.extent(), form, agent, view)
}

/// The total of an agent's day, both counted from 1: the twenty-four entries from its first hour
/// on, folded.
pub fn day_total<F: ContractForm>(
    month: &OpenMonth,
    form: &F,
    agent: u32,
    day: u32,
    view: &View<'_, '_>,
) -> Result<Holding, BookFault>
    ensures { let memory = memory_seen view.now in
        result ≡ day_stated (F.meaning form.now) (figures_of month.now) agent day memory }
{
    let month = month.extent();
    view.check(form, month)?;
    if agent == 0 || agent > month.agents || day == 0 || day > month.days {
        return Err(BookFault::OutsideBook);
    }
    let hours = month.hours() as usize;
    let first = (agent - 1) as usize * hours + HOURS * (day - 1) as usize;
    Ok(fold(&view.entries[first..first + HOURS]))
}
