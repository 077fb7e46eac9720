//! Posting an hour, from lines or from a packet, and withdrawing it.
ghost use Rattle.std.specs.Prelude.{◌≡◌, ℕ, ◌*◌, true, length};
ghost use Rattle.std.specs.List.{list_all};
ghost use Rattle.calendar.specs.Limits.{hours_of};
ghost use Rattle.settlement.specs.ContractFaults.{place_fits};
ghost use Rattle.settlement.specs.Holdings.{entry_of};
ghost use Rattle.settlement.specs.Legs.{hour_of};
ghost use Rattle.settlement.specs.Posting.{posting_of};
ghost use Rattle.settlement.specs.Setting.{setting_of};
ghost use Rattle.book.specs.Lent.{memory_in, SameLoan};
ghost use Rattle.book.specs.Months.{figures_of};
ghost use Rattle.book.specs.Outcomes.{outcome_of};
ghost use Rattle.book.specs.Posting.{posted, packet_posted};
ghost use Rattle.book.specs.Rewriting.{entries_with, accounts_with};
ghost use Rattle.book.specs.Withdrawal.{withdrawn};

use crate::memory::{Ledger, Pool};
use crate::months::OpenMonth;
use crate::rewrites::replace_hour;
use forms::{ContractForm, MOST_AGENTS};
use settlement::{BookFault, CheckedPosting, Holding, PacketPosting, Posting, Setting};
use tally::{Pair, Tally};

/// The mark of an hour at which nothing stands.
pub(crate) const FREE: u8 = 0;

/// The mark of an hour at which a posting stands.
const POSTED: u8 = 1;

/// Writes what a posting gives each agent at its hour, with the contracts that cover it.
fn write_posting<F: ContractForm>(
    setting: &Setting<'_, F>,
    checked: &CheckedPosting<'_>,
    accounts: &mut [Holding],
    entries: &mut [Holding],
)
    requires agents { checked.now.agents.now ≡ setting.now.agents.now }
    requires days { checked.now.stamp.days ≡ setting.now.days }
    requires calendar { checked.now.stamp.calendar ≡ setting.now.calendar }
    requires fit { let setting = setting_of (F.meaning setting.now.form.now) setting.now in
        list_all (place_fits setting) setting.places ≡ true }
    requires accounts_long { length accounts.old ≡ length setting.now.agents.now }
    requires entries_long { let count = length setting.now.agents.now in
        length entries.old ≡ count * hours_of setting.now.days }
    ensures entries { let setting = setting_of (F.meaning setting.now.form.now) setting.now in
        let posting = posting_of checked.now.posting in
        let new = λ (i : ℕ). entry_of (hour_of setting posting i) in
        entries.new ≡ entries_with (hours_of setting.days) posting.hour new entries.old }
    ensures accounts { let setting = setting_of (F.meaning setting.now.form.now) setting.now in
        let posting = posting_of checked.now.posting in
        let new = λ (i : ℕ). entry_of (hour_of setting posting i) in
        let hours = hours_of setting.days in
        accounts.new ≡ accounts_with hours posting.hour new entries.old accounts.old }
{
    let nothing: Holding = Pair::neutral();
    let mut fresh = [nothing; MOST_AGENTS as usize];
    let fresh = &mut fresh[..setting.agents.len()];
    setting.fill_hour(checked, fresh);
    replace_hour(checked.stamp, fresh, accounts, entries);
}

/// Posts an hour: its price, and a line for each agent. The posting of an hour that is posted
/// already corrects it. Each standing contract that covers the hour puts its legs on the parties'
/// contract lines.
pub fn post<F: ContractForm>(
    month: &OpenMonth,
    form: &F,
    posting: &Posting<'_>,
    pool: &Pool<'_>,
    ledger: &mut Ledger<'_>,
) -> Result<(), BookFault>
    ensures lent { SameLoan ledger.old ledger.new }
    ensures value { let before = memory_in pool.now ledger.old in
        outcome_of result (memory_in pool.now ledger.new)
        ≡ posted (F.meaning form.now) (figures_of month.now) (posting_of posting.now) before }
{
    let month = month.extent();
    ledger.view(pool).check(form, month)?;
    let setting = month.setting(form, pool.agents, pool.contracts);
    let checked = setting.check_posting(posting)?;
    checked.check_carriers()?;
    write_posting(&setting, &checked, ledger.accounts, ledger.entries);
    ledger.marks[posting.hour as usize] = POSTED;
    Ok(())
}

/// Posts an hour that comes as a packet, as the lines that it says would be posted. Memory of the
/// wrong size is told first, then bytes that are no packet, then the fault with the smallest
/// number.
pub fn post_packet<F: ContractForm>(
    month: &OpenMonth,
    form: &F,
    bytes: &[u8],
    pool: &Pool<'_>,
    ledger: &mut Ledger<'_>,
) -> Result<(), BookFault>
    ensures lent { SameLoan ledger.old ledger.new }
    ensures value { let before = memory_in pool.now ledger.old in
        outcome_of result (memory_in pool.now ledger.new)
        ≡ packet_posted (F.meaning form.now) (figures_of month.now) bytes.now before }
{
    ledger.view(pool).check_size(month.extent())?;
    let packet = PacketPosting::read(bytes)?;
    post(month, form, &packet.posting(), pool, ledger)
}

/// Withdraws an hour's posting: the hour is free, and its entries are neutral.
pub fn withdraw<F: ContractForm>(
    month: &OpenMonth,
    form: &F,
    hour: u32,
    pool: &Pool<'_>,
    ledger: &mut Ledger<'_>,
) -> Result<(), BookFault>
    ensures lent { SameLoan ledger.old ledger.new }
    ensures value { let before = memory_in pool.now ledger.old in
        outcome_of result (memory_in pool.now ledger.new)
        ≡ withdrawn (F.meaning form.now) (figures_of month.now) hour before }
{
    let month = month.extent();
    ledger.view(pool).check(form, month)?;
    let stamp = month.check_hour(hour)?;
    if ledger.marks[hour as usize] == FREE {
        return Err(BookFault::FreeHour(hour));
    }
    let nothing: Holding = Pair::neutral();
    let fresh = [nothing; MOST_AGENTS as usize];
    replace_hour(
        stamp,
        &fresh[..pool.agents.len()],
        ledger.accounts,
        ledger.entries,
    );
    ledger.marks[hour as usize] = FREE;
    Ok(())
}
