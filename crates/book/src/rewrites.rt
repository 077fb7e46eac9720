//! An hour written anew: entries hold the result, and accounts lose the old entry and gain the new.
ghost use Rattle.std.specs.Prelude.{◌≡◌, ℕ, ◌*◌, ◌≤◌, length, slice_index_or};
ghost use Rattle.calendar.specs.Limits.{hours_of};
ghost use Rattle.forms.specs.Limits.{most_agents};
ghost use Rattle.settlement.specs.Holdings.{no_holding};
ghost use Rattle.book.specs.Rewriting.{account_with, entries_with, accounts_with};

use calendar::HourStamp;
use settlement::Holding;
use tally::update;

/// Gives an entry its new value: its account loses the old one and gains the new.
fn replace_entry(account: &mut Holding, entry: &mut Holding, new: Holding)
    ensures account { account.new ≡ account_with account.old entry.old new }
    ensures entry { entry.new ≡ new }
{
    *account = update(*account, *entry, new);
    *entry = new;
}

/// Gives the hour's entry of each agent its new value.
pub(crate) fn replace_hour(
    stamp: HourStamp,
    fresh: &[Holding],
    accounts: &mut [Holding],
    entries: &mut [Holding],
)
    requires few { length fresh.now ≤ most_agents }
    requires accounts_long { length accounts.old ≡ length fresh.now }
    requires entries_long { length entries.old ≡ length fresh.now * hours_of stamp.days }
    ensures entries { let new = λ (i : ℕ). slice_index_or fresh.now i no_holding in
        entries.new ≡ entries_with (hours_of stamp.days) stamp.hour new entries.old }
    ensures accounts { let new = λ (i : ℕ). slice_index_or fresh.now i no_holding in
        accounts.new ≡ accounts_with (hours_of stamp.days) stamp.hour new entries.old accounts.old }
{
    for (i, new) in fresh.iter().enumerate() {
        let at = stamp.place(i as u32);
        replace_entry(&mut accounts[i], &mut entries[at], *new);
    }
}
