//! A posting on memory that is lent part by part, by a host that holds no more than slices.
ghost use Rattle.std.specs.Prelude.{◌≡◌};
ghost use Rattle.settlement.specs.Posting.{posting_of};
ghost use Rattle.book.specs.Memory.{memory_of};
ghost use Rattle.book.specs.Months.{figures_of};
ghost use Rattle.book.specs.Outcomes.{outcome_of};
ghost use Rattle.book.specs.Posting.{posted};

use book::{Agent, BookFault, Holding, Ledger, OpenMonth, Pool, Posting, post};
use forms::{Contract, ContractForm};

/// What the host has of a book that a posting only looks into.
#[derive(Drop)]
pub(crate) struct Host<'h, F> {
    pub(crate) month: &'h OpenMonth,
    pub(crate) form: &'h F,
    pub(crate) agents: &'h [Agent],
    pub(crate) contracts: &'h [Option<Contract>],
}

/// Posts an hour. What the host learns of each of its slices is what the definition of the call says.
pub(crate) fn post_in<F: ContractForm>(
    host: &Host<'_, F>,
    posting: &Posting<'_>,
    accounts: &mut [Holding],
    marks: &mut [u8],
    entries: &mut [Holding],
) -> Result<(), BookFault>
    ensures { let lent = memory_of host.now.agents.now in
        let places = host.now.contracts.now in
        let before = lent accounts.old places marks.old entries.old in
        let figures = figures_of host.now.month.now in
        outcome_of result (lent accounts.new places marks.new entries.new)
        ≡ posted (F.meaning host.now.form.now) figures (posting_of posting.now) before }
{
    let pool = Pool {
        agents: host.agents,
        contracts: host.contracts,
    };
    let mut ledger = Ledger {
        accounts,
        marks,
        entries,
    };
    post(host.month, host.form, posting, &pool, &mut ledger)
}
