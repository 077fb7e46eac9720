//! Opening a month.
ghost use Rattle.std.specs.Prelude.{◌≡◌};
ghost use Rattle.book.specs.Lent.{memory_with, SameLoan};
ghost use Rattle.book.specs.Months.{opened_as};
ghost use Rattle.book.specs.Opening.{opened};
ghost use Rattle.book.specs.Outcomes.{outcome_of};

use crate::memory::{Ledger, Pool};
use crate::months::{MonthFigures, OpenMonth};
use forms::Contract;
use settlement::{Agent, BookFault, Holding};
use tally::{Pair, Tally};

/// Opens a month; all lines, energies, marks and contract places are emptied.
pub fn open(
    figures: MonthFigures,
    agents: &[Agent],
    contracts: &mut [Option<Contract>],
    ledger: &mut Ledger<'_>,
) -> Result<OpenMonth, BookFault>
    ensures lent { SameLoan ledger.old ledger.new }
    ensures value { outcome_of (opened_as result) (memory_with agents.now contracts.new ledger.new)
        ≡ opened figures (memory_with agents.now contracts.old ledger.old) }
{
    let pool = Pool { agents, contracts };
    let month = ledger.view(&pool).extent_of(figures)?;
    let nothing: Holding = Pair::neutral();
    ledger.accounts.fill(nothing);
    contracts.fill(None);
    ledger.marks.fill(0);
    ledger.entries.fill(nothing);
    Ok(month.opened())
}
