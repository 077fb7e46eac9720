//! What a host lends of a book.
ghost use Rattle.std.specs.Prelude.{◌≡◌};

use book::{Agent, Ledger, Pool, View};
use forms::Contract;

/// All memory of a book, as it is lent to calls.
#[derive(Drop)]
pub struct Lent<'l> {
    pub agents: &'l [Agent],
    pub contracts: &'l mut [Option<Contract>],
    pub ledger: Ledger<'l>,
}

impl Lent<'_> {
    ghost use Rattle.book.specs.Lent.{memory_seen};
    ghost use Rattle.runs.specs.Lent.{memory_in};

    /// All of it, to be looked into.
    pub fn view(&self) -> View<'_, '_>
        ensures { memory_seen result ≡ memory_in self.now }
    {
        let pool = Pool {
            agents: self.agents,
            contracts: self.contracts,
        };
        self.ledger.view(&pool)
    }
}
