//! The agents of a book.
ghost use Rattle.std.specs.Prelude.{◌≡◌, if◌then◌else◌};

use forms::{Party, Role};
use valuation::MOST_ENERGY;

/// The most remunerable power, in kW.
const MOST_POWER: u32 = 1_000_000;

/// An agent as the host fills it in: raw figures, any at all. `capacity` is in kWh of an hour, `power` the remunerable power in kW.
#[derive(Clone, Copy, PartialEq, Eq, Debug)]
pub struct Agent {
    // A number, since any figure is answered: one that names no role is a fault to be told.
    pub role: u32,
    pub capacity: u32,
    pub power: u32,
}

/// Energy that counts only under some condition: all of it, or none.
fn counted(counts: bool, energy: u32) -> u32
    ensures { result ≡ (if counts then energy else 0) }
{
    if counts { energy } else { 0 }
}

impl Agent {
    ghost use Rattle.forms.specs.Roles.{carries, distributes};
    ghost use Rattle.settlement.specs.Agents.{agent_fits, counted};

    /// Whether its figures are within their limits.
    pub fn is_within_limits(&self) -> bool
        ensures { result ≡ agent_fits self.now }
    {
        match Role::named(self.role) {
            Some(role) => self.capacity <= MOST_ENERGY
                && self.power <= MOST_POWER
                && (role.is_generator() || self.power == 0),
            None => false,
        }
    }

    /// The energy by which it carries what the pool pays, where it withdrew so much.
    pub(crate) fn weight(&self, withdrawn: u32) -> u32
        ensures { result ≡ counted carries self.now.role withdrawn }
    {
        counted(
            Role::named(self.role).is_some_and(Role::is_carrier),
            withdrawn,
        )
    }

    /// The energy that it withdrew, if it is a distributor.
    pub(crate) fn distributed(&self, withdrawn: u32) -> u32
        ensures { result ≡ counted distributes self.now.role withdrawn }
    {
        counted(
            Role::named(self.role).is_some_and(Role::is_distributor),
            withdrawn,
        )
    }
}

/// An agent as a party to a contract.
impl From<&Agent> for Party {
    ghost use Rattle.settlement.specs.ContractFaults.{party_of};

    ghost from_gives = { λ agent party. party ≡ party_of agent.now };

    fn from(agent: &Agent) -> Party {
        Party {
            role: agent.role,
            capacity: agent.capacity,
        }
    }
}
