//! Quantities of energy, in kWh, number by number modulo 2^64.
ghost use Rattle.std.specs.Prelude.{◌^◌, ◌<◌};

use crate::traits::{Reversible, Tally};

/// The energy that an agent put into the grid and took out of it.
#[derive(Clone, Copy, PartialEq, Eq, Debug)]
pub struct Energy {
    pub injected: u64,
    pub withdrawn: u64,
    ghost injected_fits: { injected < 2 ^ 64 },
    ghost withdrawn_fits: { withdrawn < 2 ^ 64 },
}

#[tactic(auto, using(crate::specs::EnergyLaws::energy_same))]
impl Tally for Energy {
    ghost use Rattle.tally.specs.Energy.{no_energy, energy_joined};
    ghost use Rattle.tally.specs.EnergyLaws.{energy_lawful};

    ghost nothing = { no_energy };

    ghost joined = { energy_joined };

    ghost lawful = { energy_lawful };

    fn neutral() -> Energy {
        Energy {
            injected: 0,
            withdrawn: 0,
        }
    }

    fn join(self, other: Energy) -> Energy {
        Energy {
            injected: self.injected.wrapping_add(other.injected),
            withdrawn: self.withdrawn.wrapping_add(other.withdrawn),
        }
    }
}

#[tactic(auto, using(crate::specs::EnergyLaws::energy_same, crate::specs::EnergyLaws::energy_cancels))]
impl Reversible for Energy {
    ghost use Rattle.tally.specs.Energy.{energy_undone};

    ghost undone = { energy_undone };

    fn opposite(self) -> Energy {
        Energy {
            injected: self.injected.wrapping_neg(),
            withdrawn: self.withdrawn.wrapping_neg(),
        }
    }
}
