//! The hour of the highest withdrawal: peaks join to the larger kWh, and of equal kWh to the earlier hour.
ghost use Rattle.std.specs.Prelude.{◌≡◌};

use crate::traits::Tally;
use std::cmp;
use std::cmp::Reverse;

/// An hour's withdrawn kWh with its hour; with no kWh the hour is 0.
#[derive(Clone, Copy, PartialEq, Eq, Debug)]
pub struct Peak {
    pub kwh: u64,
    pub hour: u32,
    ghost idle: { (kwh ≡ 0 → hour ≡ 0) },
}

#[tactic(auto, using(crate::specs::PeakLaws::peak_same, std::proofs::lemmas::Bool::Decides::nat_tests))]
impl Peak {
    ghost use Rattle.tally.specs.Peak.{peak_of};

    /// The peak of one hour alone.
    pub fn of(kwh: u64, hour: u32) -> Peak
        ensures { result ≡ peak_of kwh hour }
    {
        Peak {
            kwh,
            hour: if kwh == 0 { 0 } else { hour },
        }
    }
}

#[tactic(auto, using(crate::specs::PeakLaws::peak_same, std::proofs::lemmas::Bool::Decides::nat_tests))]
impl Tally for Peak {
    ghost use Rattle.tally.specs.Peak.{no_peak, peak_joined};
    ghost use Rattle.tally.specs.PeakLaws.{peak_lawful};

    ghost nothing = { no_peak };

    ghost joined = { peak_joined };

    ghost lawful = { peak_lawful };

    fn neutral() -> Peak {
        Peak { kwh: 0, hour: 0 }
    }

    fn join(self, other: Peak) -> Peak {
        cmp::max_by_key(self, other, |peak| (peak.kwh, Reverse(peak.hour)))
    }
}
