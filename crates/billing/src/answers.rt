//! What C is answered.
ghost use Rattle.std.specs.Prelude.{◌≡◌};

use meter::MeterFault;
use packets::ByteFault;

/// What a call answers: the number and the place of its fault, or 0 and 0 where there is none.
#[repr(C)]
#[derive(Clone, Copy, PartialEq, Eq, Debug)]
pub struct Answer {
    pub number: u32,
    pub place: u32,
}

impl Answer {
    /// That there is no fault.
    pub(crate) const ACCEPTED: Answer = Answer {
        number: 0,
        place: 0,
    };
}

/// A fault of a meter's day, by its number and its place.
impl From<MeterFault> for Answer {
    ghost use Rattle.billing.specs.Answers.{of_meter};

    ghost from_gives = { λ fault r. r ≡ of_meter fault };

    fn from(fault: MeterFault) -> Answer {
        Answer {
            number: fault.number(),
            place: fault.place(),
        }
    }
}

/// A fault of a packet, by its number and its place.
impl From<ByteFault> for Answer {
    ghost use Rattle.billing.specs.Answers.{of_packet};

    ghost from_gives = { λ fault r. r ≡ of_packet fault };

    fn from(fault: ByteFault) -> Answer {
        Answer {
            number: fault.number(),
            place: fault.place(),
        }
    }
}
