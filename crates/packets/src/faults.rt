//! Why bytes are no packet, or figures cannot be written as one. Bookkeepers look a fault up by its number and its place.
ghost use Rattle.std.specs.Prelude.{◌≡◌};

use thiserror::Error;

/// What is wrong with bytes or with figures.
#[derive(Clone, Copy, PartialEq, Eq, Debug, Error)]
pub enum ByteFault {
    /// The number that starts at this byte breaks the format, or bytes are left over from here on.
    #[error("no number that the format allows starts at byte {0}, or bytes are left over from there on")]
    Malformed(u32),
}

impl ByteFault {
    ghost use Rattle.packets.specs.Faults.{number_of, place_of};

    /// The fault's number.
    pub fn number(&self) -> u32
        ensures { result ≡ number_of self.now }
    {
        match *self {
            ByteFault::Malformed(_) => 17,
        }
    }

    /// The byte where what is wrong starts, from 0.
    pub fn place(&self) -> u32
        ensures { result ≡ place_of self.now }
    {
        match *self {
            ByteFault::Malformed(place) => place,
        }
    }
}

/// What is wrong with bytes, with figures, or with the memory that is lent for them.
#[derive(Clone, Copy, PartialEq, Eq, Debug, Error)]
pub enum PacketFault {
    /// The output is too short, or there are too few places for lines.
    #[error("memory of the wrong size")]
    WrongSize,
    /// The bytes are no packet, or the figures cannot be written as one.
    #[error(transparent)]
    Bytes(ByteFault),
}

impl PacketFault {
    ghost use Rattle.packets.specs.Faults.{packet_number, packet_place};

    /// The fault's number.
    pub fn number(&self) -> u32
        ensures { result ≡ packet_number self.now }
    {
        match self {
            PacketFault::WrongSize => 1,
            PacketFault::Bytes(fault) => fault.number(),
        }
    }

    /// The byte where what is wrong starts, from 0; 0 where there is none.
    pub fn place(&self) -> u32
        ensures { result ≡ packet_place self.now }
    {
        match self {
            PacketFault::WrongSize => 0,
            PacketFault::Bytes(fault) => fault.place(),
        }
    }
}

/// A fault of the bytes is carried whole.
impl From<ByteFault> for PacketFault {
    ghost use Rattle.packets.specs.declared.faults.PacketFault.TheVariants.{Bytes};

    ghost from_gives = { λ fault r. r ≡ Bytes fault };

    fn from(fault: ByteFault) -> PacketFault {
        PacketFault::Bytes(fault)
    }
}
