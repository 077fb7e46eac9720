//! The roles of agents.
ghost use Rattle.std.specs.Prelude.{◌≡◌, Some};
ghost use Rattle.forms.specs.Roles.{NamesRole, role_of, generates, carries, distributes, may_sell_to, unknown_role_text};

use std::error::Error;
use std::fmt;

/// What an agent is in the market.
#[derive(Clone, Copy, PartialEq, Eq, Debug)]
pub enum Role {
    Generator,
    Distributor,
    Consumer,
}

/// A number that names no role.
#[derive(Clone, Copy, PartialEq, Eq, Debug)]
pub struct UnknownRole(pub u32);

impl TryFrom<u32> for Role {
    type Error = UnknownRole;

    ghost try_from_gives = { NamesRole };

    fn try_from(number: u32) -> Result<Self, UnknownRole> {
        match number {
            1 => Ok(Role::Generator),
            2 => Ok(Role::Distributor),
            3 => Ok(Role::Consumer),
            _ => Err(UnknownRole(number)),
        }
    }
}

impl fmt::Display for UnknownRole {
    ghost output = { λ unknown. Some (unknown_role_text unknown) };

    fn fmt<W: fmt::Write>(&self, f: &mut fmt::Formatter<W>) -> fmt::Result {
        write!(f, "no role has number {}", self.0)
    }
}

impl Error for UnknownRole {}

impl Role {
    /// The role that a number names, if any.
    pub fn named(number: u32) -> Option<Role>
        ensures { result ≡ role_of number }
    {
        Role::try_from(number).ok()
    }

    /// Whether it may be obligated or forced to run, and is paid for power.
    pub fn is_generator(self) -> bool
        ensures { result ≡ generates self }
    {
        matches!(self, Role::Generator)
    }

    /// Whether it carries a share of what the pool pays.
    pub fn is_carrier(self) -> bool
        ensures { result ≡ carries self }
    {
        matches!(self, Role::Distributor | Role::Consumer)
    }

    /// Whether the energy that it withdraws counts where energy is shared among distributors.
    pub fn is_distributor(self) -> bool
        ensures { result ≡ distributes self }
    {
        matches!(self, Role::Distributor)
    }

    /// Whether an agent in it may sell to one in the role `buyer`.
    pub fn may_sell_to(self, buyer: Role) -> bool
        ensures { result ≡ may_sell_to self buyer }
    {
        match self {
            Role::Generator => buyer.is_carrier(),
            Role::Distributor => buyer == Role::Consumer,
            Role::Consumer => false,
        }
    }
}
