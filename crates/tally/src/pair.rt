//! Two tallies kept side by side, which join part by part.
use crate::traits::{Reversible, Tally};

/// A tally of two tallies.
#[derive(Clone, Copy, PartialEq, Eq, Debug)]
pub struct Pair<A, B> {
    pub first: A,
    pub second: B,
}

impl<A: Tally, B: Tally> Tally for Pair<A, B> {
    ghost use Rattle.std.proofs.Common.{rules};
    ghost use Rattle.tally.specs.Pair.{pair_of, pair_joined};

    ghost nothing = { pair_of A.Tally.nothing B.Tally.nothing };

    ghost joined = { pair_joined A.Tally.joined B.Tally.joined };

    ghost lawful = { Prim.search rules };

    fn neutral() -> Pair<A, B> {
        Pair {
            first: A::neutral(),
            second: B::neutral(),
        }
    }

    fn join(self, other: Pair<A, B>) -> Pair<A, B> {
        let Pair { first, second } = self;
        let Pair {
            first: more_first,
            second: more_second,
        } = other;
        Pair {
            first: first.join(more_first),
            second: second.join(more_second),
        }
    }
}

impl<A: Tally + Reversible, B: Tally + Reversible> Reversible for Pair<A, B> {
    ghost use Rattle.tally.specs.Pair.{pair_undone};

    ghost undone = { pair_undone A.Reversible.undone B.Reversible.undone };

    fn opposite(self) -> Pair<A, B> {
        let Pair { first, second } = self;
        Pair {
            first: first.opposite(),
            second: second.opposite(),
        }
    }
}
