//! What joins, and what can be taken out again.
ghost use Rattle.std.specs.Prelude.{◌≡◌};
ghost use Rattle.tally.specs.Lawful.{Lawful};

/// Values that join into a total, with a value that adds nothing.
pub trait Tally: Sized {
    ghost nothing: { Self };

    ghost joined: { Self → Self → Self };

    /// The total of no values.
    fn neutral() -> Self
        ensures { result ≡ nothing };

    /// The two together.
    fn join(self, other: Self) -> Self
        ensures { result ≡ joined self other };

    // In whatever order and grouping values are joined, the total is the same.
    ghost lawful: { Lawful nothing joined };
}

/// A tally from which a value can be taken out again.
pub trait Reversible: Tally {
    ghost undone: { Self → Self };

    /// What takes `self` out of a total: joined with `self` it leaves nothing.
    fn opposite(self) -> Self
        ensures value { result ≡ undone self }
        ensures cancels { Self.Tally.joined self result ≡ Self.Tally.nothing };
}
