//! Points that are carried over withdrawn energy, by distributors and large consumers alone.
ghost use Rattle.std.specs.Prelude.{◌≡◌, ℕ, ◌<◌, ◌≤◌, ◌^◌, ◌&&◌, ◌==◌, length, nat_lt, sum};
ghost use Rattle.forms.specs.Limits.{most_agents};
ghost use Rattle.settlement.specs.Hour.{weights_in};
ghost use Rattle.settlement.specs.Limits.{most_points};
ghost use Rattle.valuation.specs.Sharing.{parts_of};

use forms::MOST_AGENTS;
use valuation::share;

/// As many places as a book has agents at most: arrays, since the library allocates nothing.
pub(crate) const PLACES: usize = MOST_AGENTS as usize;

/// Points to be carried by agents, each by its weight.
pub(crate) trait Carried {
    /// How many agents there are.
    ghost agents: { Self → ℕ };

    /// The weight of the agent at a place.
    ghost weight: { Self → ℕ → ℕ };

    /// The points.
    ghost points: { Self → ℕ };

    /// How many agents there are.
    fn agents(&self) -> usize
        ensures value { result ≡ agents self.now }
        ensures few { result ≤ most_agents };

    /// The weight of the agent at a place.
    fn weight(&self, index: usize) -> u32
        requires { index < agents self.now }
        ensures { result ≡ weight self.now index };

    /// The points.
    fn points(&self) -> u64
        ensures value { result ≡ points self.now }
        ensures bound { result ≤ most_points };
}

/// Writes the weight of each agent to its place.
fn fill_weights<C: Carried>(carried: &C, weights: &mut [u32])
    requires { length weights.old ≡ C.agents carried.now }
    ensures { weights.new ≡ weights_in (C.agents carried.now) (C.weight carried.now) }
{
    for (i, weight) in weights.iter_mut().enumerate() {
        *weight = carried.weight(i);
    }
}

/// All weights together.
fn together(weights: &[u32]) -> u64
    requires { length weights.now ≤ most_agents }
    ensures { result ≡ sum weights.now }
{
    weights.iter().map(|weight| u64::from(*weight)).sum()
}

/// Whether all weights together are nothing; the weights are scratch memory.
fn is_weightless_by<C: Carried>(carried: &C, weights: &mut [u32]) -> bool
    requires long { length weights.old ≡ C.agents carried.now }
    requires few { length weights.old ≤ most_agents }
    ensures { let weights = weights_in (C.agents carried.now) (C.weight carried.now) in
        result ≡ (sum weights == 0) }
{
    fill_weights(carried, weights);
    together(weights) == 0
}

/// Whether all weights together are nothing.
fn is_weightless<C: Carried>(carried: &C) -> bool
    ensures { let weights = weights_in (C.agents carried.now) (C.weight carried.now) in
        result ≡ (sum weights == 0) }
{
    let mut weights = [0u32; PLACES];
    is_weightless_by(carried, &mut weights[..carried.agents()])
}

/// Whether there are points, and no weight carries them.
pub(crate) fn is_uncarried<C: Carried>(carried: &C) -> bool
    ensures { let weights = weights_in (C.agents carried.now) (C.weight carried.now) in
        result ≡ (nat_lt 0 (C.points carried.now) && sum weights == 0) }
{
    carried.points() > 0 && is_weightless(carried)
}

/// Writes the part that each agent carries; the weights are scratch memory.
fn fill_parts_by<C: Carried>(carried: &C, weights: &mut [u32], parts: &mut [u64])
    requires long { length weights.old ≡ C.agents carried.now }
    requires parts_long { length parts.old ≡ C.agents carried.now }
    requires limit { sum (weights_in (C.agents carried.now) (C.weight carried.now)) < 2 ^ 32 }
    ensures value { let weights = weights_in (C.agents carried.now) (C.weight carried.now) in
        parts.new ≡ parts_of (C.points carried.now) weights }
    ensures bound { C.points carried.now ≤ most_points }
{
    fill_weights(carried, weights);
    share(carried.points(), weights, parts);
}

/// Writes the part that each agent carries.
pub(crate) fn fill_parts<C: Carried>(carried: &C, parts: &mut [u64])
    requires long { length parts.old ≡ C.agents carried.now }
    requires limit { sum (weights_in (C.agents carried.now) (C.weight carried.now)) < 2 ^ 32 }
    ensures value { let weights = weights_in (C.agents carried.now) (C.weight carried.now) in
        parts.new ≡ parts_of (C.points carried.now) weights }
    ensures bound { C.points carried.now ≤ most_points }
{
    let mut weights = [0u32; PLACES];
    fill_parts_by(carried, &mut weights[..carried.agents()], parts);
}
