//! Sharing points over weights, to the last point.
ghost use Rattle.std.specs.Prelude.{◌≡◌, ◌+◌, ◌*◌, ◌/◌, ◌%◌, ◌^◌, ◌<◌, ◌≤◌, length, sum};
ghost use Rattle.std.specs.List.{All};
ghost use Rattle.valuation.specs.Sharing.{part_at, parts_of, AddsUp, Fair};

/// A sharing on its way: the points, the total of the weights, and the sum of those before the next.
#[derive(Drop)]
struct Split {
    points: u64,
    total: u64,
    before: u64,
    ghost within: { before ≤ total },
    ghost total_limit: { total < 2 ^ 32 },
}

impl Split {
    /// What the remainder gives weights of this sum together, rounded down.
    fn running(&self, sum: u64) -> u64
        requires some { 0 < self.now.total }
        requires within { sum ≤ self.now.total }
        ensures { result ≡ self.now.points % self.now.total * sum / self.now.total }
    {
        self.points % self.total * sum / self.total
    }

    /// The part of the next weight. It is 0 where the total is 0.
    #[tactic(auto, using(crate::proofs::Sharing::part_at_within))]
    fn part(&self, weight: u64) -> u64
        requires within { self.now.before + weight ≤ self.now.total }
        ensures value { result ≡ part_at self.now.points self.now.total self.now.before weight }
        ensures bound { result ≤ self.now.points }
    {
        if self.total == 0 {
            return 0;
        }
        let of_remainder = self.running(self.before + weight) - self.running(self.before);
        self.points / self.total * weight + of_remainder
    }

    /// The part of the next weight, which then counts as one before.
    fn next_part(&mut self, weight: u64) -> u64
        requires within { self.old.before + weight ≤ self.old.total }
        ensures value { result ≡ part_at self.old.points self.old.total self.old.before weight }
        ensures after { self.new.before ≡ self.old.before + weight }
        ensures same { (self.new.points ≡ self.old.points) × (self.new.total ≡ self.old.total) }
    {
        let part = self.part(weight);
        self.before += weight;
        part
    }
}

/// Shares `points` over the weights, and writes each weight's part to its place in `parts`.
/// The parts add up to the points; where no weight is above 0 they are 0.
pub fn share(points: u64, weights: &[u32], parts: &mut [u64])
    requires places { length parts.old ≡ length weights.now }
    requires total_limit { sum weights.now < 2 ^ 32 }
    ensures value { parts.new ≡ parts_of points weights.now }
    ensures adds_up { AddsUp points weights.now parts.new }
    ensures fair { Fair points weights.now parts.new }
    ensures within { All (λ part. part ≤ points) parts.new }
    ensures none { sum weights.now ≡ 0 → All (λ part. part ≡ 0) parts.new }
{
    let total: u32 = weights.iter().sum();
    let mut split = Split {
        points,
        total: u64::from(total),
        before: 0,
    };
    for (i, weight) in weights.iter().enumerate() {
        parts[i] = split.next_part(u64::from(*weight));
    }
}
