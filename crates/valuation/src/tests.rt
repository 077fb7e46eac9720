// Worked figures, with the edges on both sides.
use crate::{MOST_AMOUNT, MOST_COST_AMOUNT, amount, cost_amount, excess, share};

#[test]
fn amounts(rt: HostRuntime) {
    // energy, factor, price; the points
    let cases: [(u32, u32, u32, u64); 9] = [
        (1_000, 98_000, 51_234, 502_093),
        (1, 100_000, 50, 1),
        (1, 100_000, 49, 0),
        (1, 100_000, 150, 2),
        (1, 100_000, 149, 1),
        (0, 150_000, 2_000_000, 0),
        (4_000_000, 150_000, 0, 0),
        (4_000_000, 50_000, 2_000_000, 40_000_000_000),
        (4_000_000, 150_000, 2_000_000, 120_000_000_000),
    ];
    for (energy, factor, price, points) in cases {
        assert!(rt; energy <= 4_000_000 && factor <= 150_000 && price <= 2_000_000);
        assert_eq!(rt; amount(energy, factor, price), points);
    }
    assert_eq!(rt; MOST_AMOUNT, 120_000_000_000);
}

#[test]
fn cost_amounts(rt: HostRuntime) {
    // energy, cost; the points
    let cases: [(u32, u32, u64); 8] = [
        (1, 50, 1),
        (1, 49, 0),
        (1, 150, 2),
        (1, 149, 1),
        (3, 83, 2),
        (0, 2_000_000, 0),
        (4_000_000, 0, 0),
        (4_000_000, 2_000_000, 80_000_000_000),
    ];
    for (energy, cost, points) in cases {
        assert!(rt; energy <= 4_000_000 && cost <= 2_000_000);
        assert_eq!(rt; cost_amount(energy, cost), points);
    }
    assert_eq!(rt; MOST_COST_AMOUNT, 80_000_000_000);
}

#[test]
fn excesses(rt: HostRuntime) {
    // price, gross, injected, factor, cost; the points
    let cases: [(u32, u32, u32, u32, u32, u64); 8] = [
        (50_000, 100, 95, 100_000, 80_000, 32_500),
        (80_000, 100, 95, 100_000, 80_000, 4_000),
        (80_001, 100, 95, 100_000, 80_000, 0),
        (80_000, 100, 100, 100_000, 80_000, 0),
        (80_000, 95, 100, 100_000, 80_000, 0),
        (0, 0, 0, 50_000, 0, 0),
        (0, 4_000_000, 0, 50_000, 2_000_000, 80_000_000_000),
        (2_000_000, 4_000_000, 4_000_000, 150_000, 2_000_000, 0),
    ];
    for (price, gross, injected, factor, cost, points) in cases {
        assert!(rt; price <= 2_000_000 && cost <= 2_000_000 && factor <= 150_000);
        assert!(rt; gross <= 4_000_000 && injected <= 4_000_000);
        assert_eq!(rt; excess(price, gross, injected, factor, cost), points);
    }
}

#[test]
fn shares(rt: HostRuntime) {
    // points, weights; the parts
    let cases: [(u64, [u32; 3], [u64; 3]); 9] = [
        (10, [1, 1, 1], [3, 3, 4]),
        (1, [1, 1, 1], [0, 0, 1]),
        (10, [1, 0, 2], [3, 0, 7]),
        (100, [0, 7, 0], [0, 100, 0]),
        (0, [5, 0, 9], [0, 0, 0]),
        (0, [0, 0, 0], [0, 0, 0]),
        (7, [0, 0, 0], [0, 0, 0]),
        (
            5_120_000_000_000,
            [4_000_000, 4_000_000, 1],
            [2_559_999_680_000, 2_559_999_680_000, 640_000],
        ),
        (
            u64::MAX,
            [1_400_000_000, 0, 1_400_000_000],
            [9_223_372_036_854_775_807, 0, 9_223_372_036_854_775_808],
        ),
    ];
    for (points, [a, b, c], parts) in cases {
        assert!(rt; a <= 1_400_000_000 && b <= 1_400_000_000 && c <= 1_400_000_000);
        let mut shared = [0; 3];
        share(points, &[a, b, c], &mut shared);
        assert_eq!(rt; shared, parts);
    }
}
