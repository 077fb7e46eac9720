use crate::{
    Energy, Money, MoneyLine, Pair, Peak, Reversible, Tally, fold, fold_day, fold_days, update,
};

fn money(market: i64, contract: i64, overcost: i64, power: i64) -> Money {
    Money {
        market,
        contract,
        overcost,
        power,
    }
}

fn energy(injected: u64, withdrawn: u64) -> Energy {
    Energy {
        injected,
        withdrawn,
    }
}

/// The two joined in either order, and what the sum is with the second taken out again.
fn joined<T: Reversible + Copy>(a: T, b: T, sum: T) -> [T; 3] {
    [a.join(b), b.join(a), sum.join(b.opposite())]
}

// Two values, and what they join to.
#[test]
fn money_joins(rt: HostRuntime) {
    let cases = [
        (
            money(1, 2, 3, 4),
            money(10, 20, 30, 40),
            money(11, 22, 33, 44),
        ),
        (
            money(i64::MAX, 0, 0, -1),
            money(1, 0, 0, 1),
            money(i64::MIN, 0, 0, 0),
        ),
        (
            money(0, i64::MIN, 5, 0),
            money(0, -1, -5, 0),
            money(0, i64::MAX, 0, 0),
        ),
    ];
    for (a, b, sum) in cases {
        assert_eq!(rt; joined(a, b, sum), [sum, sum, a]);
    }
    assert_eq!(rt;
        money(i64::MIN, 1, -2, 0).opposite(),
        money(i64::MIN, -1, 2, 0)
    );
}

#[test]
fn energy_joins(rt: HostRuntime) {
    let cases = [
        (energy(1, 2), energy(10, 20), energy(11, 22)),
        (energy(u64::MAX, 7), energy(1, 0), energy(0, 7)),
        (
            energy(0, u64::MAX),
            energy(0, u64::MAX),
            energy(0, u64::MAX - 1),
        ),
    ];
    for (a, b, sum) in cases {
        assert_eq!(rt; joined(a, b, sum), [sum, sum, a]);
    }
    assert_eq!(rt; energy(0, 1).opposite(), energy(0, u64::MAX));
}

// More kWh win, of equal kWh the earlier hour, and no kWh carry no hour.
#[test]
fn peaks_join(rt: HostRuntime) {
    let cases = [
        (Peak::of(5, 9), Peak::of(6, 10), Peak::of(6, 10)),
        (Peak::of(6, 10), Peak::of(6, 9), Peak::of(6, 9)),
        (Peak::of(6, 9), Peak::of(6, 9), Peak::of(6, 9)),
        (Peak::of(0, 3), Peak::of(0, 2), Peak::neutral()),
        (Peak::of(0, 3), Peak::of(1, 9), Peak::of(1, 9)),
        (
            Peak::of(u64::MAX, 743),
            Peak::of(u64::MAX - 1, 0),
            Peak::of(u64::MAX, 743),
        ),
    ];
    for (a, b, best) in cases {
        assert_eq!(rt; a.join(b), best);
        assert_eq!(rt; b.join(a), best);
    }
    assert_eq!(rt; Peak::of(0, 3).hour, 0);
}

#[test]
fn pairs_fold(rt: HostRuntime) {
    let a = Pair {
        first: money(1, 2, 3, 4),
        second: energy(5, 6),
    };
    let b = Pair {
        first: money(-1, i64::MIN, 0, 7),
        second: energy(u64::MAX, 1),
    };
    let sum = Pair {
        first: money(0, i64::MIN + 2, 3, 11),
        second: energy(4, 7),
    };
    assert_eq!(rt; a.join(b), sum);
    assert_eq!(rt; fold(&[a, b]), sum);
    assert_eq!(rt; fold(&[b, a, a.opposite()]), b);
    let none: [Pair<Money, Energy>; 0] = [];
    assert_eq!(rt; fold(&none), Pair::neutral());
}

// An account of the items old and other, after old changed to new.
#[test]
fn accounts_are_updated(rt: HostRuntime) {
    let cases = [
        (energy(1, 2), energy(10, 20), energy(3, 4)),
        (energy(u64::MAX, 0), energy(10, u64::MAX), energy(0, 1)),
        (energy(7, 7), energy(0, 0), energy(7, 7)),
    ];
    for (old, other, new) in cases {
        let account = fold(&[old, other]);
        assert_eq!(rt; update(account, old, new), fold(&[new, other]));
    }
}

// How many hours, and what all of them and what those from the third day on come to.
#[test]
fn days_fold(rt: HostRuntime) {
    let mut hours = [energy(1, 2); 50];
    hours[48] = energy(10, 20);
    let cases = [
        (0, energy(0, 0), energy(0, 0)),
        (24, energy(24, 48), energy(0, 0)),
        (48, energy(48, 96), energy(0, 0)),
        (50, energy(59, 118), energy(11, 22)),
    ];
    for (count, all, third) in cases {
        assert!(rt; count <= 50);
        let month = &hours[0..count];
        assert_eq!(rt; fold_days(month), all);
        assert_eq!(rt; fold_day(month, 2), third);
        assert_eq!(rt; fold_day(month, usize::MAX), energy(0, 0));
        assert_eq!(rt; fold(&hours[count.min(48)..count]), third);
    }
    assert_eq!(rt; fold_day(&hours, 1), energy(24, 48));
    assert_eq!(rt; fold(&hours[24..48]), energy(24, 48));
}

// The lines of money one by one, and together.
#[test]
fn money_by_line(rt: HostRuntime) {
    let lines = money(1, -20, 300, i64::MIN);
    let by_line = [1, -20, 300, i64::MIN];
    let mut joined = Money::neutral();
    for (line, points) in MoneyLine::ALL.into_iter().zip(by_line) {
        assert_eq!(rt; lines.on(line), points);
        let alone = Money::alone(line, points);
        for other in MoneyLine::ALL {
            assert_eq!(rt; alone.on(other), if other == line { points } else { 0 });
        }
        joined = joined.join(alone);
    }
    assert_eq!(rt; joined, lines);
    let cases = [
        (money(560_000, -40, 3, 5), 559_968),
        (money(0, 0, 0, 0), 0),
        (money(i64::MAX, 1, 0, 0), i64::MIN),
        (money(i64::MIN, 0, 0, -1), i64::MAX),
    ];
    for (lines, balance) in cases {
        assert_eq!(rt; lines.balance(), balance);
    }
}
