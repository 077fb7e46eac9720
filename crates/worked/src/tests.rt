// The worked figures, each at its place.
use crate::worked_figures;

#[test]
fn figures_in_their_places(rt: HostRuntime) {
    // what is worked; the figure
    let cases: [(&str, i64); 20] = [
        ("amount at price 51,234", 502_093),
        ("amount at price 50", 1),
        ("amount at price 49", 0),
        ("first part of 10 points", 3),
        ("second part of 10 points", 3),
        ("third part of 10 points", 4),
        ("share with margin 33", 300),
        ("share with margin 400", 0),
        ("excess at price 50,000", 32_500),
        ("band of Monday at 7", 2),
        ("band of Saturday at 7", 3),
        ("band of Sunday at 21", 1),
        ("the generator's balance", 560_000),
        ("the distributor's balance", -583_640),
        ("residue of the month", 23_640),
        ("net energy of a quarter", 0),
        ("its external auxiliaries", 5),
        ("its auxiliaries", 15),
        ("first byte of 300", 172),
        ("second byte of 300", 2),
    ];
    for ((name, points), worked) in cases.into_iter().zip(worked_figures()) {
        assert_eq!(rt; worked, points, "{name}");
    }
}
