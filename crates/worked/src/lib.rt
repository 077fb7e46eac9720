//! The figures that are worked by hand from the rules, in one table.
#![tactic(auto)]

ghost use Rattle.std.specs.Prelude.{◌≡◌};
ghost use Rattle.worked.specs.Figures.{figures};

#[cfg(test)]
mod tests;

/// The figures worked by hand, each of which is what the rules give: a host may print them, or hold its own working against them.
/// Amounts are in points and quantities in kWh; a band is 1 for peak, 2 for medium and 3 for base; a byte of a packet is a number.
pub fn worked_figures() -> [i64; 20]
    ensures { result ≡ figures }
{
    [
        502_093, // the amount of 1,000 kWh at factor 98,000 and price 51,234
        1, // the amount of 1 kWh at factor 100,000 and price 50
        0, // the same at price 49
        3, // 10 points shared over the weights 1, 1 and 1: the first part
        3, // the second part
        4, // the third part
        300, // a share of 1,000 injected and 300 of 900 withdrawn, with margin 33
        0, // the same with margin 400
        32_500, // the excess of gross 100, injected 95, factor 100,000 and cost 80,000 at price 50,000
        2, // the band of Monday at 7
        3, // the band of Saturday at 7
        1, // the band of Sunday at 21
        560_000, // the generator's balance of a month with one posted hour and a block of 100 kWh
        -583_640, // the distributor's
        23_640, // the residue of that month
        0, // the net energy of a quarter with gross 10 delivered and net 5 received
        5, // its external auxiliaries
        15, // its auxiliaries
        172, // the first of the two bytes of 300 in a packet
        2, // the second
    ]
}
