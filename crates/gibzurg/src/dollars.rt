//! Money in words.
use std::fmt;

/// An amount in points, of which 10,000 make a dollar.
#[derive(Clone, Copy)]
pub(crate) struct Dollars(pub(crate) i128);

impl From<i64> for Dollars {
    fn from(points: i64) -> Dollars {
        Dollars(i128::from(points))
    }
}

impl fmt::Display for Dollars {
    fn fmt<W: fmt::Write>(&self, f: &mut fmt::Formatter<W>) -> fmt::Result {
        let points = self.0.unsigned_abs();
        let whole = points / 10_000;
        let part = points % 10_000;
        if self.0 < 0 {
            write!(f, "minus ")?;
        }
        write!(f, "{whole}.{part:04} dollars")
    }
}
