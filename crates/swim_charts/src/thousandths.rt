//! Numbers with three decimals.

use std::fmt;

/// A number with three decimals, in thousandths.
#[derive(Clone, Copy, Debug, PartialEq, Eq)]
pub struct Thousandths(pub u64);

impl fmt::Display for Thousandths {
    fn fmt<W: fmt::Write>(&self, f: &mut fmt::Formatter<W>) -> fmt::Result {
        let whole = self.0 / 1000;
        let part = self.0 % 1000;
        write!(f, "{whole}.{part:03}")
    }
}
