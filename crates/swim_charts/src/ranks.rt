//! Values by their rank.

ghost use Rattle.std.specs.Prelude.{◌≡◌, ◌<◌, ◌*◌, ◌^◌, [], length, IfOk, IfSome, IfNone};
ghost use Rattle.swim_charts.specs.Ranks.{AreRanks, of_hundred};

use std::alloc::AllocError;

/// The value below which so many of 100 are, itself included, of values in order.
pub fn of_hundred(sorted: &[u64], percent: usize) -> Option<u64>
    ensures { length sorted.now * percent < 2 ^ 64
        → result ≡ of_hundred percent sorted.now }
{
    let rank = sorted.len().saturating_mul(percent).div_ceil(100);
    sorted.get(rank.saturating_sub(1)).copied()
}

/// How far values are apart.
#[derive(Clone, Copy, Debug, PartialEq, Eq)]
pub struct Spread {
    /// The least.
    pub least: u64,
    /// The one in the middle. Of two in the middle it is the lesser.
    pub median: u64,
    /// The greatest.
    pub greatest: u64,
}

/// How far these values are apart; none where there are none.
pub fn spread_of(values: Vec<u64>) -> Result<Option<Spread>, AllocError>
    ensures ranks { IfOk result (λ found. IfSome found (AreRanks values.items)) }
    ensures none { IfOk result (λ found. IfNone found (values.items ≡ [])) }
{
    let mut sorted = values;
    sorted.sort()?;
    let count = sorted.len();
    if count == 0 {
        return Ok(None);
    }
    Ok(Some(Spread {
        least: sorted[0],
        median: sorted[(count - 1) / 2],
        greatest: sorted[count - 1],
    }))
}
