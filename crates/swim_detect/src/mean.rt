//! How soon the first member suspects one that stopped, on the mean.

/// A chance of 1, in the parts that are counted with.
const CERTAIN: u64 = 1_000_000_000;

/// The milliseconds until the first of so many others suspects one that stopped, on the mean, with a probe in so many
/// milliseconds, where each draws its targets at random (SWIM, section 3.1): `period / (1 - (1 - 1/others)^others)`. Nothing
/// of it is proved. A member probes in turns, which come out about the same.
pub fn mean_first_suspicion(period_ms: u64, others: usize) -> u64 {
    let others = (others as u64).max(1);
    let mut missed = CERTAIN;
    for _ in 0..others {
        missed = missed.saturating_mul(others - 1) / others;
    }
    let noticed = CERTAIN.saturating_sub(missed).max(1);
    period_ms.saturating_mul(CERTAIN) / noticed
}
