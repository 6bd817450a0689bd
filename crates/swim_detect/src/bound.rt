//! The bound of the law of detection as figures, and the mean beside it.

ghost use Rattle.std.specs.Prelude.{◌≡◌, ◌≤◌, ℕ};
ghost use Rattle.swim_rules.specs.declared.table.TheConstants.{ROWS_MAX};
ghost use Rattle.swim_member.specs.State.{State};
ghost use Rattle.swim_detect.specs.Bounds.{confirmed_within, suspected_within, TakesBound, KeepsBound};

/// How long a member that stopped is held for alive by another, at the most, in ticks of that one from the last ack on.
#[derive(Clone, Copy, Debug, PartialEq, Eq)]
pub struct DetectionBound {
    /// After so many ticks it is suspected.
    pub suspected: u64,
    /// After so many ticks it is confirmed.
    pub confirmed: u64,
}

impl DetectionBound {
    /// The bound for a member that knows so many others, the one that stopped among them (SWIM, section 4.3), with a probe in
    /// so many ticks, and suspicions of so many.
    pub fn of(period: u64, suspect: u64, others: usize) -> DetectionBound
        requires period { period ≤ 1000 }
        requires suspect { suspect ≤ 100000 }
        requires others { others ≤ ROWS_MAX }
        ensures suspected { result.suspected ≡ suspected_within period others }
        ensures confirmed { result.confirmed ≡ confirmed_within period suspect others }
        // the law of detection gives no member longer, and some so long
        ensures within { (x : ℕ) → (s : State) → KeepsBound others x s }
        ensures reached { (x : ℕ) → (s : State) → TakesBound others x s }
    {
        let suspected = 2 * others as u64 * period;
        DetectionBound {
            suspected,
            confirmed: suspected + suspect,
        }
    }
}
