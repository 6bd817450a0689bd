//! When something happened, by the time of its era and the ticks of the member.

ghost use Rattle.std.specs.Prelude.{◌≡◌, ◌≤◌, ◌^◌, IfSome, IfNone};
ghost use Rattle.swim_explain.specs.Moments.{due_at, lateness, moment};

use swim_record::EraTime;

/// When so many ticks of an era had counted: milliseconds since the beginning of 1970, in UTC. It is an estimate, as if each tick had
/// come when it was due, and no later than the end of the era. None if the number is too large.
pub fn moment(time: EraTime, ticks: u64) -> Option<u64>
    ensures moment { IfSome result (λ at. at ≡ moment time ticks) }
    ensures none { IfNone result (2 ^ 64 ≤ due_at time ticks) }
{
    let counted = time.begun.checked_add(ticks.checked_mul(time.tick)?)?;
    if time.begun < time.ended {
        return Some(counted.min(time.ended));
    }
    Some(counted)
}

/// How many milliseconds an era took beyond what its ticks are to take, of which so many counted.
pub fn lateness(time: EraTime, ticks: u64) -> u64
    ensures { result ≡ lateness time ticks }
{
    let took = time.ended.saturating_sub(time.begun);
    took.saturating_sub(ticks.saturating_mul(time.tick))
}
