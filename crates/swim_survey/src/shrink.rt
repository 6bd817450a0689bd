//! The smallest plan by which something fails.

use std::alloc::AllocError;
use std::fmt::Write;
use swim_plan::{Plan, PlanKey};
use swim_simulate::SimulateFault;

/// How often all keys are tried.
const ROUNDS: u64 = 3;

/// How often the numbers of a key are halved, which all have fewer binary digits.
const HALVES: u64 = 32;

/// The keys whose numbers are made smaller, those first that make a run short.
const SHRUNK: [PlanKey; 17] = [
    PlanKey::Minutes,
    PlanKey::Members,
    PlanKey::Kills,
    PlanKey::Pauses,
    PlanKey::CutMembers,
    PlanKey::CutFor,
    PlanKey::Deaf,
    PlanKey::Mute,
    PlanKey::OddClocks,
    PlanKey::Repeats,
    PlanKey::Loss,
    PlanKey::Jitter,
    PlanKey::Dropped,
    PlanKey::Filled,
    PlanKey::RestartAfter,
    PlanKey::PauseFor,
    PlanKey::FailingSyncs,
];

/// What is tried with plans.
pub trait Trial {
    /// Whether it fails with a plan.
    fn fails(&mut self, plan: &Plan) -> Result<bool, SimulateFault>;
}

/// The plan with a smaller number of a key, as far as halving finds one with which the trial fails.
fn lowered<T: Trial>(trial: &mut T, plan: &Plan, key: PlanKey) -> Result<Plan, SimulateFault> {
    let mut best = *plan;
    let mut low = key.range().least;
    for _ in 0..HALVES {
        let high = best.get(key);
        if low >= high {
            break;
        }
        let middle = low + (high - low) / 2;
        match best.with(key, middle) {
            Some(smaller) if trial.fails(&smaller)? => best = smaller,
            _ => low = middle.saturating_add(1),
        }
    }
    Ok(best)
}

/// The plan with smaller numbers of all keys.
fn lowered_all<T: Trial>(trial: &mut T, plan: &Plan) -> Result<Plan, SimulateFault> {
    let mut best = *plan;
    for key in SHRUNK {
        best = lowered(trial, &best, key)?;
    }
    Ok(best)
}

/// A plan with fewer members, minutes and faults with which a trial fails still, if it fails with this one.
pub fn shrunk<T: Trial>(trial: &mut T, plan: &Plan) -> Result<Plan, SimulateFault> {
    let mut best = *plan;
    for _ in 0..ROUNDS {
        best = lowered_all(trial, &best)?;
    }
    Ok(best)
}

/// A plan as its text, with the keys that have another number than their default.
pub fn write_plan(text: &mut String, plan: &Plan) -> Result<(), AllocError> {
    for key in PlanKey::ALL {
        let number = plan.get(key);
        if number != key.range().default {
            writeln!(text, "{key} = {number}")?;
        }
    }
    Ok(())
}
