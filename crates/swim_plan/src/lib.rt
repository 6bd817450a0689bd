//! Plans of simulated groups: a number for each of 34 keys, as the table of a TOML file says them.
#![tactic(auto)]

mod key;
mod plan;
mod refusal;

pub use key::{KEYS, PlanKey, Range};
pub use plan::Plan;
pub use refusal::PlanRefusal;
