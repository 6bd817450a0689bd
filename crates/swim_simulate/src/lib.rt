//! Whole groups of real nodes on one thread, by a plan and a seed: a clock in ticks, a network that delays, loses, repeats
//! and cuts, kills and restarts, and what the others noticed of them.
#![tactic(auto)]

mod detection;
mod dice;
mod fault;
mod flight;
mod handed;
mod joining;
mod law;
mod measures;
mod network;
mod place;
mod run;
mod scene;
mod script;
mod shadow;
mod views;
mod watched;

pub use detection::{Deadline, cause_at_tick, looks_keep_the_law};
pub use fault::SimulateFault;
pub use handed::{Clock, Handed};
pub use law::{Broken, LawBreak, LawRecord};
pub use measures::{Kill, Measures, RunCounts};
pub use network::{Draw, Fate, fate_by, is_cut};
pub use place::endpoint_of;
pub use run::{Done, script_of, simulate};
pub use script::Script;
pub use shadow::{Lapse, Shadow};
pub use views::View;
