//! `swim up`: makes what a member lacks, its folder, its state file and its settings, and says where the settings are by which it runs.
#![tactic(auto)]

mod asking;
mod clash;
mod finding;
mod folder;
mod grouping;
mod lacking;
mod making;
mod preparing;
mod said;
mod text;

pub use finding::{control_here, control_in};
pub use preparing::prepare;
