//! How the program ends before it is done.
#![tactic(auto)]

mod exits;
mod failure;
mod mistake;
mod nearest;
mod takes;

pub use exits::Exit;
pub use failure::Failure;
