//! The scripts of `swim play`: which line says which command, and what is a script's first fault. A
//! script is read as a whole before any of it runs.
#![tactic(auto)]

mod bytes;
mod command;
mod fault;
mod first;
mod keyword;
mod line;
mod patch;
mod script;

pub use command::{Command, Failure, Setting};
pub use fault::{FaultKind, ScriptFault};
pub use first::FirstNumber;
pub use keyword::Keyword;
pub use patch::Patch;
pub use script::read_script;
