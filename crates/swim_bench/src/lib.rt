//! The proved crates as a static library: turns of the work that `bench/` measures, one export for all turns
//! of a case, so that the cost of the call doesn't count.
//!
//! A slice crosses as a pointer and a length. `bench/src/plain/work.rs` has the same turns in plain Rust.
#![tactic(auto)]

mod buffer;
mod codec;
mod node;
mod scene;
mod steps;
mod table;
