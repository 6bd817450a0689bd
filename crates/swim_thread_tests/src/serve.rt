//! Callers and workers in threads, and what is logged.

mod changes;
mod fakes;
mod notes;
mod numbers;
mod wakes;
