//! What `swim check` does: it reads a capture of a group, a line for each datagram that a member sent, and says the first
//! that breaks the law of the group.
#![tactic(auto)]

mod capture;
mod line;

pub use capture::{CaptureStop, check, read_capture};
pub use line::{LineFault, read_line};
