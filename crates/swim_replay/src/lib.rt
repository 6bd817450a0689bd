//! A recording, read and played: the era that it is of.
#![tactic(auto)]

mod beginning;
mod call;
mod fault;
mod heading;
mod met;
mod playing;
mod recorded;
mod told;

pub use fault::{RecordingFault, RecordingReason};
pub use heading::{TextVersion, after_first_line};
pub use playing::{Played, play_from, play_recording};
pub use recorded::{era_is_recorded, play_era};
