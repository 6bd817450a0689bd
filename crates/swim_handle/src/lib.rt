//! How the workers of a running member call it: what they log, count and show of each call, and what wakes them.
#![tactic(auto)]

mod board;
mod call_log;
mod change_log;
mod crew;
mod handle;
mod identity;
mod note_log;
mod note_words;
mod pace;
mod parts;
mod quota;

pub use board::{CounterRow, SharedCounters};
pub use call_log::{CallLog, NumberLog};
pub use change_log::{CHANGES_MAX, ChangeLog};
pub use crew::Crew;
pub use handle::{Handle, StatusCaller};
pub use identity::Identity;
pub use note_log::{LOGGED_MAX, NoteLog};
pub use pace::{Notifying, Pace, Resting};
pub use parts::{CallerParts, IntoParts};
