//! A member for programs in C, and in all that can call C: the proved node behind a handle, by polling.
//!
//! `bindings/c/swim.h` says what the calls are for. The functions here are those that it names, without the word
//! `library`; `bindings/c/swim.c` refuses null before it calls them.
#![tactic(auto)]

mod calls;
mod changes;
mod deal;
mod events;
mod handle;
mod listings;
mod opening;
mod outbox;
mod pacing;
mod refusal;
mod running;
mod seeking;
mod shapes;

pub use handle::SwimMember;
pub use shapes::{SwimEndpoint, SwimRow, SwimSettings, SwimStatus};
