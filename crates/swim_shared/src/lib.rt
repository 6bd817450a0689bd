//! A node under one lock, and what its callers know of its history without it.
//!
//! Any number of threads call one node, each with a pass of its own, and all answered calls are one
//! history. Watches read the status without the lock. A caller (`swim_under_lock` is the program):
//!
//! ```text
//! fn ticks<N: Name, D: Disk + Drop, L: Link + Drop, R: Wait>(
//!     rt: &R,
//!     shared: &Shared<N, D, L, &R>,
//!     mut pass: Pass<N>,
//! ) -> Pass<N> {
//!     for turn in 0..CALLS {
//!         let deal = Deal::from_first((turn % 256) as u8);
//!         if shared.call(rt, &mut pass, Event::Tick { deal }).is_err() {
//!             break;
//!         }
//!     }
//!     pass
//! }
//! ```
#![tactic(auto)]

mod close_sent;
mod fault;
mod front;
mod law;
mod locked;
mod name;
mod odd;
mod outbox;
mod packet;
mod parts;
mod pass;
mod publisher;
mod sender;
mod set_up;
mod shared;
mod shown;
mod watch;

pub use close_sent::ClosedSent;
pub use fault::CallFault;
pub use name::Name;
pub use outbox::Outbox;
pub use parts::Parts;
pub use pass::Pass;
pub use sender::{Sender, Sent};
pub use shared::{Closed, Shared};
pub use watch::Watch;
