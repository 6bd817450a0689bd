//! A member's state file: two slots for a ceiling and peers, of which one is written at a time, so that a crash
//! at any moment leaves a file whose floor is at least the ceiling that is known.
//!
//! All offsets and sizes are in bytes, and numbers in the file are big-endian. The format, and why each
//! sync stands where it stands, is in `docs/reference/STATE_FILE.md`.
#![tactic(auto)]

mod fault;
mod first;
mod initial;
mod layout;
mod migration;
mod owner;
mod peers;
mod recovery;
mod save;
mod second;
mod slots;
mod store;

pub use fault::{InitFault, RecoverFault, SaveFault};
pub use initial::init;
pub use layout::{Reading, Saved, Slot, Version};
pub use owner::Owner;
pub use peers::{PEERS_MAX, Peers};
pub use recovery::recover;
pub use slots::{Slots, slots_in, version_of};
pub use store::{SPARE_MAX, Store};
