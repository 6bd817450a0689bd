//! A member with its state file, its link and its journal, on one thread: each call is one event, and one entry of
//! the history.
#![tactic(auto)]

mod base;
mod beginning;
mod entering;
mod entry;
mod era;
mod fault;
mod journal;
mod keeping;
mod laws;
mod link;
mod memory_link;
mod node;
mod opening;
mod peers;
mod replay;
mod running;

pub use base::Base;
pub use beginning::{BeginFault, Beginning};
pub use entry::{Entry, Outcome, Reply, Save, Status, Tag};
pub use era::{Era, Room};
pub use fault::{ApplyFault, OpenFault};
pub use laws::{causes_make_the_entries, listed_are_probed_once, own_numbers_rise};
pub use link::{Link, LinkFault};
pub use memory_link::{MemoryLink, Taken};
pub use node::Node;
pub use opening::LIMIT_MAX;
pub use replay::{Cause, Replay};
pub use running::run;
