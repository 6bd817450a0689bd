//! What tests of several crates begin with, and the program under a lock: the member 10.0.0.1:7000 of group 7 on a disk in
//! memory, and what 10.0.0.2:7000 tells it. None is given where there was no memory, or no such datagram.
#![tactic(auto)]

mod datagrams;
mod nodes;

pub use datagrams::{endpoint, ping, suspicion, text, update};
pub use nodes::{Device, new_disk, opened, opened_by_plan};
