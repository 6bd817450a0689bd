//! A disk as the code above it sees it: what a read gives, what a crash may leave, and how often it failed.
//!
//! Offsets and lengths are in bytes, and offset 0 is the first byte.
#![tactic(auto)]

mod backing;
mod beside;
mod cached;
mod count;
mod disk;
mod fault;
mod file;
mod made;
mod mem;
mod open_file;
mod past;
mod plan;

pub use disk::{Disk, DiskFault};
pub use fault::FaultDisk;
pub use file::FileDisk;
pub use mem::{Choice, MOST_BYTES, MemDisk};
pub use plan::Plan;
