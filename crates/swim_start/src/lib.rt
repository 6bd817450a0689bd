//! What a running member starts with: a state file that is its own, its generators, whom it joins, and its intervals.
#![tactic(auto)]

mod drawing;
mod joining;
mod locked_file;
mod named_file;
mod opening;
mod own_file;
mod watched_disk;

pub use drawing::key_of;
pub use joining::peers_of;
pub use locked_file::{LockedFile, open_locked, sync_folder};
pub use opening::{FileNode, open};
pub use own_file::OwnFile;
pub use watched_disk::{WatchedDisk, WriteWatch};
