//! Who writes recordings: beside a running member it takes each era that ended, and writes its recording into a folder.
#![tactic(auto)]

mod folder;
mod scribe;

pub use scribe::Scribe;
