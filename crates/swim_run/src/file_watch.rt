//! A look at the state file now and then.

use log::{Log, error};
use std::fs::File;
use std::rt::Files;
use swim_start::{OwnFile, WriteWatch};

/// Looks whether the state file is still the member's own, and says in the log once where it is not.
#[derive(Drop)]
pub(crate) struct FileWatch<R, W> {
    own: OwnFile<R>,
    logged: W,
    has_told: bool,
}

impl<R: Files<File = File> + Copy, W: Log> FileWatch<R, W> {
    /// A watch of this file, which says what it sees in this log.
    pub(crate) fn new(own: OwnFile<R>, logged: W) -> FileWatch<R, W> {
        FileWatch {
            own,
            logged,
            has_told: false,
        }
    }

    /// Says once that the file is lost.
    pub(crate) fn look(&mut self) {
        if self.has_told || self.own.is_own() {
            return;
        }
        self.has_told = true;
        let path = self.own.path();
        error!(self.logged; "the state file {path} was moved, removed, replaced or cut short: nothing is saved from now on");
    }
}
