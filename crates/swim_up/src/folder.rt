//! The folder of a member, which nobody else may write.

use crate::making::{Foreign, foreign_at};
use std::alloc::Global;
use std::io::ErrorKind;
use swim_exit::{Exit, Failure};

/// The exit where somebody else may write a folder, or leads its path elsewhere.
fn foreign(alloc: Global, folder: &str, what: Foreign) -> Failure {
    match what {
        Foreign::Link(user) => Failure::about(
            alloc,
            Exit::File,
            format_args!(
                "folder {folder}: it is a link of user {user}: give the folder itself by --dir"
            ),
        ),
        Foreign::Owner(user, mode) => Failure::about(
            alloc,
            Exit::File,
            format_args!(
                "folder {folder}: user {user} owns it (mode {mode:o}), who could change what is made there: `chown` it, or give another one by --dir"
            ),
        ),
        Foreign::Mode(mode) => Failure::about(
            alloc,
            Exit::File,
            format_args!(
                "folder {folder}: others than its owner may write it (mode {mode:o}): `chmod go-w` it, or give another one by --dir"
            ),
        ),
    }
}

/// Refuses a folder that another user owns or may write: who can, could have the member's files be others. One that is not there is none.
pub(crate) fn judge_folder(rt: &HostRuntime, folder: &str) -> Result<(), Failure> {
    let alloc = rt.alloc();
    match foreign_at(rt, folder) {
        Ok(None) => Ok(()),
        Ok(Some(what)) => Err(foreign(alloc, folder, what)),
        Err(error) if error.kind() == ErrorKind::NotFound => Ok(()),
        Err(error) => Err(Failure::of_file(alloc, "folder", folder, &error)),
    }
}
