//! The state file that a running member holds.

ghost use Rattle.std.specs.Prelude.{◌≡◌, [], IfOk};
ghost use Rattle.swim_member.specs.Checks.{AreSound};

use std::alloc::Global;
use std::io;
use swim_disk::FileDisk;
use swim_exit::{Exit, Failure};
use swim_member::Settings;
use swim_node::OpenFault;
use swim_start::{FileNode, LockedFile, OwnFile, WriteWatch, open, open_locked};
use swim_state::RecoverFault;

/// What the opening of a state file answers where a call of the disk failed.
const DEVICE: OpenFault = OpenFault::Refused(RecoverFault::Device);

/// A state file that is locked, and who looks whether it is still the member's own: one for the doors, and one for the disk.
#[derive(Drop)]
pub(crate) struct StateFile {
    pub(crate) opened: LockedFile,
    pub(crate) own: OwnFile<HostRuntime>,
    pub(crate) watched: OwnFile<HostRuntime>,
}

impl StateFile {
    /// Opens and locks the file at this path.
    pub(crate) fn lock(rt: &HostRuntime, path: &str) -> Result<StateFile, Failure> {
        let alloc = rt.alloc();
        let unopened = |error: io::Error| Failure::of_state_file(alloc, path, &error);
        let opened = open_locked(rt, path, false).map_err(unopened)?;
        let own = OwnFile::new(*rt, rt.alloc(), path, &opened).map_err(unopened)?;
        let watched = own.try_clone().map_err(|_| Failure::from(Exit::Memory))?;
        Ok(StateFile {
            opened,
            own,
            watched,
        })
    }
}

/// Opens the member on its state file, which is written only while the watch says that it may be.
pub(crate) fn open_node<W: WriteWatch + Drop>(
    alloc: Global,
    file: LockedFile,
    watch: W,
    settings: Settings,
    limit: u32,
) -> Result<FileNode<W>, Exit>
    requires { AreSound settings }
    ensures { IfOk result (λ node. node.entries ≡ []) }
{
    let loaded = FileDisk::load(alloc, file.into_file());
    let disk = loaded.map_err(|error| Exit::of(&error, Exit::Open(DEVICE)))?;
    match open(alloc, disk, watch, settings, limit) {
        Ok(node) => Ok(node),
        Err((_, fault)) => Err(Exit::Open(fault)),
    }
}
