//! Bytes that a line writes over a disk.

ghost use Rattle.std.specs.Prelude.{◌≡◌, ◌+◌, ◌<◌, ◌≤◌, length, IfOk, IfSome, IfNone};
ghost use Rattle.swim_disk.specs.declared.mem.TheConstants.{MOST_BYTES};
ghost use Rattle.swim_script.specs.Patches.{IsPatched};

use std::alloc::AllocError;
use swim_disk::{MOST_BYTES, MemDisk};

/// Bytes and where they go, within the room of a disk.
#[derive(Drop)]
pub struct Patch {
    /// The offset.
    pub at: u64,
    /// What goes there.
    pub bytes: Vec<u8>,
    ghost fits: { at + length bytes.items ≤ MOST_BYTES },
}

impl Patch {
    /// These bytes at this offset, unless they would end past the room of a disk.
    pub(crate) fn new(at: u64, bytes: Vec<u8>) -> Option<Patch>
        ensures patch { IfSome result (λ patch. (patch.at ≡ at) × (patch.bytes ≡ bytes)) }
        ensures none { IfNone result (MOST_BYTES < at + length bytes.items) }
    {
        if at > MOST_BYTES || bytes.len() as u64 > MOST_BYTES - at {
            return None;
        }
        Some(Patch { at, bytes })
    }

    /// The disk that this one would be with these bytes.
    pub fn over(&self, disk: &MemDisk) -> Result<MemDisk, AllocError>
        ensures { IfOk result (λ d. IsPatched self.now.at self.now.bytes.items disk.now d) }
    {
        disk.overwritten(self.at, &self.bytes)
            .map_err(|_| AllocError)
    }
}
