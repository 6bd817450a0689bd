//! The trait that every disk meets, and why a call of one fails.

ghost use Rattle.std.specs.Prelude.{◌≡◌, ◌+◌, ◌≤◌, length, take, drop, IfOk, OnOk};
ghost use Rattle.swim_disk.specs.Disk.{DiskState, Rests, Writes, Syncs, Counts};

use thiserror::Error;

/// Why a call failed.
#[derive(Clone, Copy, Debug, PartialEq, Eq, Error)]
pub enum DiskFault {
    /// A read past the end.
    #[error("a read past the end of the disk")]
    PastEnd,
    /// A write past the most bytes that the disk holds.
    #[error("a write past the room of the disk")]
    NoRoom,
    /// The disk found no memory.
    #[error("no memory for the disk")]
    NoMemory,
    /// The call was to fail by a plan.
    #[error("a failure by plan")]
    Planned,
    /// The operating system refused the call.
    #[error("the system refused the call")]
    System,
}

/// A row of bytes that is read and written at offsets, and that a crash leaves as it was last synced but for what was
/// written since then. Each call raises the disk's count of calls by one; a failed one raises its count of failures by
/// one, and no other call does.
pub trait Disk {
    /// The disk at this moment.
    ghost state: { Self → DiskState };

    /// Whether the disk keeps the model, so that its answers are those of `state` and a crash leaves an image.
    ghost keeps_model: { Type 0 };

    /// The count of bytes. It counts as a read.
    fn len(&mut self) -> Result<u64, DiskFault>
        ensures counts { Counts result (state self.old) (state self.new) }
        ensures asked { (state self.new).calls ≡ (state self.old).calls + 1 }
        ensures rests { keeps_model → Rests (state self.old) (state self.new) }
        ensures len { keeps_model → IfOk result (λ n. n ≡ length (state self.old).content) };

    /// Fills the whole buffer with the bytes from offset `at` on. Past the end it fails.
    fn read_at(&mut self, at: u64, buffer: &mut [u8]) -> Result<(), DiskFault>
        ensures counts { Counts result (state self.old) (state self.new) }
        ensures asked { (state self.new).calls ≡ (state self.old).calls + 1 }
        ensures rests { keeps_model → Rests (state self.old) (state self.new) }
        ensures within { keeps_model
            → OnOk result (at + length buffer.old ≤ length (state self.old).content) }
        ensures read { keeps_model
            → OnOk result
            (buffer.new ≡ take (length buffer.old) (drop at (state self.old).content)) };

    /// Writes the bytes from offset `at` on, over what is there and past the end; a gap before them is filled with
    /// zero bytes. Until the next sync a crash may leave any bytes in that range, also where the write failed.
    fn write_at(&mut self, at: u64, bytes: &[u8]) -> Result<(), DiskFault>
        ensures counts { Counts result (state self.old) (state self.new) }
        ensures asked { (state self.new).calls ≡ (state self.old).calls + 1 }
        ensures writes { keeps_model
            → Writes at bytes.now result (state self.old) (state self.new) };

    /// Where it succeeds a crash leaves what a read gives.
    fn sync(&mut self) -> Result<(), DiskFault>
        ensures counts { Counts result (state self.old) (state self.new) }
        ensures asked { (state self.new).calls ≡ (state self.old).calls + 1 }
        ensures syncs { keeps_model → Syncs result (state self.old) (state self.new) };
}
