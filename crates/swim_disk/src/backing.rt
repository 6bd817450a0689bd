//! What lies below a disk over a file: the file itself, as the system's calls show it.

ghost use Rattle.std.specs.Prelude.{◌≡◌, ◌≤◌, ◌++◌, ◌∷◌, [], List, length, take, IfOk, OnErr, OnOk};
ghost use Rattle.swim_disk.specs.Deeds.{sync_deed, write_deed};
ghost use Rattle.swim_disk.specs.declared.backing.Deed.{Deed as Deeds};
ghost use Rattle.swim_disk.specs.declared.backing.Deed.TheVariants.{Measured, Dropped, Read};

use std::io;
use swim_trace::Trace;

/// What one call of the system did to a file, for contracts alone.
#[derive(Drop)]
pub(crate) enum Deed {
    /// It said that the file has so many bytes.
    Measured { length: u64 },
    /// It gave these bytes.
    Read { at: u64, bytes: Trace<u8> },
    /// It took these bytes.
    Wrote { at: u64, bytes: Trace<u8> },
    /// It failed to take these bytes, at any of them.
    WriteFailed { at: u64, bytes: Trace<u8> },
    /// A sync succeeded.
    Synced,
    /// A sync failed.
    SyncFailed,
    /// What the system held of the file in memory was dropped.
    Dropped,
}

/// A file to which these calls are made, one at a time. It tells all that was done to it since it was taken over, so that
/// contracts can say what it has.
pub(crate) trait BackingFile {
    /// What was done, the oldest first.
    ghost deeds: { Self → List Deeds };

    /// How many bytes the file has.
    fn length(&mut self) -> io::Result<u64>
        ensures done { IfOk result (λ n. deeds self.new ≡ deeds self.old ++ Measured n ∷ []) }
        ensures failed { OnErr result (deeds self.new ≡ deeds self.old) };

    /// Reads bytes from an offset on into the buffer, and says how many. There are none at the end of the file.
    fn read(&mut self, at: u64, buffer: &mut [u8]) -> io::Result<usize>
        ensures size { length buffer.new ≡ length buffer.old }
        ensures count { IfOk result (λ n. n ≤ length buffer.old) }
        ensures done { IfOk result (λ n.
            deeds self.new ≡ deeds self.old ++ Read at (take n buffer.new) ∷ []) }
        ensures failed { OnErr result (deeds self.new ≡ deeds self.old) };

    /// Writes the first of these bytes from an offset on, and says how many.
    fn write(&mut self, at: u64, bytes: &[u8]) -> io::Result<usize>
        ensures count { IfOk result (λ n. n ≤ length bytes.now) }
        ensures told { deeds self.new ≡ deeds self.old ++ write_deed at bytes.now result ∷ [] };

    /// Waits until the disk below has what was written.
    fn sync(&mut self) -> io::Result<()>
        ensures told { deeds self.new ≡ deeds self.old ++ sync_deed result ∷ [] };

    /// Drops what the system holds of the file in memory, so that reads come from the disk.
    fn drop_held(&mut self) -> io::Result<()>
        ensures done { OnOk result (deeds self.new ≡ deeds self.old ++ Dropped ∷ []) }
        ensures failed { OnErr result (deeds self.new ≡ deeds self.old) };
}
