//! A disk that is written only while it is this process's own.

ghost use Rattle.std.specs.Prelude.{◌≡◌, ◌+◌, ◌++◌, ◌∷◌, [], List, Bool, false, OnOk, OnErr};

use swim_disk::{Disk, DiskFault};
use swim_trace::Trace;

/// What tells whether a disk may be written.
pub trait WriteWatch {
    /// What it has said, in order.
    ghost asked: { Self → List Bool };

    /// Whether the disk may be written now.
    fn is_own(&mut self) -> bool
        ensures { asked self.new ≡ asked self.old ++ result ∷ [] };
}

/// A disk over another one, that asks its watch before each write and sync. Where the watch says no, the call fails, and so
/// does each later write and sync: the disk below gets none of them. A read is passed on.
#[derive(Drop)]
pub struct WatchedDisk<D: Disk, W: WriteWatch> {
    inner: D,
    watch: W,
    is_lost: bool,
    refused: Trace<()>,
}

impl<D: Disk, W: WriteWatch> WatchedDisk<D, W> {
    ghost use Rattle.swim_start.specs.WatchedDisk.{IsAdmitted, IsRefused, disk_below, is_lost_in, refusals_of};

    /// A disk over this one, which was not lost yet.
    pub fn new(inner: D, watch: W) -> WatchedDisk<D, W>
        ensures inner { disk_below result ≡ inner }
        ensures own { is_lost_in result ≡ false }
        ensures none { refusals_of result ≡ 0 }
    {
        WatchedDisk {
            inner,
            watch,
            is_lost: false,
            refused: Trace::new(),
        }
    }

    /// Whether the disk below may get a call, which is else refused.
    fn admit(&mut self) -> Result<(), DiskFault>
        ensures admitted { OnOk result (IsAdmitted W.asked self.old self.new) }
        ensures same { OnOk result ((disk_below self.new ≡ disk_below self.old)
            × (is_lost_in self.new ≡ is_lost_in self.old)
            × (refusals_of self.new ≡ refusals_of self.old)) }
        ensures refused { OnErr result (IsRefused W.asked result self.old self.new) }
    {
        if !self.is_lost && self.watch.is_own() {
            return Ok(());
        }
        self.is_lost = true;
        self.refused = self.refused.and(&());
        Err(DiskFault::System)
    }
}

impl<D: Disk, W: WriteWatch> Disk for WatchedDisk<D, W> {
    ghost use Rattle.std.specs.Prelude.{◌≤◌, length, take, drop, IfOk};
    ghost use Rattle.swim_disk.specs.Disk.{Counts, Rests, Syncs, Writes};
    ghost use Rattle.swim_start.specs.WatchedDisk.{IsPassedOn, PassesIfOwn, watched_state};

    ghost state = { λ w. watched_state D.state w };

    ghost keeps_model = { D.keeps_model };

    fn len(&mut self) -> Result<u64, DiskFault>
        ensures counts { Counts result (watched_state D.state self.old)
            (watched_state D.state self.new) }
        ensures asked { (watched_state D.state self.new).calls
            ≡ (watched_state D.state self.old).calls + 1 }
        ensures rests { D.keeps_model
            → Rests (watched_state D.state self.old) (watched_state D.state self.new) }
        ensures len { D.keeps_model
            → IfOk result (λ n. n ≡ length (watched_state D.state self.old).content) }
        ensures passed { IsPassedOn D.state result self.old self.new }
    {
        self.inner.len()
    }

    fn read_at(&mut self, at: u64, buffer: &mut [u8]) -> Result<(), DiskFault>
        ensures counts { Counts result (watched_state D.state self.old)
            (watched_state D.state self.new) }
        ensures asked { (watched_state D.state self.new).calls
            ≡ (watched_state D.state self.old).calls + 1 }
        ensures rests { D.keeps_model
            → Rests (watched_state D.state self.old) (watched_state D.state self.new) }
        ensures within { D.keeps_model → OnOk result
            (at + length buffer.old ≤ length (watched_state D.state self.old).content) }
        ensures read { D.keeps_model → OnOk result
            (buffer.new
            ≡ take (length buffer.old) (drop at (watched_state D.state self.old).content)) }
        ensures passed { IsPassedOn D.state result self.old self.new }
    {
        self.inner.read_at(at, buffer)
    }

    fn write_at(&mut self, at: u64, bytes: &[u8]) -> Result<(), DiskFault>
        ensures counts { Counts result (watched_state D.state self.old)
            (watched_state D.state self.new) }
        ensures asked { (watched_state D.state self.new).calls
            ≡ (watched_state D.state self.old).calls + 1 }
        ensures writes { D.keeps_model → Writes at bytes.now result
            (watched_state D.state self.old) (watched_state D.state self.new) }

        // It is passed on whole, or it is refused, as the watch says or has said.
        ensures passes { PassesIfOwn W.asked D.state result self.old self.new }
    {
        self.admit()?;
        self.inner.write_at(at, bytes)
    }

    fn sync(&mut self) -> Result<(), DiskFault>
        ensures counts { Counts result (watched_state D.state self.old)
            (watched_state D.state self.new) }
        ensures asked { (watched_state D.state self.new).calls
            ≡ (watched_state D.state self.old).calls + 1 }
        ensures syncs { D.keeps_model → Syncs result (watched_state D.state self.old)
            (watched_state D.state self.new) }

        // It is passed on, or it is refused, as the watch says or has said.
        ensures passes { PassesIfOwn W.asked D.state result self.old self.new }
    {
        self.admit()?;
        self.inner.sync()
    }
}
