//! The calls of a disk again, beside some bytes that stand.

ghost use Rattle.std.specs.Prelude.{◌≡◌, ◌+◌, ◌-◌, ◌≤◌, ◌⊎◌, ℕ, List, length, OnOk};
ghost use Rattle.swim_disk.specs.declared.mem.TheConstants.{MOST_BYTES};
ghost use Rattle.swim_disk.specs.MemDisk.{disk_of, state_of};
ghost use Rattle.swim_disk.specs.Part.{KeepsPart};
ghost use Rattle.swim_disk.specs.Machinery.Patch.{Patches, written_beside};
ghost use Rattle.swim_disk.specs.Replay.{replay, step, written};

use crate::past::Call;
use crate::{Disk, DiskFault, MemDisk};

/// A write that touches none of the `count` bytes from `at` on.
fn write_apart(
    disk: &mut MemDisk,
    begin: u64,
    bytes: &[u8],
    at: u64,
    count: u64,
) -> Result<(), DiskFault>
    requires { (begin + length bytes.now ≤ at) ⊎ (at + count ≤ begin) }
    ensures kept { KeepsPart at count (state_of disk.old) (state_of disk.new) }
    ensures name { (state_of disk.new).name ≡ (state_of disk.old).name }
    ensures done { OnOk result (disk_of disk.new ≡ written begin bytes.now (disk_of disk.old)) }
{
    disk.write_at(begin, bytes)
}

/// What a write puts beside the `count` bytes from `at` on: before them, and past them.
fn write_beside(
    disk: &mut MemDisk,
    begin: u64,
    bytes: &[u8],
    at: u64,
    count: u64,
) -> Result<(), DiskFault>
    requires { at + count ≤ MOST_BYTES }
    ensures kept { KeepsPart at count (state_of disk.old) (state_of disk.new) }
    ensures name { (state_of disk.new).name ≡ (state_of disk.old).name }
    ensures done { OnOk result
        (disk_of disk.new ≡ written_beside at count begin bytes.now (disk_of disk.old)) }
{
    let end = at + count;
    let before = bytes.len().min(at.saturating_sub(begin) as usize);
    write_apart(disk, begin.min(at), &bytes[..before], at, count)?;
    let skipped = bytes.len().min(end.saturating_sub(begin) as usize);
    write_apart(disk, begin.max(end), &bytes[skipped..], at, count)
}

/// This call, but for what it writes to the `count` bytes from `at` on.
fn repeat_call(disk: &mut MemDisk, call: &Call, at: u64, count: u64) -> Result<(), DiskFault>
    requires { at + count ≤ MOST_BYTES }
    ensures kept { KeepsPart at count (state_of disk.old) (state_of disk.new) }
    ensures name { (state_of disk.new).name ≡ (state_of disk.old).name }
    ensures patches { OnOk result
        (Patches at count (step call.now) (disk_of disk.old) (disk_of disk.new)) }
{
    match call {
        Call::Sync => disk.sync(),
        Call::Write { at: begin, bytes } => write_beside(disk, *begin, bytes, at, count),
    }
}

/// These calls, but for what they write to the `count` bytes from `at` on.
pub(crate) fn repeat_beside(
    disk: &mut MemDisk,
    calls: &[Call],
    at: u64,
    count: u64,
) -> Result<(), DiskFault>
    requires { at + count ≤ MOST_BYTES }
    ensures kept { KeepsPart at count (state_of disk.old) (state_of disk.new) }
    ensures name { (state_of disk.new).name ≡ (state_of disk.old).name }
    ensures patches { OnOk result
        (Patches at count (λ d. replay d calls.now) (disk_of disk.old) (disk_of disk.new)) }
{
    for call in calls {
        repeat_call(disk, call, at, count)?;
    }
    Ok(())
}
