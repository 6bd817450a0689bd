//! A disk in memory, which a crash cuts as the caller chooses.

ghost use Rattle.std.specs.Prelude.{◌≡◌, ◌++◌, ◌∷◌, [], ◌+◌, ◌≤◌, ℕ, List, length, drop, take, IfOk, OnErr, OnOk};
ghost use Rattle.swim_disk.specs.declared.mem.TheConstants.{MOST_BYTES};
ghost use Rattle.swim_disk.specs.Disk.{overlaid};
ghost use Rattle.swim_disk.specs.Replay.{replay, fresh};
ghost use Rattle.swim_disk.specs.Choice.{left_by};
ghost use Rattle.swim_disk.specs.Machinery.Made.{AreWrites, kept_by, made};
ghost use Rattle.swim_disk.specs.declared.mem.Choice.{Choice as Choices};
ghost use Rattle.swim_disk.specs.declared.past.Call.{Call as Calls};
ghost use Rattle.swim_disk.specs.declared.past.Call.TheVariants.{Sync, Write};

use crate::beside::repeat_beside;
use crate::count::Count;
use crate::made::{bytes_made, count_made, drop_covered, fill_from, read_made};
use crate::past::Call;
use crate::{Disk, DiskFault};
use std::alloc::{AllocError, Global};
use swim_trace::Trace;

/// The most bytes that a disk in memory holds.
pub const MOST_BYTES: u64 = 65_536;

/// What a crash leaves of what was written since the last sync that succeeded.
#[derive(Clone, Copy, Debug, PartialEq, Eq)]
pub enum Choice {
    /// All of it.
    Keep,
    /// Nothing: the bytes are those that were synced.
    Drop,
    /// All that was written since then holds this byte.
    Fill(u8),
}

/// A disk in memory. It holds at most [`MOST_BYTES`] bytes, and takes memory for those that it was made with and those that
/// were written, and none for the zero bytes between them: it keeps the writes themselves. Of what was synced it keeps no
/// write of which a later one wrote every byte.
#[derive(Drop)]
pub struct MemDisk {
    alloc: Global,
    number: u64,
    start: Vec<u8>,
    writes: Vec<Call>,
    synced: usize,
    history: Trace<Call>,
    failures: Count,
    asked: Count,
    ghost size: { length (made start.items writes.items) ≤ MOST_BYTES },
    ghost unsynced: { AreWrites writes.items },
    ghost within: { synced ≤ length writes.items },
    ghost kept: { replay (fresh start.items) history ≡ kept_by start.items writes.items synced },
}

impl MemDisk {
    ghost use Rattle.swim_disk.specs.Disk.{IsSettled};
    ghost use Rattle.swim_disk.specs.MemDisk.{disk_of, state_of};
    ghost use Rattle.swim_disk.specs.Part.{AlwaysHas};

    /// A disk with these bytes, all of them synced. The number is its name.
    pub fn new(alloc: Global, number: u64, bytes: Vec<u8>) -> MemDisk
        requires { length bytes.items ≤ MOST_BYTES }
        ensures name { (state_of result).name ≡ number }
        ensures content { (state_of result).content ≡ bytes.items }
        ensures failures { (state_of result).failures ≡ 0 }
        ensures settled { IsSettled (state_of result) }
        ensures fresh { disk_of result ≡ fresh bytes.items }
    {
        MemDisk {
            alloc,
            number,
            start: bytes,
            writes: Vec::new(alloc),
            synced: 0,
            history: Trace::new(),
            failures: Count::new(),
            asked: Count::new(),
        }
    }

    /// What a read gives, from byte 0 on. Err: there was no memory for it.
    pub fn bytes(&self) -> Result<Vec<u8>, AllocError>
        ensures { IfOk result (λ v. v.items ≡ (state_of self.now).content) }
    {
        bytes_made(self.alloc, &self.start, &self.writes)
    }

    /// The bytes that were synced, with these at this offset.
    fn synced_with(&self, at: u64, bytes: &[u8]) -> Result<Vec<u8>, AllocError>
        requires { at + length bytes.now ≤ MOST_BYTES }
        ensures bytes { IfOk result (λ v. v.items
            ≡ overlaid (made self.now.start.items (take self.now.synced self.now.writes.items))
            at bytes.now) }
        ensures size { IfOk result (λ v. length v.items ≤ MOST_BYTES) }
    {
        let mut synced = bytes_made(self.alloc, &self.start, &self.writes[..self.synced])?;
        overlay(&mut synced, at, bytes)?;
        Ok(synced)
    }

    /// The disk that this one would be if these bytes had stood at this offset from the beginning, and
    /// no call had written over them. A crash leaves them too. Its failures are counted anew. Err: there was no memory.
    pub fn overwritten(&self, at: u64, bytes: &[u8]) -> Result<MemDisk, DiskFault>
        requires { at + length bytes.now ≤ MOST_BYTES }
        ensures name { IfOk result (λ d. (state_of d).name ≡ (state_of self.now).name) }
        ensures stands { IfOk result (λ d. AlwaysHas at bytes.now (state_of d)) }

        // All other bytes are as they were: of what a read gives, and of what each crash leaves.
        ensures content { IfOk result
            (λ d. (state_of d).content ≡ overlaid (state_of self.now).content at bytes.now) }
        ensures left { IfOk result (λ d. (choice : Choices)
            → left_by choice (disk_of d)
            ≡ overlaid (left_by choice (disk_of self.now)) at bytes.now) }
    {
        let Ok(first) = self.synced_with(at, bytes) else {
            return Err(DiskFault::NoMemory);
        };
        let mut disk = MemDisk::new(self.alloc, self.number, first);
        repeat_beside(
            &mut disk,
            &self.writes[self.synced..],
            at,
            bytes.len() as u64,
        )?;
        Ok(disk)
    }

    /// Keeps a write. Err: there was no memory, and nothing was done.
    fn add_write(&mut self, at: u64, bytes: &[u8]) -> Result<(), AllocError>
        requires { at + length bytes.now ≤ MOST_BYTES }
        ensures done { OnOk result ((kept : _) × (kept.items ≡ bytes.now)
            × (self.new.history ≡ self.old.history ++ Write at kept ∷ [])) }
        ensures failed { OnErr result (self.new.history ≡ self.old.history) }
        ensures start { self.new.start ≡ self.old.start }
        ensures number { self.new.number ≡ self.old.number }
        ensures failures { self.new.failures ≡ self.old.failures }
        ensures asked { self.new.asked ≡ self.old.asked }
    {
        let bytes = bytes.to_vec(self.alloc)?;
        self.writes.reserve(1)?;
        let call = Call::Write { at, bytes };
        self.history = self.history.and(&call);
        self.writes.push_reserved(call);
        Ok(())
    }

    /// The disk that a crash leaves: one of the images now, and this one alone. It takes no memory.
    pub fn crash(self, choice: Choice) -> MemDisk
        ensures image { (state_of self).images (state_of result).content }
        ensures chosen { (state_of result).content ≡ left_by choice (disk_of self) }
        ensures settled { IsSettled (state_of result) }
        ensures name { (state_of result).name ≡ (state_of self).name }
        ensures failures { (state_of result).failures ≡ (state_of self).failures }
    {
        let MemDisk {
            alloc,
            number,
            start,
            mut writes,
            synced,
            history: _,
            failures,
            asked,
        } = self;
        leave(&mut writes, synced, choice);
        MemDisk {
            alloc,
            number,
            start,
            synced: writes.len(),
            history: all_synced(&writes),
            writes,
            failures,
            asked,
        }
    }
}

/// These writes, and then a sync, for contracts alone.
fn all_synced(writes: &[Call]) -> Trace<Call>
    ensures { result ≡ writes.now ++ Sync ∷ [] }
{
    let mut history = Trace::new();
    for call in writes {
        history = history.and(call);
    }
    history.and(&Call::Sync)
}

/// Makes of these writes, of which the first ones are synced, what a crash leaves.
fn leave(writes: &mut Vec<Call>, synced: usize, choice: Choice)
    requires { AreWrites writes.old.items }
    ensures writes { AreWrites writes.new.items }
    ensures chosen { (start : List ℕ) → made start writes.new.items
        ≡ left_by choice (kept_by start writes.old.items synced) }
{
    match choice {
        Choice::Keep => {}
        Choice::Drop => writes.truncate(synced),
        Choice::Fill(byte) => fill_from(writes, synced, byte),
    }
}

/// Writes these bytes over the content at this offset, in place. A gap before them is filled with zero bytes. Err: there was
/// no memory for what is past the end, and nothing was done.
pub(crate) fn overlay(content: &mut Vec<u8>, at: u64, bytes: &[u8]) -> Result<(), AllocError>
    requires room { at + length bytes.now ≤ MOST_BYTES }
    requires size { length content.old.items ≤ MOST_BYTES }
    ensures done { OnOk result (content.new.items ≡ overlaid content.old.items at bytes.now) }
    ensures size { length content.new.items ≤ MOST_BYTES }
    ensures failed { OnErr result (content.new.items ≡ content.old.items) }
{
    let at = at as usize;
    let end = at + bytes.len();
    if content.len() < end {
        content.resize(end, 0)?;
    }
    content[at..end].copy_from_slice(bytes);
    Ok(())
}

impl Disk for MemDisk {
    ghost use Rattle.std.specs.Prelude.{◌<◌, take, drop, Err, IfErr, IsOk};
    ghost use Rattle.swim_disk.specs.Disk.{Counts, Rests, Syncs, Writes};
    ghost use Rattle.swim_disk.specs.MemDisk.{disk_of, state_of};
    ghost use Rattle.swim_disk.specs.Replay.{all_synced, written};

    ghost state = { λ m. state_of m };

    ghost keeps_model = { Unit {0} };

    fn len(&mut self) -> Result<u64, DiskFault>
        ensures counts { Counts result (state_of self.old) (state_of self.new) }
        ensures asked { (state_of self.new).calls ≡ (state_of self.old).calls + 1 }
        ensures rests { Rests (state_of self.old) (state_of self.new) }
        ensures len { IfOk result (λ n. n ≡ length (state_of self.old).content) }

        // It doesn't fail.
        ensures ok { IsOk result }
    {
        self.asked.add();
        Ok(count_made(&self.start, &self.writes) as u64)
    }

    fn read_at(&mut self, at: u64, buffer: &mut [u8]) -> Result<(), DiskFault>
        ensures counts { Counts result (state_of self.old) (state_of self.new) }
        ensures asked { (state_of self.new).calls ≡ (state_of self.old).calls + 1 }
        ensures rests { Rests (state_of self.old) (state_of self.new) }
        ensures within { OnOk result
            (at + length buffer.old ≤ length (state_of self.old).content) }
        ensures read { OnOk result
            (buffer.new ≡ take (length buffer.old) (drop at (state_of self.old).content)) }

        // It fails past the end, and nowhere else.
        ensures past { IfErr result (λ fault. (fault ≡ DiskFault.PastEnd)
            × (length (state_of self.old).content < at + length buffer.old)) }
    {
        self.asked.add();
        let len = count_made(&self.start, &self.writes) as u64;
        if at > len || buffer.len() as u64 > len - at {
            return Err(self.failures.fail(DiskFault::PastEnd));
        }
        read_made(&self.start, &self.writes, at as usize, buffer);
        Ok(())
    }

    fn write_at(&mut self, at: u64, bytes: &[u8]) -> Result<(), DiskFault>
        ensures counts { Counts result (state_of self.old) (state_of self.new) }
        ensures asked { (state_of self.new).calls ≡ (state_of self.old).calls + 1 }
        ensures writes { Writes at bytes.now result (state_of self.old) (state_of self.new) }

        // Past the room it fails, and within the room only for want of memory.
        ensures room { at + length bytes.now ≤ MOST_BYTES
            → IfErr result (λ fault. fault ≡ DiskFault.NoMemory) }
        ensures full { MOST_BYTES < at + length bytes.now → result ≡ Err DiskFault.NoRoom }

        // What a crash may be chosen to leave.
        ensures done { OnOk result
            (disk_of self.new ≡ written at bytes.now (disk_of self.old)) }
        ensures failed { OnErr result (disk_of self.new ≡ disk_of self.old) }
    {
        self.asked.add();
        if at > MOST_BYTES || bytes.len() as u64 > MOST_BYTES - at {
            return Err(self.failures.fail(DiskFault::NoRoom));
        }
        match self.add_write(at, bytes) {
            Ok(()) => Ok(()),
            Err(_) => Err(self.failures.fail(DiskFault::NoMemory)),
        }
    }

    fn sync(&mut self) -> Result<(), DiskFault>
        ensures counts { Counts result (state_of self.old) (state_of self.new) }
        ensures asked { (state_of self.new).calls ≡ (state_of self.old).calls + 1 }
        ensures syncs { Syncs result (state_of self.old) (state_of self.new) }

        // It fails only for want of memory.
        ensures memory { IfErr result (λ fault. fault ≡ DiskFault.NoMemory) }

        // What a crash may be chosen to leave.
        ensures done { OnOk result (disk_of self.new ≡ all_synced (disk_of self.old)) }
        ensures failed { OnErr result (disk_of self.new ≡ disk_of self.old) }
    {
        self.asked.add();
        drop_covered(&mut self.writes);
        self.synced = self.writes.len();
        self.history = self.history.and(&Call::Sync);
        Ok(())
    }
}
