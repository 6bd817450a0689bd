//! The three steps of a save into a slot: its gate is shut, its body is written, and the gate is opened. A new file and one of version
//! 1 get their slots in `initial.rt` and `migration.rt`.

ghost use Rattle.std.specs.Prelude.{◌≡◌, ◌<◌, ◌≤◌, ◌^◌, ◌+◌, ℕ, List, true, false, IsTrue, OnOk, OnErr, IfOk, All, length};
ghost use Rattle.swim_disk.specs.Disk.{Counts, IsSettled};
ghost use Rattle.swim_state.specs.Alone.{IsBeside, LeavesAlone, target_by};
ghost use Rattle.swim_state.specs.File.{reading_at, floor_of, peers_in, version_in, AreUsable, AreOf, IsSound};
ghost use Rattle.swim_state.specs.Layout.{bytes_from};
ghost use Rattle.swim_state.specs.Second.{body, is_good, may_be_saved, version_2};
ghost use Rattle.swim_state.specs.Machinery.Saving.{Put, Stands, SaveStep, Saves};
ghost use Rattle.swim_state.specs.declared.owner.Owner.{Owner};
ghost use Rattle.swim_state.specs.declared.layout.Saved.{Saved};
ghost use Rattle.swim_state.specs.declared.layout.Reading.TheVariants.{Shut, Holds};
ghost use Rattle.swim_state.specs.declared.layout.Version.TheVariants.{Two};
ghost use Rattle.swim_state.specs.declared.peers.TheConstants.{PEERS_MAX};

use crate::layout::{OPEN, Saved, Slot, Version};
use crate::second::encode;
use crate::slots::Slots;
use swim_disk::{Disk, DiskFault};

/// Writes these bytes and syncs.
pub(crate) fn put<D: Disk>(disk: &mut D, at: u64, bytes: &[u8]) -> Result<(), DiskFault>
    requires settled { D.keeps_model → IsSettled (D.state disk.old) }
    ensures counts { Counts result (D.state disk.old) (D.state disk.new) }
    ensures put { D.keeps_model → Put at bytes.now result (D.state disk.old) (D.state disk.new) }
{
    disk.write_at(at, bytes)?;
    disk.sync()
}

/// Saves in one slot, while the other one stands, and notes it. It stops at the first failure.
pub(crate) fn save<D: Disk>(disk: &mut D, slots: &mut Slots, saved: Saved) -> Result<(), DiskFault>
    requires usable { AreUsable slots.old }
    requires above { floor_of slots.old < saved.ceiling }
    requires stands { IsTrue (may_be_saved saved) }
    requires settled { D.keeps_model → IsSettled (D.state disk.old) }
    requires two { D.keeps_model → version_in (D.state disk.old).content ≡ Two }
    requires same { D.keeps_model → AreOf version_2 (D.state disk.old).content slots.old }
    requires sound { D.keeps_model → (owner : Owner) × IsSound owner (D.state disk.old).content }
    ensures counts { Counts result (D.state disk.old) (D.state disk.new) }
    ensures usable { AreUsable slots.new }
    ensures floor { OnOk result (floor_of slots.new ≡ saved.ceiling) }
    ensures peers { OnOk result (peers_in slots.new ≡ saved.peers) }
    ensures stopped { OnErr result (slots.new ≡ slots.old) }
    ensures saves { D.keeps_model → (owner : Owner) → IsSound owner (D.state disk.old).content
        → Saves owner (floor_of slots.old) slots.new result (D.state disk.old) (D.state disk.new) }
    ensures alone { D.keeps_model → LeavesAlone (IsBeside (target_by slots.old.a slots.old.b))
        (D.state disk.old) (D.state disk.new) }
{
    let slot = slots.target();
    shut(disk, slot, slots.is_shut(slot))?;
    fill(disk, slot, &saved)?;
    open(disk, slot, &saved)?;
    slots.note(slot, saved);
    Ok(())
}

/// Shuts a slot's gate, and syncs. A gate that is shut already isn't written: a written byte may come
/// back as any byte, and an open gate over a body that was never filled isn't sound.
pub(crate) fn shut<D: Disk>(disk: &mut D, slot: Slot, is_shut: bool) -> Result<(), DiskFault>
    requires settled { D.keeps_model → IsSettled (D.state disk.old) }
    requires shut { D.keeps_model → is_shut ≡ true
        → reading_at version_2 (D.state disk.old).content slot ≡ Shut }
    requires filled { D.keeps_model → is_shut ≡ false
        → is_good (bytes_from (D.state disk.old).content (version_2.body_at slot) 114) ≡ true }
    ensures counts { Counts result (D.state disk.old) (D.state disk.new) }
    ensures step { D.keeps_model → (front : List ℕ) (kept : Saved)
        → Stands version_2 front slot kept (D.state disk.old).content
        → SaveStep version_2 front slot kept (λ c. reading_at version_2 c slot ≡ Shut)
        result (D.state disk.old) (D.state disk.new) }
    ensures alone { D.keeps_model
        → LeavesAlone (IsBeside slot) (D.state disk.old) (D.state disk.new) }
{
    if is_shut {
        disk.sync()
    } else {
        shut_filled(disk, slot)
    }
}

/// Shuts the gate over a good body, and syncs.
fn shut_filled<D: Disk>(disk: &mut D, slot: Slot) -> Result<(), DiskFault>
    requires settled { D.keeps_model → IsSettled (D.state disk.old) }
    requires filled { D.keeps_model
        → is_good (bytes_from (D.state disk.old).content (version_2.body_at slot) 114) ≡ true }
    ensures counts { Counts result (D.state disk.old) (D.state disk.new) }
    ensures step { D.keeps_model → (front : List ℕ) (kept : Saved)
        → Stands version_2 front slot kept (D.state disk.old).content
        → SaveStep version_2 front slot kept (λ c. reading_at version_2 c slot ≡ Shut)
        result (D.state disk.old) (D.state disk.new) }
    ensures alone { D.keeps_model
        → LeavesAlone (IsBeside slot) (D.state disk.old) (D.state disk.new) }
{
    put(disk, slot.gate(Version::Two), &[0])
}

/// Fills the body of a slot whose gate is shut.
pub(crate) fn fill<D: Disk>(disk: &mut D, slot: Slot, saved: &Saved) -> Result<(), DiskFault>
    requires settled { D.keeps_model → IsSettled (D.state disk.old) }
    requires few { length saved.now.peers ≤ PEERS_MAX }
    requires shut { D.keeps_model → reading_at version_2 (D.state disk.old).content slot ≡ Shut }
    ensures fit { All (λ peer. peer < 2 ^ 48) saved.now.peers }
    ensures counts { Counts result (D.state disk.old) (D.state disk.new) }
    ensures step { D.keeps_model → (front : List ℕ) (kept : Saved)
        → Stands version_2 front slot kept (D.state disk.old).content
        → SaveStep version_2 front slot kept
        (λ c. (reading_at version_2 c slot ≡ Shut)
        × (bytes_from c (version_2.body_at slot) 114 ≡ body saved.now))
        result (D.state disk.old) (D.state disk.new) }
    ensures alone { D.keeps_model
        → LeavesAlone (IsBeside slot) (D.state disk.old) (D.state disk.new) }
{
    put(disk, slot.body(Version::Two), encode(saved).as_slice())
}

/// Opens the gate over a good body.
pub(crate) fn open<D: Disk>(disk: &mut D, slot: Slot, saved: &Saved) -> Result<(), DiskFault>
    requires stands { IsTrue (may_be_saved saved.now) }
    requires fit { All (λ peer. peer < 2 ^ 48) saved.now.peers }
    requires settled { D.keeps_model → IsSettled (D.state disk.old) }
    requires filled { D.keeps_model
        → bytes_from (D.state disk.old).content (version_2.body_at slot) 114 ≡ body saved.now }
    ensures counts { Counts result (D.state disk.old) (D.state disk.new) }
    ensures step { D.keeps_model → (front : List ℕ) (kept : Saved)
        → Stands version_2 front slot kept (D.state disk.old).content
        → SaveStep version_2 front slot kept (λ c. reading_at version_2 c slot ≡ Holds saved.now)
        result (D.state disk.old) (D.state disk.new) }
    ensures alone { D.keeps_model
        → LeavesAlone (IsBeside slot) (D.state disk.old) (D.state disk.new) }
{
    put(disk, slot.gate(Version::Two), &[OPEN])
}
