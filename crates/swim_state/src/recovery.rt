//! The opening of a state file: what is read, how it is judged, and the first number above it.

ghost use Rattle.std.specs.Prelude.{◌≡◌, ◌≢◌, ◌⊎◌, ◌<◌, ◌≤◌, ◌^◌, ◌+◌, length, take, false, Some, None, IfOk, IfErr, OnOk, OnErr, IsErrOf, ℕ};
ghost use Rattle.swim_disk.specs.Disk.{Counts, IsSettled, Rests};
ghost use Rattle.swim_state.specs.Alone.{IsBeside, IsEarlier, LeavesAlone, target_in};
ghost use Rattle.swim_state.specs.File.{floor, floor_of, floor_peers, head, layout_of, peers_in, version_in, AreUsable, IsSound};
ghost use Rattle.swim_state.specs.Held.{Covers, Through, Held, HeldSince, HasPeers};
ghost use Rattle.swim_state.specs.Recovery.{IsFound, IsJudged, fault_of, first_fault, head_fault, slots_fault};
ghost use Rattle.swim_state.specs.Machinery.Saving.{Migrates};
ghost use Rattle.swim_state.specs.Second.{ArePeers};
ghost use Rattle.swim_state.specs.Store.{disk_in};
ghost use Rattle.swim_state.specs.declared.owner.Owner.{Owner};
ghost use Rattle.swim_state.specs.declared.fault.RecoverFault.TheVariants.{Device, Exhausted, NotState};
ghost use Rattle.swim_state.specs.declared.layout.Version.TheVariants.{Two};

use crate::fault::RecoverFault;
use crate::layout::{HEAD_SIZE, Saved, Slot, Version};
use crate::migration::migrate;
use crate::owner::{Owner, encode_head};
use crate::save::save;
use crate::slots::{Slots, read_slots, read_version};
use crate::store::Store;
use swim_disk::{Disk, DiskFault};
use swim_wire::NUMBER_MAX;

/// What an opening found.
#[derive(Drop)]
struct Found {
    version: Version,
    slots: Slots,
}

/// Syncs and reads the length.
fn measure<D: Disk>(disk: &mut D) -> Result<u64, DiskFault>
    ensures counts { Counts result (D.state disk.old) (D.state disk.new) }
    ensures asked { OnOk result ((D.state disk.new).calls ≡ (D.state disk.old).calls + 2) }
    ensures rests { D.keeps_model → Rests (D.state disk.old) (D.state disk.new) }
    ensures settled { D.keeps_model → OnOk result (IsSettled (D.state disk.new)) }
    ensures len { D.keeps_model → IfOk result (λ n. n ≡ length (D.state disk.old).content) }
{
    disk.sync()?;
    disk.len()
}

fn read_head<D: Disk>(disk: &mut D) -> Result<[u8; HEAD_SIZE], DiskFault>
    ensures counts { Counts result (D.state disk.old) (D.state disk.new) }
    ensures asked { OnOk result ((D.state disk.new).calls ≡ (D.state disk.old).calls + 1) }
    ensures rests { D.keeps_model → Rests (D.state disk.old) (D.state disk.new) }
    ensures read { D.keeps_model → IfOk result (λ h. h ≡ take 24 (D.state disk.old).content) }
{
    let mut head = [0; HEAD_SIZE];
    disk.read_at(0, &mut head)?;
    Ok(head)
}

/// Judges the first 24 bytes.
fn judge_head(found: &[u8; HEAD_SIZE], owner: Owner) -> Result<(), RecoverFault>
    ensures head { OnOk result (found.now ≡ head owner) }
    ensures none { OnOk result (head_fault owner found.now ≡ None) }
    ensures fault { IfErr result (λ f. head_fault owner found.now ≡ Some f) }
    ensures no_device { IsErrOf result RecoverFault.Device → ⊥ }
{
    let wanted = encode_head(owner);
    if found[..10] != wanted[..10] {
        return Err(RecoverFault::NotState);
    }
    if *found != wanted {
        return Err(RecoverFault::WrongOwner);
    }
    Ok(())
}

/// Judges what the slots say.
fn judge_slots(slots: &Slots) -> Result<(), RecoverFault>
    requires { floor_of slots.now ≤ NUMBER_MAX }
    ensures usable { OnOk result (AreUsable slots.now) }
    ensures room { OnOk result (floor_of slots.now < NUMBER_MAX) }
    ensures none { OnOk result (slots_fault slots.now.a slots.now.b ≡ None) }
    ensures fault { IfErr result (λ f. slots_fault slots.now.a slots.now.b ≡ Some f) }
    ensures no_device { IsErrOf result RecoverFault.Device → ⊥ }
{
    if slots.is_shut(Slot::A) && slots.is_shut(Slot::B) {
        return Err(RecoverFault::NoSlot);
    }
    if !slots.is_usable() {
        return Err(RecoverFault::Damaged);
    }
    if slots.floor() == NUMBER_MAX {
        return Err(RecoverFault::Exhausted);
    }
    Ok(())
}

/// Reads the head, the mark and the slots of a file of this length, which is enough for version 1, and
/// judges them.
fn judge<D: Disk>(disk: &mut D, owner: Owner, size: u64) -> Result<Found, RecoverFault>
    requires size { D.keeps_model → size ≡ length (D.state disk.old).content }
    ensures name { (D.state disk.new).name ≡ (D.state disk.old).name }
    ensures asked { IfErr result (λ f. f ≢ Device
        → ((D.state disk.new).calls ≡ (D.state disk.old).calls + 6)
        ⊎ ((f ≡ NotState) × ((D.state disk.new).calls ≡ (D.state disk.old).calls + 2)
        × (D.keeps_model → length (D.state disk.old).content
        < (layout_of (version_in (D.state disk.old).content)).file_size))) }
    ensures rests { D.keeps_model → Rests (D.state disk.old) (D.state disk.new) }
    ensures found { D.keeps_model → IfOk result (λ f. IsFound owner (D.state disk.old).content f) }
    ensures none { D.keeps_model → OnOk result (fault_of owner (D.state disk.old).content ≡ None) }
    ensures fault { D.keeps_model
        → IfErr result (λ f. f ≢ Device → fault_of owner (D.state disk.old).content ≡ Some f) }
    ensures usable { IfOk result (λ f. AreUsable f.slots) }
    ensures room { IfOk result (λ f. floor_of f.slots < NUMBER_MAX) }
    ensures peers { IfOk result (λ f. ArePeers (peers_in f.slots)) }
    ensures device { IsErrOf result RecoverFault.Device
        → (D.state disk.new).failures ≡ (D.state disk.old).failures + 1 }
    ensures calm { (IsErrOf result RecoverFault.Device → ⊥)
        → (D.state disk.new).failures ≡ (D.state disk.old).failures }
{
    let head = read_head(disk)?;
    let version = read_version(disk)?;
    if size < version.size() {
        return Err(RecoverFault::NotState);
    }
    let slots = read_slots(disk, version)?;
    judge_head(&head, owner)?;
    judge_slots(&slots)?;
    Ok(Found { version, slots })
}

/// Syncs, reads all, and judges it. The length is judged as it is read, for version 2 as the mark is
/// read, and all else after all reads.
fn inspect<D: Disk>(disk: &mut D, owner: Owner) -> Result<Found, RecoverFault>
    ensures name { (D.state disk.new).name ≡ (D.state disk.old).name }
    ensures asked { IfErr result (λ f. f ≢ Device
        → IsJudged D.keeps_model f (D.state disk.old) (D.state disk.new)) }
    ensures rests { D.keeps_model → Rests (D.state disk.old) (D.state disk.new) }
    ensures settled { D.keeps_model → OnOk result (IsSettled (D.state disk.new)) }
    ensures found { D.keeps_model → IfOk result (λ f. IsFound owner (D.state disk.old).content f) }
    ensures none { D.keeps_model → OnOk result (fault_of owner (D.state disk.old).content ≡ None) }
    ensures fault { D.keeps_model
        → IfErr result (λ f. f ≢ Device → fault_of owner (D.state disk.old).content ≡ Some f) }
    ensures usable { IfOk result (λ f. AreUsable f.slots) }
    ensures room { IfOk result (λ f. floor_of f.slots < NUMBER_MAX) }
    ensures peers { IfOk result (λ f. ArePeers (peers_in f.slots)) }
    ensures device { IsErrOf result RecoverFault.Device
        → (D.state disk.new).failures ≡ (D.state disk.old).failures + 1 }
    ensures calm { (IsErrOf result RecoverFault.Device → ⊥)
        → (D.state disk.new).failures ≡ (D.state disk.old).failures }
{
    let size = measure(disk)?;
    if size < Version::One.size() {
        return Err(RecoverFault::NotState);
    }
    judge(disk, owner, size)
}

/// The slots of version 2 with a ceiling one above the floor that was found: by a save with the peers
/// that were found, or by a migration.
fn save_or_migrate<D: Disk>(disk: &mut D, found: Found) -> Result<Slots, DiskFault>
    requires usable { AreUsable found.slots }
    requires room { floor_of found.slots < NUMBER_MAX }
    requires peers { ArePeers (peers_in found.slots) }
    requires settled { D.keeps_model → IsSettled (D.state disk.old) }
    requires found { D.keeps_model
        → (owner : Owner) × IsFound owner (D.state disk.old).content found }
    ensures counts { Counts result (D.state disk.old) (D.state disk.new) }
    ensures usable { IfOk result (λ s. AreUsable s) }
    ensures floor { IfOk result (λ s. floor_of s ≡ floor_of found.slots + 1) }
    ensures peers { D.keeps_model → IfOk result (λ s. peers_in s ≡ peers_in found.slots) }
    ensures migrates { D.keeps_model → (owner : Owner) → IsSound owner (D.state disk.old).content
        → Migrates owner (floor_of found.slots) result (D.state disk.old) (D.state disk.new) }
    ensures earlier { D.keeps_model
        → LeavesAlone IsEarlier (D.state disk.old) (D.state disk.new) }
    ensures beside { D.keeps_model → version_in (D.state disk.old).content ≡ Two
        → LeavesAlone (IsBeside (target_in (D.state disk.old).content))
        (D.state disk.old) (D.state disk.new) }
{
    let Found { version, mut slots } = found;
    let ceiling = slots.floor() + 1;
    match version {
        Version::One => migrate(disk, ceiling),
        Version::Two => {
            let peers = slots.peers();
            save(disk, &mut slots, Saved { ceiling, peers })?;
            Ok(slots)
        }
    }
}

/// Makes a store of slots that were read, by a first save.
fn first_save<D: Disk>(
    mut disk: D,
    owner: Owner,
    found: Found,
) -> Result<Store<D>, (D, RecoverFault)>
    requires usable { AreUsable found.slots }
    requires room { floor_of found.slots < NUMBER_MAX }
    requires peers { ArePeers (peers_in found.slots) }
    requires settled { D.keeps_model → IsSettled (D.state disk) }
    requires found { D.keeps_model → IsFound owner (D.state disk).content found }
    ensures first { IfOk result (λ s. s.ceiling ≡ floor_of found.slots + 1) }
    ensures owner { IfOk result (λ s. s.owner ≡ owner) }
    ensures whole { IfOk result (λ s. s.broken ≡ false) }
    ensures peers { D.keeps_model → IfOk result (λ s. s.peers ≡ peers_in found.slots) }
    ensures held { D.keeps_model → IfOk result (λ s. Held owner (D.state s.disk) s.ceiling) }
    ensures named { D.keeps_model → IfOk result (λ s. HasPeers (D.state s.disk) s.peers) }
    ensures moments { D.keeps_model
        → Through (Covers owner (floor_of found.slots)) (D.state disk) (D.state (disk_in result)) }
    ensures fault { IfErr result (λ refused. refused.1 ≡ Device) }
    ensures counts { Counts result (D.state disk) (D.state (disk_in result)) }
    ensures earlier { D.keeps_model
        → LeavesAlone IsEarlier (D.state disk) (D.state (disk_in result)) }
    ensures beside { D.keeps_model → version_in (D.state disk).content ≡ Two
        → LeavesAlone (IsBeside (target_in (D.state disk).content))
        (D.state disk) (D.state (disk_in result)) }
{
    match save_or_migrate(&mut disk, found) {
        Ok(slots) => Ok(Store::of(disk, owner, slots)),
        Err(_) => Err((disk, RecoverFault::Device)),
    }
}

/// Opens a file that a crash may have left, and saves a ceiling of one above its floor: the first
/// number of a new life. The peers that stand with the floor stay. A file of version 1 becomes one of
/// version 2. The device calls are sync, length, head, mark, gate A, body A, gate B, body B, and then the
/// save or the migration. With a fault the disk comes back.
///
/// `Device` comes where a call of the disk failed. Otherwise the first fault that the content shows is
/// answered, and nothing is written: `NotState`, `WrongOwner`, `NoSlot`, `Damaged`, `Exhausted`.
pub fn recover<D: Disk>(mut disk: D, owner: Owner) -> Result<Store<D>, (D, RecoverFault)>
    // On any disk.
    ensures name { (D.state (disk_in result)).name ≡ (D.state disk).name }
    ensures owner { IfOk result (λ s. s.owner ≡ owner) }
    ensures whole { IfOk result (λ s. s.broken ≡ false) }
    ensures bounds { IfOk result (λ s. (1 ≤ s.ceiling) × (s.ceiling ≤ NUMBER_MAX)) }

    // One call of the disk failed if the answer is Device, and none if it is any other, which comes
    // after all reads.
    ensures device { IfErr result (λ refused. refused.1 ≡ Device
        → (D.state refused.0).failures ≡ (D.state disk).failures + 1) }
    ensures calm { IfErr result (λ refused. refused.1 ≢ Device
        → (D.state refused.0).failures ≡ (D.state disk).failures) }
    ensures asked { IfErr result (λ refused. refused.1 ≢ Device
        → IsJudged D.keeps_model refused.1 (D.state disk) (D.state refused.0)) }
    ensures opened { IfOk result (λ s. (D.state s.disk).failures ≡ (D.state disk).failures) }

    // Where the disk keeps the model: the first number is the next one of the content, and the peers
    // that stand with its floor stay.
    ensures first { D.keeps_model
        → IfOk result (λ s. s.ceiling ≡ floor (D.state disk).content + 1) }
    ensures kept { D.keeps_model → IfOk result (λ s. s.peers ≡ floor_peers (D.state disk).content) }
    ensures named { D.keeps_model → IfOk result (λ s. HasPeers (D.state s.disk) s.peers) }
    ensures covered { D.keeps_model → IfOk result (λ s. Held owner (D.state s.disk) s.ceiling) }

    // No moment of the call leaves less than what was held before it.
    ensures moments { D.keeps_model → (b : ℕ) → Held owner (D.state disk) b
        → Through (Covers owner b) (D.state disk) (D.state (disk_in result)) }
    ensures since { D.keeps_model → (b : ℕ) → Held owner (D.state disk) b
        → HeldSince owner (D.state (disk_in result)) (D.state disk).clock b }

    // The fault is the first that the content shows, and what shows one isn't written.
    ensures none { D.keeps_model → OnOk result (fault_of owner (D.state disk).content ≡ None) }
    ensures fault { D.keeps_model → IfErr result (λ refused. refused.1 ≢ Device
        → fault_of owner (D.state disk).content ≡ Some refused.1) }
    ensures refused { D.keeps_model → IfErr result (λ refused. refused.1 ≢ Device
        → Rests (D.state disk) (D.state refused.0)) }
    ensures written { D.keeps_model → (Rests (D.state disk) (D.state (disk_in result))
        ⊎ (fault_of owner (D.state disk).content ≡ None)) }
    ensures from_held { D.keeps_model → (b : ℕ) → Held owner (D.state disk) b
        → IfErr result (λ refused. (refused.1 ≡ Device) ⊎ (refused.1 ≡ Exhausted)) }

    // Head and slots of version 1 stay as they are, byte by byte: before the slots of version 2 only the
    // mark is written. In a file of version 2 one slot is written, and all beside it stays.
    ensures earlier { D.keeps_model
        → LeavesAlone IsEarlier (D.state disk) (D.state (disk_in result)) }
    ensures beside { D.keeps_model → version_in (D.state disk).content ≡ Two
        → LeavesAlone (IsBeside (target_in (D.state disk).content))
        (D.state disk) (D.state (disk_in result)) }
{
    // Two names, since the check follows a struct by value through one call only.
    let reader = owner;
    match inspect(&mut disk, reader) {
        Ok(found) => first_save(disk, owner, found),
        Err(fault) => Err((disk, fault)),
    }
}
