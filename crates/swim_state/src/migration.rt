//! From version 1 to version 2: the slots of version 2 are laid past those of version 1, and then the
//! mark says that they count.

ghost use Rattle.std.specs.Prelude.{◌≡◌, ◌<◌, ◌≤◌, [], ℕ, List, IsTrue, IfOk, OnOk};
ghost use Rattle.swim_disk.specs.Disk.{Counts, IsSettled};
ghost use Rattle.swim_state.specs.Alone.{IsEarlier, LeavesAlone};
ghost use Rattle.swim_state.specs.File.{floor, floor_of, peers_in, version_in, AreUsable, IsSound};
ghost use Rattle.swim_state.specs.Held.{Covers};
ghost use Rattle.swim_state.specs.Machinery.Saving.{IsLaid, IsOld, Leaves, Migrates};
ghost use Rattle.swim_state.specs.Second.{may_be_saved};
ghost use Rattle.swim_state.specs.declared.owner.Owner.{Owner};
ghost use Rattle.swim_state.specs.declared.layout.Version.TheVariants.{One, Two};
ghost use Rattle.swim_wire.specs.declared.update.TheConstants.{NUMBER_MAX};

use crate::layout::{MARK_AT, OPEN, Reading, Saved, Slot, Version};
use crate::peers::Peers;
use crate::save::put;
use crate::second::encode;
use crate::slots::Slots;
use swim_disk::{Disk, DiskFault};

/// Writes body A, opens gate A and shuts gate B, all past the slots of version 1, and syncs. Until the
/// mark says version 2, no reader looks at them, so that they need no order among themselves.
fn lay_slots<D: Disk>(disk: &mut D, saved: &Saved) -> Result<(), DiskFault>
    requires stands { IsTrue (may_be_saved saved.now) }
    ensures counts { Counts result (D.state disk.old) (D.state disk.new) }
    ensures settled { D.keeps_model → OnOk result (IsSettled (D.state disk.new)) }
    ensures lies { D.keeps_model → OnOk result (IsLaid saved.now (D.state disk.new).content) }
    ensures leaves { D.keeps_model → (owner : Owner) (n : ℕ)
        → ((c : List ℕ) → (D.state disk.old).images c → IsOld owner n c)
        → Leaves (IsOld owner n) (D.state disk.old) (D.state disk.new) }
    ensures alone { D.keeps_model
        → LeavesAlone IsEarlier (D.state disk.old) (D.state disk.new) }
{
    disk.write_at(Slot::A.body(Version::Two), encode(saved).as_slice())?;
    disk.write_at(Slot::A.gate(Version::Two), &[OPEN])?;
    disk.write_at(Slot::B.gate(Version::Two), &[0])?;
    disk.sync()
}

/// Writes the mark of version 2 over slots that are durable, and syncs. Until then a crash leaves the
/// one version or the other, and both are sound.
fn write_mark<D: Disk>(disk: &mut D, saved: &Saved) -> Result<(), DiskFault>
    requires settled { D.keeps_model → IsSettled (D.state disk.old) }
    requires lies { D.keeps_model → IsLaid saved.now (D.state disk.old).content }
    ensures counts { Counts result (D.state disk.old) (D.state disk.new) }
    ensures settled { D.keeps_model → OnOk result (IsSettled (D.state disk.new)) }
    ensures two { D.keeps_model → OnOk result (version_in (D.state disk.new).content ≡ Two) }
    ensures lies { D.keeps_model → OnOk result (IsLaid saved.now (D.state disk.new).content) }
    ensures leaves { D.keeps_model → (owner : Owner) (n : ℕ)
        → IsOld owner n (D.state disk.old).content → n ≤ saved.now.ceiling
        → Leaves (Covers owner n) (D.state disk.old) (D.state disk.new) }
    ensures alone { D.keeps_model
        → LeavesAlone IsEarlier (D.state disk.old) (D.state disk.new) }
{
    put(disk, MARK_AT, &[OPEN])
}

/// Makes a file of version 2 out of one of version 1, with this ceiling and no peers in slot A. The
/// slots of version 1 stay as they are.
pub(crate) fn migrate<D: Disk>(disk: &mut D, ceiling: u64) -> Result<Slots, DiskFault>
    requires bounded { ceiling ≤ NUMBER_MAX }
    requires settled { D.keeps_model → IsSettled (D.state disk.old) }
    requires one { D.keeps_model → version_in (D.state disk.old).content ≡ One }
    requires above { D.keeps_model → floor (D.state disk.old).content < ceiling }
    ensures counts { Counts result (D.state disk.old) (D.state disk.new) }
    ensures usable { IfOk result (λ s. AreUsable s) }
    ensures floor { IfOk result (λ s. floor_of s ≡ ceiling) }
    ensures peers { IfOk result (λ s. peers_in s ≡ []) }
    ensures migrates { D.keeps_model → (owner : Owner) → IsSound owner (D.state disk.old).content
        → Migrates owner (floor (D.state disk.old).content) result (D.state disk.old)
        (D.state disk.new) }
    ensures alone { D.keeps_model
        → LeavesAlone IsEarlier (D.state disk.old) (D.state disk.new) }
{
    let saved = Saved {
        ceiling,
        peers: Peers::none(),
    };
    lay_slots(disk, &saved)?;
    write_mark(disk, &saved)?;
    Ok(Slots {
        a: Reading::Holds(saved),
        b: Reading::Shut,
    })
}
