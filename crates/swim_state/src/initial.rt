//! The making of a state file.

ghost use Rattle.std.specs.Prelude.{◌≡◌, ◌⊎◌, ◌↔◌, ◌+◌, ◌<◌, ◌≤◌, ◌^◌, ◌∷◌, [], ℕ, List, length, OnOk, IsErrOf};
ghost use Rattle.swim_disk.specs.Disk.{Counts, IsSettled, Rests, overlaid};
ghost use Rattle.swim_state.specs.File.{floor, head, version_in, IsSound};
ghost use Rattle.swim_state.specs.First.{body_alone};
ghost use Rattle.swim_state.specs.declared.layout.Version.TheVariants.{One};

use crate::fault::InitFault;
use crate::first::encode;
use crate::layout::{OPEN, Slot, Version};
use crate::owner::{Owner, encode_head};
use crate::save::put;
use swim_disk::{Disk, DiskFault};
use swim_wire::NUMBER_MAX;

/// Writes the head and body A.
fn write_head_and_body<D: Disk>(disk: &mut D, owner: Owner, ceiling: u64) -> Result<(), DiskFault>
    ensures counts { Counts result (D.state disk.old) (D.state disk.new) }
    ensures content { D.keeps_model
        → OnOk result
        ((D.state disk.new).content ≡ overlaid
        (overlaid (D.state disk.old).content 0 (head owner)) 4096 (body_alone ceiling)) }
{
    disk.write_at(0, &encode_head(owner))?;
    disk.write_at(Slot::A.body(Version::One), &encode(ceiling))
}

/// Shuts gate B, the last byte of the file, and syncs all.
fn shut_last<D: Disk>(disk: &mut D) -> Result<(), DiskFault>
    ensures counts { Counts result (D.state disk.old) (D.state disk.new) }
    ensures settled { D.keeps_model → OnOk result (IsSettled (D.state disk.new)) }
    ensures content { D.keeps_model
        → OnOk result
        ((D.state disk.new).content ≡ overlaid (D.state disk.old).content 16384 (0 ∷ [])) }
{
    disk.write_at(Slot::B.gate(Version::One), &[0])?;
    disk.sync()
}

/// Writes a file with this ceiling in slot A.
fn fill_new<D: Disk>(disk: &mut D, owner: Owner, ceiling: u64) -> Result<(), DiskFault>
    requires { ceiling ≤ NUMBER_MAX }
    ensures counts { Counts result (D.state disk.old) (D.state disk.new) }
    ensures made { D.keeps_model → (D.state disk.old).content ≡ [] → OnOk result
        ((c : List ℕ) → (D.state disk.new).images c → IsSound owner c × (floor c ≡ ceiling)) }
    ensures form { D.keeps_model → (D.state disk.old).content ≡ [] → OnOk result
        ((c : List ℕ) → (D.state disk.new).images c → version_in c ≡ One × (length c ≡ 16385)) }
{
    write_head_and_body(disk, owner, ceiling)?;
    shut_last(disk)?;
    put(disk, Slot::A.gate(Version::One), &[OPEN])
}

/// Makes a state file of version 1, of 16,385 bytes, on an empty disk: the owner's head, this ceiling in slot A, and
/// slot B shut.
///
/// `Range` comes where the ceiling is above the greatest number, and is judged before the disk is
/// touched; `NotEmpty` where the disk holds a byte, and nothing is written; `Device` where a call of the
/// disk failed. Then nothing is promised of the file, but no number of it was ever used.
pub fn init<D: Disk>(disk: &mut D, owner: Owner, ceiling: u64) -> Result<(), InitFault>
    // On any disk.
    ensures name { (D.state disk.new).name ≡ (D.state disk.old).name }

    // One call of the disk failed if the answer is Device, and none if it is any other.
    ensures device { IsErrOf result InitFault.Device
        → (D.state disk.new).failures ≡ (D.state disk.old).failures + 1 }
    ensures calm { (IsErrOf result InitFault.Device → ⊥)
        → (D.state disk.new).failures ≡ (D.state disk.old).failures }

    // A ceiling out of range is refused first, and nothing is touched.
    ensures range { IsErrOf result InitFault.Range ↔ (NUMBER_MAX < ceiling) }
    ensures untouched { NUMBER_MAX < ceiling → disk.new ≡ disk.old }

    // A disk that isn't empty is refused, and nothing is written.
    ensures empty { D.keeps_model → IsErrOf result InitFault.NotEmpty
        → 0 < length (D.state disk.old).content }
    ensures full { D.keeps_model → 0 < length (D.state disk.old).content → ceiling ≤ NUMBER_MAX
        → IsErrOf result InitFault.NotEmpty ⊎ IsErrOf result InitFault.Device }
    ensures kept { D.keeps_model → 0 < length (D.state disk.old).content → ceiling ≤ NUMBER_MAX
        → Rests (D.state disk.old) (D.state disk.new) }

    // Once it is made, a crash leaves a sound file with this floor, of version 1 and of just its length.
    ensures made { D.keeps_model → OnOk result ((c : List ℕ) → (D.state disk.new).images c
        → IsSound owner c × (floor c ≡ ceiling)) }
    ensures form { D.keeps_model → OnOk result ((c : List ℕ) → (D.state disk.new).images c
        → version_in c ≡ One × (length c ≡ 16385)) }
{
    if ceiling > NUMBER_MAX {
        return Err(InitFault::Range);
    }
    if disk.len()? != 0 {
        return Err(InitFault::NotEmpty);
    }
    fill_new(disk, owner, ceiling)?;
    Ok(())
}
