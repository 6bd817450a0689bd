//! What both slots say, and which of them the next save writes.

ghost use Rattle.std.specs.Prelude.{◌≡◌, ◌≢◌, ◌<◌, ◌≤◌, ◌^◌, ◌+◌, IfOk, OnOk, IfSome, length};
ghost use Rattle.swim_disk.specs.Disk.{Rests, Counts};
ghost use Rattle.swim_state.specs.File.{reading_at, ceiling_of, floor_of, layout_of, peers_of, peers_in, said, version_in, AreOf};
ghost use Rattle.swim_state.specs.Second.{ArePeers};
ghost use Rattle.swim_wire.specs.declared.update.TheConstants.{NUMBER_MAX};

use crate::layout::{MARK_AT, OPEN, Reading, Saved, Slot, Version};
use crate::peers::Peers;
use crate::{first, second};
use swim_disk::{Disk, DiskFault};

/// The most bytes of a body.
const BODY_MAX: usize = second::BODY_SIZE;

/// What both slots say.
#[derive(Clone, Copy, Debug, PartialEq, Eq)]
pub struct Slots {
    /// What slot A holds.
    pub a: Reading,
    /// What slot B holds.
    pub b: Reading,
}

/// What a body says, or none where it isn't good.
fn decode(version: Version, body: &[u8]) -> Option<Saved>
    requires { length body.now ≡ (layout_of version).body_size }
    ensures said { result ≡ said (layout_of version) body.now }
    ensures stands { IfSome result (λ s. s.ceiling ≤ NUMBER_MAX × ArePeers s.peers) }
{
    match version {
        Version::One => first::decode(body),
        Version::Two => second::decode(body),
    }
}

impl Reading {
    ghost use Rattle.swim_state.specs.File.{slot_reading};

    /// What a gate byte and a body say.
    pub(crate) fn of(version: Version, gate: u8, body: &[u8]) -> Reading
        requires { length body.now ≡ (layout_of version).body_size }
        ensures reading { result ≡ slot_reading (layout_of version) gate body.now }
        ensures bounded { ceiling_of result ≤ NUMBER_MAX }
        ensures peers { ArePeers (peers_of result) }
    {
        if gate != OPEN {
            return Reading::Shut;
        }
        match decode(version, body) {
            Some(saved) => Reading::Holds(saved),
            None => Reading::Damaged,
        }
    }

    fn ceiling(&self) -> u64
        ensures { result ≡ ceiling_of self.now }
    {
        match self {
            Reading::Holds(saved) => saved.ceiling,
            Reading::Shut | Reading::Damaged => 0,
        }
    }

    fn peers(&self) -> Peers
        ensures { result ≡ peers_of self.now }
    {
        match self {
            Reading::Holds(saved) => saved.peers,
            Reading::Shut | Reading::Damaged => Peers::none(),
        }
    }
}

impl Slots {
    ghost use Rattle.swim_state.specs.Alone.{target_by};
    ghost use Rattle.swim_state.specs.File.{floor_of, peers_in, reading_in, ceiling_of, AreUsable, IsOpen};
    ghost use Rattle.swim_state.specs.Layout.{other_slot};
    ghost use Rattle.swim_state.specs.declared.layout.Saved.{Saved};
    ghost use Rattle.swim_state.specs.declared.layout.Reading.TheVariants.{Damaged, Holds, Shut};
    ghost use Rattle.std.specs.Prelude.{◌≡◌, ◌↔◌, ◌≤◌, ◌^◌, true};

    pub(crate) fn floor(&self) -> u64
        ensures { result ≡ floor_of self.now }
    {
        self.a.ceiling().max(self.b.ceiling())
    }

    /// The peers that stand with the floor.
    pub(crate) fn peers(&self) -> Peers
        ensures { result ≡ peers_in self.now }
    {
        match (&self.a, &self.b) {
            (Reading::Holds(a), Reading::Holds(b)) if a.ceiling < b.ceiling => b.peers,
            (Reading::Holds(a), _) => a.peers,
            (_, b) => b.peers(),
        }
    }

    pub(crate) fn is_shut(&self, slot: Slot) -> bool
        ensures { (result ≡ true) ↔ (reading_in self.now slot ≡ Shut) }
    {
        match slot {
            Slot::A => matches!(self.a, Reading::Shut),
            Slot::B => matches!(self.b, Reading::Shut),
        }
    }

    /// Notes that this was saved in a slot, whose bytes are on the disk by then.
    pub(crate) fn note(&mut self, slot: Slot, saved: Saved)
        ensures written { reading_in self.new slot ≡ Holds saved }
        ensures other { reading_in self.new (other_slot slot)
            ≡ reading_in self.old (other_slot slot) }
    {
        match slot {
            Slot::A => self.a = Reading::Holds(saved),
            Slot::B => self.b = Reading::Holds(saved),
        }
    }

    /// Whether a gate is open and no slot is damaged.
    pub(crate) fn is_usable(&self) -> bool
        requires { floor_of self.now ≤ NUMBER_MAX }
        ensures { (result ≡ true) ↔ AreUsable self.now }
    {
        match (&self.a, &self.b) {
            (Reading::Damaged, _) | (_, Reading::Damaged) | (Reading::Shut, Reading::Shut) => false,
            _ => true,
        }
    }

    /// The slot that a save writes: the other one holds the floor.
    pub(crate) fn target(&self) -> Slot
        requires { AreUsable self.now }
        ensures other { (kept : Saved) × (reading_in self.now (other_slot result) ≡ Holds kept)
            × (kept.ceiling ≡ floor_of self.now) }
        ensures below { ceiling_of (reading_in self.now result) ≤ floor_of self.now }
        ensures rule { result ≡ target_by self.now.a self.now.b }
    {
        match (&self.a, &self.b) {
            (Reading::Holds(a), Reading::Holds(b)) if a.ceiling >= b.ceiling => Slot::B,
            (Reading::Holds(_), Reading::Shut) => Slot::B,
            _ => Slot::A,
        }
    }
}

/// The version of a file with these bytes: what its mark says, and without one version 1.
pub fn version_of(image: &[u8]) -> Version
    ensures { result ≡ version_in image.now }
{
    Version::by(image.get(MARK_AT as usize).copied().unwrap_or(0))
}

/// What the slots of a file with these bytes say, whatever else the bytes are. They are those of the
/// version that its mark names. A gate past their end is shut.
pub fn slots_in(image: &[u8]) -> Slots
    ensures { AreOf (layout_of (version_in image.now)) image.now result }
{
    let version = version_of(image);
    Slots {
        a: slot_in(image, version, Slot::A),
        b: slot_in(image, version, Slot::B),
    }
}

fn slot_in(image: &[u8], version: Version, slot: Slot) -> Reading
    ensures { result ≡ reading_at (layout_of version) image.now slot }
{
    let gate = slot.gate(version) as usize;
    if gate >= image.len() {
        return Reading::Shut;
    }
    let at = slot.body(version) as usize;
    Reading::of(version, image[gate], &image[at..at + version.body_size()])
}

/// Reads the mark.
pub(crate) fn read_version<D: Disk>(disk: &mut D) -> Result<Version, DiskFault>
    ensures counts { Counts result (D.state disk.old) (D.state disk.new) }
    ensures asked { OnOk result ((D.state disk.new).calls ≡ (D.state disk.old).calls + 1) }
    ensures rests { D.keeps_model → Rests (D.state disk.old) (D.state disk.new) }
    ensures version { D.keeps_model
        → IfOk result (λ v. v ≡ version_in (D.state disk.old).content) }
{
    let mut mark = [0; 1];
    disk.read_at(MARK_AT, &mut mark)?;
    Ok(Version::by(mark[0]))
}

/// Reads a gate and its body.
pub(crate) fn read_slot<D: Disk>(
    disk: &mut D,
    version: Version,
    slot: Slot,
) -> Result<Reading, DiskFault>
    ensures counts { Counts result (D.state disk.old) (D.state disk.new) }
    ensures asked { OnOk result ((D.state disk.new).calls ≡ (D.state disk.old).calls + 2) }
    ensures rests { D.keeps_model → Rests (D.state disk.old) (D.state disk.new) }
    ensures reading { D.keeps_model → IfOk result
        (λ r. r ≡ reading_at (layout_of version) (D.state disk.old).content slot) }
    ensures bounded { IfOk result (λ r. ceiling_of r ≤ NUMBER_MAX) }
    ensures peers { IfOk result (λ r. ArePeers (peers_of r)) }
{
    let mut gate = [0; 1];
    disk.read_at(slot.gate(version), &mut gate)?;
    let mut room = [0; BODY_MAX];
    let body = &mut room[..version.body_size()];
    disk.read_at(slot.body(version), body)?;
    Ok(Reading::of(version, gate[0], body))
}

/// Reads both slots.
pub(crate) fn read_slots<D: Disk>(disk: &mut D, version: Version) -> Result<Slots, DiskFault>
    ensures counts { Counts result (D.state disk.old) (D.state disk.new) }
    ensures asked { OnOk result ((D.state disk.new).calls ≡ (D.state disk.old).calls + 4) }
    ensures rests { D.keeps_model → Rests (D.state disk.old) (D.state disk.new) }
    ensures same { D.keeps_model
        → IfOk result (λ s. AreOf (layout_of version) (D.state disk.old).content s) }
    ensures bounded { IfOk result (λ s. floor_of s ≤ NUMBER_MAX) }
    ensures peers { IfOk result (λ s. ArePeers (peers_in s)) }
{
    let a = read_slot(disk, version, Slot::A)?;
    let b = read_slot(disk, version, Slot::B)?;
    Ok(Slots { a, b })
}
