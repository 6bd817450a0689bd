//! What a state file says, and what an opening of it would do.

ghost use Rattle.std.specs.Prelude.{◌≡◌, ◌≤◌, ◌+◌, length, IfErr, IfOk, IfSome};
ghost use Rattle.swim_disk.specs.declared.mem.TheConstants.{MOST_BYTES};
ghost use Rattle.swim_show.specs.declared.fault.ShowFault.TheVariants as faults;
ghost use Rattle.swim_show.specs.Showing.{endpoint_by, named_by, opener_of, opening_of};
ghost use Rattle.swim_wire.specs.Numbers.{number_at};
ghost use Rattle.swim_disk.specs.MemDisk.{state_of};
ghost use Rattle.swim_state.specs.File.{layout_of, version_in, AreOf};

use crate::departing::LETTERS;
use crate::fault::ShowFault;
use byteorder::{BigEndian, ByteOrder};
use std::alloc::Global;
use swim_disk::MemDisk;
use swim_state::{
    Owner, Peers, Reading, RecoverFault, Slot, Slots, Version, recover, slots_in, version_of,
};
use swim_wire::Endpoint;

/// Where the group and the endpoint stand in the head, and how many bytes it has.
const GROUP_AT: usize = 10;

pub(crate) const ENDPOINT_AT: usize = 18;

const HEAD_SIZE: usize = 24;

/// What an opening of a file by the member that its head names would do.
#[derive(Clone, Copy, Debug, PartialEq, Eq)]
pub enum Opening {
    /// A life would begin with this number, one above the floor, and with these peers.
    Begins {
        /// The first number of the life.
        number: u64,
        /// Whom it would know.
        peers: Peers,
    },
    /// It would be refused, and nothing would be written.
    Refused(RecoverFault),
}

/// What a state file says.
#[derive(Clone, Copy, Debug, PartialEq, Eq)]
pub struct FileReport {
    /// The member that the head names: none where the file ends before its endpoint does, or has port 0.
    pub owner: Option<Owner>,
    /// The version that the mark says.
    pub version: Version,
    /// What both slots of this version say. A gate past the end is shut.
    pub slots: Slots,
    /// What an opening would do.
    pub opening: Opening,
}

/// One of the slots.
#[derive(Clone, Copy)]
pub(crate) struct SlotShown {
    /// Its letter.
    pub(crate) letter: &'static str,
    /// The offset of its body.
    pub(crate) body: u64,
    /// The offset of its gate.
    pub(crate) gate: u64,
    /// What it says.
    pub(crate) reading: Reading,
}

impl FileReport {
    /// One of its slots.
    pub(crate) fn slot(&self, slot: Slot) -> SlotShown {
        let (letter, reading) = match slot {
            Slot::A => ("A", self.slots.a),
            Slot::B => ("B", self.slots.b),
        };
        SlotShown {
            letter,
            body: slot.body(self.version),
            gate: slot.gate(self.version),
            reading,
        }
    }

    /// Whether an opening would begin a life.
    pub(crate) fn is_sound(&self) -> bool {
        matches!(self.opening, Opening::Begins { .. })
    }
}

/// The endpoint at an offset, or none where it has port 0.
fn endpoint_at(image: &[u8], at: usize) -> Option<Endpoint>
    requires { at + 6 ≤ length image.now }
    ensures { result ≡ endpoint_by (number_at at 6 image.now) }
{
    let number = BigEndian::read_u48(&image[at..]);
    Endpoint::new((number / 65_536) as u32, (number % 65_536) as u16)
}

/// The member that the head names; none where the file does not begin as a state file does, so that its bytes name nobody.
fn owner_in(image: &[u8]) -> Option<Owner>
    ensures { result ≡ named_by image.now }
{
    if image.len() < HEAD_SIZE || !image.starts_with(&LETTERS) {
        return None;
    }
    let group = BigEndian::read_u64(&image[GROUP_AT..]);
    match endpoint_at(image, ENDPOINT_AT) {
        Some(me) => Some(Owner { group, me }),
        None => None,
    }
}

/// The member itself, or any one where none is named: whoever opens such a file is refused.
fn opener(owner: Option<Owner>) -> Owner
    ensures { result ≡ opener_of owner }
{
    owner.unwrap_or(Owner {
        group: 0,
        me: Endpoint::default(),
    })
}

/// What an opening over this disk answers; none where there was no memory.
fn try_opening(disk: MemDisk, owner: Owner) -> Option<Opening>
    ensures { IfSome result (λ opening. opening ≡ opening_of owner (state_of disk).content) }
{
    match recover(disk, owner) {
        Ok(store) => Some(Opening::Begins {
            number: store.ceiling(),
            peers: store.peers(),
        }),
        Err(refused) => {
            let fault = refused.1;
            match fault {
                RecoverFault::Device => None,
                _ => Some(Opening::Refused(fault)),
            }
        }
    }
}

/// What a file with these bytes says. The opening is tried over a copy in memory, so what it answers is what
/// an opening of the file would. Err: there was no memory.
pub fn show(alloc: Global, image: Vec<u8>) -> Result<FileReport, ShowFault>
    requires { length image.items ≤ MOST_BYTES }
    ensures owner { IfOk result (λ s. s.owner ≡ named_by image.items) }
    ensures version { IfOk result (λ s. s.version ≡ version_in image.items) }
    ensures slots { IfOk result
        (λ s. AreOf (layout_of (version_in image.items)) image.items s.slots) }
    ensures opening { IfOk result
        (λ s. s.opening ≡ opening_of (opener_of (named_by image.items)) image.items) }
    ensures refused { IfErr result (λ fault. fault ≡ faults.Memory) }
{
    // Two names, since the check follows a struct by value through one call only.
    let owner = owner_in(&image);
    let named = owner;
    let version = version_of(&image);
    let slots = slots_in(&image);
    let disk = MemDisk::new(alloc, 0, image);
    let opening = try_opening(disk, opener(named)).ok_or(ShowFault::Memory)?;
    Ok(FileReport {
        owner,
        version,
        slots,
        opening,
    })
}
