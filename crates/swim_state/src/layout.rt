//! Where the parts of a file lie, and what a slot says.

use crate::peers::Peers;
use crate::{first, second};

/// How many bytes the head has: the letters `SWIMSTAT`, a number, the group and the endpoint.
pub(crate) const HEAD_SIZE: usize = 24;

/// Where the mark stands, a byte that says which version the file has.
pub(crate) const MARK_AT: u64 = 2048;

/// The byte of an open gate. With any other one the gate is shut. As the mark it says version 2.
pub(crate) const OPEN: u8 = 0xa5;

/// The count of bytes that a device may write as one. No two parts of a file share such a block, but
/// for the head and the mark.
const BLOCK: u64 = 4096;

const _: () = prove!(HEAD_SIZE as u64 <= MARK_AT && MARK_AT < BLOCK);

const _: () = prove!(first::BODY_SIZE as u64 <= BLOCK && second::BODY_SIZE as u64 <= BLOCK);

/// The versions of the file. Both have the same head, and four parts after it: body A, gate A, body B
/// and gate B, each in a block of its own.
#[derive(Clone, Copy, Debug, PartialEq, Eq)]
pub enum Version {
    /// Its slots hold a ceiling. A new file is of this version.
    One,
    /// Its slots hold a ceiling and peers, and lie past those of version 1.
    Two,
}

impl Version {
    ghost use Rattle.std.specs.Prelude.{◌≡◌};
    ghost use Rattle.swim_state.specs.File.{layout_of, version_by};
    ghost use Rattle.swim_state.specs.declared.layout.Slot.TheVariants.{A};

    /// The version that the mark says.
    pub(crate) fn by(mark: u8) -> Version
        ensures { result ≡ version_by mark }
    {
        if mark == OPEN {
            Version::Two
        } else {
            Version::One
        }
    }

    /// The offset of the first part, which is body A.
    fn start(self) -> u64
        ensures { result ≡ (layout_of self).body_at A }
    {
        match self {
            Version::One => 4096,
            Version::Two => 20_480,
        }
    }

    /// The least length of a file, in bytes: its last byte is gate B.
    pub fn size(self) -> u64
        ensures { result ≡ (layout_of self).file_size }
    {
        self.start() + 3 * BLOCK + 1
    }

    /// How many bytes a body has.
    pub fn body_size(self) -> usize
        ensures { result ≡ (layout_of self).body_size }
    {
        match self {
            Version::One => first::BODY_SIZE,
            Version::Two => second::BODY_SIZE,
        }
    }
}

/// The two places of a file that a save writes in turn.
#[derive(Clone, Copy, Debug, PartialEq, Eq)]
pub enum Slot {
    A,
    B,
}

/// What a save puts into a slot.
#[derive(Clone, Copy, Debug, PartialEq, Eq)]
pub struct Saved {
    /// No number above it is used before the next save.
    pub ceiling: u64,
    /// Whom the member knew then, in ascending order. In version 1 there are none.
    pub peers: Peers,
}

/// What a slot says.
#[derive(Clone, Copy, Debug, PartialEq, Eq)]
pub enum Reading {
    /// Its gate is shut, whatever its body holds.
    Shut,
    /// Its gate is open over a good body.
    Holds(Saved),
    /// Its gate is open over a body whose complement disagrees, or whose ceiling is above the
    /// greatest number, or whose peers are more than eight or don't ascend.
    Damaged,
}

impl Slot {
    ghost use Rattle.std.specs.Prelude.{◌≡◌};
    ghost use Rattle.swim_state.specs.File.{layout_of};

    /// The offset of the slot's body in a file of this version.
    pub fn body(self, version: Version) -> u64
        ensures { result ≡ (layout_of version).body_at self }
    {
        match self {
            Slot::A => version.start(),
            Slot::B => version.start() + 2 * BLOCK,
        }
    }

    /// The offset of the slot's gate, which is one byte.
    pub fn gate(self, version: Version) -> u64
        ensures { result ≡ (layout_of version).gate_at self }
    {
        match self {
            Slot::A => version.start() + BLOCK,
            Slot::B => version.start() + 3 * BLOCK,
        }
    }
}
