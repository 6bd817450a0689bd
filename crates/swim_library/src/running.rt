//! A member that runs: its node, and what it is to send.

ghost use Rattle.std.specs.Prelude.{◌≡◌, ◌<◌, length};
ghost use Rattle.swim_library.specs.Deal.{undealt_tick};

use crate::changes::Told;
use crate::outbox::Outbox;
use crate::seeking::Seeking;
use arrayvec::ArrayVec;
use swim_disk::FileDisk;
use swim_member::{Event, NOTES_MAX, Note};
use swim_node::Node;

/// A member that runs.
#[derive(Drop)]
pub(crate) struct Running {
    pub(crate) node: Node<FileDisk>,
    pub(crate) outbox: Outbox,
    /// What the last event took note of.
    pub(crate) notes: ArrayVec<Note, NOTES_MAX>,
    /// What the program was told of members.
    pub(crate) told: Told,
    /// When the next tick is due by the program's clock, in milliseconds; none before it was told.
    pub(crate) due: Option<u64>,
    /// Who looks for the members of the group.
    pub(crate) seeking: Seeking,
    /// The tick that ends no period. It stays here, as it is large, and is the same each time: its order of members is read by nobody.
    pub(crate) undealt: Event,
    /// How many entries an era has.
    pub(crate) limit: u32,
    ghost undealt_is: { undealt ≡ undealt_tick },
    ghost limit_is: { node.base.limit ≡ limit },
    ghost has_room: { length node.entries < limit },
}
