//! The member on its disk.

ghost use Rattle.std.specs.Prelude.{◌≡◌, [], IfSome};

use crate::datagrams::{GROUP, endpoint};
use std::alloc::Global;
use swim_disk::{Disk, FaultDisk, MemDisk, Plan};
use swim_member::Settings;
use swim_node::Node;
use swim_state::{Owner, init};

/// A disk in memory that fails by a plan, or holds a save.
pub type Device = FaultDisk<MemDisk>;

/// A new disk in memory with the state file of 10.0.0.1:7000.
fn made(alloc: Global) -> Option<MemDisk> {
    let me = endpoint(1)?;
    let mut disk = MemDisk::new(alloc, 1, Vec::new(alloc));
    init(&mut disk, Owner { group: GROUP, me }, 0).ok()?;
    Some(disk)
}

/// A new disk with the member's state file. One that is refused is made once more.
pub fn new_disk(alloc: Global) -> Option<MemDisk> {
    made(alloc).or_else(|| made(alloc))
}

/// The member with the usual settings on a new disk, or on one around it, whose era of so many entries has just begun. Its
/// number is 1. An opening that is refused is tried once more.
pub fn opened<D: Disk + Drop>(alloc: Global, disk: D, limit: u32) -> Option<Node<D>>
    ensures entries { IfSome result (λ node. node.entries ≡ []) }
    ensures limit { IfSome result (λ node. node.base.limit ≡ limit) }
{
    let settings = Settings::usual(GROUP, endpoint(1)?);
    match Node::open(alloc, disk, settings, limit) {
        Ok(node) => Some(node),
        Err((disk, _)) => Node::open(alloc, disk, settings, limit).ok(),
    }
}

/// The same on a new disk that fails by a plan, and that plan.
pub fn opened_by_plan(alloc: Global, limit: u32) -> Option<(Node<Device>, Plan)>
    ensures { IfSome result (λ made. made.0.entries ≡ []) }
{
    let (disk, plan) = FaultDisk::new(alloc, new_disk(alloc)?).ok()?;
    Some((opened(alloc, disk, limit)?, plan))
}
