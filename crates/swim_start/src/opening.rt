//! The opening of a member on its state file.

ghost use Rattle.std.specs.Prelude.{◌≡◌, ◌≢◌, ◌↔◌, ◌⊎◌, ◌<◌, [], None, Some, IfErr, IfOk};
ghost use Rattle.swim_disk.specs.File.{FileView, file_state};
ghost use Rattle.swim_start.specs.WatchedDisk.{disk_below, watched_state};
ghost use Rattle.swim_start.specs.declared.watched_disk.WatchedDisk.{WatchedDisk};
ghost use Rattle.swim_member.specs.Checks.{AreSound};
ghost use Rattle.swim_node.specs.Lives.{BeginsAbove, IsLiving, Unopened, life_of};
ghost use Rattle.swim_node.specs.Node.{owner_of};
ghost use Rattle.swim_node.specs.declared.opening.TheConstants.{LIMIT_MAX};
ghost use Rattle.swim_state.specs.Recovery.{fault_of};
ghost use Rattle.swim_state.specs.declared.fault.RecoverFault.{RecoverFault as Faults};
ghost use Rattle.swim_state.specs.declared.fault.RecoverFault.TheVariants.{Device};

use crate::watched_disk::{WatchedDisk, WriteWatch};
use std::alloc::Global;
use swim_disk::FileDisk;
use swim_member::Settings;
use swim_node::{Node, OpenFault};

/// A member on a state file that this watches.
pub type FileNode<W> = Node<WatchedDisk<FileDisk, W>>;

/// What is left of a start that was refused: the disk, and why.
type Unopened<W> = (WatchedDisk<FileDisk, W>, OpenFault);

/// Opens the member on its state file, which was just loaded. It is written only while the watch says that it may be.
pub fn open<W: WriteWatch + Drop>(
    alloc: Global,
    disk: FileDisk,
    watch: W,
    settings: Settings,
    limit: u32,
) -> Result<FileNode<W>, Unopened<W>>
    requires sound { AreSound settings }
    ensures entries { IfOk result (λ node. node.entries ≡ []) }

    // The limit is refused if and only if it is out of its range. A fault that is no failed call is the first that the file shows,
    // and what shows one is not opened.
    ensures limit { IfErr result (λ refused.
        refused.1 ≡ OpenFault.Limit ↔ ((limit ≡ 0) ⊎ (LIMIT_MAX < limit))) }
    ensures fault { IfErr result (λ refused. (fault : Faults)
        → fault ≢ Device
        → refused.1 ≡ OpenFault.Refused fault
        → fault_of (owner_of settings) (file_state disk).content ≡ Some fault) }
    ensures none { IfOk result
        (λ _. fault_of (owner_of settings) (file_state disk).content ≡ None) }

    // A life has begun on what the file had when it was loaded. Its first number is above all that the life before said, whatever
    // became of the file since: kills, crashes, calls that were cut short, refused starts.
    ensures begins { IfOk result (λ node. (opened : WatchedDisk FileView W)
        × (disk_below opened ≡ disk)
        × BeginsAbove (watched_state file_state) node.owner opened node.first
        × IsLiving (watched_state file_state) node.owner
        (life_of settings limit opened [] node)) }

    // A start that was refused, at whichever call of the disk, leaves what the lives before it held. If there was any, only a
    // failed call or exhaustion refuses it.
    ensures refused { IfErr result (λ refused. (opened : WatchedDisk FileView W)
        × (disk_below opened ≡ disk)
        × Unopened (watched_state file_state) settings limit refused.1 opened refused.0) }
{
    Node::open(alloc, WatchedDisk::new(disk, watch), settings, limit)
}
