//! Opening a node.

ghost use Rattle.std.specs.Prelude.{IfOk, IfErr};
ghost use Rattle.swim_member.specs.Checks.{AreSound};
ghost use Rattle.swim_node.specs.Node.{disk_of, owner_of};
ghost use Rattle.swim_node.specs.Opening.{BeginsLife, OpensFile, RefusesLife};

use crate::base::base_at;
use crate::journal::Journal;
use crate::{Node, OpenFault};
use std::alloc::Global;
use swim_disk::Disk;
use swim_member::{Answer, Member, Settings};
use swim_state::{Owner, recover};
use swim_wire::Datagram;

/// The most entries that an era may have.
pub const LIMIT_MAX: u32 = 65_536;

impl<D: Disk> Node<D> {
    /// Opens a node on the state file of the member that the settings name, with a first number above all that a
    /// crash may have left there. An era has at most `limit` entries, 1 to `LIMIT_MAX`. The limit is judged first,
    /// then a place in the journal is taken, and then the file is recovered.
    pub fn open(
        alloc: Global,
        disk: D,
        settings: Settings,
        limit: u32,
    ) -> Result<Node<D>, (D, OpenFault)>
        requires sound { AreSound settings }
        ensures file { OpensFile D.keeps_model (owner_of settings) (D.state disk)
            (D.state (disk_of result)) }
        ensures opens { IfOk result (BeginsLife D.keeps_model D.state settings limit disk) }
        ensures refused { IfErr result (λ refused.
            RefusesLife D.keeps_model D.state settings limit disk refused.0 refused.1) }
    {
        if limit == 0 || limit > LIMIT_MAX {
            return Err((disk, OpenFault::Limit));
        }
        let mut journal = Journal::new(alloc);
        if journal.reserve().is_err() {
            return Err((disk, OpenFault::NoMemory));
        }
        let owner = Owner {
            group: settings.group,
            me: settings.me,
        };
        match recover(disk, owner) {
            Err((disk, fault)) => Err((disk, OpenFault::Refused(fault))),
            Ok(store) => {
                let first = store.ceiling();
                let member = Member::new(settings, first);
                Ok(Node {
                    base: base_at(&member, first, None, limit),
                    journal,
                    member,
                    store,
                    first,
                    most: None,
                    read: Datagram::default(),
                    answer: Answer::nothing(),
                })
            }
        }
    }
}
