//! A caller of a member over memory, without a lock: 10.0.0.1:7000 in group 7.

ghost use Rattle.std.specs.Prelude.{◌≡◌, [], IfOk};

use super::fakes::who;
use std::alloc::Global;
use std::marker::Model;
use std::test::Fail;
use swim_disk::MemDisk;
use swim_member::Event;
use swim_node::{ApplyFault, MemoryLink, Node, Reply, Status, Tag};
use swim_scenes::{new_disk, opened};
use swim_shell::{COUNTERS, Caller, Counters, Observer, Refusal, Who};
use swim_trace::Trace;

/// A member with eras of so many entries, which one caller calls, and the link that its datagrams go to.
#[derive(Drop)]
pub(super) struct Direct<const LIMIT: u32> {
    node: Node<MemDisk>,
    pub(super) link: MemoryLink,
    calls: u32,
    is_spent: bool,
    asked: Trace<Event>,
    ghost limit: { node.base.limit ≡ LIMIT },
}

impl<const LIMIT: u32> Direct<LIMIT> {
    /// A new member, whose number is 1.
    pub(super) fn new(alloc: Global) -> Result<Direct<LIMIT>, Fail> {
        let disk = new_disk(alloc).ok_or("a state file")?;
        let node = opened(alloc, disk, LIMIT).ok_or("an opening")?;
        Ok(Direct::over(node, alloc))
    }

    /// Over this node.
    fn over(node: Node<MemDisk>, alloc: Global) -> Direct<LIMIT>
        requires { node.base.limit ≡ LIMIT }
    {
        Direct {
            node,
            link: MemoryLink::new(alloc, 1),
            calls: 0,
            is_spent: false,
            asked: Trace::new(),
        }
    }

    /// The era is over: the next one begins.
    pub(super) fn begin_era(&mut self) {
        self.node.rebase();
        self.calls = 0;
    }

    /// The member with its journal.
    pub(super) fn node(&self) -> &Node<MemDisk> {
        &self.node
    }
}

impl<const LIMIT: u32> Caller for Direct<LIMIT> {
    ghost use Rattle.std.specs.Prelude.{ℕ};

    ghost known = { λ d. record {
      caller = 0;
      seen = d.node.entries;
      spent = d.is_spent;
      asked =
          d.asked;
    } };

    ghost limit = { LIMIT };

    fn call(&mut self, event: Event) -> Result<Reply, Refusal> {
        self.asked = self.asked.and(&event);
        let tag = Tag {
            caller: 0,
            turn: self.calls.saturating_add(1),
        };
        match self.node.apply(&mut self.link, tag, event) {
            Ok(reply) => {
                self.calls = self.calls.saturating_add(1);
                Ok(reply)
            }
            Err(ApplyFault::EraFull) => Err(Refusal::EraFull),
            Err(ApplyFault::NoMemory) => Err(Refusal::Memory),
            Err(ApplyFault::OutOfTurn) => {
                self.is_spent = true;
                Err(Refusal::Unread)
            }
        }
    }
}

impl<const LIMIT: u32> Observer for Direct<LIMIT> {
    fn status(&mut self) -> Option<Status> {
        Some(self.node.status())
    }

    fn who(&mut self) -> Who {
        who(0)
    }

    fn counters(&mut self) -> Counters {
        Counters {
            values: [0; COUNTERS],
        }
    }
}
