//! Refutations of a member over a state file: each is a call that suspects its number.

ghost use Rattle.std.specs.Prelude.{◌≡◌, ◌+◌, ◌≤◌, true};
ghost use Rattle.swim_node.specs.History.{status_of};

use arrayvec::ArrayVec;
use std::alloc::Global;
use swim_disk::Disk;
use swim_member::{Event, Settings};
use swim_node::{Link, LinkFault, Node, Tag};
use swim_state::Owner;
use swim_wire::{Cursor, Datagram, Endpoint, Kind, Rules, Update, UpdateKind, encode};

/// Entries in an era: the most refutations of one run.
const LIMIT: u32 = 4096;

/// A link that takes everything.
#[derive(Drop)]
struct Sink;

impl Link for Sink {
    ghost use Rattle.std.specs.Prelude.{[]};
    ghost use Rattle.swim_node.specs.Link.{link_number};

    ghost name = { λ _. link_number 0 };

    ghost tells = { ⊥ };

    ghost took = { λ _. [] };

    ghost failures = { λ _. 0 };

    fn send(&mut self, to: Endpoint, bytes: &[u8]) -> Result<(), LinkFault> {
        let _ = to;
        let _ = bytes.len();
        Ok(())
    }
}

/// A member of this owner, of which a save reserves so many numbers, or none where it can't be opened.
pub(crate) fn open<D: Disk + Drop>(
    alloc: Global,
    disk: D,
    owner: Owner,
    block: u64,
) -> Option<Node<D>> {
    let settings = Settings {
        block,
        ..Settings::usual(owner.group, owner.me)
    };
    settings.check().ok()?;
    Node::open(alloc, disk, settings, LIMIT).ok()
}

/// A ping of another member that suspects this one of this number.
fn suspicion(owner: &Owner, number: u64) -> Option<Event> {
    let from = Endpoint::new(0x0a00_0002, 7000)?;
    let mut updates = ArrayVec::new();
    let suspect = Update {
        kind: UpdateKind::Suspect,
        who: owner.me,
        number,
    };
    updates.try_push(suspect).ok()?;
    let datagram = Datagram {
        version: Rules::One,
        kind: Kind::Ping,
        group: owner.group,
        seq: 1,
        sender: from,
        subject: Cursor::at(owner.me),
        updates,
    };
    if !datagram.is_encodable() {
        return None;
    }
    let mut bytes = ArrayVec::new();
    bytes.try_extend_from_slice(&encode(&datagram)).ok()?;
    Some(Event::Datagram { from, bytes })
}

/// Suspects the member so many times in an era that has just begun, and answers whether it refuted each
/// suspicion by a greater number.
pub(crate) fn refute<D: Disk>(node: &mut Node<D>, owner: &Owner, count: u32) -> bool
    ensures { result ≡ true
        → (status_of node.old.base node.old.entries).number + count
        ≤ (status_of node.new.base node.new.entries).number }
{
    for turn in 0..count {
        let number = node.status().number;
        let Some(event) = suspicion(owner, number) else {
            return false;
        };
        let tag = Tag {
            caller: 0,
            turn: turn + 1,
        };
        if node.apply(&mut Sink, tag, event).is_err() {
            return false;
        }
        if node.status().number <= number {
            return false;
        }
    }
    true
}
