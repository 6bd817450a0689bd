//! Calls one after another.

ghost use Rattle.std.specs.Prelude.{◌≡◌, ◌++◌, ◌<◌, List, length, take, slice_get, Some, OnOk, IfErr, All};
ghost use Rattle.swim_state.specs.Alone.{IsEarlier, LeavesAlone};
ghost use Rattle.swim_state.specs.Held.{Covers, HeldSince, Through};
ghost use Rattle.swim_node.specs.History.{granted_of};
ghost use Rattle.swim_node.specs.Lives.{GoesOn};
ghost use Rattle.swim_node.specs.Node.{Ran, Refused};
ghost use Rattle.swim_node.specs.Sending.{SendsAll};
ghost use Rattle.swim_node.specs.declared.entry.Entry.{Entry as Entries};
ghost use Rattle.swim_node.specs.declared.entry.Tag.{Tag as Tags};
ghost use Rattle.swim_member.specs.declared.event.Event.{Event as Events};

use crate::{ApplyFault, Link, Node, Tag};
use swim_disk::Disk;
use swim_member::Event;

/// Applies each call in order, and stops at the first that is refused. The number says how many stand.
pub fn run<D: Disk, L: Link>(
    node: &mut Node<D>,
    link: &mut L,
    calls: &[(Tag, Event)],
) -> Result<(), (usize, ApplyFault)>
    requires callers { All (λ call. call.0.caller < 16) calls.now }
    ensures name { L.name link.new ≡ L.name link.old }
    ensures disk { (D.state node.new.disk).name ≡ (D.state node.old.disk).name }
    ensures ok { OnOk result (Ran node.old node.new calls.now) }
    ensures err { IfErr result (λ r. (r.0 < length calls.now)
        × Ran node.old node.new (take r.0 calls.now)) }
    ensures refused { IfErr result (λ r. (call : (Tags × Events))
        × (slice_get calls.now r.0 ≡ Some call)
        × Refused node.new.base node.new.entries call.0 r.1) }

    // After Ok and Err alike: what the link took is what the added entries mark as taken.
    ensures sends { (added : List Entries) × (node.new.entries ≡ node.old.entries ++ added)
        × SendsAll L.tells (L.took link.old) (L.took link.new)
        (L.failures link.old) (L.failures link.new) added }

    // No moment of the run leaves less than the ceiling before it, and the life goes on.
    ensures moments { D.keeps_model
        → Through (Covers node.old.owner (granted_of node.old.base node.old.entries))
        (D.state node.old.disk) (D.state node.new.disk) }
    ensures since { D.keeps_model → HeldSince node.old.owner (D.state node.new.disk)
        (D.state node.old.disk).clock (granted_of node.old.base node.old.entries) }

    // Of the state file only slots of version 2 are written.
    ensures earlier { D.keeps_model
        → LeavesAlone IsEarlier (D.state node.old.disk) (D.state node.new.disk) }
    ensures living { GoesOn D.state node.old node.new }
{
    node.numbers_are_covered();
    for i in 0..calls.len() {
        let call = &calls[i];
        if let Err(fault) = node.apply_in_place(link, call.0, &call.1) {
            return Err((i, fault));
        }
    }
    Ok(())
}
