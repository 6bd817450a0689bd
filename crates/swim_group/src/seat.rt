//! A place in a group of real nodes, and what happens to who sits there.

ghost use Rattle.std.specs.Prelude.{◌≡◌, ◌+◌, ◌≤◌, ◌++◌, ◌∷◌, [], ℕ, All, None, List, length, take, vec_len, IfOk, IfErr, OnOk, OnErr};
ghost use Rattle.std.specs.Vec.{vec_capacity};
ghost use Rattle.swim_member.specs.declared.answer.TheConstants.{OUTS_MAX};
ghost use Rattle.swim_member.specs.Checks.{AreSound};
ghost use Rattle.swim_node.specs.declared.entry.Entry.{Entry as Entries};
ghost use Rattle.swim_node.specs.Node.{NodeView, owner_of};
ghost use Rattle.swim_state.specs.File.{floor, IsSound};
ghost use Rattle.swim_group.specs.declared.fault.NodesFault.TheVariants as nodes;
ghost use Rattle.swim_group.specs.RealNodes.{NodeDisk as Disks, node_disk_state, HearsThere, OpensThere, LeavesThere, EraEndsThere, PlansThere, IsNewNode, AreNewNodes};
ghost use Rattle.swim_group.specs.Refusing.{IsDeaf, IsShut, IsNoLimit, IsNotMade, IsUnseated};

use crate::failure::{Failure, Planned};
use crate::fault::NodesFault;
use crate::node::{crash, hear, open_again, rebase};
use crate::step::keep;
use std::alloc::Global;
use swim_disk::{Choice, FaultDisk, MemDisk};
use swim_member::{Event, OUTS_MAX, Out, Settings};
use swim_node::{Link, LinkFault, Node, Reply};
use swim_state::{InitFault, Owner, init};
use swim_wire::Endpoint;

/// The disk of a node: in memory, and it fails by a plan.
pub type NodeDisk = FaultDisk<MemDisk>;

/// A node, or none where it was not opened again, the settings with which it is opened, and what is planned of its disk.
#[derive(Drop)]
pub struct Seat {
    /// The settings.
    pub settings: Settings,
    /// The node.
    pub node: Option<Node<NodeDisk>>,
    /// What is planned of its disk.
    pub planned: Planned,
}

/// A link that takes every datagram and tells nothing of it: what becomes of them is the network's.
#[derive(Drop)]
struct Nowhere;

impl Link for Nowhere {
    ghost use Rattle.std.specs.Prelude.{[]};
    ghost use Rattle.swim_node.specs.Link.{link_number};

    ghost name = { λ l. link_number 0 };

    ghost tells = { ⊥ };

    ghost took = { λ l. [] };

    ghost failures = { λ l. 0 };

    fn send(&mut self, _to: Endpoint, _bytes: &[u8]) -> Result<(), LinkFault> {
        Ok(())
    }
}

/// An event comes to the node that sits there.
pub(crate) fn hear_there(seat: &mut Seat, event: Event) -> Result<Reply, NodesFault>
    ensures ok { IfOk result (λ reply. HearsThere seat.old seat.new event reply) }
    ensures refused { IfErr result (λ fault. IsDeaf seat.old fault) }
    ensures err { OnErr result (seat.new ≡ seat.old) }
{
    let Some(node) = &mut seat.node else {
        return Err(NodesFault::Gone);
    };
    let tag = node.next_tag(0);
    match hear(node, &mut Nowhere, tag, event) {
        Ok(reply) => Ok(reply),
        Err(fault) => Err(NodesFault::Refused(fault)),
    }
}

/// Keeps the datagrams of the last entry of the node that sits there, as far as there is room. The rest is lost.
pub(crate) fn keep_last(seat: &Seat, kept: &mut Vec<Out>, room: usize)
    requires within { length kept.old.items ≤ room }
    requires memory { vec_len kept.old + OUTS_MAX ≤ vec_capacity kept.old }
    ensures kept { (node : NodeView Disks) → (before : List Entries) → (e : Entries)
        → seat.now.node ≡ Some node
        → node.entries ≡ before ++ e ∷ []
        → kept.new.items ≡ take room (kept.old.items ++ e.outs.items) }
    ensures within { length kept.new.items ≤ room }
{
    let Some(node) = &seat.node else {
        return;
    };
    if node.len() == 0 {
        return;
    }
    keep(kept, room, &node.last().outs);
}

/// The node that sits there crashes, and is opened anew on what is left of its disk, if it can be.
pub(crate) fn open_there(
    alloc: Global,
    seat: &mut Seat,
    choice: Choice,
    limit: u32,
) -> Result<(), NodesFault>
    requires sound { AreSound seat.old.settings }
    requires owner { (node : NodeView Disks)
        → seat.old.node ≡ Some node
        → owner_of seat.old.settings ≡ node.owner }
    ensures ok { OnOk result (OpensThere seat.old seat.new limit choice) }
    ensures refused { IfErr result (λ fault. IsShut seat.old limit fault) }
    ensures err { IfErr result (LeavesThere seat.old seat.new) }
{
    let Some(node) = seat.node.take() else {
        return Err(NodesFault::Gone);
    };
    seat.planned.clear();
    match crash(alloc, node, choice, seat.settings, limit) {
        Ok(node) => {
            seat.node = Some(node);
            Ok(())
        }
        Err((_, fault)) => Err(NodesFault::NotOpened(fault)),
    }
}

/// The era of the node that sits there ends.
pub(crate) fn end_there(seat: &mut Seat) -> Result<(), NodesFault>
    ensures ok { OnOk result (EraEndsThere seat.old seat.new) }
    ensures gone { IfErr result (λ fault. (fault ≡ nodes.Gone) × (seat.old.node ≡ None)) }
    ensures err { OnErr result (seat.new ≡ seat.old) }
{
    let Some(node) = &mut seat.node else {
        return Err(NodesFault::Gone);
    };
    rebase(node);
    Ok(())
}

/// A failure of the disk of the node that sits there is planned, in place of what was planned of it before.
pub(crate) fn plan_there(seat: &mut Seat, failure: Failure) -> Result<(), NodesFault>
    ensures ok { OnOk result (PlansThere seat.old seat.new failure) }
    ensures gone { IfErr result (λ fault. (fault ≡ nodes.Gone) × (seat.old.node ≡ None)) }
    ensures err { OnErr result (seat.new ≡ seat.old) }
{
    if seat.node.is_none() {
        return Err(NodesFault::Gone);
    }
    seat.planned.set(failure);
    Ok(())
}

/// A new state file on an empty disk.
fn made(disk: &mut NodeDisk, owner: Owner) -> Result<(), InitFault>
    requires empty { (node_disk_state disk.old).content ≡ [] }
    ensures made { OnOk result ((c : List ℕ) → (node_disk_state disk.new).images c
        → IsSound owner c × (floor c ≡ 0)) }
    ensures refused { IfErr result (λ why. IsNotMade why) }
{
    init(disk, owner, 0)
}

/// A node is opened for the first time, on this disk, and sits there.
fn first_there(alloc: Global, seat: &mut Seat, disk: NodeDisk, limit: u32) -> Result<(), NodesFault>
    requires sound { AreSound seat.old.settings }
    requires made { (c : List ℕ) → (node_disk_state disk).images c
        → IsSound (owner_of seat.old.settings) c × (floor c ≡ 0) }
    requires unplanned { seat.old.planned ≡ None }
    ensures ok { OnOk result (IsNewNode seat.old.settings limit seat.new) }
    ensures limit { OnOk result (IsNoLimit limit → ⊥) }
    ensures refused { IfErr result (λ fault. IsUnseated limit fault) }
{
    match open_again(alloc, disk, seat.settings, limit) {
        Ok(node) => {
            seat.node = Some(node);
            Ok(())
        }
        Err((_, fault)) => Err(NodesFault::NotOpened(fault)),
    }
}

/// A node that is opened for the first time, on a disk with this number that is made for it.
fn first_seat(
    alloc: Global,
    number: u64,
    settings: Settings,
    limit: u32,
) -> Result<Seat, NodesFault>
    requires { AreSound settings }
    ensures ok { IfOk result (λ seat. IsNewNode settings limit seat) }
    ensures limit { OnOk result (IsNoLimit limit → ⊥) }
    ensures refused { IfErr result (λ fault. IsUnseated limit fault) }
{
    let owner = Owner {
        group: settings.group,
        me: settings.me,
    };
    let memory = MemDisk::new(alloc, number, Vec::new(alloc));
    let Ok((mut disk, plan)) = FaultDisk::new(alloc, memory) else {
        return Err(NodesFault::NoMemory);
    };
    if let Err(fault) = made(&mut disk, owner) {
        return Err(NodesFault::NotMade(fault));
    }
    let mut seat = Seat {
        settings,
        node: None,
        planned: Planned::new(plan),
    };
    first_there(alloc, &mut seat, disk, limit)?;
    Ok(seat)
}

/// Nodes that are opened for the first time, each on a disk of its own.
pub(crate) fn first_seats(
    alloc: Global,
    settings: &[Settings],
    limit: u32,
) -> Result<Vec<Seat>, NodesFault>
    requires { All AreSound settings.now }
    ensures ok { IfOk result (λ seats. AreNewNodes limit settings.now seats.items) }
    ensures limit { OnOk result (IsNoLimit limit → settings.now ≡ []) }
    ensures refused { IfErr result (λ fault. IsUnseated limit fault) }
{
    let mut seats = Vec::new(alloc);
    for i in 0..settings.len() {
        if seats.reserve(1).is_err() {
            return Err(NodesFault::NoMemory);
        }
        let one = &settings[i];
        let seat = first_seat(alloc, i as u64, *one, limit)?;
        seats.push_reserved(seat);
    }
    Ok(seats)
}
