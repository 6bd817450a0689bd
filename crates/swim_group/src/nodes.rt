//! A group of real nodes on disks in memory that fail by plans, and the datagrams of theirs that may still come.

ghost use Rattle.std.specs.Prelude.{◌≡◌, ◌≤◌, ◌<◌, ◌↔◌, [], length, IfOk, IfErr, OnOk, OnErr, Err};
ghost use Rattle.swim_group.specs.declared.fault.NodesFault.TheVariants as fault;
ghost use Rattle.swim_group.specs.Network.{IsNotInvented};
ghost use Rattle.swim_group.specs.Real.{MayBegin, IsReadable};
ghost use Rattle.swim_group.specs.RealNodes.{HasSoundNodeRun, HearsAt, DeliversAt, OpensAt, EraEndsAt, PlansAt, LosesAt, AreNewNodes};
ghost use Rattle.swim_group.specs.Refusing.{IsNoLimit, AreUnbegun, IsUnheard, IsNoStep, IsNoDelivery, IsNoOpening, IsAbsent};

use crate::beginning::may_begin;
use crate::failure::Failure;
use crate::fault::NodesFault;
use crate::seat::{Seat, end_there, first_seats, hear_there, keep_last, open_there, plan_there};
use crate::step::{arrival, is_readable};
use std::alloc::Global;
use std::marker::Model;
use swim_disk::Choice;
use swim_member::{Event, OUTS_MAX, Out, Settings};
use swim_node::Reply;

/// Real nodes that began together, each on a disk of its own, and the datagrams of theirs that are kept for later.
#[derive(Drop)]
pub struct Nodes {
    seats: Vec<Seat>,
    kept: Vec<Out>,
    room: usize,
    limit: u32,
}

impl Model for Nodes {
    ghost use Rattle.std.specs.Prelude.{◌≤◌, length};
    ghost use Rattle.swim_group.specs.RealNodes.{RealNodes, HasNodeRun};

    ghost Value = { RealNodes };

    ghost view = { λ g. record {
      seats = g.seats.items;
      kept = g.kept.items;
      room = g.room;
      limit = g.limit;
    } };

    ghost invariant = { λ g. HasNodeRun g.seats.items g.kept.items
        × (length g.kept.items ≤ g.room) };
}

impl Nodes {
    /// New nodes with these settings, each on a disk that is made for it, with at most `limit` entries in an era, and room
    /// for so many datagrams.
    pub fn new(
        alloc: Global,
        settings: &[Settings],
        limit: u32,
        room: usize,
    ) -> Result<Nodes, NodesFault>
        // only sound settings, of which no two have one name
        ensures ok { OnOk result (MayBegin settings.now) }
        ensures seats { IfOk result (λ group. AreNewNodes limit settings.now group.seats) }
        ensures kept { IfOk result (λ group. group.kept ≡ []) }
        ensures room { IfOk result (λ group. (group.room ≡ room) × (group.limit ≡ limit)) }
        // no node, or a limit that an era can have
        ensures limit { OnOk result (IsNoLimit limit → settings.now ≡ []) }
        // unfit settings, no such limit, or no memory
        ensures refused { IfErr result (λ fault. AreUnbegun settings.now limit fault) }
        ensures run { IfOk result HasSoundNodeRun }
    {
        if let Err(fault) = may_begin(settings) {
            return Err(NodesFault::Unfit(fault));
        }
        let seats = first_seats(alloc, settings, limit)?;
        Ok(Nodes {
            seats,
            kept: Vec::new(alloc),
            room,
            limit,
        })
    }

    /// The nodes, each with its settings, in the order in which they began.
    pub fn seats(&self) -> &[Seat]
        ensures { result.now ≡ self.now.seats }
    {
        self.seats.as_slice()
    }

    /// The datagrams that may be delivered, in the order in which they were sent.
    pub fn kept(&self) -> &[Out]
        ensures { result.now ≡ self.now.kept }
    {
        self.kept.as_slice()
    }

    /// Whether there is such a node. Whatever is answered, the group has its run.
    fn find(&self, node: usize) -> Result<(), NodesFault>
        ensures ok { OnOk result (node < length self.now.seats) }
        ensures missing { (result ≡ Err fault.NoNode) ↔ (length self.now.seats ≤ node) }
        ensures err { IfErr result (λ refused. refused ≡ fault.NoNode) }
        ensures run { HasSoundNodeRun self.now }
    {
        if self.seats.len() <= node {
            return Err(NodesFault::NoNode);
        }
        Ok(())
    }

    /// An event that the network did not invent comes to a node, if there is memory for what it may send.
    fn bring(&mut self, node: usize, event: Event) -> Result<Reply, NodesFault>
        requires there { node < length self.old.seats }
        requires sent { IsNotInvented self.old.kept event }
        ensures ok { IfOk result (λ reply. HearsAt self.old self.new node event reply) }
        ensures refused { IfErr result (λ fault. IsUnheard self.old node fault) }
        ensures err { OnErr result (self.new ≡ self.old) }
        ensures run { HasSoundNodeRun self.new }
    {
        if self.kept.reserve(OUTS_MAX).is_err() {
            return Err(NodesFault::NoMemory);
        }
        match hear_there(&mut self.seats[node], event) {
            Err(fault) => Err(fault),
            Ok(reply) => {
                keep_last(&self.seats[node], &mut self.kept, self.room);
                Ok(reply)
            }
        }
    }

    /// An event comes to a node: any event but a datagram that can be read, which `deliver` brings. What the node sends
    /// is kept as far as there is room.
    pub fn step(&mut self, node: usize, event: Event) -> Result<Reply, NodesFault>
        ensures ok { IfOk result (λ reply. HearsAt self.old self.new node event reply) }
        ensures unforged { OnOk result (IsReadable event → ⊥) }
        // no such node, a datagram, a node that is gone, an era that is full, or no memory
        ensures refused { IfErr result (λ fault. IsNoStep self.old node event fault) }
        ensures err { OnErr result (self.new ≡ self.old) }
        // these are the nodes and datagrams of a run in which nothing is invented and no number is passed
        ensures run { HasSoundNodeRun self.new }
    {
        self.find(node)?;
        if is_readable(&event) {
            return Err(NodesFault::Readable);
        }
        self.bring(node, event)
    }

    /// A datagram that is kept comes to a node, whomever it was sent to. It stays, and may come again.
    pub fn deliver(&mut self, node: usize, datagram: usize) -> Result<Reply, NodesFault>
        ensures ok { IfOk result (λ reply. DeliversAt self.old self.new node datagram reply) }
        // no such node, no such datagram, a node that is gone, an era that is full, or no memory
        ensures refused { IfErr result (λ fault. IsNoDelivery self.old node datagram fault) }
        ensures err { OnErr result (self.new ≡ self.old) }
        ensures run { HasSoundNodeRun self.new }
    {
        self.find(node)?;
        if self.kept.len() <= datagram {
            return Err(NodesFault::NoDatagram);
        }
        let event = arrival(&self.kept[datagram]);
        self.bring(node, event)
    }

    /// A node crashes with its disk, of which the crash leaves what is chosen, and is opened anew on that. Nothing is planned
    /// of the disk any more. If the node is not opened, it is gone.
    pub fn crash(&mut self, node: usize, choice: Choice) -> Result<(), NodesFault>
        ensures ok { OnOk result (OpensAt self.old self.new node choice) }
        // no such node, one that was gone before, or one that is gone now: for an era that has no such limit, for a floor
        // above which there is no number, or for want of memory
        ensures refused { IfErr result (λ fault. IsNoOpening self.old self.new node fault) }
        ensures run { HasSoundNodeRun self.new }
    {
        self.find(node)?;
        let alloc = *self.kept.allocator();
        if let Err(fault) = open_there(alloc, &mut self.seats[node], choice, self.limit) {
            return Err(fault);
        }
        Ok(())
    }

    /// The era of a node ends, so that its journal has room again.
    pub fn end_era(&mut self, node: usize) -> Result<(), NodesFault>
        ensures ok { OnOk result (EraEndsAt self.old self.new node) }
        // no such node, or one that is gone
        ensures refused { IfErr result (λ fault. IsAbsent self.old node fault) }
        ensures err { OnErr result (self.new ≡ self.old) }
        ensures run { HasSoundNodeRun self.new }
    {
        self.find(node)?;
        if let Err(fault) = end_there(&mut self.seats[node]) {
            return Err(fault);
        }
        Ok(())
    }

    /// A failure of a node's disk is planned, in place of what was planned of it before.
    pub fn plan_failure(&mut self, node: usize, failure: Failure) -> Result<(), NodesFault>
        ensures ok { OnOk result (PlansAt self.old self.new node failure) }
        // no such node, or one that is gone
        ensures refused { IfErr result (λ fault. IsAbsent self.old node fault) }
        ensures err { OnErr result (self.new ≡ self.old) }
        ensures run { HasSoundNodeRun self.new }
    {
        self.find(node)?;
        if let Err(fault) = plan_there(&mut self.seats[node], failure) {
            return Err(fault);
        }
        Ok(())
    }

    /// A datagram that is kept is lost. The last one takes its place.
    pub fn lose(&mut self, datagram: usize) -> Result<(), NodesFault>
        ensures ok { OnOk result (LosesAt self.old self.new datagram) }
        ensures missing { (result ≡ Err fault.NoDatagram) ↔ (length self.old.kept ≤ datagram) }
        ensures err { OnErr result (self.new ≡ self.old) }
        ensures run { HasSoundNodeRun self.new }
    {
        if self.kept.len() <= datagram {
            return Err(NodesFault::NoDatagram);
        }
        let _ = self.kept.swap_remove(datagram);
        Ok(())
    }
}
