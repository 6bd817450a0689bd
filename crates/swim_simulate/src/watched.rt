//! The nodes of a run, with all that is handed to them, and the law of a group, held against each datagram that they send.

ghost use Rattle.std.specs.Prelude.{◌≡◌, ◌+◌, ◌-◌, ◌<◌, ◌^◌, ◌++◌, ◌∷◌, [], drop, IfOk, OnOk};
ghost use Rattle.swim_member.specs.declared.event.Event.TheVariants as event;
ghost use Rattle.swim_group.specs.Network.{IsNotInvented};
ghost use Rattle.swim_group.specs.RealNodes.{HearsAt, DeliversAt, OpensAt, EraEndsAt, PlansAt, LosesAt, AreNewNodes};
ghost use Rattle.swim_simulate.specs.declared.handed.Handed.TheVariants.{Tick, Datagram};
ghost use Rattle.swim_simulate.specs.Laws.{IsLawful, LooksAtLast, PassesAll};
ghost use Rattle.swim_simulate.specs.Running.{HandsNothing};

use crate::fault::SimulateFault;
use crate::handed::{Clock, Handed};
use crate::law::{Broken, LawBreak, LawRecord};
use crate::shadow::Lapse;
use std::alloc::Global;
use std::marker::Model;
use swim_disk::Choice;
use swim_group::{Failure, Nodes, NodesFault};
use swim_member::{Deal, Event, Out, Settings};
use swim_node::Reply;
use swim_trace::Trace;
use swim_wire::{Cursor, Endpoint, Update};

/// The most datagrams that are on their way at a time.
const ROOM: usize = 1 << 20;

/// The nodes of a run. Only a tick, a join, a look at the rows and a datagram come to them, and each datagram that they send is
/// held against the law.
#[derive(Drop)]
pub(crate) struct WatchedNodes {
    nodes: Nodes,
    law: LawRecord,
    tick: u64,
    clocks: Trace<Clock>,
    handed: Trace<Handed>,
}

impl Model for WatchedNodes {
    ghost use Rattle.std.specs.Prelude.{◌≡◌};
    ghost use Rattle.swim_simulate.specs.declared.watched.TheConstants.{ROOM};
    ghost use Rattle.swim_simulate.specs.Laws.{SeesAll, IsLawful};
    ghost use Rattle.swim_simulate.specs.Running.{WatchedView};

    ghost Value = { WatchedView };

    ghost view = { λ w. record {
      nodes = w.nodes;
      law = w.law;
      tick = w.tick;
      clocks = w.clocks;
      handed = w.handed;
    } };

    ghost invariant = { λ w. SeesAll w.law w.nodes × IsLawful w.law.stop
        × (w.nodes.room ≡ ROOM) };
}

/// The law looks at what is kept from this place on. Err: there was no memory, and from here on nothing is looked at.
fn look_on(law: &mut LawRecord, now: u64, kept: &[Out], first: usize) -> Result<(), SimulateFault>
    ensures { PassesAll law.old law.new (drop first kept.now) }
{
    for index in first..kept.len() {
        if law.look(now, &kept[index].datagram).is_err() {
            law.close();
            return Err(SimulateFault::Memory);
        }
    }
    Ok(())
}

/// The law looks at what was sent last, where so many were kept before. Where no more are kept, later ones are not seen.
fn look_at_last(
    law: &mut LawRecord,
    now: u64,
    kept: &[Out],
    before: usize,
) -> Result<(), SimulateFault>
    ensures { LooksAtLast law.old law.new kept.now before }
{
    if kept.len() >= ROOM {
        law.close();
        return Ok(());
    }
    look_on(law, now, kept, before)
}

impl WatchedNodes {
    /// New nodes with these settings, each on a disk that is made for it, which have sent nothing.
    pub(crate) fn new(
        alloc: Global,
        settings: &[Settings],
        limit: u32,
    ) -> Result<WatchedNodes, SimulateFault>
        ensures seats { IfOk result (λ new. AreNewNodes limit settings.now new.nodes.seats) }
        ensures now { IfOk result (λ new. new.tick ≡ 0) }
        ensures clocks { IfOk result (λ new. new.clocks ≡ []) }
        ensures handed { IfOk result (λ new. new.handed ≡ []) }
    {
        let nodes = Nodes::new(alloc, settings, limit, ROOM)?;
        Ok(WatchedNodes {
            nodes,
            law: LawRecord::new(alloc),
            tick: 0,
            clocks: Trace::new(),
            handed: Trace::new(),
        })
    }

    /// The nodes.
    pub(crate) fn nodes(&self) -> &Nodes
        ensures { result.now ≡ self.now.nodes }
    {
        &self.nodes
    }

    /// The tick of the group.
    pub(crate) fn now(&self) -> u64
        ensures { result ≡ self.now.tick }
    {
        self.tick
    }

    /// Where a law was broken first, if one was: never that of a group.
    pub(crate) fn stop(&self) -> Option<LawBreak>
        ensures stop { result ≡ self.now.law.stop }
        ensures lawful { IsLawful result }
    {
        self.law.stop()
    }

    /// An event comes to a node, and what it sends is looked at.
    fn step(&mut self, who: usize, event: Event) -> Result<Reply, SimulateFault>
        requires { IsNotInvented self.old.nodes.kept event }
        ensures heard { IfOk result (λ reply.
            HearsAt self.old.nodes self.new.nodes who event reply) }
        ensures aside { HandsNothing self.old self.new }
    {
        let before = self.nodes.kept().len();
        let reply = self.nodes.step(who, event)?;
        look_at_last(&mut self.law, self.tick, self.nodes.kept(), before)?;
        Ok(reply)
    }

    /// A tick of a member's own clock, with the order of its next turn list.
    pub(crate) fn tick(&mut self, who: usize, deal: Deal) -> Result<Reply, SimulateFault>
        ensures heard { IfOk result (λ reply.
            HearsAt self.old.nodes self.new.nodes who (event.Tick deal) reply) }
        ensures handed { OnOk result (self.new.handed
            ≡ self.old.handed ++ Tick self.old.tick who ∷ []) }
        ensures clocks { self.new.clocks ≡ self.old.clocks }
        ensures now { self.new.tick ≡ self.old.tick }
    {
        let reply = self.step(who, Event::Tick { deal })?;
        self.handed = self.handed.and(&Handed::Tick {
            tick: self.tick,
            who,
        });
        Ok(reply)
    }

    /// A member is to join another.
    pub(crate) fn join(&mut self, who: usize, peer: Endpoint) -> Result<Reply, SimulateFault>
        ensures heard { IfOk result (λ reply.
            HearsAt self.old.nodes self.new.nodes who (event.Join peer) reply) }
        ensures aside { HandsNothing self.old self.new }
    {
        self.step(who, Event::Join { peer })
    }

    /// A member shows its rows after this one.
    pub(crate) fn rows(&mut self, who: usize, after: Cursor) -> Result<Reply, SimulateFault>
        ensures heard { IfOk result (λ reply.
            HearsAt self.old.nodes self.new.nodes who (event.Members after) reply) }
        ensures aside { HandsNothing self.old self.new }
    {
        self.step(who, Event::Members { after })
    }

    /// The datagram that is kept in this place comes to a member.
    pub(crate) fn deliver(&mut self, who: usize, index: usize) -> Result<Reply, SimulateFault>
        ensures delivered { IfOk result (λ reply.
            DeliversAt self.old.nodes self.new.nodes who index reply) }
        ensures handed { OnOk result (self.new.handed
            ≡ self.old.handed ++ Datagram self.old.tick who index ∷ []) }
        ensures clocks { self.new.clocks ≡ self.old.clocks }
        ensures now { self.new.tick ≡ self.old.tick }
    {
        let before = self.nodes.kept().len();
        let reply = self.nodes.deliver(who, index)?;
        self.handed = self.handed.and(&Handed::Datagram {
            tick: self.tick,
            who,
            index,
        });
        look_at_last(&mut self.law, self.tick, self.nodes.kept(), before)?;
        Ok(reply)
    }

    /// The datagram that is kept in this place is lost.
    pub(crate) fn lose(&mut self, index: usize) -> Result<(), SimulateFault>
        ensures ok { OnOk result (LosesAt self.old.nodes self.new.nodes index) }
        ensures aside { HandsNothing self.old self.new }
    {
        self.nodes.lose(index)?;
        Ok(())
    }

    /// The era of a node ends.
    pub(crate) fn end_era(&mut self, who: usize) -> Result<(), SimulateFault>
        ensures ok { OnOk result (EraEndsAt self.old.nodes self.new.nodes who) }
        ensures aside { HandsNothing self.old self.new }
    {
        self.nodes.end_era(who)?;
        Ok(())
    }

    /// A failure of a node's disk is planned.
    pub(crate) fn plan_failure(&mut self, who: usize, failure: Failure) -> Result<(), SimulateFault>
        ensures ok { OnOk result (PlansAt self.old.nodes self.new.nodes who failure) }
        ensures aside { HandsNothing self.old self.new }
    {
        self.nodes.plan_failure(who, failure)?;
        Ok(())
    }

    /// A node crashes, and is opened again on what is left of its disk.
    pub(crate) fn crash(&mut self, who: usize, choice: Choice) -> Result<(), NodesFault>
        ensures ok { OnOk result (OpensAt self.old.nodes self.new.nodes who choice) }
        ensures aside { HandsNothing self.old self.new }
    {
        self.nodes.crash(who, choice)
    }

    /// A member broke the law of detection. What was noted first stays.
    pub(crate) fn note(&mut self, sender: Endpoint, update: Update, lapse: Lapse)
        ensures nodes { self.new.nodes ≡ self.old.nodes }
        ensures aside { HandsNothing self.old self.new }
    {
        self.law.note(LawBreak {
            tick: self.tick,
            sender,
            update,
            broken: Broken::Detection(lapse),
        });
    }

    /// The clock of a member goes on.
    pub(crate) fn go_on(&mut self, who: usize)
        ensures clocks { self.new.clocks
            ≡ self.old.clocks ++ record { tick = self.old.tick; who = who } ∷ [] }
        ensures handed { self.new.handed ≡ self.old.handed }
        ensures now { self.new.tick ≡ self.old.tick }
    {
        self.clocks = self.clocks.and(&Clock {
            tick: self.tick,
            who,
        });
    }

    /// The tick of the group is over.
    pub(crate) fn pass(&mut self)
        requires { self.old.tick < 2 ^ 64 - 1 }
        ensures now { self.new.tick ≡ self.old.tick + 1 }
        ensures clocks { self.new.clocks ≡ self.old.clocks }
        ensures handed { self.new.handed ≡ self.old.handed }
    {
        self.tick += 1;
    }

    /// The nodes, and what was handed to them.
    pub(crate) fn done(self) -> (Nodes, Trace<Clock>, Trace<Handed>)
        ensures { result ≡ (self.nodes, self.clocks, self.handed) }
    {
        let WatchedNodes {
            nodes,
            law: _,
            tick: _,
            clocks,
            handed,
        } = self;
        (nodes, clocks, handed)
    }
}
