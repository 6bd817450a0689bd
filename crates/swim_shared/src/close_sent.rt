//! The end of a shared node whose link is a ring.

ghost use Rattle.std.specs.Prelude.{◌≡◌, ◌<◌, ◌^◌, [], vec_len};
ghost use mathlib.Core.List.{IsPrefix};
ghost use Rattle.swim_node.specs.History.{IsLegal};
ghost use Rattle.swim_shared.specs.Moments.{CoversEra};
ghost use Rattle.swim_shared.specs.Taken.{taken_of};
ghost use Rattle.swim_shared.specs.Outboxes.{Handed, owed_after};
ghost use Rattle.swim_shared.specs.Odd.{odd_of, AllBegin, AllWatchesBegin};

use crate::name::Name;
use crate::outbox::Outbox;
use crate::pass::Pass;
use crate::sender::{Sender, hand, more_owed};
use crate::shared::Shared;
use crate::watch::Watch;
use std::sync::Wait;
use swim_disk::Disk;
use swim_node::{Link, Node};

/// What `close_sent` gives back.
#[derive(Drop)]
pub struct ClosedSent<D: Disk> {
    /// The node with its journal.
    pub node: Node<D>,
    /// The sum of the losses that were not told.
    pub owed: u32,
    /// How many passes and watches do not fit the journal.
    pub odd: u32,
}

impl<N: Name, D: Disk, R: Wait + Drop> Shared<N, D, Outbox, R> {
    /// Ends what is shared as `close` does, and then hands what is left in the ring to the link, in
    /// order. The sender is to be that of the outbox, which `N` names, and which had sent nothing
    /// at the start. So what the sender took was a beginning of what the journal marks as taken,
    /// and at the end it is all of it.
    pub fn close_sent<M: Link>(
        self,
        passes: Vec<Pass<N>>,
        watches: Vec<Watch<N>>,
        sender: Sender,
        link: &mut M,
    ) -> ClosedSent<D>
        requires few { (vec_len passes < 2 ^ 16) × (vec_len watches < 2 ^ 16) }
        requires ring { N.link ≡ sender.ring }
        requires start { N.start ≡ [] }
        ensures legal { IsLegal N.base result.node.entries }
        ensures base { result.node.base ≡ N.base }
        ensures disk { (D.state result.node.disk).name ≡ N.disk }
        ensures covers { D.keeps_model
            → CoversEra (D.state result.node.disk) N.owner N.base N.clock result.node.entries }
        ensures owner { result.node.owner ≡ N.owner }
        ensures first { result.node.first ≡ N.first }
        ensures link { M.name link.new ≡ M.name link.old }
        ensures begins { IsPrefix sender.got (taken_of result.node.entries) }
        ensures handed { Handed M.tells M.took M.failures sender.got (taken_of result.node.entries)
            link.old link.new }
        ensures owed { result.owed
            ≡ owed_after sender.owed (M.failures link.old) (M.failures link.new) }
        ensures odd { result.odd ≡ odd_of result.node.entries passes.items watches.items }
        ensures passes { AllBegin result.node.entries passes.items }
        ensures watches { AllWatchesBegin result.node.entries watches.items }
    {
        let closed = self.close(passes, watches);
        let node = closed.node;
        let odd = closed.odd;
        let mut producer = closed.link.into_producer();
        let owed = sender.owed();
        let mut consumer = sender.into_consumer();
        let count = consumer.slots_beside(&mut producer);
        let lost = hand(&mut consumer, count, link);
        let owed = more_owed(owed, lost);
        ClosedSent { node, owed, odd }
    }
}
