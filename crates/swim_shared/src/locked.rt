//! What lies under the lock.

ghost use Rattle.std.specs.Prelude.{◌≡◌, ◌↔◌, ◌+◌, ◌<◌, ◌≤◌, ◌^◌, ◌++◌};
ghost use Rattle.std.specs.Prelude.{length, true, false, IfOk, IfErr, IfSome, IsSome, IsTrue, OnOk, OnErr};
ghost use Rattle.swim_node.specs.History.{IsLegal};
ghost use Rattle.swim_shared.specs.Moments.{CoversEra};
ghost use Rattle.swim_shared.specs.Taken.{taken_of};
ghost use Rattle.swim_shared.specs.Machinery.Rules.{head_of, MayAdd};
ghost use Rattle.swim_shared.specs.Published.{KnowsOf};
ghost use Rattle.swim_shared.specs.Passes.{sight, Called, FullFor, Unseen, Added, Ahead};
ghost use Rattle.swim_shared.specs.Locked.{GrowsByOne, Enters};

use crate::CallFault;
use crate::front::Front;
use crate::law::Law;
use crate::name::Name;
use crate::pass::Pass;
use crate::publisher::Publisher;
use crate::shown::Shown;
use crate::watch::Watch;
use logbook::{Pen, Word};
use std::marker::Model;
use std::sync::Wait;
use swim_disk::Disk;
use swim_member::Event;
use swim_node::{ApplyFault, Entry, Link, Node, Reply, Tag};

/// The node, its link, the history and the publisher. Contracts see the journal, what of it is
/// shown, and whether the right to add the next entry is had.
#[derive(Drop)]
pub(crate) struct Locked<N: Name, D: Disk, L: Link, R: Wait + Drop> {
    pub(crate) node: Node<D>,
    link: L,
    head: Word<Entry, u64, Law>,
    pub(crate) front: Front,
    /// The right to add the next entry, where it is had.
    pen: Option<Pen>,
    publisher: Publisher<N, R>,
}

impl<N: Name, D: Disk, L: Link, R: Wait + Drop> Model for Locked<N, D, L, R> {
    ghost use Rattle.std.specs.Prelude.{◌≡◌, ◌++◌, IfSome};
    ghost use Rattle.std.specs.Option.{is_some};
    ghost use Rattle.swim_shared.specs.Taken.{taken_of};
    ghost use Rattle.swim_shared.specs.Machinery.Rules.{head_of, MayAdd};
    ghost use Rattle.swim_shared.specs.Locked.{LockedView};
    ghost use Rattle.swim_shared.specs.Moments.{CoversEra};

    ghost Value = { LockedView };

    ghost view = { λ l. record {
      journal = l.front.entries;
      shown = l.publisher;
      has_pen = is_some l.pen;
    } };

    // The front is the whole history; node and link are those that the name has, what the link
    // took since the start is what the journal marks as taken, and no moment since then left less
    // on the disk than had been sent.
    ghost invariant = { λ l. (l.front.book ≡ N.book) × (l.head ≡ head_of N.book)
        × (l.node.entries ≡ l.front.entries) × (l.node.base ≡ N.base)
        × ((D.state l.node.disk).name ≡ N.disk) × (l.node.owner ≡ N.owner)
        × (l.node.first ≡ N.first) × (L.name l.link ≡ N.link)
        × (L.tells → L.took l.link ≡ N.start ++ taken_of l.node.entries)
        × IfSome l.pen (λ pen. MayAdd l.front pen)
        × (D.keeps_model
        → CoversEra (D.state l.node.disk) N.owner N.base N.clock l.node.entries) };
}

impl<N: Name, D: Disk, L: Link, R: Wait + Drop> Locked<N, D, L, R> {
    /// A node with the history that it has entered.
    pub(crate) fn new(
        node: Node<D>,
        link: L,
        head: Word<Entry, u64, Law>,
        front: Front,
        publisher: Publisher<N, R>,
    ) -> Locked<N, D, L, R>
        requires head { head ≡ head_of N.book }
        requires book { front.book ≡ N.book }
        requires base { node.base ≡ N.base }
        requires disk { (D.state node.disk).name ≡ N.disk }
        requires covers { D.keeps_model
            → CoversEra (D.state node.disk) N.owner N.base N.clock node.entries }
        requires owner { node.owner ≡ N.owner }
        requires first { node.first ≡ N.first }
        requires link { L.name link ≡ N.link }
        requires same { node.entries ≡ front.entries }
        requires took { L.tells → L.took link ≡ N.start ++ taken_of node.entries }
        ensures { result.journal ≡ front.entries }
    {
        Locked {
            node,
            link,
            head,
            front,
            pen: None,
            publisher,
        }
    }

    /// One event of the node, for this pass.
    fn apply_for(&mut self, pen: Pen, pass: &Pass<N>, event: Event) -> Result<Reply, ApplyFault>
        requires may { MayAdd (sight N.book self.old.journal) pen }
        requires room { pass.now.calls + 1 < 2 ^ 32 }
        requires fits { length pass.now.seen ≤ length self.old.journal }
        ensures ok { IfOk result (λ r. Added pass.now event r self.new.journal) }
        ensures once { OnOk result (GrowsByOne self.old.journal self.new.journal) }
        ensures ahead { result ≡ Err ApplyFault.EraFull → Ahead pass.now self.new.journal }
        ensures full { result ≡ Err ApplyFault.EraFull → length self.new.journal ≡ N.base.limit }
        ensures err { IfErr result (λ f. self.new.journal ≡ self.old.journal) }
        ensures pen { OnErr result (self.new.has_pen ≡ true) }
    {
        pass.front().shorter_begins_longer(&self.front);
        self.node.journal_is_legal();
        let tag = Tag {
            caller: pass.caller(),
            turn: pass.calls() + 1,
        };
        match self.node.apply_in_place(&mut self.link, tag, &event) {
            Ok(()) => {
                self.node.numbers_are_covered();
                let entry = self.node.last();
                self.pen = None;
                self.front.add(&self.head, pen, entry);
                Ok(entry.reply.copy())
            }
            Err(fault) => {
                self.pen = Some(pen);
                Err(fault)
            }
        }
    }

    /// Shows the history to the watches, and says whether it did. It does not where there is no
    /// memory.
    fn publish(&mut self) -> bool
        ensures journal { self.new.journal ≡ self.old.journal }
        ensures shown { IsTrue result → self.new.shown ≡ self.new.journal }
        ensures pen { self.new.has_pen ≡ self.old.has_pen }
    {
        self.node.journal_is_legal();
        let shown = Shown {
            status: self.node.status(),
            front: self.front.again(),
        };
        self.publisher.publish(shown)
    }

    /// The whole history.
    fn front(&self) -> &Front
        ensures entries { result.now.entries ≡ self.now.journal }
        ensures book { result.now.book ≡ N.book }
        ensures legal { IsLegal N.base self.now.journal }
    {
        self.node.journal_is_legal();
        &self.front
    }

    /// Enters the event of a pass, and reads it back. What it says of the journal no caller of the
    /// lock can see, since others have the lock before and after.
    pub(crate) fn call(&mut self, pass: &mut Pass<N>, event: Event) -> Result<Reply, CallFault>
        ensures ok { IfOk result (λ r. Called N.base pass.old event r pass.new) }
        ensures memory { result ≡ Err CallFault.NoMemory → pass.new ≡ pass.old }
        ensures full { result ≡ Err CallFault.EraFull → FullFor N.base pass.old pass.new }
        ensures turn { result ≡ Err CallFault.OutOfTurn → pass.new ≡ pass.old }
        ensures unread { result ≡ Err CallFault.Unread → Unseen pass.old pass.new }
        ensures spent { IsTrue pass.old.spent → result ≡ Err CallFault.Unread }
        ensures spent_stays { IsTrue pass.old.spent → pass.new ≡ pass.old }
        ensures spent_enters { IsTrue pass.old.spent → self.new ≡ self.old }
        ensures enters { Enters pass.old pass.new self.old.journal self.new.journal result }
        ensures shown { OnOk result (self.new.shown ≡ pass.new.seen) }
        ensures full_shown { result ≡ Err CallFault.EraFull → self.new.shown ≡ pass.new.seen }
        ensures full_pen { result ≡ Err CallFault.EraFull → self.new.has_pen ≡ true }
        ensures memory_pen { result ≡ Err CallFault.NoMemory → self.new.has_pen ≡ true }
    {
        if pass.is_spent() {
            return Err(CallFault::Unread);
        }
        if pass.calls() >= u32::MAX - 1 || pass.front().len() > self.front.len() {
            return Err(CallFault::OutOfTurn);
        }
        self.node.journal_is_legal();
        let claimed = match self.pen.take() {
            Some(pen) => Some(pen),
            None => self.front.claim(&self.head),
        };
        let Some(pen) = claimed else {
            pass.spend(false);
            return Err(CallFault::Unread);
        };
        match self.apply_for(pen, pass, event) {
            Ok(reply) => {
                if !self.publish() {
                    pass.spend(true);
                    return Err(CallFault::Unread);
                }
                pass.take_call(self.front());
                Ok(reply)
            }
            Err(ApplyFault::EraFull) => {
                if !self.publish() {
                    pass.spend(false);
                    return Err(CallFault::Unread);
                }
                pass.take_full(self.front());
                Err(CallFault::EraFull)
            }
            Err(ApplyFault::NoMemory) => Err(CallFault::NoMemory),
            Err(ApplyFault::OutOfTurn) => Err(CallFault::OutOfTurn),
        }
    }

    /// The watch goes on to what is shown, where that is no shorter than what pass and watch have
    /// seen.
    pub(crate) fn show(&self, pass: &Pass<N>, watch: &mut Watch<N>) -> bool
        ensures long { IsTrue result ↔ (length pass.now.seen ≤ length self.now.shown)
            × (length watch.old ≤ length self.now.shown) }
        ensures shown { IsTrue result → KnowsOf pass.now.seen watch.old watch.new }
        ensures now { IsTrue result → watch.new ≡ self.now.shown }
        ensures same { result ≡ false → watch.new ≡ watch.old }
    {
        let published = self.publisher.published();
        if pass.front().len() > published.len() || watch.len() > published.len() {
            return false;
        }
        pass.front().shorter_begins_longer(published);
        watch.front().shorter_begins_longer(published);
        watch.learn(published.again());
        true
    }

    /// The node and its link. It waits for the readers.
    pub(crate) fn into_parts(self) -> (Node<D>, L)
        ensures entries { result.0.entries ≡ self.journal }
        ensures legal { IsLegal N.base self.journal }
        ensures base { result.0.base ≡ N.base }
        ensures disk { (D.state result.0.disk).name ≡ N.disk }
        ensures covers { D.keeps_model
            → CoversEra (D.state result.0.disk) N.owner N.base N.clock self.journal }
        ensures owner { result.0.owner ≡ N.owner }
        ensures first { result.0.first ≡ N.first }
        ensures link { L.name result.1 ≡ N.link }
        ensures took { L.tells → L.took result.1 ≡ N.start ++ taken_of self.journal }
    {
        self.node.journal_is_legal();
        let Locked {
            node,
            link,
            head: _,
            front: _,
            pen: _,
            publisher,
        } = self;
        drop(publisher);
        (node, link)
    }
}
