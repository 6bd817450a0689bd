//! The node.

ghost use Rattle.std.specs.Prelude.{◌≡◌, ◌≢◌, ◌↔◌, ◌==◌, ◌+◌, ◌<◌, ◌≤◌, ◌++◌, ◌∷◌, [], List, length, map, IfErr, IfOk, IsTrue, OnOk, OnErr, All, None, false};
ghost use Rattle.std.specs.List.{filter};
ghost use Rattle.swim_state.specs.Alone.{IsBeside, LeavesAlone, target_in};
ghost use Rattle.swim_state.specs.Held.{Held, HeldSince, HasPeers, Through, Covers};
ghost use Rattle.swim_node.specs.declared.opening.TheConstants.{LIMIT_MAX};
ghost use Rattle.swim_node.specs.History.{calls_by, state_after, status_at, steps, status_of, IsLegal, granted_of};
ghost use Rattle.swim_node.specs.Owns.{owns, AreAtMost, AreAtLeast, greatest_with, greater_of};
ghost use Rattle.swim_node.specs.Keeping.{KeepsGiven};
ghost use Rattle.swim_node.specs.Lives.{GoesOn, MayEnd};
ghost use Rattle.swim_node.specs.Node.{Added, IsTurn, Refused, base_of, granted_base, store_of};
ghost use Rattle.swim_node.specs.Peers.{known_peers};
ghost use Rattle.swim_node.specs.Sending.{Sends, HasTexts};
ghost use Rattle.swim_member.specs.Events.{DealIsOfNoMatter};
ghost use Rattle.swim_member.specs.Fit.{own_numbers_in};
ghost use Rattle.swim_member.specs.Probe.{ends_period};

use crate::base::Base;
use crate::entering::enter;
use crate::journal::Journal;
use crate::keeping::keep;
use crate::peers::known_peers;
use crate::{ApplyFault, Entry, Link, Reply, Status, Tag};
use std::marker::Model;
use swim_disk::Disk;
use swim_member::{Answer, Event, Member, Out};
use swim_state::{Peers, SaveFault, Store};
use swim_wire::{Datagram, Endpoint, NUMBER_MAX, Update};

/// A member with its state file and its journal.
#[derive(Drop)]
pub struct Node<D: Disk> {
    pub(crate) base: Base,
    pub(crate) journal: Journal,
    pub(crate) member: Member,
    pub(crate) store: Store<D>,
    pub(crate) first: u64,
    pub(crate) most: Option<u64>,
    /// The datagram of the next call, where it is one. It stays where it is, as it is large.
    pub(crate) read: Datagram,
    /// What the member says at the next call. It stays where it is, as it is large.
    pub(crate) answer: Answer,
}

impl<D: Disk> Model for Node<D> {
    ghost use Rattle.swim_node.specs.Node.{NodeView, IsNode, base_of};
    ghost use Rattle.swim_state.specs.Held.{Held};

    ghost Value = { NodeView D };

    ghost view = { λ n. record {
      base = base_of n.base;
      entries = n.journal.entries;
      disk = n.store.disk;
      owner = n.store.owner;
      first = n.first;
      peers = n.store.peers;
      broken = n.store.broken;
    } };

    ghost invariant = { λ n.
        IsNode (base_of n.base) n.journal.entries n.first n.member n.store.ceiling n.most
        × (D.keeps_model → Held n.store.owner (D.state n.store.disk) n.store.ceiling) };
}

/// The greater of a number, if there is one, and another.
fn greater(most: Option<u64>, number: u64) -> Option<u64>
    ensures { result ≡ greater_of most number }
{
    match most {
        None => Some(number),
        Some(old) => Some(number.max(old)),
    }
}

/// The greatest number so far and of the updates about `me`.
fn greatest_in(updates: &[Update], me: Endpoint, most: Option<u64>) -> Option<u64>
    ensures { result
        ≡ greatest_with most (map (λ u. u.number) (filter (λ u. u.who == me) updates.now)) }
{
    let mut greatest = most;
    for update in updates {
        if update.who == me {
            greatest = greater(greatest, update.number);
        }
    }
    greatest
}

/// The greatest number so far and of the updates about `me` in these datagrams.
pub(crate) fn greatest_own(outs: &[Out], me: Endpoint, most: Option<u64>) -> Option<u64>
    ensures { result ≡ greatest_with most (own_numbers_in me outs.now) }
{
    let mut greatest = most;
    for out in outs {
        greatest = greatest_in(&out.datagram.updates, me, greatest);
    }
    greatest
}

/// The status of a member after so many entries of an era.
pub(crate) fn status_now(member: &Member, length: usize) -> Status
    ensures { result ≡ status_at member.now length }
{
    let counts = member.counts();
    Status {
        phase: member.phase(),
        number: member.number(),
        alive: counts.alive,
        suspect: counts.suspect,
        confirmed: counts.confirmed,
        length,
    }
}

impl<D: Disk> Node<D> {
    /// The entries of this era, in order.
    pub fn journal(&self) -> &[Entry]
        ensures entries { result.now ≡ self.now.entries }
        ensures legal { IsLegal self.now.base self.now.entries }
        ensures texts { All HasTexts self.now.entries }
        ensures short { length self.now.entries ≤ LIMIT_MAX }
    {
        self.journal.entries()
    }

    /// That the entries of this era are legal. It does nothing: its contract is what counts.
    pub fn journal_is_legal(&self)
        ensures legal { IsLegal self.now.base self.now.entries }
        ensures short { length self.now.entries ≤ LIMIT_MAX }
    {
        self.journal();
    }

    /// How many entries this era has.
    pub fn len(&self) -> usize
        ensures { result ≡ length self.now.entries }
    {
        self.journal.entries().len()
    }

    /// The last entry of this era.
    pub fn last(&self) -> &Entry
        requires { 0 < length self.now.entries }
        ensures last { (before : List Entry) → (e : Entry)
            → self.now.entries ≡ before ++ e ∷ []
            → result.now ≡ e }
        ensures texts { HasTexts result.now }
    {
        let entries = self.journal.entries();
        &entries[entries.len() - 1]
    }

    /// What a status page shows now.
    pub fn status(&self) -> Status
        ensures { result ≡ status_of self.now.base self.now.entries }
    {
        status_now(&self.member, self.len())
    }

    /// Whether the next tick ends a period. Only such a tick may read what it deals.
    pub fn ends_period(&self) -> bool
        ensures ends { result ≡ ends_period (state_after self.now.base self.now.entries) }
        // at any other tick every deal does
        ensures otherwise { result ≡ false
            → DealIsOfNoMatter self.now.base.state (steps self.now.entries) }
    {
        self.member.ends_period()
    }

    /// How many entries of this era a caller, below 16, has.
    pub fn turns(&self, caller: u8) -> u32
        requires { caller < 16 }
        ensures value { result ≡ length (calls_by caller self.now.entries) }
        ensures bound { result ≤ LIMIT_MAX }
    {
        self.journal.turns(caller)
    }

    /// The tag of the next call of a caller, below 16: a call with it is in turn.
    pub fn next_tag(&self, caller: u8) -> Tag
        requires { caller < 16 }
        ensures turn { IsTurn self.now.entries result }
        ensures caller { result.caller ≡ caller }
    {
        Tag {
            caller,
            turn: self.turns(caller) + 1,
        }
    }

    /// The disk. Each content that a crash may leave there has a floor of at least each own number that was sent, and
    /// none of those is below the number with which this life began.
    pub fn disk(&self) -> &D
        ensures disk { result.now ≡ self.now.disk }
        ensures held { D.keeps_model
            → Held self.now.owner (D.state self.now.disk)
            (granted_of self.now.base self.now.entries) }
        ensures owns { AreAtMost (granted_of self.now.base self.now.entries)
            (owns self.now.base self.now.entries) }
        ensures begun { AreAtLeast self.now.first (owns self.now.base self.now.entries) }
        ensures first { self.now.first ≤ granted_of self.now.base self.now.entries }
    {
        self.store.disk()
    }

    /// That the file covers each number that was granted, and so each that was sent. It does nothing: its contract is what
    /// counts.
    pub fn numbers_are_covered(&self)
        ensures held { D.keeps_model
            → Held self.now.owner (D.state self.now.disk)
            (granted_of self.now.base self.now.entries) }
        ensures owns { AreAtMost (granted_of self.now.base self.now.entries)
            (owns self.now.base self.now.entries) }
    {
        self.disk();
    }

    /// That this life may end as it is now. It does nothing: its contract is what counts.
    pub fn life_may_end(&self)
        ensures { D.keeps_model → MayEnd D.state self.now }
    {
        self.store.disk();
    }

    /// The disk, by value, with all that `disk` says of it.
    pub fn into_disk(self) -> D
        ensures disk { result ≡ self.disk }
        ensures held { D.keeps_model
            → Held self.owner (D.state result) (granted_of self.base self.entries) }
        ensures owns { AreAtMost (granted_of self.base self.entries) (owns self.base self.entries) }
        ensures begun { AreAtLeast self.first (owns self.base self.entries) }
        ensures first { self.first ≤ granted_of self.base self.entries }
        ensures lived { D.keeps_model → MayEnd D.state self }
    {
        let Node {
            base: _,
            journal: _,
            member: _,
            store,
            first: _,
            most: _,
            read: _,
            answer: _,
        } = self;
        store.into_disk()
    }

    /// The number with which this life began.
    pub fn first(&self) -> u64
        ensures { result ≡ self.now.first }
    {
        self.first
    }

    /// The peers that stand in the state file with its ceiling. After a save that was done, or an opening, a crash
    /// leaves just these.
    pub fn peers(&self) -> Peers
        ensures value { result ≡ self.now.peers }
        ensures named { D.keeps_model → self.now.broken ≡ false
            → HasPeers (D.state self.now.disk) result }
    {
        self.store.peers()
    }

    /// Whether the member knows other peers now than those that stand in the state file.
    pub fn has_other_peers(&self) -> bool
        ensures { IsTrue result ↔ (self.now.peers
            ≢ known_peers (state_after self.now.base self.now.entries)) }
    {
        self.store.peers() != known_peers(&self.member)
    }

    /// Saves the peers that the member knows now, the first eight that are Alive or Suspect, at the begin of an era.
    /// It raises the ceiling by one to do so, and where a broken store finds that an earlier save was done after all,
    /// with other peers, once more. The base gets the ceiling that stands.
    ///
    /// `Device` and `Changed` come as with any save. `Exhausted` comes where the ceiling is the greatest number, or
    /// the floor is that a broken store reads with other peers: then nothing is written.
    pub fn keep_peers(&mut self) -> Result<(), SaveFault>
        requires empty { self.old.entries ≡ [] }
        ensures entries { self.new.entries ≡ [] }
        ensures first { self.new.first ≡ self.old.first }

        // All of the base but its ceiling stays, and where that is the greatest number, all of the node.
        ensures base { self.new.base ≡ granted_base self.old.base self.new.base.granted }
        ensures untouched { self.old.base.granted ≡ NUMBER_MAX → self.new ≡ self.old }

        // The peers of the present state are saved, with a greater ceiling, and the life goes on.
        ensures keeps { KeepsGiven D.keeps_model D.state
            (known_peers (state_after self.old.base self.old.entries)) result
            (store_of self.old) (store_of self.new) }
        ensures living { GoesOn D.state self.old self.new }
    {
        let peers = known_peers(&self.member);
        let kept = keep(&mut self.store, &peers);
        self.base.granted = self.store.ceiling();
        kept
    }

    /// Whether a call may be entered: in turn, and while the era has room.
    fn admit(&self, tag: Tag) -> Result<(), ApplyFault>
        requires { tag.caller < 16 }
        ensures ok { OnOk result (IsTurn self.now.entries tag
            × (length self.now.entries < self.now.base.limit)) }
        ensures refused { IfErr result (λ fault. Refused self.now.base self.now.entries tag fault) }
        ensures memory { result ≢ Err ApplyFault.NoMemory }
    {
        let turns = self.journal.turns(tag.caller);
        if tag.turn == 0 || tag.turn - 1 != turns {
            return Err(ApplyFault::OutOfTurn);
        }
        if self.len() >= self.base.limit as usize {
            return Err(ApplyFault::EraFull);
        }
        Ok(())
    }

    /// Enters one call as `apply` does, of an event that stays where it is: it is large, and each function that takes one
    /// moves it. What the caller is told is the reply of the last entry.
    pub fn apply_in_place<L: Link>(
        &mut self,
        link: &mut L,
        tag: Tag,
        event: &Event,
    ) -> Result<(), ApplyFault>
        requires caller { tag.caller < 16 }
        ensures base { self.new.base ≡ self.old.base }
        ensures owner { self.new.owner ≡ self.old.owner }
        ensures first { self.new.first ≡ self.old.first }
        ensures disk { (D.state self.new.disk).name ≡ (D.state self.old.disk).name }
        ensures link { L.name link.new ≡ L.name link.old }

        // One entry came, and what the link took of it is what it marks as taken.
        ensures ok { OnOk result ((e : Entry)
            × Added D.keeps_model D.state self.old self.new tag event.now e.reply e
            × Sends L.tells (L.took link.old) (L.took link.new) (L.failures link.old)
            (L.failures link.new) e.outs.items e.outcomes.items) }
        ensures in_turn { OnOk result (IsTurn self.old.entries tag) }
        ensures room { OnOk result (length self.old.entries < self.old.base.limit) }
        ensures err { OnErr result ((self.new ≡ self.old) × (link.new ≡ link.old)) }
        ensures refused { IfErr result (λ fault. Refused self.old.base self.old.entries tag fault) }

        // No moment of the call leaves less than the ceiling before it, which does not fall, and the life goes on.
        ensures grows { granted_of self.old.base self.old.entries
            ≤ granted_of self.new.base self.new.entries }
        ensures living { GoesOn D.state self.old self.new }
        ensures moments { D.keeps_model
            → Through (Covers self.old.owner (granted_of self.old.base self.old.entries))
            (D.state self.old.disk) (D.state self.new.disk) }
        ensures since { D.keeps_model
            → HeldSince self.old.owner (D.state self.new.disk) (D.state self.old.disk).clock
            (granted_of self.old.base self.old.entries) }

        // Of the state file at most one slot is written, and all beside it stays.
        ensures beside { D.keeps_model
            → LeavesAlone (IsBeside (target_in (D.state self.old.disk).content))
            (D.state self.old.disk) (D.state self.new.disk) }
    {
        self.admit(tag)?;
        if self.journal.reserve().is_err() {
            return Err(ApplyFault::NoMemory);
        }
        let done = enter(
            &mut self.member,
            &mut self.store,
            link,
            event,
            &mut self.read,
            &mut self.answer,
        );
        self.most = greatest_own(
            self.answer.outs.as_slice(),
            self.member.settings().me,
            self.most,
        );
        let status = status_now(&self.member, self.journal.entries().len() + 1);
        self.journal.add(tag, event, done, &self.answer, status);
        Ok(())
    }

    /// Enters one call of a caller below 16. The turn is judged first, then the era, and then the call takes all its
    /// memory, one place in the journal; a refusal changes nothing. Then the wanted number is saved where it is above
    /// the ceiling, the member steps with the ceiling that stands, each datagram is sent in order, whatever became of
    /// the one before, and the entry is added.
    pub fn apply<L: Link>(
        &mut self,
        link: &mut L,
        tag: Tag,
        event: Event,
    ) -> Result<Reply, ApplyFault>
        requires caller { tag.caller < 16 }
        ensures base { self.new.base ≡ self.old.base }
        ensures owner { self.new.owner ≡ self.old.owner }
        ensures first { self.new.first ≡ self.old.first }
        ensures disk { (D.state self.new.disk).name ≡ (D.state self.old.disk).name }
        ensures link { L.name link.new ≡ L.name link.old }

        // One entry came, and what the link took of it is what it marks as taken.
        ensures ok { IfOk result (λ reply. (e : Entry)
            × Added D.keeps_model D.state self.old self.new tag event reply e
            × Sends L.tells (L.took link.old) (L.took link.new) (L.failures link.old)
            (L.failures link.new) e.outs.items e.outcomes.items) }
        ensures in_turn { OnOk result (IsTurn self.old.entries tag) }
        ensures room { OnOk result (length self.old.entries < self.old.base.limit) }
        ensures err { OnErr result ((self.new ≡ self.old) × (link.new ≡ link.old)) }
        ensures refused { IfErr result (λ fault. Refused self.old.base self.old.entries tag fault) }

        // No moment of the call leaves less than the ceiling before it, which does not fall, and the life goes on.
        ensures grows { granted_of self.old.base self.old.entries
            ≤ granted_of self.new.base self.new.entries }
        ensures living { GoesOn D.state self.old self.new }
        ensures moments { D.keeps_model
            → Through (Covers self.old.owner (granted_of self.old.base self.old.entries))
            (D.state self.old.disk) (D.state self.new.disk) }
        ensures since { D.keeps_model
            → HeldSince self.old.owner (D.state self.new.disk) (D.state self.old.disk).clock
            (granted_of self.old.base self.old.entries) }

        // Of the state file at most one slot is written, and all beside it stays.
        ensures beside { D.keeps_model
            → LeavesAlone (IsBeside (target_in (D.state self.old.disk).content))
            (D.state self.old.disk) (D.state self.new.disk) }
    {
        self.apply_in_place(link, tag, &event)?;
        Ok(self.last().reply.copy())
    }
}
