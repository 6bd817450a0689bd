//! The peers that a member is told to join, and those that its state file kept.

ghost use Rattle.std.specs.Prelude.{◌≡◌, ◌≤◌, ◌↔◌, [], None, IfSome, IsTrue, length, slice_get};
ghost use Rattle.std.specs.List.{filter};
ghost use Rattle.swim_join.specs.Joins.{IsNext, begun_again, has_gone, has_row, missing, stepped, watched};

use arrayvec::ArrayVec;
use std::marker::Model;
use std::time::Instant;
use swim_wire::{Endpoint, Update};

/// The most peers of a list: eight of the settings, and eight of the state file.
pub const LIST_MAX: usize = 16;

/// A list of peers, which are joined in turn. Contracts see it as `PeersView`.
#[derive(Drop)]
pub(crate) struct Peers {
    list: ArrayVec<Endpoint, LIST_MAX>,
    /// The place of the peer that comes next.
    next: usize,
    /// Whether each was joined once.
    was_all: bool,
    /// Those that the rows showed when they were read last.
    shown: ArrayVec<Endpoint, LIST_MAX>,
    /// When one was gone from the rows that they had shown before.
    gone: Option<Instant>,
}

impl Model for Peers {
    ghost use Rattle.swim_join.specs.Joins.{PeersView};

    ghost Value = { PeersView };

    ghost view = { λ p. record {
      list = p.list.items;
      next = p.next;
      were_all = p.was_all;
      shown = p.shown.items;
      gone = p.gone;
    } };
}

/// Whether a row shows the member.
pub(crate) fn has_row(rows: &[Update], who: Endpoint) -> bool
    ensures { result ≡ has_row rows.now who }
{
    rows.iter().any(|row| row.who == who)
}

/// Whether the rows do not show one of these members.
fn has_gone(rows: &[Update], shown: &[Endpoint]) -> bool
    ensures { result ≡ has_gone rows.now shown.now }
{
    shown.iter().any(|peer| !has_row(rows, *peer))
}

/// Those of these peers that the rows show, in their order.
fn shown_in(rows: &[Update], peers: &[Endpoint]) -> ArrayVec<Endpoint, LIST_MAX>
    requires { length peers.now ≤ LIST_MAX }
    ensures { result.items ≡ filter (has_row rows.now) peers.now }
{
    let mut shown = ArrayVec::new();
    for peer in peers {
        if has_row(rows, *peer) {
            shown.push(*peer);
        }
    }
    shown
}

impl Peers {
    /// Peers of which none was joined.
    pub(crate) fn new(list: ArrayVec<Endpoint, LIST_MAX>) -> Peers
        ensures list { result.list ≡ list.items }
        ensures first { result.next ≡ 0 }
        ensures all { IsTrue result.were_all ↔ (list.items ≡ []) }
        ensures shown { (result.shown ≡ []) × (result.gone ≡ None) }
    {
        let was_all = list.is_empty();
        Peers {
            list,
            next: 0,
            was_all,
            shown: ArrayVec::new(),
            gone: None,
        }
    }

    /// These are the peers from now on, none of which was joined.
    pub(crate) fn relist(&mut self, list: ArrayVec<Endpoint, LIST_MAX>)
        ensures list { self.new.list ≡ list.items }
        ensures first { self.new.next ≡ 0 }
        ensures all { IsTrue self.new.were_all ↔ (list.items ≡ []) }
        ensures shown { self.new.shown ≡ self.old.shown }
        ensures gone { self.new.gone ≡ self.old.gone }
    {
        self.was_all = list.is_empty();
        self.next = 0;
        self.list = list;
    }

    /// The list begins again, as if none was joined.
    pub(crate) fn begin_again(&mut self)
        ensures { self.new ≡ begun_again self.old }
    {
        self.next = 0;
        self.was_all = self.list.is_empty();
    }

    /// All rows were read, which is noted with the time, if one that they had shown is gone.
    pub(crate) fn watch(&mut self, rows: &[Update], now: Option<Instant>)
        ensures { self.new ≡ watched rows.now now self.old }
    {
        if has_gone(rows, self.shown.as_slice()) {
            self.gone = now;
        }
        self.shown = shown_in(rows, self.list.as_slice());
    }

    /// When a peer was gone from the rows that they had shown before, the last time; none if that never was.
    pub(crate) fn gone(&self) -> Option<Instant>
        ensures { result ≡ self.now.gone }
    {
        self.gone
    }

    /// All of them, in their order.
    pub(crate) fn list(&self) -> &[Endpoint]
        ensures list { result.now ≡ self.now.list }
        ensures most { length result.now ≤ LIST_MAX }
    {
        self.list.as_slice()
    }

    /// How many of them the rows did not show when they were read last.
    pub(crate) fn missing(&self) -> usize
        ensures { result ≡ missing self.now }
    {
        self.list.len().saturating_sub(self.shown.len())
    }

    /// Whether each was joined once.
    pub(crate) fn were_all(&self) -> bool
        ensures { result ≡ self.now.were_all }
    {
        self.was_all
    }

    /// How many there are.
    pub(crate) fn listed(&self) -> usize
        ensures { result ≡ length self.now.list }
    {
        self.list.len()
    }

    /// The peer that comes next; none if the list is empty.
    pub(crate) fn next(&self) -> Option<Endpoint>
        ensures next { IfSome result (IsNext self.now) }
        ensures value { result ≡ slice_get self.now.list self.now.next }
    {
        self.list.get(self.next).copied()
    }

    /// The peer that came next was joined.
    pub(crate) fn step(&mut self)
        ensures { self.new ≡ stepped self.old }
    {
        self.next = self.next.saturating_add(1);
        if self.next >= self.list.len() {
            self.next = 0;
            self.was_all = true;
        }
    }
}
