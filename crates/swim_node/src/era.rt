//! Eras: one ends and the next one begins, in its room where it is let go.

ghost use Rattle.std.specs.Prelude.{◌≡◌, [], All};
ghost use Rattle.swim_node.specs.History.{IsLegal};
ghost use Rattle.swim_node.specs.Lives.{EndsEra};
ghost use Rattle.swim_node.specs.Node.{next_base};
ghost use Rattle.swim_node.specs.Owns.{owns, AreAtLeast};
ghost use Rattle.swim_node.specs.Probing.{GoesInTurns};
ghost use Rattle.swim_node.specs.Sending.{HasTexts};

use crate::base::{Base, base_at};
use crate::entry::Entry;
use crate::node::Node;
use std::marker::Model;
use std::mem;
use swim_disk::Disk;

/// An era that ended: where it began, and its journal.
#[derive(Drop)]
pub struct Era {
    pub(crate) base: Base,
    pub(crate) entries: Vec<Entry>,
}

impl Model for Era {
    ghost use Rattle.std.specs.Prelude.{All};
    ghost use Rattle.swim_node.specs.History.{IsLegal};
    ghost use Rattle.swim_node.specs.Sending.{HasTexts};
    ghost use Rattle.swim_node.specs.Lives.{Era as Eras};
    ghost use Rattle.swim_node.specs.Node.{base_of};

    ghost Value = { Eras };

    ghost view = { λ e. record { base = base_of e.base; entries = e.entries.items } };

    ghost invariant = { λ e. IsLegal (base_of e.base) e.entries.items
        × All HasTexts e.entries.items };
}

impl Era {
    /// The entries, in order.
    pub fn journal(&self) -> &[Entry]
        ensures entries { result.now ≡ self.now.entries }
        ensures legal { IsLegal self.now.base self.now.entries }
        ensures texts { All HasTexts self.now.entries }
    {
        &self.entries
    }

    /// Its room, for the entries of another era. What it says is lost.
    pub fn into_room(self) -> Room {
        Room {
            places: self.entries,
        }
    }
}

/// The room of an era that was let go: memory that another era fills anew. An era of 4,096 entries has 39 MB.
#[derive(Drop)]
pub struct Room {
    pub(crate) places: Vec<Entry>,
}

impl<D: Disk> Node<D> {
    /// Begins an era: what is now becomes the base, the journal is empty, and the callers' turns begin at 1 again. The
    /// turn of probing goes on: the base has its list. In the era that ends the member has probed in turns.
    pub fn rebase(&mut self)
        ensures base { self.new.base ≡ next_base self.old.base self.old.entries }
        ensures settings { self.new.base.state.settings ≡ self.old.base.state.settings }
        ensures entries { self.new.entries ≡ [] }
        ensures disk { self.new.disk ≡ self.old.disk }
        ensures owner { self.new.owner ≡ self.old.owner }
        ensures first { self.new.first ≡ self.old.first }
        ensures peers { self.new.peers ≡ self.old.peers }
        ensures broken { self.new.broken ≡ self.old.broken }
        ensures living { EndsEra D.state self.old self.new }
        ensures turns { GoesInTurns self.old.base self.old.entries }
    {
        self.base = base_at(
            &self.member,
            self.store.ceiling(),
            self.most,
            self.base.limit,
        );
        self.journal.clear();
    }

    /// Begins an era as `rebase` does, and gives the one that ended away. It takes no memory.
    pub fn end_era(&mut self) -> Era
        ensures era { result ≡ record { base = self.old.base; entries = self.old.entries } }
        ensures legal { IsLegal self.old.base self.old.entries }
        ensures begun { AreAtLeast self.old.first (owns self.old.base self.old.entries) }
        ensures base { self.new.base ≡ next_base self.old.base self.old.entries }
        ensures settings { self.new.base.state.settings ≡ self.old.base.state.settings }
        ensures entries { self.new.entries ≡ [] }
        ensures disk { self.new.disk ≡ self.old.disk }
        ensures owner { self.new.owner ≡ self.old.owner }
        ensures first { self.new.first ≡ self.old.first }
        ensures peers { self.new.peers ≡ self.old.peers }
        ensures broken { self.new.broken ≡ self.old.broken }
        ensures living { EndsEra D.state self.old self.new }
        ensures turns { GoesInTurns self.old.base self.old.entries }
    {
        let base = base_at(
            &self.member,
            self.store.ceiling(),
            self.most,
            self.base.limit,
        );
        Era {
            base: mem::replace(&mut self.base, base),
            entries: self.journal.take(),
        }
    }

    /// Takes the room of an era that was let go, for the entries of this one, which has none yet.
    pub fn furnish(&mut self, room: Room)
        requires empty { self.old.entries ≡ [] }
        ensures { self.new ≡ self.old }
    {
        self.journal.furnish(room.places);
    }
}
