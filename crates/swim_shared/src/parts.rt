//! What a shared node is made of.

ghost use Rattle.std.specs.Prelude.{◌≡◌, ◌<◌, ◌≤◌, []};

use crate::front::Opened;
use std::marker::Model;
use swim_disk::Disk;
use swim_node::{Link, Node};

/// A node and its link, with a new history, for so many callers and watches.
#[derive(Drop)]
pub struct Parts<D: Disk, L: Link> {
    pub(crate) node: Node<D>,
    pub(crate) link: L,
    pub(crate) callers: u8,
    pub(crate) watches: u8,
    pub(crate) opened: Opened,
}

impl<D: Disk, L: Link> Model for Parts<D, L> {
    ghost use Rattle.std.specs.Prelude.{◌≡◌, ◌<◌, ◌≤◌, []};
    ghost use Rattle.swim_shared.specs.Parts.{PartsView, parts_of};

    ghost Value = { PartsView D L };

    ghost view = { λ p. parts_of p.opened.front.book p.node p.link p.callers p.watches };

    ghost invariant = { λ p. (p.node.entries ≡ [])
        × (0 < p.callers) × (p.callers ≤ 16) × (p.watches ≤ 16) };
}

impl<D: Disk, L: Link> Parts<D, L> {
    /// The parts of a node whose era has just begun, for 1 to 16 callers and at most 16 watches. It
    /// takes no memory.
    pub fn new(node: Node<D>, link: L, callers: u8, watches: u8) -> Parts<D, L>
        requires empty { node.entries ≡ [] }
        requires callers { (0 < callers) × (callers ≤ 16) }
        requires watches { watches ≤ 16 }
        ensures node { result.node ≡ node }
        ensures link { result.link ≡ link }
        ensures callers { result.callers ≡ callers }
        ensures watches { result.watches ≡ watches }
    {
        Parts {
            node,
            link,
            callers,
            watches,
            opened: Opened::new(),
        }
    }

    /// The node and the link, as they were handed in.
    pub fn into_inner(self) -> (Node<D>, L)
        ensures { (result.0 ≡ self.node) × (result.1 ≡ self.link) }
    {
        let Parts {
            node,
            link,
            callers: _,
            watches: _,
            opened: _,
        } = self;
        (node, link)
    }
}
