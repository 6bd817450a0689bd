//! Nodes with their state files: each of these calls is a move of whichever group the node lives in.

ghost use Rattle.std.specs.Prelude.{◌≡◌, ◌<◌, ◌++◌, ◌∷◌, [], ℕ, List, IfOk, IfErr, OnOk, OnErr};
ghost use Rattle.swim_member.specs.Checks.{AreSound};
ghost use Rattle.swim_state.specs.Held.{Held};
ghost use Rattle.swim_node.specs.declared.entry.Entry.{Entry as Entries};
ghost use Rattle.swim_node.specs.History.{fresh_base};
ghost use Rattle.swim_node.specs.Lives.{IsLiving, MayEnd, life_of};
ghost use Rattle.swim_node.specs.Node.{Refused, owner_of, next_base};
ghost use Rattle.swim_node.specs.Sending.{HasTexts};
ghost use Rattle.swim_group.specs.Network.{IsNotInvented};
ghost use Rattle.swim_group.specs.Refusing.{IsNoLimit, IsUnopened};
ghost use Rattle.swim_group.specs.Nodes.{IsMoveOf, IsOpeningOf, Calls, Rebases, Raises, Opens};
ghost use Rattle.swim_group.specs.RealNodes.{NodeDisk as Disks, IsLeftBy, node_disk_state};

use crate::seat::NodeDisk;
use std::alloc::Global;
use swim_disk::{Choice, Disk, MemDisk};
use swim_member::{Event, Settings};
use swim_node::{ApplyFault, Era, Link, Node, OpenFault, Reply, Tag};
use swim_state::SaveFault;

/// Enters one call of a node, as `Node::apply` does. That is the next move of each group in which the node lives, if the
/// network there did not invent the event.
pub fn hear<D: Disk, L: Link>(
    node: &mut Node<D>,
    link: &mut L,
    tag: Tag,
    event: Event,
) -> Result<Reply, ApplyFault>
    requires caller { tag.caller < 16 }
    ensures ok { IfOk result (λ reply. (e : Entries)
        × (e.event ≡ event)
        × (e.reply ≡ reply)
        × (node.new.entries ≡ node.old.entries ++ e ∷ [])
        × HasTexts e
        × (D.keeps_model → IsMoveOf D.state node.old node.new
        (λ sent. IsNotInvented sent event) (λ which. Calls which e node.new.disk))) }
    ensures err { OnErr result (node.new ≡ node.old) }
    ensures refused { IfErr result (λ fault. Refused node.old.base node.old.entries tag fault) }
{
    let reply = node.apply(link, tag, event)?;
    node.life_may_end();
    Ok(reply)
}

/// Begins an era of a node, as `Node::end_era` does, and gives the one that ended away. That is the next move of each group
/// in which the node lives.
pub fn end_era<D: Disk>(node: &mut Node<D>) -> Era
    ensures era { result ≡ record { base = node.old.base; entries = node.old.entries } }
    ensures base { node.new.base ≡ next_base node.old.base node.old.entries }
    ensures entries { node.new.entries ≡ [] }
    ensures moved { D.keeps_model
        → IsMoveOf D.state node.old node.new (λ sent. Unit {0}) (λ which. Rebases which) }
{
    let era = node.end_era();
    node.life_may_end();
    era
}

/// Begins an era of a node, as `Node::rebase` does. That is the next move of each group in which the node lives.
pub fn rebase<D: Disk>(node: &mut Node<D>)
    ensures base { node.new.base ≡ next_base node.old.base node.old.entries }
    ensures entries { node.new.entries ≡ [] }
    ensures moved { D.keeps_model
        → IsMoveOf D.state node.old node.new (λ sent. Unit {0}) (λ which. Rebases which) }
{
    node.rebase();
    node.life_may_end();
}

/// Saves the peers of a node, as `Node::keep_peers` does. That is the next move of each group in which the node lives,
/// also where the save fails.
pub fn keep_peers<D: Disk>(node: &mut Node<D>) -> Result<(), SaveFault>
    requires empty { node.old.entries ≡ [] }
    ensures moved { D.keeps_model → IsMoveOf D.state node.old node.new
        (λ sent. Unit {0}) (λ which. Raises which node.new.base.granted node.new.disk) }
    ensures raised { OnOk result (node.old.base.granted < node.new.base.granted) }
{
    let kept = node.keep_peers();
    node.life_may_end();
    kept
}

/// Opens a node on a disk, as `Node::open` does. That is the next move of each group in which a node of this owner lived,
/// if this is what became of the disk that it left.
pub fn open_again<D: Disk>(
    alloc: Global,
    disk: D,
    settings: Settings,
    limit: u32,
) -> Result<Node<D>, (D, OpenFault)>
    requires sound { AreSound settings }
    ensures fresh { IfOk result (λ node. (node.base ≡ fresh_base settings node.first limit)
        × (node.entries ≡ [])) }
    ensures moved { D.keeps_model
        → IfOk result (λ node. IsOpeningOf D.state settings limit disk node) }
    ensures lived { D.keeps_model
        → IfOk result (λ node. IsLiving D.state node.owner (life_of settings limit disk [] node)
        × MayEnd D.state node) }
    ensures limit { OnOk result (IsNoLimit limit → ⊥) }
    ensures refused { D.keeps_model → (b : ℕ) → Held (owner_of settings) (D.state disk) b
        → IfErr result (λ fault. IsUnopened limit (D.state disk).content fault.1) }
{
    let node = Node::open(alloc, disk, settings, limit)?;
    node.life_may_end();
    Ok(node)
}

/// A node crashes, with its disk, of which the crash leaves what is chosen, and is opened anew on that. That is the next
/// move of each group in which it lived. What is planned of the disk stays planned.
pub fn crash(
    alloc: Global,
    node: Node<NodeDisk>,
    choice: Choice,
    settings: Settings,
    limit: u32,
) -> Result<Node<NodeDisk>, (NodeDisk, OpenFault)>
    requires sound { AreSound settings }
    ensures fresh { IfOk result (λ new. (new.base ≡ fresh_base settings new.first limit)
        × (new.entries ≡ [])) }
    ensures moved { IfOk result (λ new. (opened : Disks)
        × IsLeftBy choice node.disk opened
        × IsMoveOf node_disk_state node new
        (λ sent. owner_of settings ≡ node.owner)
        (λ which. Opens which settings limit new.first opened new.disk)) }
    ensures refused { owner_of settings ≡ node.owner → IfErr result (λ fault. (content : List ℕ)
        × (node_disk_state node.disk).images content
        × IsUnopened limit content fault.1) }
{
    let mut disk = node.into_disk();
    let before = disk.replace(MemDisk::new(alloc, 0, Vec::new(alloc)));
    disk.replace(before.crash(choice));
    open_again(alloc, disk, settings, limit)
}
