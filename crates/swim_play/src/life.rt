//! The lives of a script's members, on a disk in memory that fails by a plan.

ghost use Rattle.std.specs.Prelude.{◌≡◌, ◌≢◌, ◌⊎◌, ◌+◌, ◌≤◌, ◌++◌, ◌∷◌, [], None, ℕ, List, IfOk, IfErr, OnOk, OnErr, IfSome, length};
ghost use Rattle.swim_member.specs.Checks.{AreSound};
ghost use Rattle.swim_state.specs.File.{floor};
ghost use Rattle.swim_state.specs.Held.{Held, HasPeers};
ghost use Rattle.swim_state.specs.Recovery.{fault_of};
ghost use Rattle.swim_state.specs.declared.fault.RecoverFault.{RecoverFault as Recoveries};
ghost use Rattle.swim_state.specs.declared.fault.RecoverFault.TheVariants.{Device, Exhausted};
ghost use Rattle.swim_node.specs.declared.opening.TheConstants.{LIMIT_MAX};
ghost use Rattle.swim_node.specs.Lives.{IsLived};
ghost use Rattle.swim_node.specs.History.{state_after};
ghost use Rattle.swim_node.specs.Node.{granted_base, owner_of, next_base};
ghost use Rattle.swim_node.specs.Peers.{known_peers};
ghost use Rattle.swim_node.specs.Sending.{HasTexts};
ghost use Rattle.swim_node.specs.declared.entry.Entry.{Entry as Entries};
ghost use Rattle.swim_node.specs.declared.fault.OpenFault.TheVariants as faults;
ghost use Rattle.swim_play.specs.declared.session.OpeningRefusal.TheVariants as refusals;
ghost use Rattle.swim_play.specs.Life.{disk_state, IsOfOne, Spares, Adds, IsDeclined, era_now};
ghost use Rattle.swim_play.specs.Play.{IsRefused};

use crate::setup::Setup;
use std::alloc::{AllocError, Global};
use std::marker::Model;
use std::snapshot::Snapshot;
use swim_disk::{FaultDisk, MemDisk};
use swim_member::Event;
use swim_node::{ApplyFault, Entry, Era, MemoryLink, Node, OpenFault};
use swim_state::{Peers, SaveFault};

/// The disk of a script.
pub type PlayDisk = FaultDisk<MemDisk>;

/// A life that has ended: how it was opened, its eras in order, and the disk that it left.
#[derive(Drop)]
pub struct Life {
    setup: Setup,
    opened: Snapshot<PlayDisk>,
    first: u64,
    eras: Vec<Era>,
    last: Era,
    left: Snapshot<PlayDisk>,
}

impl Model for Life {
    ghost use Rattle.swim_node.specs.Lives.{Life as Lives};
    ghost use Rattle.swim_play.specs.Life.{PlayDisk as Disks};

    ghost Value = { Lives Disks };

    ghost view = { λ l. record {
      settings = l.setup.settings;
      limit = l.setup.limit;
      opened = l.opened.value;
      first = l.first;
      eras = l.eras.items;
      base = l.last.base;
      entries = l.last.entries;
      left = l.left.value;
    } };
}

impl Life {
    /// The eras that a rebase ended, in order.
    pub fn eras(&self) -> &[Era]
        ensures { result.now ≡ self.now.eras }
    {
        &self.eras
    }

    /// The era with which the life ended.
    pub fn last(&self) -> &Era
        ensures { result.now ≡ record { base = self.now.base; entries = self.now.entries } }
    {
        &self.last
    }
}

/// A life that goes on.
#[derive(Drop)]
pub(crate) struct OpenLife {
    setup: Setup,
    opened: Snapshot<PlayDisk>,
    eras: Vec<Era>,
    node: Node<PlayDisk>,
}

impl Model for OpenLife {
    ghost use Rattle.swim_node.specs.Lives.{Life as Lives};
    ghost use Rattle.swim_play.specs.Life.{PlayDisk as Disks, IsOngoing};

    ghost Value = { Lives Disks };

    ghost view = { λ l. record {
      settings = l.setup.settings;
      limit = l.setup.limit;
      opened = l.opened.value;
      first = l.node.first;
      eras = l.eras.items;
      base = l.node.base;
      entries = l.node.entries;
      left = l.node.disk;
    } };

    ghost invariant = { λ l. IsOngoing l.node.owner (record {
      settings = l.setup.settings;
      limit = l.setup.limit;
      opened = l.opened.value;
      first = l.node.first;
      eras = l.eras.items;
      base = l.node.base;
      entries = l.node.entries;
      left = l.node.disk;
    }) };
}

impl OpenLife {
    /// Opens a member on this disk.
    pub(crate) fn open(
        alloc: Global,
        disk: PlayDisk,
        setup: Setup,
    ) -> Result<OpenLife, (PlayDisk, OpenFault)>
        requires sound { AreSound setup.settings }
        ensures setup { IfOk result (λ l. (l.settings ≡ setup.settings) × (l.limit ≡ setup.limit)) }
        ensures opened { IfOk result (λ l. l.opened ≡ disk) }
        ensures first { IfOk result (λ l. l.first ≡ floor (disk_state disk).content + 1) }
        ensures whole { IfOk result (λ l.
            fault_of (owner_of setup.settings) (disk_state disk).content ≡ None) }
        ensures empty { IfOk result (λ l. (l.eras ≡ []) × (l.entries ≡ [])) }
        ensures limit { IfOk result (λ l. (1 ≤ setup.limit) × (setup.limit ≤ LIMIT_MAX)) }
        ensures cause { IfErr result (λ refused. refused.1 ≢ faults.NoMemory
            → IsRefused setup disk (refusals.Open refused.1) refused.0) }
        ensures lived { (b : ℕ)
            → Held (owner_of setup.settings) (disk_state disk) b
            → IfErr result (λ refused. (fault : Recoveries)
            → refused.1 ≡ faults.Refused fault
            → (fault ≡ Device) ⊎ (fault ≡ Exhausted)) }
        ensures spared { IfErr result (λ refused. Spares (owner_of setup.settings) disk refused.0) }
    {
        let opened = Snapshot::of(&disk);
        let node = Node::open(alloc, disk, setup.settings, setup.limit)?;
        Ok(OpenLife {
            setup,
            opened,
            eras: Vec::new(alloc),
            node,
        })
    }

    /// The number with which it began.
    pub(crate) fn first(&self) -> u64
        ensures { result ≡ self.now.first }
    {
        self.node.first()
    }

    /// Its disk.
    pub(crate) fn disk(&self) -> &PlayDisk
        ensures { result.now ≡ self.now.left }
    {
        self.node.disk()
    }

    /// The last entry of this era, if it has any.
    pub(crate) fn last(&self) -> Option<&Entry>
        ensures some { IfSome result (λ e. (before : List Entries)
            × (self.now.entries ≡ before ++ e.now ∷ [])) }
        ensures texts { IfSome result (λ e. HasTexts e.now) }
        ensures none { result ≡ None → self.now.entries ≡ [] }
    {
        if self.node.len() == 0 {
            return None;
        }
        Some(self.node.last())
    }

    /// Gives the member an event, as the next call of the one caller.
    pub(crate) fn happen(&mut self, link: &mut MemoryLink, event: Event) -> Result<(), ApplyFault>
        ensures ok { OnOk result (Adds self.old self.new event) }
        ensures refused { IfErr result (λ fault. IsDeclined self.old fault) }
        ensures err { OnErr result (self.new ≡ self.old) }
    {
        let tag = self.node.next_tag(0);
        self.node.apply(link, tag, event)?;
        Ok(())
    }

    /// Begins an era.
    pub(crate) fn rebase(&mut self) -> Result<(), AllocError>
        ensures opened { (self.new.settings ≡ self.old.settings)
            × (self.new.opened ≡ self.old.opened) }
        ensures ok { OnOk result (self.new ≡ record self.old {
          eras = self.old.eras ++ era_now self.old ∷ [];
          base = next_base self.old.base self.old.entries;
          entries = [];
        }) }
    {
        self.eras.reserve(1)?;
        self.eras.push_reserved(self.node.end_era());
        Ok(())
    }

    /// Saves whom the member knows, at the begin of an era. After Ok a crash leaves just these.
    pub(crate) fn keep_peers(&mut self) -> Result<(), SaveFault>
        requires empty { self.old.entries ≡ [] }
        ensures kept { self.new ≡ record self.old {
          base = granted_base self.old.base self.new.base.granted;
          left = self.new.left;
        } }
        ensures named { OnOk result (HasPeers (disk_state self.new.left)
            (known_peers (state_after self.old.base self.old.entries))) }
    {
        self.node.keep_peers()
    }

    /// Whom the state file keeps.
    pub(crate) fn peers(&self) -> Peers {
        self.node.peers()
    }

    /// Ends it: the member is dropped, and its disk stays as it is.
    pub(crate) fn end(self) -> (Life, PlayDisk)
        ensures life { result.0 ≡ self }
        ensures disk { result.1 ≡ self.left }
        ensures lived { IsLived disk_state (owner_of self.settings) self }
        ensures mine { IsOfOne self }
    {
        let OpenLife {
            setup,
            opened,
            eras,
            mut node,
        } = self;
        node.life_may_end();
        let first = node.first();
        let last = node.end_era();
        let disk = node.into_disk();
        let life = Life {
            setup,
            opened,
            first,
            eras,
            last,
            left: Snapshot::of(&disk),
        };
        (life, disk)
    }
}
