//! An open state file, whose ceiling is raised by a save that also keeps the peers.

ghost use Rattle.std.specs.Prelude.{◌≡◌, ◌<◌, ◌≤◌, true, false, IfOk, OnOk, IsErrOf};
ghost use Rattle.swim_disk.specs.Disk.{Counts, IsSettled, Rests};
ghost use Rattle.swim_state.specs.File.{floor_of, peers_in, version_in, AreOf, AreUsable};
ghost use Rattle.swim_state.specs.Held.{Held, HasPeers};
ghost use Rattle.swim_state.specs.Raising.{CountsFaults, Raises};
ghost use Rattle.swim_state.specs.Second.{version_2, ArePeers};
ghost use Rattle.swim_state.specs.Store.{IsStore};
ghost use Rattle.swim_state.specs.declared.layout.Version.TheVariants.{Two};
ghost use Rattle.swim_state.specs.declared.owner.Owner.{Owner};
ghost use Rattle.swim_state.specs.declared.store.TheConstants.{SPARE_MAX};
ghost use Rattle.swim_wire.specs.declared.update.TheConstants.{NUMBER_MAX};

use crate::fault::SaveFault;
use crate::layout::{Saved, Version};
use crate::owner::Owner;
use crate::peers::Peers;
use crate::save::save;
use crate::slots::{Slots, read_slots};
use std::marker::Model;
use swim_disk::{Disk, DiskFault};
use swim_wire::{Endpoint, NUMBER_MAX};

/// The most numbers that one raise reserves beyond the number that it is asked for.
pub const SPARE_MAX: u64 = 1023;

/// An open state file, with the ceiling that its owner may use.
#[derive(Drop)]
pub struct Store<D: Disk> {
    disk: D,
    owner: Owner,
    ceiling: u64,
    slots: Slots,
    broken: bool,
}

impl<D: Disk> Model for Store<D> {
    ghost use Rattle.swim_state.specs.File.{peers_in};
    ghost use Rattle.swim_state.specs.Store.{StoreView, IsStore};

    ghost Value = { StoreView D };

    ghost view = { λ s. record {
      disk = s.disk;
      owner = s.owner;
      ceiling = s.ceiling;
      peers = peers_in s.slots;
      broken = s.broken;
    } };

    ghost invariant = { λ s.
        IsStore D.keeps_model (D.state s.disk) s.owner s.ceiling s.slots s.broken };
}

impl<D: Disk> Store<D> {
    pub(crate) fn of(disk: D, owner: Owner, slots: Slots) -> Store<D>
        requires { IsStore D.keeps_model (D.state disk) owner (floor_of slots) slots false }
        ensures disk { result.disk ≡ disk }
        ensures owner { result.owner ≡ owner }
        ensures ceiling { result.ceiling ≡ floor_of slots }
        ensures peers { result.peers ≡ peers_in slots }
        ensures whole { result.broken ≡ false }
    {
        let ceiling = slots.floor();
        Store {
            disk,
            owner,
            ceiling,
            slots,
            broken: false,
        }
    }

    /// The greatest number that its owner may use. A crash now leaves a floor of at least this.
    pub fn ceiling(&self) -> u64
        ensures value { result ≡ self.now.ceiling }
        ensures bounds { (1 ≤ result) × (result ≤ NUMBER_MAX) }
        ensures covered { D.keeps_model → Held self.now.owner (D.state self.now.disk) result }
    {
        self.ceiling
    }

    /// Whom the member knew at the last save. After a raise that succeeded a crash leaves just these.
    pub fn peers(&self) -> Peers
        ensures value { result ≡ self.now.peers }
        ensures named { D.keeps_model → self.now.broken ≡ false
            → HasPeers (D.state self.now.disk) result }
    {
        self.slots.peers()
    }

    /// The disk below. A crash now leaves a floor of at least the ceiling.
    pub fn disk(&self) -> &D
        ensures disk { result.now ≡ self.now.disk }
        ensures covered { D.keeps_model
            → Held self.now.owner (D.state result.now) self.now.ceiling }
    {
        &self.disk
    }

    /// The disk below, by value.
    pub fn into_disk(self) -> D
        ensures disk { result ≡ self.disk }
        ensures covered { D.keeps_model → Held self.owner (D.state result) self.ceiling }
    {
        let Store {
            disk,
            owner: _,
            ceiling: _,
            slots: _,
            broken: _,
        } = self;
        disk
    }

    /// Raises the ceiling to this number, and beyond it by `spare` as far as there are numbers, and
    /// keeps these peers, by one save: the gate of one slot, its body, its gate, each written and
    /// synced. A broken store first syncs and reads the slots; where their floor is at least `to`, it
    /// becomes the ceiling, the peers are those that stand with it, and nothing is written.
    ///
    /// `Device` comes where a call of the disk failed, and `Changed` where a broken store finds a file
    /// that isn't as it left it. After either the store is broken, and its ceiling and peers stand, or
    /// are those that it read, of a floor which isn't below the ceiling.
    pub fn raise(&mut self, to: u64, spare: u64, peers: &[Endpoint]) -> Result<(), SaveFault>
        requires above { self.old.ceiling < to }
        requires bounded { to ≤ NUMBER_MAX }
        requires few { spare ≤ SPARE_MAX }
        requires peers { ArePeers peers.now }
        ensures raises { Raises D.keeps_model D.state to spare peers.now result self.old self.new }
    {
        if self.broken {
            self.raise_broken(to, spare, peers)
        } else {
            self.raise_whole(to, spare, peers)
        }
    }

    fn raise_whole(&mut self, to: u64, spare: u64, peers: &[Endpoint]) -> Result<(), SaveFault>
        requires whole { self.old.broken ≡ false }
        requires above { self.old.ceiling < to }
        requires bounded { to ≤ NUMBER_MAX }
        requires few { spare ≤ SPARE_MAX }
        requires peers { ArePeers peers.now }
        ensures raises { Raises D.keeps_model D.state to spare peers.now result self.old self.new }
    {
        let ceiling = (to + spare).min(NUMBER_MAX);
        let peers = Peers::of(peers);
        self.broken = true;
        save(&mut self.disk, &mut self.slots, Saved { ceiling, peers })?;
        self.ceiling = ceiling;
        self.broken = false;
        Ok(())
    }

    fn raise_broken(&mut self, to: u64, spare: u64, peers: &[Endpoint]) -> Result<(), SaveFault>
        requires broken { self.old.broken ≡ true }
        requires above { self.old.ceiling < to }
        requires bounded { to ≤ NUMBER_MAX }
        requires few { spare ≤ SPARE_MAX }
        requires peers { ArePeers peers.now }
        ensures raises { Raises D.keeps_model D.state to spare peers.now result self.old self.new }
    {
        self.slots = reread(&mut self.disk, self.ceiling)?;
        self.ceiling = self.slots.floor();
        self.broken = false;
        if self.ceiling >= to {
            return Ok(());
        }
        self.raise_whole(to, spare, peers)
    }
}

/// Syncs and reads the slots: what a crash may leave is then what was read.
pub(crate) fn settle<D: Disk>(disk: &mut D) -> Result<Slots, DiskFault>
    ensures counts { Counts result (D.state disk.old) (D.state disk.new) }
    ensures rests { D.keeps_model → Rests (D.state disk.old) (D.state disk.new) }
    ensures settled { D.keeps_model → OnOk result (IsSettled (D.state disk.new)) }
    ensures same { D.keeps_model → IfOk result (λ s. AreOf version_2 (D.state disk.old).content s) }
    ensures bounded { IfOk result (λ s. floor_of s ≤ NUMBER_MAX) }
{
    disk.sync()?;
    read_slots(disk, Version::Two)
}

/// The slots of a file whose floor is to be this or more, after a save that failed.
pub(crate) fn reread<D: Disk>(disk: &mut D, ceiling: u64) -> Result<Slots, SaveFault>
    ensures counts { CountsFaults result (D.state disk.old) (D.state disk.new) }
    ensures room { IsErrOf result SaveFault.Exhausted → ⊥ }
    ensures changed { D.keeps_model → (owner : Owner) → Held owner (D.state disk.old) ceiling
        → version_in (D.state disk.old).content ≡ Two → IsErrOf result SaveFault.Changed → ⊥ }
    ensures rests { D.keeps_model → Rests (D.state disk.old) (D.state disk.new) }
    ensures settled { D.keeps_model → OnOk result (IsSettled (D.state disk.new)) }
    ensures same { D.keeps_model → IfOk result (λ s. AreOf version_2 (D.state disk.old).content s) }
    ensures usable { IfOk result (λ s. AreUsable s) }
    ensures covered { IfOk result (λ s. ceiling ≤ floor_of s) }
{
    let slots = settle(disk)?;
    if !slots.is_usable() {
        return Err(SaveFault::Changed);
    }
    if slots.floor() < ceiling {
        return Err(SaveFault::Changed);
    }
    Ok(slots)
}
