//! The law of a group, held against each datagram that is sent, and that of detection, held against what each member holds.

ghost use Rattle.std.specs.Prelude.{◌≡◌, ◌≢◌, [], None, OnOk, OnErr};
ghost use Rattle.swim_simulate.specs.Laws.{LooksAt, KeepsFirst, KnowsAll, PassesNext, first_of};

use crate::fault::SimulateFault;
use crate::shadow::Lapse;
use std::alloc::Global;
use std::fmt;
use std::marker::Model;
use swim_group::{Breach, CheckFault, Checker};
use swim_wire::{Datagram, Endpoint, Update};

/// Which law is broken, and how.
#[derive(Clone, Copy, Debug, PartialEq, Eq)]
pub enum Broken {
    /// That of a group, by an update that was told.
    Group(Breach),
    /// That of detection, by an update that was held or told.
    Detection(Lapse),
}

/// Where a run broke a law.
#[derive(Clone, Copy, Debug, PartialEq, Eq)]
pub struct LawBreak {
    /// In which tick.
    pub tick: u64,
    /// Who told or held it.
    pub sender: Endpoint,
    /// What that was.
    pub update: Update,
    /// How that breaks a law.
    pub broken: Broken,
}

impl fmt::Display for LawBreak {
    fn fmt<W: fmt::Write>(&self, f: &mut fmt::Formatter<W>) -> fmt::Result {
        let LawBreak {
            tick,
            sender,
            update,
            broken,
        } = self;
        let kind = update.kind.name();
        let who = update.who;
        let number = update.number;
        match broken {
            Broken::Group(breach) => write!(
                f,
                "tick {tick}: {sender} told number {number} of {who}: {breach}"
            ),
            Broken::Detection(lapse) => write!(
                f,
                "tick {tick}: {sender} has {kind} {who} {number}: {lapse}"
            ),
        }
    }
}

/// What was told so far, and where the law was broken first.
#[derive(Drop)]
pub struct LawRecord {
    /// None where a datagram was not seen, so that nothing can be said any more.
    checker: Option<Checker>,
    stop: Option<LawBreak>,
}

impl Model for LawRecord {
    ghost use Rattle.swim_simulate.specs.Laws.{LawView};

    ghost Value = { LawView };

    ghost view = { λ l. record { told = l.checker; stop = l.stop } };
}

impl LawRecord {
    /// Nothing was told yet.
    pub fn new(alloc: Global) -> LawRecord
        ensures stop { result.stop ≡ None }
        ensures told { KnowsAll result.told [] }
    {
        LawRecord {
            checker: Some(Checker::new(alloc)),
            stop: None,
        }
    }

    /// Where a law was broken first, if one was.
    pub fn stop(&self) -> Option<LawBreak>
        ensures { result ≡ self.now.stop }
    {
        self.stop
    }

    /// Notes where a law was broken. What was noted first stays.
    pub fn note(&mut self, stop: LawBreak)
        ensures stop { self.new.stop ≡ first_of self.old.stop stop }
        ensures first { KeepsFirst self.old self.new }
        ensures said { self.new.stop ≢ None }
        ensures told { self.new.told ≡ self.old.told }
    {
        self.stop = self.stop.or(Some(stop));
    }

    /// From here on not every datagram is seen.
    pub fn close(&mut self)
        ensures told { self.new.told ≡ None }
        ensures stop { self.new.stop ≡ self.old.stop }
    {
        self.checker = None;
    }

    /// Looks at the datagram that was sent next. `Memory` where there is none to remember it.
    pub fn look(&mut self, tick: u64, datagram: &Datagram) -> Result<(), SimulateFault>
        ensures look { OnOk result (LooksAt self.old self.new datagram.now) }
        ensures passes { OnOk result (PassesNext self.old self.new datagram.now) }
        ensures err { OnErr result (self.new ≡ self.old) }
        ensures first { KeepsFirst self.old self.new }
    {
        let Some(checker) = &mut self.checker else {
            return Ok(());
        };
        match checker.check(datagram) {
            Ok(()) => Ok(()),
            Err(CheckFault::NoMemory) => Err(SimulateFault::Memory),
            Err(CheckFault::Broken(update, breach)) => {
                self.note(LawBreak {
                    tick,
                    sender: datagram.sender,
                    update,
                    broken: Broken::Group(breach),
                });
                Ok(())
            }
        }
    }
}
