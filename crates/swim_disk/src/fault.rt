//! A disk that fails by a plan, over another one.

ghost use Rattle.std.specs.Prelude.{◌≡◌, ◌+◌, IfOk, IfErr};

use crate::count::Count;
use crate::plan::{FaultRules, Plan};
use crate::{Disk, DiskFault};
use std::alloc::Global;
use std::mem;
use std::sync::Arc;

/// A disk that fails by a [`Plan`], over another one. A call that the plan fails isn't passed on; of a torn write
/// the first half is.
#[derive(Drop)]
pub struct FaultDisk<D: Disk> {
    inner: D,
    rules: Arc<FaultRules, Global>,
    failures: Count,
    asked: Count,
}

impl<D: Disk> FaultDisk<D> {
    ghost use Rattle.swim_disk.specs.Disk.{Counts, Writes};
    ghost use Rattle.swim_disk.specs.Fault.{IsTorn, inner_of, own_failures, state_of};

    /// A disk over this one that fails nothing yet, and its plan. Where memory is wanting the disk comes back.
    pub fn new(alloc: Global, inner: D) -> Result<(FaultDisk<D>, Plan), D>
        ensures inner { IfOk result (λ made. inner_of made.0 ≡ inner) }
        ensures failures { IfOk result (λ made. own_failures made.0 ≡ 0) }
        ensures back { IfErr result (λ back. back ≡ inner) }
    {
        match FaultRules::shared(alloc) {
            Ok((rules, plan)) => Ok((
                FaultDisk {
                    inner,
                    rules,
                    failures: Count::new(),
                    asked: Count::new(),
                },
                plan,
            )),
            Err(_) => Err(inner),
        }
    }

    /// The disk below.
    pub fn inner(&self) -> &D
        ensures { result.now ≡ inner_of self.now }
    {
        &self.inner
    }

    /// The disk below, by value.
    pub fn into_inner(self) -> D
        ensures { result ≡ inner_of self }
    {
        let FaultDisk {
            inner,
            rules: _,
            failures: _,
            asked: _,
        } = self;
        inner
    }

    /// Puts another disk in the place of the one below, which comes back. The plan stays, and so do
    /// the failures that weren't of the disk below.
    pub fn replace(&mut self, inner: D) -> D
        ensures old { result ≡ inner_of self.old }
        ensures new { inner_of self.new ≡ inner }
        ensures failures { own_failures self.new ≡ own_failures self.old }
    {
        mem::replace(&mut self.inner, inner)
    }

    /// A write of the first half of these bytes, rounded up, which then fails.
    fn tear(&mut self, at: u64, bytes: &[u8]) -> Result<(), DiskFault>
        ensures counts { Counts result (state_of D.state self.old) (state_of D.state self.new) }
        ensures asked { (state_of D.state self.new).calls ≡ (state_of D.state self.old).calls }
        ensures writes { D.keeps_model
            → Writes at bytes.now result (state_of D.state self.old) (state_of D.state self.new) }
        ensures torn { IsTorn D.keeps_model D.state at bytes.now result self.old self.new }
    {
        let half = &bytes[..bytes.len() - bytes.len() / 2];
        match self.inner.write_at(at, half) {
            Ok(()) => Err(self.failures.fail(DiskFault::Planned)),
            Err(fault) => Err(fault),
        }
    }
}

impl<D: Disk> Disk for FaultDisk<D> {
    ghost use Rattle.std.specs.Prelude.{◌≤◌, length, take, drop, OnOk};
    ghost use Rattle.swim_disk.specs.Disk.{Counts, Rests, Syncs, Writes};
    ghost use Rattle.swim_disk.specs.Fault.{Passes, PassesWrite, state_of};

    ghost state = { λ f. state_of D.state f };

    ghost keeps_model = { D.keeps_model };

    fn len(&mut self) -> Result<u64, DiskFault>
        ensures counts { Counts result (state_of D.state self.old) (state_of D.state self.new) }
        ensures asked { (state_of D.state self.new).calls
            ≡ (state_of D.state self.old).calls + 1 }
        ensures rests { D.keeps_model
            → Rests (state_of D.state self.old) (state_of D.state self.new) }
        ensures len { D.keeps_model
            → IfOk result (λ n. n ≡ length (state_of D.state self.old).content) }

        // It is passed on, or fails by the plan.
        ensures passes { Passes D.state result self.old self.new }
    {
        self.asked.add();
        if self.rules.fails_read() {
            return Err(self.failures.fail(DiskFault::Planned));
        }
        self.inner.len()
    }

    fn read_at(&mut self, at: u64, buffer: &mut [u8]) -> Result<(), DiskFault>
        ensures counts { Counts result (state_of D.state self.old) (state_of D.state self.new) }
        ensures asked { (state_of D.state self.new).calls
            ≡ (state_of D.state self.old).calls + 1 }
        ensures rests { D.keeps_model
            → Rests (state_of D.state self.old) (state_of D.state self.new) }
        ensures within { D.keeps_model → OnOk result
            (at + length buffer.old ≤ length (state_of D.state self.old).content) }
        ensures read { D.keeps_model → OnOk result
            (buffer.new
            ≡ take (length buffer.old) (drop at (state_of D.state self.old).content)) }

        // It is passed on, or fails by the plan.
        ensures passes { Passes D.state result self.old self.new }
    {
        self.asked.add();
        if self.rules.fails_read() {
            return Err(self.failures.fail(DiskFault::Planned));
        }
        self.inner.read_at(at, buffer)
    }

    fn write_at(&mut self, at: u64, bytes: &[u8]) -> Result<(), DiskFault>
        ensures counts { Counts result (state_of D.state self.old) (state_of D.state self.new) }
        ensures asked { (state_of D.state self.new).calls
            ≡ (state_of D.state self.old).calls + 1 }
        ensures writes { D.keeps_model
            → Writes at bytes.now result (state_of D.state self.old) (state_of D.state self.new) }

        // It is passed on whole, or fails by the plan, or its first half is passed on and it fails.
        ensures passes { PassesWrite D.keeps_model D.state at bytes.now result self.old self.new }
    {
        self.asked.add();
        if self.rules.fails_write() {
            return Err(self.failures.fail(DiskFault::Planned));
        }
        if self.rules.tears_write() {
            return self.tear(at, bytes);
        }
        self.inner.write_at(at, bytes)
    }

    fn sync(&mut self) -> Result<(), DiskFault>
        ensures counts { Counts result (state_of D.state self.old) (state_of D.state self.new) }
        ensures asked { (state_of D.state self.new).calls
            ≡ (state_of D.state self.old).calls + 1 }
        ensures syncs { D.keeps_model
            → Syncs result (state_of D.state self.old) (state_of D.state self.new) }

        // It is passed on, or fails by the plan.
        ensures passes { Passes D.state result self.old self.new }
    {
        self.asked.add();
        let fails = self.rules.fails_sync();
        self.rules.wait();
        if fails {
            return Err(self.failures.fail(DiskFault::Planned));
        }
        self.inner.sync()
    }
}
