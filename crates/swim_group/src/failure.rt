//! A failure that is planned of a disk, in place of another one.
//!
//! No contract says what the plan of a disk holds. So what is planned is what `set` and `clear` note, and these two are to be
//! read and believed.

ghost use Rattle.std.specs.Prelude.{◌≡◌, Some, None};

use std::marker::Model;
use swim_disk::Plan;

/// Which call of a disk is to fail: that with this number from now on, where 1 is the next one and 0 is none.
#[derive(Clone, Copy, Debug, PartialEq, Eq)]
pub enum Failure {
    /// A read. To ask for the length is one too.
    Read(u64),
    /// A write, of which nothing is done.
    Write(u64),
    /// A write, of which the first half is done.
    TornWrite(u64),
    /// A sync.
    Sync(u64),
}

/// What is planned of a disk: the failure that was planned last, if one was since it was cleared.
#[derive(Drop)]
pub struct Planned {
    plan: Plan,
    failure: Option<Failure>,
}

impl Model for Planned {
    ghost use Rattle.std.specs.Prelude.{Option};
    ghost use Rattle.swim_group.specs.declared.failure.Failure.{Failure as Failures};

    ghost Value = { Option Failures };

    ghost view = { λ p. p.failure };
}

impl Planned {
    /// Nothing is planned of a new disk. This is its plan.
    pub(crate) fn new(plan: Plan) -> Planned
        ensures { result ≡ None }
    {
        Planned {
            plan,
            failure: None,
        }
    }

    /// Plans this failure, and no other one.
    pub(crate) fn set(&mut self, failure: Failure)
        ensures { self.new ≡ Some failure }
    {
        self.plan.clear();
        match failure {
            Failure::Read(k) => self.plan.fail_read(k),
            Failure::Write(k) => self.plan.fail_write(k),
            Failure::TornWrite(k) => self.plan.tear_write(k),
            Failure::Sync(k) => self.plan.fail_sync(k),
        }
        self.failure = Some(failure);
    }

    /// Nothing is planned any more.
    pub(crate) fn clear(&mut self)
        ensures { self.new ≡ None }
    {
        self.plan.clear();
        self.failure = None;
    }
}
