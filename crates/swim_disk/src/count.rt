//! How often something happened to a disk.

ghost use Rattle.std.specs.Prelude.{◌≡◌, ◌+◌};

use crate::DiskFault;
use swim_trace::Trace;

/// A count without a bound, which takes no bytes: only contracts see it.
#[derive(Drop)]
pub(crate) struct Count {
    times: Trace<()>,
}

impl Count {
    ghost use Rattle.std.specs.Prelude.{◌≡◌, ◌+◌};
    ghost use Rattle.swim_disk.specs.Count.{count_of};

    pub(crate) fn new() -> Count
        ensures { count_of result ≡ 0 }
    {
        Count {
            times: Trace::new(),
        }
    }

    /// Once more.
    pub(crate) fn add(&mut self)
        ensures { count_of self.new ≡ count_of self.old + 1 }
    {
        self.times = self.times.and(&());
    }

    /// One failure more, for this reason.
    pub(crate) fn fail(&mut self, fault: DiskFault) -> DiskFault
        ensures count { count_of self.new ≡ count_of self.old + 1 }
        ensures fault { result ≡ fault }
    {
        self.add();
        fault
    }
}
