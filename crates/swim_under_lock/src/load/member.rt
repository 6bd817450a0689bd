//! A member as the threads of a load see it.

use std::sync::Wait;
use swim_disk::Disk;
use swim_member::Event;
use swim_node::Link;
use swim_shared::{Name, Pass, Shared, Watch};

/// A member that threads share, whatever its lock, its disk and its link are: so the bounds of these
/// stand once, here.
pub(crate) trait Member: Sync {
    /// By what a thread calls it.
    type Pass: Send + Drop;

    /// By what a thread reads it.
    type Watch: Send + Drop;

    /// Whether it answers a call.
    fn answers(&self, pass: &mut Self::Pass, event: Event) -> bool;

    /// Whether a watch reads a status.
    fn shows(&self, watch: &mut Self::Watch) -> bool;
}

/// A member under its lock.
#[derive(Drop)]
pub(crate) struct Locked<'a, 'r, N: Name, D: Disk, L: Link, R: Wait> {
    /// What its threads run on.
    pub(crate) rt: &'a R,
    /// The lock.
    pub(crate) shared: &'a Shared<N, D, L, &'r R>,
}

impl<
    'a,
    'r,
    N: Name + Send + Sync,
    D: Disk + Drop + Send,
    L: Link + Drop + Send,
    R: Wait + Sync,
> Member for Locked<'a, 'r, N, D, L, R> {
    type Pass = Pass<N>;

    type Watch = Watch<N>;

    fn answers(&self, pass: &mut Pass<N>, event: Event) -> bool {
        self.shared.call(self.rt, pass, event).is_ok()
    }

    fn shows(&self, watch: &mut Watch<N>) -> bool {
        watch.read().is_some()
    }
}
