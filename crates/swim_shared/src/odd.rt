//! Which passes and watches do not fit the journal at the end.

ghost use Rattle.std.specs.Prelude.{◌≡◌, if◌then◌else◌, ◌+◌, ◌<◌, ◌≤◌, ◌^◌, length, IsTrue};
ghost use mathlib.Core.List.{IsPrefix};
ghost use Rattle.swim_shared.specs.Odd.{is_in_step, watch_fits, odd_passes, odd_watches};
ghost use Rattle.swim_shared.specs.Odd.{Begins, WatchBegins, AllBegin, AllWatchesBegin};

use crate::locked::Locked;
use crate::name::Name;
use crate::pass::Pass;
use crate::watch::Watch;
use std::sync::Wait;
use swim_disk::Disk;
use swim_node::Link;

impl<N: Name, D: Disk, L: Link, R: Wait + Drop> Locked<N, D, L, R> {
    /// Whether the list of a pass is no longer than the journal, and so a beginning of it, and the
    /// journal has just the calls that the pass made.
    fn fits_pass(&self, pass: &Pass<N>) -> bool
        ensures fits { result ≡ is_in_step pass.now self.now.journal }
        ensures begins { IsTrue result → IsPrefix pass.now.seen self.now.journal }
    {
        if pass.front().len() > self.front.len() {
            return false;
        }
        pass.front().shorter_begins_longer(&self.front);
        self.node.turns(pass.caller()) == pass.calls()
    }

    /// Whether the list of a watch is no longer than the journal, and so a beginning of it.
    fn fits_watch(&self, watch: &Watch<N>) -> bool
        ensures fits { result ≡ watch_fits watch.now self.now.journal }
        ensures begins { IsTrue result → IsPrefix watch.now self.now.journal }
    {
        if watch.len() > self.front.len() {
            return false;
        }
        watch.front().shorter_begins_longer(&self.front);
        true
    }

    /// 1 for a pass that does not fit.
    fn odd_pass(&self, pass: &Pass<N>) -> u32
        ensures odd { result ≡ (if is_in_step pass.now self.now.journal then 0 else 1) }
        ensures begins { Begins self.now.journal pass.now }
    {
        if self.fits_pass(pass) { 0 } else { 1 }
    }

    /// 1 for a watch that does not fit.
    fn odd_watch(&self, watch: &Watch<N>) -> u32
        ensures odd { result ≡ (if watch_fits watch.now self.now.journal then 0 else 1) }
        ensures begins { WatchBegins self.now.journal watch.now }
    {
        if self.fits_watch(watch) { 0 } else { 1 }
    }

    /// How many of these passes do not fit.
    pub(crate) fn odd_passes(&self, passes: &[Pass<N>]) -> u32
        requires { length passes.now < 2 ^ 31 }
        ensures few { result ≤ length passes.now }
        ensures odd { result ≡ odd_passes self.now.journal passes.now }
        ensures begins { AllBegin self.now.journal passes.now }
    {
        let mut odd = 0u32;
        for pass in passes {
            odd += self.odd_pass(pass);
        }
        odd
    }

    /// How many of these watches do not fit.
    pub(crate) fn odd_watches(&self, watches: &[Watch<N>]) -> u32
        requires { length watches.now < 2 ^ 31 }
        ensures few { result ≤ length watches.now }
        ensures odd { result ≡ odd_watches self.now.journal watches.now }
        ensures begins { AllWatchesBegin self.now.journal watches.now }
    {
        let mut odd = 0u32;
        for watch in watches {
            odd += self.odd_watch(watch);
        }
        odd
    }
}
