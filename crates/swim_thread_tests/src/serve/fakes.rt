//! Callers, workers and alarms for tests.

ghost use Rattle.std.specs.Prelude.{◌≡◌};

use std::sync::Wait;
use std::thread::{self, Parker};
use std::time::{Clock, Duration, Instant};
use swim_handle::IntoParts;
use swim_member::Event;
use swim_node::Reply;
use swim_shell::{Alarm, Caller, Refusal, Worker};
use swim_trace::Trace;

/// How many seconds a fake worker waits at most: much longer than a test takes that goes well.
const WAIT_SECS: u64 = 5;

/// A caller of no member: each call is refused for want of memory.
#[derive(Drop)]
pub(super) struct Nobody {
    asked: Trace<Event>,
}

impl Nobody {
    /// It was to enter nothing yet.
    pub(super) fn new() -> Nobody {
        Nobody {
            asked: Trace::new(),
        }
    }
}

impl Caller for Nobody {
    ghost use Rattle.std.specs.Prelude.{[], false};

    ghost known = { λ n. record { caller = 0; seen = []; spent = false; asked = n.asked } };

    ghost limit = { 0 };

    fn call(&mut self, event: Event) -> Result<Reply, Refusal> {
        self.asked = self.asked.and(&event);
        Err(Refusal::Memory)
    }
}

impl IntoParts for Nobody {
    ghost use Rattle.std.specs.Prelude.{⊤};

    type Parts = ();

    ghost parted = { λ _ _. ⊤ };

    fn into_parts(self) {}
}

/// An alarm that one thread waits for.
#[derive(Drop)]
pub(super) struct Socket {
    parker: Parker,
}

impl Socket {
    /// It has not rung.
    pub(super) fn new() -> Socket {
        Socket {
            parker: Parker::new(),
        }
    }
}

impl Alarm for Socket {
    fn ring(&self) {
        self.parker.unpark();
    }
}

/// A worker that waits at a socket, at which nothing comes.
#[derive(Drop)]
pub(super) struct SocketWaiter<'a, R: Wait> {
    pub(super) rt: &'a R,
    pub(super) socket: &'a Socket,
}

impl<'a, C: Caller, R: Wait> Worker<C> for SocketWaiter<'a, R> {
    ghost use Rattle.std.specs.Prelude.{⊤};

    type End = Refusal;

    ghost worked = { λ _ _ _ _ _. ⊤ };

    ghost ended = { λ _ _ _ _ _ _. ⊤ };

    fn begin(&mut self) {}

    fn turn(&mut self, _caller: &mut C) -> Option<Refusal> {
        self.socket
            .parker
            .park_timeout(self.rt, Duration::from_secs(WAIT_SECS));
        None
    }
}

/// A worker that has nothing to do.
#[derive(Drop)]
pub(super) struct Idle;

impl<C: Caller> Worker<C> for Idle {
    ghost use Rattle.std.specs.Prelude.{⊤};

    type End = Refusal;

    ghost worked = { λ _ _ _ _ _. ⊤ };

    ghost ended = { λ _ _ _ _ _ _. ⊤ };

    fn begin(&mut self) {}

    fn turn(&mut self, _caller: &mut C) -> Option<Refusal> {
        None
    }
}

/// A worker that ends itself, after a pause, in the turn behind so many.
#[derive(Drop)]
pub(super) struct Brief<'a, K: Clock> {
    clock: &'a K,
    pause: Duration,
    /// How many turns are left before the last.
    left: u64,
    /// When it ended.
    pub(super) at: Option<Instant>,
}

/// A worker whose third turn ends it.
pub(super) fn ends_third<'a, K: Clock>(clock: &'a K, pause: Duration) -> Brief<'a, K>
    ensures { result.left ≡ 2 }
{
    Brief {
        clock,
        pause,
        left: 2,
        at: None,
    }
}

impl<'a, C: Caller, K: Clock> Worker<C> for Brief<'a, K> {
    ghost use Rattle.std.specs.Prelude.{◌≡◌, ◌+◌};

    type End = Refusal;

    ghost worked = { λ a p b q n. (b.left + n ≡ a.left) × (q ≡ p) };

    ghost ended = { λ _ a p b q n. (n ≡ a.left + 1) × (q ≡ p) };

    fn begin(&mut self) {}

    fn turn(&mut self, _caller: &mut C) -> Option<Refusal> {
        if self.left > 0 {
            self.left -= 1;
            return None;
        }
        thread::sleep(self.clock, self.pause);
        self.at = Instant::now(self.clock).ok();
        Some(Refusal::Memory)
    }
}
