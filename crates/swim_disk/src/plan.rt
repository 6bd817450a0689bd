//! Which calls of a disk are to fail, as it is set from outside.

use std::alloc::{AllocError, Global};
use std::sync::Arc;
use std::sync::atomic::{AtomicU8, AtomicU64, Ordering};
use std::thread;

/// How many turns a sync waits at most.
const MOST_TURNS: u32 = 1_000_000;

/// No sync is to be held.
const FREE: u8 = 0;

/// The next sync is to be held.
const ASKED: u8 = 1;

/// A sync is held now.
const HELD: u8 = 2;

/// What a disk is to do at its next calls. Each number counts the calls up to the one that fails:
/// 1 is the next one, and 0 stands for none.
#[derive(Drop)]
pub(crate) struct FaultRules {
    fail_read: AtomicU64,
    fail_write: AtomicU64,
    tear_write: AtomicU64,
    fail_sync: AtomicU64,
    halt: AtomicU64,
    hold: AtomicU8,
    calls: AtomicU64,
}

/// The plan of a disk that fails. It is set and read from outside, also from another thread while the disk is in
/// use. No contract says what it holds.
#[derive(Drop)]
pub struct Plan {
    rules: Arc<FaultRules, Global>,
}

/// Takes one call off: whether it was the last one.
fn is_due(left: &AtomicU64) -> bool {
    let now = left.load(Ordering::SeqCst);
    if now > 0 {
        left.store(now - 1, Ordering::SeqCst);
    }
    now == 1
}

impl FaultRules {
    fn new() -> FaultRules {
        FaultRules {
            fail_read: AtomicU64::new(0),
            fail_write: AtomicU64::new(0),
            tear_write: AtomicU64::new(0),
            fail_sync: AtomicU64::new(0),
            halt: AtomicU64::new(0),
            hold: AtomicU8::new(FREE),
            calls: AtomicU64::new(0),
        }
    }

    /// The rules twice: for the disk, and for the one who sets them.
    pub(crate) fn shared(alloc: Global) -> Result<(Arc<FaultRules, Global>, Plan), AllocError> {
        let rules = Arc::new(alloc, FaultRules::new())?;
        let theirs = Arc::try_clone(&rules)?;
        Ok((rules, Plan { rules: theirs }))
    }

    /// One call more: whether it and all later ones are to fail.
    fn is_halted(&self) -> bool {
        self.calls.fetch_add(1, Ordering::SeqCst);
        let left = self.halt.load(Ordering::SeqCst);
        if left > 1 {
            self.halt.store(left - 1, Ordering::SeqCst);
        }
        left == 1
    }

    /// One read more: whether it is to fail.
    pub(crate) fn fails_read(&self) -> bool {
        let halted = self.is_halted();
        is_due(&self.fail_read) || halted
    }

    /// One write more: whether it is to fail, and nothing of it is passed on.
    pub(crate) fn fails_write(&self) -> bool {
        let halted = self.is_halted();
        is_due(&self.fail_write) || halted
    }

    /// Whether this write is to fail once the first half of its bytes is passed on.
    pub(crate) fn tears_write(&self) -> bool {
        is_due(&self.tear_write)
    }

    /// One sync more: whether it is to fail.
    pub(crate) fn fails_sync(&self) -> bool {
        let halted = self.is_halted();
        is_due(&self.fail_sync) || halted
    }

    /// Waits where this sync is to be held.
    pub(crate) fn wait(&self) {
        let asked = self
            .hold
            .compare_exchange(ASKED, HELD, Ordering::SeqCst, Ordering::SeqCst);
        if asked.is_err() {
            return;
        }
        for _ in 0..MOST_TURNS {
            if self.hold.load(Ordering::SeqCst) != HELD {
                return;
            }
            thread::yield_now();
        }
        self.hold.store(FREE, Ordering::SeqCst);
    }
}

impl Plan {
    /// A second hold on the same plan.
    pub fn try_clone(&self) -> Result<Plan, AllocError> {
        Ok(Plan {
            rules: Arc::try_clone(&self.rules)?,
        })
    }

    /// The `k`-th read from now on fails, `len` being a read too. 0 takes this back.
    pub fn fail_read(&self, k: u64) {
        self.rules.fail_read.store(k, Ordering::SeqCst);
    }

    /// The `k`-th write from now on fails, and nothing of it is passed on. It takes the place of a
    /// write that was to be torn. 0 takes this back.
    pub fn fail_write(&self, k: u64) {
        self.rules.tear_write.store(0, Ordering::SeqCst);
        self.rules.fail_write.store(k, Ordering::SeqCst);
    }

    /// The `k`-th write from now on fails, once the first half of its bytes, rounded up, is passed on.
    /// It takes the place of a write that was to fail. 0 takes this back.
    pub fn tear_write(&self, k: u64) {
        self.rules.fail_write.store(0, Ordering::SeqCst);
        self.rules.tear_write.store(k, Ordering::SeqCst);
    }

    /// The `k`-th sync from now on fails. 0 takes this back.
    pub fn fail_sync(&self, k: u64) {
        self.rules.fail_sync.store(k, Ordering::SeqCst);
    }

    /// All calls from the `k`-th from now on fail. 0 takes this back.
    pub fn halt(&self, k: u64) {
        self.rules.halt.store(k, Ordering::SeqCst);
    }

    /// The next sync waits until [`Plan::go_on`], for at most 1,000,000 turns, in each of which other
    /// threads may run. Either way it then goes on as usual: one that was to fail fails.
    pub fn hold_sync(&self) {
        self.rules.hold.store(ASKED, Ordering::SeqCst);
    }

    /// Whether a sync is held now.
    pub fn is_held(&self) -> bool {
        self.rules.hold.load(Ordering::SeqCst) == HELD
    }

    /// Lets a sync that is held go on, and holds none.
    pub fn go_on(&self) {
        self.rules.hold.store(FREE, Ordering::SeqCst);
    }

    /// Nothing more is to fail, and no sync is to be held. The count of calls stays.
    pub fn clear(&self) {
        self.fail_read(0);
        self.fail_write(0);
        self.tear_write(0);
        self.fail_sync(0);
        self.halt(0);
        self.go_on();
    }

    /// How many calls the disk was asked for since it was made, modulo 2^64.
    pub fn calls(&self) -> u64 {
        self.rules.calls.load(Ordering::SeqCst)
    }
}
