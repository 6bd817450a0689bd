//! How long threads take, and what goes on beside them.

use std::sync::atomic::{AtomicBool, Ordering};
use std::thread::{Threads, join, map_vec};
use std::time::{Clock, Duration, Instant};

/// How long it takes until each of these is worked off, on a thread of its own. None where there is
/// no memory, or one did not end as it should.
pub(super) fn time_threads<J: Send + Drop, F: Fn(J) -> bool + Sync, R: Threads + Clock + Sync>(
    rt: &R,
    jobs: Vec<J>,
    work: &F,
) -> Option<Duration>
    requires { F.IsAlwaysCallable work.now }
{
    let start = Instant::now(rt).ok()?;
    let ended = map_vec(rt, jobs, work).ok()?;
    let took = start.elapsed(rt).ok()?;
    ended.iter().all(|is_well| *is_well).then_some(took)
}

/// The time that is measured on a thread of its own, while something else goes on here, which sees by
/// the flag that it is measured. None where one of both did not end as it should.
pub(super) fn time_beside<
    T: FnOnce() -> Option<Duration> + Send + Drop,
    B: FnOnce(&AtomicBool) -> bool + Drop,
    R: Threads + Sync,
>(rt: &R, timed: T, beside: B) -> Option<Duration>
    requires timed { T.IsAlwaysCallable timed }
    requires beside { B.IsAlwaysCallable beside }
{
    let is_over = AtomicBool::new(false);
    let (took, is_well) = join(
        rt,
        || {
            let took = timed();
            is_over.store(true, Ordering::SeqCst);
            took
        },
        || beside(&is_over),
    );
    if is_well { took } else { None }
}
