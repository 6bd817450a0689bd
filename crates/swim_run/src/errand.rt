//! What a thread of its own does beside the member.

use std::alloc::Global;
use std::sync::Arc;
use std::sync::atomic::{AtomicBool, Ordering};
use std::thread::{self, JoinHandle, Threads};

/// What is done beside the member.
pub(crate) trait Beside {
    /// What comes of it.
    type Outcome;

    /// Does it.
    fn run(self) -> Self::Outcome;
}

/// A thread that does something of which this comes, and whether it is done.
#[derive(Drop)]
pub(crate) struct Errand<V> {
    thread: JoinHandle<V>,
    is_done: Arc<AtomicBool, Global>,
}

impl<V: Send + Drop + 'static> Errand<V> {
    /// Starts a thread that does this; none where there is no memory or no thread for it.
    pub(crate) fn start<B: Beside<Outcome = V> + Send + Drop + 'static, T: Threads>(
        threads: &T,
        alloc: Global,
        beside: B,
    ) -> Option<Errand<V>> {
        let is_done = Arc::new(alloc, AtomicBool::new(false)).ok()?;
        let done = Arc::try_clone(&is_done).ok()?;
        let thread = thread::spawn(threads, move || {
            let outcome = beside.run();
            done.store(true, Ordering::SeqCst);
            outcome
        })
        .ok()?;
        Some(Errand { thread, is_done })
    }

    /// Whether its thread is done.
    pub(crate) fn is_done(&self) -> bool {
        self.is_done.load(Ordering::SeqCst)
    }

    /// What came of it. It is not asked before it is done, and so does not wait.
    pub(crate) fn outcome<T: Threads>(self, threads: &T) -> V {
        self.thread.join(threads)
    }
}

/// What came of an errand, if there is one and it is done: then there is none any more.
pub(crate) fn outcome_of<V: Send + Drop + 'static, T: Threads>(
    errand: &mut Option<Errand<V>>,
    threads: &T,
) -> Option<V> {
    if !errand.as_ref()?.is_done() {
        return None;
    }
    Some(errand.take()?.outcome(threads))
}
