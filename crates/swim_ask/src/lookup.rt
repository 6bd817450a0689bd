//! A host that is looked up while somebody waits no longer than they want.

use crate::asking::left_of;
use arrayvec::ArrayString;
use std::alloc::Global;
use std::io;
use std::rt::Clock;
use std::sync::Arc;
use std::sync::atomic::{AtomicBool, Ordering};
use std::thread::{self, JoinHandle, Threads};
use std::time::{Duration, Instant};
use swim_net::first_address;
use swim_wire::Endpoint;
use swim_words::HOST_MAX;

/// How long the thread that looks it up is left alone, in milliseconds.
const PAUSE_MILLIS: u64 = 5;

/// What a thread of its own looks up.
#[derive(Drop)]
struct Asking {
    rt: HostRuntime,
    host: ArrayString<HOST_MAX>,
    port: u16,
    is_done: Arc<AtomicBool, Global>,
}

impl Asking {
    /// Looks it up.
    fn run(self) -> io::Result<Option<Endpoint>> {
        let found = first_address(&self.rt, self.host.as_str(), self.port);
        self.is_done.store(true, Ordering::SeqCst);
        found
    }
}

/// A thread that looks a host up.
#[derive(Drop)]
pub(crate) struct Lookup {
    thread: JoinHandle<io::Result<Option<Endpoint>>>,
    is_done: Arc<AtomicBool, Global>,
}

impl Lookup {
    /// Starts it; none where there is no memory or no thread for it.
    pub(crate) fn start<T: Threads>(
        threads: &T,
        rt: HostRuntime,
        host: &str,
        port: u16,
    ) -> Option<Lookup> {
        let is_done = Arc::new(rt.alloc(), AtomicBool::new(false)).ok()?;
        let asking = Asking {
            rt,
            host: ArrayString::from(host).ok()?,
            port,
            is_done: Arc::try_clone(&is_done).ok()?,
        };
        let thread = thread::spawn(threads, move || asking.run()).ok()?;
        Some(Lookup { thread, is_done })
    }

    /// What it found, once it did so; none where it did not within this many milliseconds from that start on. Then its thread goes on,
    /// and nobody waits for it.
    pub(crate) fn found_within<T: Threads, R: Clock>(
        self,
        threads: &T,
        rt: &R,
        start: &Instant,
        millis: u64,
    ) -> Option<io::Result<Option<Endpoint>>> {
        for _ in 0..millis {
            if self.is_done.load(Ordering::SeqCst) {
                return Some(self.thread.join(threads));
            }
            left_of(rt, start, millis).ok()?;
            thread::sleep(rt, Duration::from_millis(PAUSE_MILLIS));
        }
        None
    }
}
