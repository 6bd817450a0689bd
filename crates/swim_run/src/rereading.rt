//! The settings file, read again beside the member.

use crate::errand::{Beside, Errand};
use crate::reading::{CheckedSettings, checked_at};
use std::thread::Threads;
use swim_exit::Failure;

/// What a settings file says, or why it is refused.
pub(crate) type Read = Result<CheckedSettings, Failure>;

/// The settings file at a path, to be read.
#[derive(Drop)]
struct Rereading {
    rt: HostRuntime,
    config: String,
}

impl Beside for Rereading {
    type Outcome = Read;

    fn run(self) -> Read {
        checked_at(&self.rt, self.config.as_str())
    }
}

/// Starts a thread that reads the file at this path; none where there is no memory or no thread for it.
pub(crate) fn start_reading<T: Threads>(
    threads: &T,
    rt: HostRuntime,
    config: &str,
) -> Option<Errand<Read>> {
    let config = String::from_str(rt.alloc(), config).ok()?;
    Errand::start(threads, rt.alloc(), Rereading { rt, config })
}
