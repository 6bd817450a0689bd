//! How much is logged.

use log::{Level, LevelFilter};
use std::env;
use std::rt::Env;
use std::sync::atomic::{AtomicUsize, Ordering};

/// The environment variable that names the least level that is logged.
const LEVEL_VARIABLE: &str = "SWIM_LOG";

/// The least level of the lines that are logged. Several threads ask for it, and one may set it meanwhile.
#[derive(Drop)]
pub struct LogLevel {
    usual: LevelFilter,
    now: AtomicUsize,
}

impl LogLevel {
    /// The level that the environment variable `SWIM_LOG` names; info, at which the changes of members are told, where it names none.
    pub fn of_environment<R: Env + Alloc>(rt: &R) -> LogLevel {
        let usual = match env::var(rt, LEVEL_VARIABLE) {
            Ok(text) => text
                .as_str()
                .parse::<LevelFilter>()
                .unwrap_or(LevelFilter::Info),
            Err(_) => LevelFilter::Info,
        };
        LogLevel {
            usual,
            now: AtomicUsize::new(usual as usize),
        }
    }

    /// Logs from this level on; without one, as the environment says.
    pub fn set(&self, level: Option<LevelFilter>) {
        let level = level.unwrap_or(self.usual);
        self.now.store(level as usize, Ordering::SeqCst);
    }

    /// Whether a line of this level is logged now.
    pub(crate) fn allows(&self, level: Level) -> bool {
        level as usize <= self.now.load(Ordering::SeqCst)
    }
}
